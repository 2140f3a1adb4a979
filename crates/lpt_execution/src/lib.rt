//! How the execution of a released request ends, and which reports say so: for its first fault
//! refused, or carried out. The reports are those of request verification (ECSS-E-ST-70-41C,
//! service 1), with the report of data of a dump or a check (service 6) between them. The node that
//! sends them gives them their counts and their time.
//!
//! The main types are `Ending` and `Report`. The first calls are `ending_of` with a reading and the
//! memories, then `reports`, which go to the `request_source`, and `load` for what a load does.
#![tactic(auto)]

mod applied;
mod ending;
mod executing;
pub mod laws;
mod reporting;

pub use applied::applied_with;
pub use ending::{Ending, Report};
pub use executing::{ending_given, ending_of, is_small, reply_fault};
pub use lpt_events::{Applied, Refused, TelemetryKind};
pub use lpt_memory::{Memories, Reading};
pub use lpt_packet::{Name, Octets};
pub use lpt_pus::FailureCode;
pub use reporting::{reports, request_source};

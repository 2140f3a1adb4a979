//! A pass in a process: a thread reads what comes down and cuts it into packets, and the pass is
//! carried by what that thread hands over. So nobody who writes down ever waits for ground, and
//! what ground puts up is read in turn. If it isn't, `TimedWriter`, whose thread writes what goes
//! up, gives up after a while.
//!
//! The main type is `Hearing`, an ear at a channel. The first call is `Hearing::begin`, with where
//! octets come from and with `Notes`, which are told before each round what became of the requests,
//! and then `carry_pass`, or `carry_uplink` with what `plan_uplink` gives. `runs_of` says what
//! became of them in few words; `kept_packets` and `hear_kept` take a pass from one process to the
//! next, and `some_done` says whether an earlier one completed some of them.
#![tactic(auto)]

mod carrying;
mod counts;
mod cutting;
mod downlink;
mod halt;
mod heads;
mod hearing;
mod keeping;
pub mod laws;
mod places;
mod planning;
mod runs;
mod standing;
mod uplinks;
mod writing;

pub use carrying::{carry_pass, carry_uplink};
pub use counts::RunCounts;
pub use cutting::{Cutting, Outlet, hand_packets};
pub use downlink::Downlink;
pub use halt::Halt;
pub use heads::Heads;
pub use hearing::{HearFault, Hearing, Notes};
pub use keeping::{digest_of, done_count, hear_kept, kept_packets, some_done};
pub use lpt_ground::{Asked, End, FailureNotice, Fate, Large, Names, Pass, Terms, Uplink};
pub use lpt_packet::Octets;
pub use lpt_pus::AckFlags;
pub use lpt_requests::{Area, AreaPlace, CutFault, Read};
pub use lpt_text::{Sink, Source, StreamFault};
pub use places::{ErrandKind, Places, plan_places};
pub use planning::{PlanFault, check_each, dump_each, plan_loads, plan_reads};
pub use runs::{GroundRun, Outcome, runs_of};
pub use uplinks::plan_uplink;
pub use writing::TimedWriter;

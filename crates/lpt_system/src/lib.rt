//! Both ends, the link between them, the workers' jobs and the memories: all that an event changes.
//! They refuse, answer and go on as the model does (`lpt_model`), and know nothing of a journal.
//!
//! The main type is `System`, which `lpt_world` alone uses, with `Tickets`, what the workers have.
//! The first calls are `System::new`, `refusal`, and `apply` for an event that isn't refused.
#![tactic(auto)]

mod damaging;
mod delivering;
mod faults;
mod requesting;
mod restart;
mod system;
mod tickets;
mod timing;
mod working;

pub use lpt_events::{Config, Event, Lane, Opening, Release, Reply, Side, StepFault, Worker};
pub use lpt_ledger::State;
pub use lpt_memory::{Memories, Prepared};
pub use lpt_node::{Node, Parsed};
pub use lpt_packet::{Direction, Name, Octets};
pub use system::System;
pub use tickets::{HeldJob, Tickets};

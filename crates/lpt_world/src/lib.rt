//! The world of two nodes and the link between them, and the journal of all that happened.
//!
//! The main types are `World`, `Event`, what can be asked of it, and `Reply`, what it answers. The
//! first calls are `World::new` with a `Config` and `Memories`, `step` with an event, and the
//! readers, `journal` and `released` first. Each call leaves a world of which the main theorem
//! holds (the clause `promised`). docs/CALLING.md has a caller.
#![tactic(auto)]

mod clearing;
mod laws;
mod outside;
mod readers;
mod world;

pub use lpt_events::{
    Answer, Applied, Config, ConfigFault, Entry, Event, Lane, Opening, Outcome, Refused, Release,
    Reply, RunEnd, Side, StepFault, Why, Worker,
};
pub use lpt_ledger::State;
pub use lpt_memory::{Memories, Prepared, Shape, Ticket};
pub use lpt_node::Parsed;
pub use lpt_packet::{Direction, Name, Octets};
pub use lpt_part::Reason;
pub use lpt_pus::{AckFlags, FailureCode};
pub use world::World;

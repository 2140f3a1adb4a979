//! Ground's end of a pass that carries its requests to their end: each of them is sent again, by
//! rounds, until a report has settled it, or until nothing more is heard. It has no handle: what it
//! sends and when follows from what it heard.
//!
//! The main types are `Asked`, a request with what became of it, and `Pass`. The first call is
//! `plan_requests`, then `Pass::new`, and then `carry` with an `Ear` and a sink; or, one step after
//! the other, `Pass::next`, `sent`, `hear`, `quiet` and `end`.
//!
//! `carry_large` is for a pass whose one load goes up in parts: a round puts all of them under one
//! name, and the next one is taken where the spacecraft gave the reception up.
#![tactic(auto)]

mod answers;
mod asked;
mod carrying;
mod carrying_large;
mod finding;
mod large;
pub mod laws;
pub mod laws_large;
mod overlapping;
mod parts;
mod pass;
mod planning;
mod telling;
mod uplink;

pub use answers::{checks_agree, dumped_octets};
pub use asked::{Asked, Awaits, Fate, Place, Terms};
pub use carrying::{Ear, Waited, carry};
pub use carrying_large::carry_large;
pub use large::{Large, Names};
pub use lpt_memory::MemoryFault;
pub use lpt_packet::Octets;
pub use lpt_pus::AckFlags;
pub use lpt_requests::{FailureNotice, Request};
pub use lpt_text::{Sink, StreamFault};
pub use overlapping::overlap;
pub use pass::{End, Pass, Step};
pub use planning::{MOST, plan_requests};
pub use telling::Said;
pub use uplink::Uplink;

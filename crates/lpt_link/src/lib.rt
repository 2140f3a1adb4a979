//! The link between the two nodes: numbered packets, which of them it still holds, and the hands of
//! the four lanes. A packet is held until it is lost. A lane takes a held packet of its direction
//! into its one hand, where it stays until the hand is emptied, whether or not it is lost
//! meanwhile.
//!
//! The main types are `Link`, `Lane` and `LinkFault`. The first calls are `Link::new`, `put` with
//! the octets of a packet, `take` and `drop_hand`.
#![tactic(auto)]

mod fault;
mod hands;
pub mod laws;
mod link;
mod packet;
mod packets;
mod tags;

pub use fault::LinkFault;
pub use link::{Link, PutError};
pub use lpt_events::Lane;
pub use packet::LinkPacket;

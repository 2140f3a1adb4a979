//! What a delivery answers.

use lpt_events::Outcome;
use lpt_packet::Octets;

/// What a node answers to a packet that was delivered to it.
#[derive(Drop)]
pub struct Accepted {
    /// What became of the packet.
    pub outcome: Outcome,
    /// A packet to be put on the link: the report that a reception was broken off.
    pub packet: Option<Octets>,
    /// The message that was released.
    pub released: Option<Octets>,
}

//! What a node can be asked to do.

use lpt_packet::Name;

/// A call of a node, as far as its refusal depends on it.
#[derive(Clone, Copy)]
pub enum Ask {
    /// To open a message of this name and of so many octets.
    Open(Name, usize),
    /// To send the part of this number of the open message of this name.
    Send(Name, u16),
    /// To make a plain request of this service type and message subtype, with a body of so many
    /// octets.
    Plain(u8, u8, usize),
    /// To finish the outgoing transaction of this name.
    Finish(Name),
    /// To set the clock one tick on.
    Tick,
    /// To end the reception that is due.
    Expire,
    /// To claim the oldest job that waits.
    Claim,
    /// To execute the oldest job.
    Apply,
}

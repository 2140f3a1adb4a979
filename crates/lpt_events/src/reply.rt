//! What an accepted event answers.

use crate::{Applied, Outcome};
use lpt_packet::{Direction, Name};

/// What an event that was accepted gave.
#[derive(Clone, Copy, Debug, PartialEq, Eq)]
pub struct Reply {
    /// What is particular to the event.
    pub answer: Answer,
    /// The packets that the event put on the link, if it put any.
    pub puts: Option<Puts>,
}

/// The part of a reply that is particular to its event.
#[derive(Clone, Copy, Debug, PartialEq, Eq)]
pub enum Answer {
    /// The message has so many parts.
    Opened(u16),
    /// The packet on the link has this number.
    Put(u64),
    /// The sender is closed.
    Finished,
    /// The packet is lost.
    Lost,
    /// The packet of this number is in the hand.
    Took(u64),
    /// What became of the delivered packet.
    Delivered(Outcome),
    /// The clock has this value now, in ticks.
    Clock(u32),
    /// The reception of this direction and name was ended for its age.
    Expired(Direction, Name),
    /// The worker has the request of this boot and this number in it.
    Claimed(u64, u64),
    /// The reading of the request of this boot and this number in it was handed in.
    Committed(u64, u64),
    /// The request of this boot and this number in it isn't there any more, as the spacecraft was
    /// restarted since the worker got it. The reading was dropped.
    Stale(u64, u64),
    /// What became of the request that was executed.
    Applied(Applied),
    /// The transaction is free at both ends.
    Retired,
    /// The node has this boot now. The first is 0.
    Restarted(u64),
}

/// Packets that one event put on the link, one after another.
#[derive(Clone, Copy, Debug, PartialEq, Eq)]
pub struct Puts {
    /// The number of the first of them.
    pub first: u64,
    /// How many they are, at least 1.
    pub count: u64,
}

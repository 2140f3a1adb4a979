//! How a join ends.

use crate::Gatherings;
use lpt_carried::Skips;
use lpt_packet::PacketFault;
use thiserror::Error;

/// Why what was joined isn't written.
#[derive(Clone, Copy, Debug, PartialEq, Eq, Error)]
pub enum MisfitAs {
    /// It isn't read as a packet of the layout. This is the first test that it fails.
    #[error("no packet")]
    NoPacket(PacketFault),
    /// It is telemetry upwards, a telecommand downwards, or an idle packet.
    #[error("no packet of its direction")]
    OtherKind,
    /// Packets have no checksum, and its parts may be of several messages: they didn't come in
    /// their order, or between two of them as many sequence counts are missing as a message has
    /// parts up to the first of these.
    #[error("maybe of several messages")]
    Unsure,
}

/// How the join of a transaction ends whose stream was read to its end.
#[derive(Clone, Copy, Debug, PartialEq, Eq)]
pub enum JoinEnd {
    /// The message was written; so many octets.
    Written(usize),
    /// What was joined is no message of the direction, and isn't written.
    Unfit(MisfitAs),
    /// Parts are missing.
    Missing,
    /// A part contradicted those that came before.
    BrokenOff,
}

/// What became of a join.
#[derive(Drop)]
pub struct JoinReport {
    /// How it ended, of the transaction that was asked for, or of the only one; none if none was
    /// asked for, and there isn't just one.
    pub end: Option<JoinEnd>,
    /// What is kept of each transaction.
    pub gatherings: Gatherings,
    /// What was passed over, by its reasons.
    pub skips: Skips,
}

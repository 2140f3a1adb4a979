//! How the split of a stream ends.

use crate::SplitEnd;

/// How the split of a stream's packets ends. A place is how many octets of the stream come before
/// it; one beyond 2^64 - 1 is told as that.
#[derive(Clone, Copy)]
pub enum EachEnd {
    /// At the stream's end.
    End,
    /// At the stream's end, in a packet: from this place on there is less than its header says.
    Cut(u64),
    /// Before octets with which no packet can begin, at this place.
    Stray(u64),
    /// Before a packet that is no message of its direction, at this place: it is damaged, idle, or
    /// of the other packet type.
    NoMessage(u64),
    /// Before a message that isn't split, for this reason.
    Unsplit(SplitEnd),
    /// Before a packet for which no identifier is left, at this place.
    NoIdentifier(u64),
}

/// What a split of a stream's packets did. Everything that is wanted was written if it ended at the
/// stream's end, and otherwise nothing.
#[derive(Clone, Copy)]
pub struct EachSplit {
    /// The identifier behind that of the last message that was taken, up to 4,294,967,296.
    pub next: u64,
    /// How it ended.
    pub end: EachEnd,
}

//! A request of a pass, and what became of it.

use lpt_packet::Octets;
use lpt_requests::FailureNotice;

/// Octets of a memory, by their place.
#[derive(Clone, Copy, Debug, PartialEq, Eq)]
pub struct Place {
    /// The memory's identifier.
    pub memory: u8,
    /// The address of the first octet.
    pub address: u32,
    /// How many octets.
    pub len: u16,
}

/// What settles a request, besides a report that it failed.
#[derive(Clone, Copy, Debug, PartialEq, Eq)]
pub enum Awaits {
    /// The report that its execution was completed.
    Completion,
    /// The report that holds the octets of this place, and no others.
    Dumped(Place),
    /// The report that holds the checksum of this place, and no other.
    Checked(Place),
}

/// What became of a request, by what was heard.
#[derive(Drop)]
pub enum Fate {
    /// Nothing was heard that settles it.
    Waiting,
    /// This packet was heard, which settles it.
    Done(Octets),
    /// It was reported as failed, with this notice.
    Failed(FailureNotice),
}

/// A request of a pass.
#[derive(Drop)]
pub struct Asked {
    /// Its packet.
    pub octets: Octets,
    /// Its request ID, the first four octets of that as a number.
    pub id: u32,
    /// What settles it.
    pub awaits: Awaits,
    /// What became of it.
    pub fate: Fate,
}

/// Whose reports count in a pass, and when it is given up.
#[derive(Clone, Copy, Debug, PartialEq, Eq)]
pub struct Terms {
    /// The APID of the reports.
    pub apid: u16,
    /// The pass's own source: the reports go to it.
    pub source: u16,
    /// Whether a report that the execution was started counts as one that it was completed: a
    /// spacecraft that reports a start only of what it carries out at once.
    pub starts: bool,
    /// After so many waits in a row that settled nothing it is given up.
    pub tries: u32,
}

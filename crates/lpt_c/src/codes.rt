//! The numbers that calls answer.

// Done.
pub(crate) const DONE: u32 = 0;

// The fault of a checksum that isn't that of its octets.
pub(crate) const CHECKSUM: u32 = 6;

// The fault of a packet that would be too long.
pub(crate) const TOO_LONG: u32 = 14;

// The faults of a part's number and length.
pub(crate) const ZERO: u32 = 21;

pub(crate) const KIND_NUMBER: u32 = 22;

pub(crate) const PART_LENGTH: u32 = 23;

// A load whose packet would be too long.
pub(crate) const LONG_LOAD: u32 = 27;

// No area of a memory, too many, or an empty one.
pub(crate) const BAD_AREA: u32 = 28;

// The faults of a message that is to be split.
pub(crate) const SHORT: u32 = 42;

pub(crate) const LONG: u32 = 43;

pub(crate) const NO_SUCH_PART: u32 = 46;

// Octets that are an idle packet.
pub(crate) const IDLE: u32 = 101;

// A number that is out of its range.
pub(crate) const RANGE: u32 = 102;

// A buffer that is too short.
pub(crate) const ROOM: u32 = 103;

// Octets that don't say it yet.
pub(crate) const MORE: u32 = 104;

// A body that is no report.
pub(crate) const NO_REPORT: u32 = 105;

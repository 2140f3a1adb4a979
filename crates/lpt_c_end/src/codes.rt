//! The numbers that calls answer, besides those of a node's faults and of a configuration's.

// Done.
pub(crate) const DONE: u32 = 0;

// A memory of no octets, or of too many.
pub(crate) const BAD_MEMORIES: u32 = 25;

// No transaction of the name is open.
pub(crate) const NOT_OPEN: u32 = 45;

// There is no job to be read or executed.
pub(crate) const NO_JOB: u32 = 51;

// The transaction is open.
pub(crate) const STILL_OPEN: u32 = 55;

// The clock is at its greatest value, or would go past it.
pub(crate) const CLOCK_END: u32 = 56;

// Out of memory.
pub(crate) const MEMORY: u32 = 58;

// A number that is out of its range.
pub(crate) const RANGE: u32 = 102;

// A buffer that is too short.
pub(crate) const ROOM: u32 = 103;

// A handle that holds no end.
pub(crate) const EMPTY: u32 = 106;

// No number is left for a job, or for a start.
pub(crate) const NO_NUMBER: u32 = 108;

// There is nothing to copy, or to let go.
pub(crate) const NOTHING: u32 = 109;

// The oldest request of all was read already.
pub(crate) const ALREADY_READ: u32 = 126;

// Packets are to be sent first.
pub(crate) const UNSENT: u32 = 110;

// A state that is cut short.
pub(crate) const SHORT: u32 = 111;

// Octets that are no state.
pub(crate) const TAG: u32 = 112;

// A state of another version.
pub(crate) const VERSION: u32 = 113;

// A state that is cut, or has octets behind it.
pub(crate) const LENGTH: u32 = 114;

// The other side's state.
pub(crate) const SIDE: u32 = 115;

// Another configuration's state.
pub(crate) const CONFIG: u32 = 116;

// A state whose checksum is wrong.
pub(crate) const CHECKSUM: u32 = 117;

// A state whose names are out of order.
pub(crate) const ORDER: u32 = 118;

// Memories that are elsewhere than the call is for.
pub(crate) const ELSEWHERE: u32 = 119;

// Fewer octets than a request reads, or more.
pub(crate) const READ_LENGTH: u32 = 120;

// The clock, or a tick at which a reception last took a part, would go below 0.
pub(crate) const CLOCK_START: u32 = 125;

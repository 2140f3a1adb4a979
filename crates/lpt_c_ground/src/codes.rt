//! The numbers that calls answer.

// Done.
pub(crate) const DONE: u32 = 0;

// No area, one without octets or behind the last address, or two that overlap.
pub(crate) const BAD_AREA: u32 = 28;

// Out of memory.
pub(crate) const MEMORY: u32 = 58;

// A number that is out of its range.
pub(crate) const RANGE: u32 = 102;

// A buffer that is too short.
pub(crate) const ROOM: u32 = 103;

// A handle that holds no pass.
pub(crate) const EMPTY: u32 = 106;

// There is nothing to copy, or to be said.
pub(crate) const NOTHING: u32 = 109;

// More requests than a pass has.
pub(crate) const LONG_JOB: u32 = 121;

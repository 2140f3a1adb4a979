//! The numbers of large packet transfer among the message types.

/// Its service type (ECSS-E-ST-70-41C).
pub const TRANSFER: u8 = 13;

/// The message subtype of the report that a reception was aborted. It is this project's own.
pub const ABORT: u8 = 16;

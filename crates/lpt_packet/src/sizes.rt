//! The sizes of a packet and of what stands around its data field, in octets.

/// The primary header.
pub const PRIMARY_HEADER: usize = 6;

/// The packet error control.
pub const ERROR_CONTROL: usize = 2;

/// The longest packet.
pub const LONGEST_PACKET: usize = 65542;

/// The longest data field, without the packet error control.
pub const LONGEST_FIELD: usize = LONGEST_PACKET - PRIMARY_HEADER - ERROR_CONTROL;

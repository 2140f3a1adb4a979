//! The sizes of secondary headers, and of the longest bodies behind them, in octets.

use lpt_packet::LONGEST_FIELD;

/// A telecommand's secondary header.
pub const TC_HEADER: usize = 5;

/// A telemetry packet's secondary header.
pub const TM_HEADER: usize = 11;

/// The longest body of a telecommand.
pub const LONGEST_TC_BODY: usize = LONGEST_FIELD - TC_HEADER;

/// The longest body of telemetry.
pub const LONGEST_TM_BODY: usize = LONGEST_FIELD - TM_HEADER;

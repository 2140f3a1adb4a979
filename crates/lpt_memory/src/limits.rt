//! How many memories and areas there are at most, and how many octets stand around areas.

use lpt_packet::LONGEST_PACKET;

/// The most memories.
pub const MEMORY_LIMIT: usize = 16;

/// The most octets of a memory.
pub const SIZE_LIMIT: usize = 1_048_576;

/// The most areas of a request.
pub const AREA_LIMIT: usize = 255;

/// The octets of a load's packet, besides its areas.
pub const LOAD_HEAD: usize = 15;

/// The octets of an area in a load, besides those of the memory.
pub const AREA_HEADER: usize = 8;

/// The most octets that the areas of a load have in its packet.
pub const AREA_ROOM: usize = LONGEST_PACKET - LOAD_HEAD;

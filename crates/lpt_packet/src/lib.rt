//! Space packets (CCSDS 133.0-B) and their checksum: what octets are a packet, read and written
//! exactly.
//!
//! A packet has a primary header of 6 octets, a data field, and here always a packet error control
//! of 2 octets. Reading borrows and takes no memory. The main types are `Packet`, whose fields are
//! always in their ranges, `Seen`, a packet or an idle one, and `Octets`. The first call is
//! `read_packet`, or `Packet::new` and then `write_packet`.
#![tactic(auto)]

mod checksum;
mod direction;
mod fault;
pub mod laws;
mod name;
mod octets;
mod packet;
mod reading;
mod sizes;
mod table;
mod words;
mod writing;

pub use checksum::{crc16, crc16_more};
pub use direction::Direction;
pub use fault::PacketFault;
pub use name::Name;
pub use octets::Octets;
pub use packet::{Packet, PacketKind, Seen};
pub use reading::{read_packet, read_sealed};
pub use sizes::{ERROR_CONTROL, LONGEST_FIELD, LONGEST_PACKET, PRIMARY_HEADER};
pub use writing::{primary_header, write_packet, write_pieces};

//! The layouts of missions that have tailored ECSS-E-ST-70-41C otherwise than this project's own
//! profile: how wide the fields of secondary headers and parts are, and whether a packet has a
//! packet error control. Packets, telecommands, telemetry and parts are read and written exactly
//! over the layout. Reading borrows and takes no memory.
//!
//! The main types are `Layout`, `PartLayout`, `Message` and `PartAs`. The first call is
//! `read_packet_as`, and then `read_tm_as` or `read_tc_as`, and `read_part_as` of the body. At
//! `Layout::own_tm`, `Layout::own_tc` and `PartLayout::own` these are the profile's own readers,
//! which `laws::the_own_layouts` says.
#![tactic(auto)]

mod fault;
pub mod laws;
mod layout;
mod message;
mod numbers;
mod packet;
mod packet_reading;
mod part;
mod part_reading;
mod part_writing;
mod reading;
mod splitting;
mod width;
mod writing;

pub use fault::LayoutFault;
pub use layout::{Layout, PartLayout, Version};
pub use lpt_packet::{Octets, Packet, PacketFault, PacketKind};
pub use lpt_part::{Kind, PartFault};
pub use lpt_pus::PusFault;
pub use message::Message;
pub use packet::{PacketAs, SeenAs};
pub use packet_reading::{read_packet_as, read_sealed_as};
pub use part::PartAs;
pub use part_reading::read_part_as;
pub use part_writing::write_part_as;
pub use reading::{read_tc_as, read_tm_as};
pub use splitting::{count_as, part_at_as, told_size};
pub use width::Width;
pub use writing::{write_tc_as, write_tm_as};

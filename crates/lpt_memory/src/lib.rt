//! Raw memory management (ECSS-E-ST-70-41C, service 6): what a message asks of the memories, what
//! it makes of them, and what it answers.
//!
//! The main types are `Memories`; `Ticket`, `Prepared` and `Reading`, a message on its way; and
//! `Effect`, what came of it. The first calls are `Memories::new`, `prepare` on a ticket, outside
//! any lock, and `Memories::apply`. A request with a fault in one area changes nothing.
//!
//! The body of a request is a memory identifier (8 bits), the number of areas (8), and the areas: a
//! start address (32), a length (16), and in a load so many octets and their checksum (16). The
//! body that answers a dump is encoded as a load's; the one that answers a check leaves the octets
//! out.
//!
//! Deviation: a fault in any area refuses the whole request, and the widths of the fields are this
//! project's own.
#![tactic(auto)]

mod contents;
mod effect;
mod fault;
pub mod fields;
mod given;
mod job;
pub mod laws;
mod limits;
mod meaning;
mod memories;
mod octets;
mod reading;
mod reply;
mod reply_kind;
mod request;
mod shape;
mod writing;

pub use effect::Effect;
pub use fault::MemoryFault;
pub use given::Access;
pub use job::{Prepared, Reading, Ticket, prepare};
pub use limits::{AREA_HEADER, AREA_LIMIT, AREA_ROOM, MEMORY_LIMIT, SIZE_LIMIT};
pub use lpt_packet::{LONGEST_PACKET, Octets};
pub use lpt_pus::{FailureCode, TcHead};
pub use memories::Memories;
pub use reply_kind::ReplyKind;
pub use request::Area;
pub use shape::Shape;
pub use writing::{load_fault, write_load};

//! Requests to a memory (ECSS-E-ST-70-41C, service 6), written as a mission lays its telecommands
//! out. `lpt_requests` writes those of the profile, whose layout is one of these.
//!
//! The main types are `Layout` and `Request`. The first call is `write_requests_as`; before it,
//! `load_limit` and `dump_limit` say how many octets of an area a request has room for.
#![tactic(auto)]

mod fault;
pub mod laws;
mod limits;
mod packets;
mod writing;

pub use fault::RequestFault;
pub use limits::{dump_limit, load_limit};
pub use lpt_layout::{Layout, LayoutFault};
pub use lpt_memory::MemoryFault;
pub use lpt_packet::Octets;
pub use lpt_pus::AckFlags;
pub use lpt_requests::Request;
pub use packets::write_requests_as;
pub use writing::write_request_as;

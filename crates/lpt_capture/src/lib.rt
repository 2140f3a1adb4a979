//! Captures of packets, files of classic pcap: what stands in front of one and of each of its
//! records, to be written; and the octets of the records, read as they come. What doesn't begin as
//! a capture is given as it is: a packet begins with three bits of 0, and a capture never does.
//!
//! The main type is `Captured`, a source over a source. The first calls are `Captured::new`, and
//! `capture_header` if one is written.
#![tactic(auto)]

mod ahead;
mod captured;
mod fault;
pub mod laws;
mod numbers;
mod place;
mod writing;

pub use captured::Captured;
pub use fault::CaptureFault;
pub use writing::{capture_header, record_header};

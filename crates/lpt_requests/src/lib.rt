//! Requests to a memory as telecommands (ECSS-E-ST-70-41C, service 6): loads, dumps and checks,
//! written as the memory service reads them. What is longer than one request holds is cut into as
//! many as it needs.
//!
//! The main type is `Request`, with the areas of a load or the `Range`s of a dump or a check. The
//! first call is `write_request`, which gives the packet; or `load_requests` or `read_requests`,
//! which cut, and `write_requests`.
//!
//! What came of a request is read by `read_any_report`: verification reports (service 1) as any
//! spacecraft may send them. It takes no memory.
#![tactic(auto)]

mod cut_fault;
mod cutting;
pub mod laws;
pub mod laws_failures;
mod notice;
mod packets;
mod ranges;
mod reading;
mod reading_failures;
mod request;
mod writing;

pub use cut_fault::CutFault;
pub use cutting::{LOAD_LIMIT, areas_fault, load_requests};
pub use lpt_memory::{Area, MemoryFault};
pub use lpt_packet::Octets;
pub use lpt_pus::{AckFlags, RequestId};
pub use notice::FailureNotice;
pub use packets::write_requests;
pub use reading::{AreaPlace, CHECK_LIMIT, DUMP_LIMIT, Read, places_fault, read_requests};
pub use reading_failures::{RequestReport, read_any_report};
pub use request::{Range, Request};
pub use writing::write_request;

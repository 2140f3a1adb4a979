//! PUS headers (ECSS-E-ST-70-41C) over whole space packets: telecommands and telemetry, read and
//! written exactly. A packet's data field begins with a secondary header, of 5 octets in a
//! telecommand and of 11 in telemetry; the body follows. Reading borrows and takes no memory.
//!
//! The main types are `TcHead` and `TmHead`, `RequestId` and `FailureCode`. The first call is
//! `read_tc` on a `Packet`, or `TcHead::new` and then `write_tc`.
//!
//! Deviation: the time field of telemetry is 32 bits wide and counts the ticks of the sender's
//! clock, and neither header has a spare field.
#![tactic(auto)]

mod ack_flags;
mod failure_code;
mod fault;
pub mod laws;
mod reading;
mod request;
mod sizes;
mod tc_head;
mod tm_head;
mod writing;

pub use ack_flags::AckFlags;
pub use failure_code::FailureCode;
pub use fault::PusFault;
pub use lpt_packet::{Octets, Packet};
pub use reading::{read_tc, read_tm};
pub use request::RequestId;
pub use sizes::{LONGEST_TC_BODY, LONGEST_TM_BODY, TC_HEADER, TM_HEADER};
pub use tc_head::TcHead;
pub use tm_head::TmHead;
pub use writing::{tc_octets, tc_pieces, tm_octets, tm_pieces, write_tc, write_tm};

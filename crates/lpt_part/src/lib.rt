//! The large packet transfer of ECSS-E-ST-70-41C: how a message is split, and the bodies of its
//! parts and of abortion reports. A message longer than the part size is cut into parts of that
//! size, the last of which may be shorter. Reading borrows and takes no memory.
//!
//! The main types are `Part`, which fits its kind, number and part size, `Kind` and `Reason`. The
//! first calls are `count` and `slice` of a message, `read_part` and `write_part`.
//!
//! The body of a part is the transaction identifier, the part sequence number and the part's
//! octets; that of an abortion report is the transaction identifier and a failure reason. The
//! widths of these fields and the numbers of the failure reasons are this project's own.
#![tactic(auto)]

mod abort;
mod fault;
mod fitting;
mod identifier;
mod kind;
pub mod laws;
mod message_types;
mod mode;
mod part;
mod reading;
mod reason;
mod splitting;
mod writing;

pub use abort::{abort_octets, read_abort, write_abort};
pub use fault::PartFault;
pub use fitting::{length_fits, number_fits};
pub use identifier::TransactionId;
pub use kind::Kind;
pub use lpt_packet::Octets;
pub use message_types::{ABORT, TRANSFER};
pub use mode::Mode;
pub use part::Part;
pub use reading::read_part;
pub use reason::Reason;
pub use splitting::{count, part_at, slice};
pub use writing::write_part;

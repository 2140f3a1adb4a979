//! What became of requests: the telecommands of one stream, matched with the verification reports
//! of another (ECSS-E-ST-70-41C, service 1): a report's destination is its request's source, and it
//! says the request ID, which is the first four octets of a telecommand's packet.
//!
//! A request that comes in parts isn't put together here, and a part isn't judged. So the requests
//! are given as they were written, before they were split.
//!
//! A count comes again behind 16,384 requests, and then two requests of a source have one request
//! ID: a report on it is told of both, the lines of both say that they share it, and `count_shared`
//! counts them.
//!
//! The main types are `Asked`, a request, and `Outcome`, what reports have told of it; `Passed` is
//! how much of a stream was passed over. The first calls are `read_requests` and `read_reports`,
//! each with a layout and a source, and then `write_outcomes` and `are_done`.
#![tactic(auto)]

mod answers;
mod asked;
mod key;
pub mod laws;
mod lines;
mod news;
mod opened;
mod outcome;
mod passed;
mod reading;
mod reports;
mod requests;
mod writing;

pub use answers::count_shared;
pub use asked::{Asked, are_done};
pub use lpt_carried::Layout;
pub use lpt_list::Form;
pub use lpt_pus::RequestId;
pub use lpt_requests::FailureNotice;
pub use lpt_script_text::Areas;
pub use lpt_text::{Sink, Source, StreamFault};
pub use opened::write_open;
pub use outcome::Outcome;
pub use passed::Passed;
pub use reports::read_reports;
pub use requests::{Requests, read_requests};
pub use writing::write_outcomes;

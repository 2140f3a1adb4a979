//! Request verification of ECSS-E-ST-70-41C, service 1: the reports of one request, and their
//! bodies. They say in turn that its acceptance, its start and its completion of execution
//! succeeded, or which of the first two failed and why. A body is the request ID and, of a failure,
//! the failure code, whose width and numbers are this project's own.
//!
//! The main types are `Reports`, to be sent, and `Report`, as it is read. The first calls are
//! `reports` and `read_report`, which takes no memory.
#![tactic(auto)]

pub mod laws;
mod reading;
mod report;
mod writing;

pub use reading::read_report;
pub use report::{EncodedReport, Report, Reports};
pub use writing::reports;

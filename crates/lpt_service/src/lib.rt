//! The service that two nodes give their users, on one page, and the laws that each legal journal
//! is a run of it and that its runs keep the promise.
//!
//! There is no code here but laws. Read `specs/Service` first: it stands by itself. `specs/Served`
//! says what users see of a journal.
#![tactic(auto)]

pub mod laws;

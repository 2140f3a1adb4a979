//! What ground knows of two ends apart by the reports that it hears: which of its requests were
//! executed, and that an image stands in the spacecraft's memory.
//!
//! There is no code here but laws. `specs/Reported` says what reports that come down mean, and
//! `specs/Images` what loads leave of an image; `specs/Passes` says what a pass is, `specs/Chains`
//! what is assumed of one that ends as done. `specs/Places` and `specs/Areas` are about a job of
//! loads, by what its caller holds.
#![tactic(auto)]

pub mod laws;
pub mod laws_jobs;
pub mod laws_moves;
pub mod laws_reported;

//! Worked runs of two ends apart, computed by the definitions. So what is said of all their runs
//! speaks of something. Nothing stands on this crate.
//!
//! One stands in `specs/Runs`, and its law is `laws::forged_and_reused_can_be`; the other, of ends
//! that free a name by lines, in `specs/Late`, and its law is `laws::late_lines_change_nothing`.
#![tactic(auto)]

pub mod laws;

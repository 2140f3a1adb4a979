//! Worked passes, computed by the definitions of the journal: that they are legal, and what comes
//! of them. So what is said of all legal journals speaks of something. Only a worked run of two ends
//! stands on this crate.
//!
//! The passes stand in `specs/Passes`. The first law to read is `laws::out_of_order_is_legal`.
#![tactic(auto)]

pub mod laws;

//! A worked pass, computed by the definitions. So what is said of all passes speaks of something.
//! Nothing stands on this crate.
//!
//! It stands in `specs/Worked`, and its law is `laws::a_load_is_executed_twice`.
#![tactic(auto)]

pub mod laws;

//! Two ends behind handles of C, each called by itself, are two ends apart.
//!
//! There is no code here but laws. `specs/Pairs` says what a call that answers 0 is to its end,
//! which moves of two ends apart it makes, and what the program promises of it. The main law is
//! `laws::ends_of_c_keep_the_promise`. `laws_examples` has worked runs.
#![tactic(auto)]

pub mod laws;
pub mod laws_examples;

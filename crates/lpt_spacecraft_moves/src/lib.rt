//! What the spacecraft's end makes of a stream is a run of moves of two ends apart, so whatever
//! these promise holds of it and of whoever plays ground by its rules.
//!
//! There is no code in it. The laws are `laws::inputs_are_moves` and, of a program that is killed
//! and started again, `laws::ground_and_spacecraft_keep_the_promise`.
#![tactic(auto)]

pub mod laws;

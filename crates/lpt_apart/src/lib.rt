//! Two ends apart: two nodes, each called by itself, go as a world goes, and keep its promise.
//!
//! There is no code here but laws. Read `specs/TwoEnds` first: it has what is assumed of two ends
//! and what they promise, from top to bottom. `specs/Ends` beside it says what each call of an end
//! does. The main laws are `laws::ends_with_clocks_keep_the_promise` and
//! `laws::ends_with_clocks_withhold_nothing`. That two ends are those of a world stands in
//! `specs/Worlds` and `specs/Moves`, that a world is two ends in `specs/Plays`.
//!
//! `specs/Deeds` is about ends whose state is written down and read back, `specs/Lines` and
//! `specs/Freeing` about programs that free names by lines of their own.
#![tactic(auto)]

pub mod laws;
pub mod laws_freeing;
pub mod laws_kept;

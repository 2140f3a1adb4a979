//! What a journal says: the definitions over it, the legal journals, and what holds of all of them.
//! Everything is a function of the events so far, and no crate with a node or a link is below this
//! one.
//!
//! There is no code here but laws. The main theorem is `laws::headline`; the statement to read
//! first is `specs/Headline`, then `specs/Legal`, `specs/Refusals` and `specs/Replies`.
#![tactic(auto)]

pub mod laws;

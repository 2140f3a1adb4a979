//! That the model follows the journal: when a state of plain data shows a journal, and that it then
//! refuses and answers as the journal says, and shows the longer journal afterwards.
//!
//! There is no code here but one law, `laws::follows_journal`. `specs/Views` says what a journal
//! says of each field of a state, `specs/Shows` when a state shows that, and `specs/GoesOn` what
//! follows.
#![tactic(auto)]

pub mod laws;

//! The state machine: both ends, the link, the workers' jobs and the memories as plain data, and
//! what each event does to them.
//!
//! There is no code here, and nothing to call. `specs/State` says of each event why a state refuses
//! it, what it answers, and the state behind it, by the functions of a node and of a link. The code
//! of both ends does what it says (`lpt_system`), and it is shown to follow the journal
//! (`lpt_refinement`).
#![tactic(auto)]

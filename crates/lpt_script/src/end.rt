//! How a run of a script ends.

/// A script that ran to its end.
#[derive(Clone, Copy, Debug, PartialEq, Eq)]
pub struct ScriptEnd {
    /// How many lines asked for an event that was refused.
    pub refused: u64,
}

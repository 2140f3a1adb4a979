//! How much a run of threads does.

/// How much each seat does in a run of threads.
#[derive(Clone, Copy, Debug, PartialEq, Eq)]
pub struct Turns {
    /// After how many calls a seat begins no further turn, 1 to 1,000,000.
    pub per_seat: u32,
    /// How many ticks each node's timer sets its clock on, 0 to 65,535.
    pub ticks: u32,
}

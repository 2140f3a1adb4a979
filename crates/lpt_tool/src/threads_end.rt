//! How a run of a script with threads ends.

/// A script with threads that ran to its end.
#[derive(Drop)]
pub struct ThreadsEnd {
    /// How many lines asked for an event that was refused.
    pub refused: u64,
    /// The seats that reached their limit of calls, in order.
    pub full: Vec<u8>,
}

//! What is left of a name.

/// What is left of a name: the parts that are of no message that was given out, and weren't given
/// up.
#[derive(Clone, Copy)]
pub struct WaitingAs {
    /// Of how many numbers there are parts.
    pub count: usize,
    /// The greatest of these numbers, 0 if there are none.
    pub highest: usize,
}

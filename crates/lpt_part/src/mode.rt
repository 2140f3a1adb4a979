//! In which order a receiver takes the parts of a message.

/// In which order a receiver takes the parts of a message.
#[derive(Clone, Copy, Debug, PartialEq, Eq)]
pub enum Mode {
    /// In any order.
    Any,
    /// In the order of their numbers: a part that isn't the next one breaks its reception off.
    Strict,
}

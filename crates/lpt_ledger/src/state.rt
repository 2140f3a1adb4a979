//! The states of a transaction name.

/// The state of a transaction name at one end.
#[derive(Clone, Copy, Debug, PartialEq, Eq)]
pub enum State {
    /// No transaction uses the name.
    Free,
    /// A transaction under the name goes on.
    Open,
    /// The transaction has ended. The name isn't used again before it is retired.
    Closed,
}

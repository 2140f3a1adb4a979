//! The workers, which read released requests for the spacecraft.

/// A worker. There are two, so that one can read a request while another has one.
#[derive(Clone, Copy, Debug, PartialEq, Eq)]
pub enum Worker {
    /// The first worker.
    W1,
    /// The second worker.
    W2,
}

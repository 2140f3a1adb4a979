//! Which request a report is on.

/// What names a request: reports on it go to its source, and say its request ID.
#[derive(Clone, Copy, PartialEq, Eq, PartialOrd, Ord)]
pub(crate) struct Key {
    pub(crate) source: u32,
    pub(crate) id: u32,
}

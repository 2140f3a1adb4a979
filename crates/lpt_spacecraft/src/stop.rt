//! Where the work on a stream stopped.

/// Where the work on a stream stopped. A place is how many octets of the stream come before it; one
/// beyond 2^64 - 1 is told as that.
#[derive(Clone, Copy, Debug, PartialEq, Eq)]
pub enum Stop {
    /// At the stream's end.
    End,
    /// At the stream's end, in a packet: from this place on there is less than its header says,
    /// which is so many octets, if the header has come.
    Cut(u64, Option<usize>),
    /// Before octets that are no packet: their header says so many octets, if that has come.
    Stray(u64, Option<usize>),
}

//! Why a request failed.

/// What a report of failure says of the reason.
#[derive(Clone, Copy, Debug, PartialEq, Eq)]
pub enum FailureNotice {
    /// This failure code of this service, of 16 bits, and nothing else, in a report in which this
    /// service sends it: 1 and 2 as failed acceptance, 3 to 8 as failed start of execution.
    Code(u16),
    /// This failure code, of 16 bits, and nothing else, which this service doesn't send so: what it
    /// means is the sender's.
    Foreign(u16),
    /// Something else, which isn't read.
    Unread,
}

//! How packets stand in what is written.

/// The form in which packets are written.
#[derive(Clone, Copy, Debug, PartialEq, Eq)]
pub enum Form {
    /// One behind the other.
    Plain,
    /// As the records of a capture, a file of classic pcap.
    Capture,
}

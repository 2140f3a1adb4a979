//! What is wrong with a capture.

use thiserror::Error;

/// The first fault of a capture, with its place in the file.
#[derive(Clone, Copy, Debug, Error)]
pub enum CaptureFault {
    /// It isn't whole, and ends within its header.
    #[error("octet 0: the capture ends within its header")]
    Header,
    /// The record that begins at this octet isn't whole: the capture ends within it.
    #[error("octet {0}: the capture ends within the record that begins here")]
    Short(u64),
    /// Its link type isn't 147.
    #[error("octet 20: the capture's link type is {0}, and not 147")]
    LinkType(u32),
    /// The record that begins at this octet has this many octets, and not 1 to 65,542.
    #[error("octet {0}: a record of {1} octets, and not of 1 to 65542")]
    Size(u64, u32),
    /// It is one of another form, pcapng, which isn't read.
    #[error("this is pcapng: editcap -F pcap makes a capture of it")]
    Pcapng,
}

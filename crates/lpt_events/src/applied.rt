//! What the execution of a request answers.

use lpt_packet::Name;
use lpt_pus::FailureCode;

/// What became of the request that was executed.
#[derive(Clone, Copy, Debug, PartialEq, Eq)]
pub enum Applied {
    /// It was carried out. Its report of data was opened as the downlinked message of this name,
    /// if it was too long for a packet on the link.
    Done(Option<Name>),
    /// The message is no telecommand for the spacecraft: nothing was done, and nothing is reported.
    Silent,
    /// The request was refused for this reason, and changed no octet of a memory.
    Code(FailureCode),
}

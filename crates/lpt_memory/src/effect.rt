//! What applying a request came to.

use crate::ReplyKind;
use lpt_packet::Octets;
use lpt_pus::FailureCode;

/// What applying a message to the memories came to.
#[derive(Drop)]
pub enum Effect {
    /// The message is no telecommand for this node: nothing is done and nothing is said.
    Silent,
    /// The request has this fault, one of the first six, and changed nothing.
    Code(FailureCode),
    /// The areas of a load were written.
    Done,
    /// The kind and the body of the report that answers a dump or a check.
    Reply(ReplyKind, Octets),
}

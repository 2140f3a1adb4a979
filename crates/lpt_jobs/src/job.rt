//! A job in the queue.

use lpt_memory::Reading;
use lpt_packet::Octets;

/// A released request that isn't executed yet, by how far it has come.
#[derive(Drop)]
pub(crate) enum Job {
    /// No worker has claimed it: the message that was released.
    Waiting(Octets),
    /// A worker has it, with its message, and hasn't committed a reading.
    Claimed,
    /// A worker has committed this reading of its message.
    Committed(Reading),
}

//! What stands at the front of the queue.

use lpt_memory::Reading;

/// What stands at the front of the queue: no job, one that can't be executed yet, or one that can.
#[derive(Clone, Copy)]
pub enum Front<'a> {
    /// There is no job.
    Empty,
    /// The oldest job has no reading yet: it waits, or a worker has it.
    NotReady,
    /// The oldest job has this reading and can be executed.
    Ready(&'a Reading),
}

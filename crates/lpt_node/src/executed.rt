//! What the execution of a job answers.

use lpt_events::Applied;
use lpt_packet::{Name, Octets};

/// What a node answers when it has executed its oldest job.
#[derive(Drop)]
pub struct Executed {
    /// What became of the job's request.
    pub applied: Applied,
    /// Packets to be put on the link, in this order: the reports of the execution.
    pub packets: Vec<Octets>,
    /// The report of data that was opened, since it is too long for a packet on the link: its name,
    /// and the message.
    pub opened: Option<(Name, Octets)>,
}

//! What the end of a reception without its message answers.

use lpt_packet::{Name, Octets};

/// What a node answers when a reception has expired, or was given up before its time.
#[derive(Drop)]
pub struct Expired {
    /// The transaction whose reception it was.
    pub name: Name,
    /// A packet to be put on the link: the report that the reception was broken off.
    pub packet: Option<Octets>,
}

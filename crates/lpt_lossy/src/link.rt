//! What is said of a link that loses.

use lpt_carried::Layouts;

/// A link that loses.
#[derive(Clone, Copy)]
pub struct LossyLink {
    /// How its packets are laid out. Bits are changed only in packets of a type that has a
    /// checksum, which shows it.
    pub layouts: Layouts,
    /// Behind how many of the packets that come after it a packet is written at most.
    pub most_later: u16,
}

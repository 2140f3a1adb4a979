//! A packet on the link.

use lpt_packet::{Direction, Name, Octets};

/// A packet that was put on the link, as the definitions see it.
#[derive(Drop)]
pub struct LinkPacket {
    /// Which way it goes.
    pub(crate) direction: Direction,
    /// The name of the transaction that it is a part of; `None` if it is no part.
    pub(crate) tag: Option<Name>,
    /// Its octets. They stay readable after it is lost.
    pub(crate) octets: Octets,
    /// Whether the link still holds it.
    pub(crate) held: bool,
}

/// What a packet has besides its octets. The fields lie in this order, so that it takes 8 octets.
#[derive(Clone, Copy)]
pub(crate) struct Head {
    /// Which way it goes.
    pub(crate) direction: Direction,
    /// Whether the link still holds it.
    pub(crate) held: bool,
    /// The name of the transaction that it is a part of; `None` if it is no part.
    pub(crate) tag: Option<Name>,
}

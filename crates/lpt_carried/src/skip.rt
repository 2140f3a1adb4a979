//! Why a piece of a stream carries no part.

use lpt_packet::PacketFault;
use lpt_part::PartFault;
use lpt_pus::PusFault;

/// Why a piece of a stream carries no part that is read, the first of these that applies.
#[derive(Clone, Copy)]
pub enum Skip {
    /// It isn't read as a packet of the layout. This is the first test that it fails.
    NoPacket(PacketFault),
    /// It is idle.
    Idle,
    /// It is of this other APID.
    OtherApid(u16),
    /// It isn't read as a message of the layout and the direction.
    NoMessage(PusFault),
    /// It is of this service and message subtype, which carries no part.
    OtherType { service: u8, subtype: u8 },
    /// Its body isn't read as a part.
    NoPart(PartFault),
    /// It is so many octets with which no packet begins.
    Stray(usize),
}

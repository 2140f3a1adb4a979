//! A space packet that may have no packet error control.

ghost use Rattle.std.specs.Prelude.{◌≡◌, length};
ghost use Rattle.lpt_packet.specs.Numbers.{IsOctets};
ghost use Rattle.lpt_layout.specs.Ranges.{IsWithin};

use lpt_packet::{Packet, PacketKind};

/// A space packet that isn't idle (CCSDS 133.0-B), with a packet error control or without. Its data
/// field is borrowed from the octets that it was read from.
#[derive(Clone, Copy)]
pub struct PacketAs<'a> {
    /// Telemetry or telecommand.
    pub kind: PacketKind,
    /// The application process identifier, 0 to 2046.
    pub apid: u16,
    /// The packet sequence count, 0 to 16,383.
    pub count: u16,
    /// What stands behind the primary header, but for the packet error control: 0 to 65,536 octets.
    pub field: &'a [u8],
    ghost in_range: { IsWithin apid count (length field.now) },
    ghost octets: { IsOctets field.now },
}

impl<'a> PacketAs<'a> {
    ghost use Rattle.lpt_packet.specs.Packets as packets;
    ghost use Rattle.lpt_layout.specs.Packets.{fields};

    /// The same packet, which has a packet error control: one that `lpt_packet` has read.
    pub fn of(packet: Packet<'a>) -> PacketAs<'a>
        ensures { fields result ≡ packets.fields packet.entry }
    {
        PacketAs {
            kind: packet.kind,
            apid: packet.apid,
            count: packet.count,
            field: packet.field,
        }
    }
}

/// What octets are seen as.
#[derive(Clone, Copy)]
pub enum SeenAs<'a> {
    /// An idle packet: APID 2047. What it holds is ignored.
    Idle,
    /// A packet.
    Packet(PacketAs<'a>),
}

//! A space packet, as it is read and written.

ghost use Rattle.std.specs.Prelude.{◌≡◌, ◌↔◌, IsSome, IfSome};
ghost use Rattle.lpt_packet.specs.Ranges.{InRange};
ghost use Rattle.lpt_packet.specs.Numbers.{IsOctets};

use crate::sizes::LONGEST_FIELD;

/// The packet type: telemetry or telecommand (CCSDS 133.0-B).
#[derive(Clone, Copy, Debug, PartialEq, Eq)]
pub enum PacketKind {
    /// Telemetry, from the spacecraft.
    Tm,
    /// A telecommand, to the spacecraft.
    Tc,
}

/// A space packet that isn't idle. Its data field is borrowed from the octets that it was read from.
///
/// Version 0, a secondary header and 'unsegmented' are the same in all packets, so they are no fields.
#[derive(Clone, Copy, Debug)]
pub struct Packet<'a> {
    /// Telemetry or telecommand.
    pub kind: PacketKind,
    /// The application process identifier, 0 to 2046.
    pub apid: u16,
    /// The packet sequence count, 0 to 16,383.
    pub count: u16,
    /// What stands between the primary header and the checksum, 0 to 65,534 octets.
    pub field: &'a [u8],
    ghost in_range: { InRange apid count field.now },
    ghost octets: { IsOctets field.now },
}

impl<'a> Packet<'a> {
    /// A packet of these fields, or `None` if one of them is out of its range.
    pub fn new(kind: PacketKind, apid: u16, count: u16, field: &'a [u8]) -> Option<Packet<'a>>
        ensures fits { IsSome result ↔ InRange apid count field.now }
        ensures fields { IfSome result (λ p. (p.kind ≡ kind) × (p.apid ≡ apid) × (p.count ≡ count) × (p.field.now ≡ field.now)) }
    {
        if apid > 2046 || count > 16383 || field.len() > LONGEST_FIELD {
            return None;
        }
        Some(Packet {
            kind,
            apid,
            count,
            field,
        })
    }
}

/// What octets are seen as.
#[derive(Clone, Copy, Debug)]
pub enum Seen<'a> {
    /// An idle packet: APID 2047. What it holds is ignored.
    Idle,
    /// A packet.
    Packet(Packet<'a>),
}

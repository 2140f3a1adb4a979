//! Reading a packet of a layout from octets.

ghost use Rattle.std.specs.Prelude.{◌≡◌, ◌≢◌, ◌+◌, ◌<◌, length, Err, IfOk, true, false};
ghost use Rattle.lpt_packet.specs.Packets.{verdict};
ghost use Rattle.lpt_packet.specs.Numbers.{word_at};
ghost use Rattle.lpt_layout.specs.Packets.{sight, IsSightAs, verdict_as, Gives};

use crate::{Layout, PacketAs, SeenAs};
use lpt_packet::{PRIMARY_HEADER, PacketFault, PacketKind, Seen, read_packet, read_sealed};

/// Reads octets as a space packet (CCSDS 133.0-B) of this layout: with a packet error control, or
/// without one.
///
/// The data field is borrowed. Errors, the first that applies: `Short`, fewer than 7 octets;
/// `Version`, not 0; `Length`, the octets aren't 7 more than the data length field; then a packet
/// of APID 2047 is idle, whatever else it holds; `Segmented`, the sequence flags aren't
/// 'unsegmented'; `NoSecondary`, the secondary header flag is 0; and if the layout has a packet
/// error control, `Checksum`, fewer than 8 octets, or the last two aren't the checksum of those
/// before.
pub fn read_packet_as<'a>(layout: &Layout, bytes: &'a [u8]) -> Result<SeenAs<'a>, PacketFault>
    // What is read is what the octets are.
    ensures found { IfOk result (λ s. IsSightAs layout.now.has_checksum bytes.now (sight s)) }
    // The fault is the first.
    ensures exact { Gives result (verdict_as layout.now.has_checksum bytes.now) }
{
    if layout.has_checksum {
        sealed_packet(bytes)
    } else {
        bare_packet(bytes)
    }
}

/// Reads octets whose packet error control isn't at fault, if the layout has one: those of a whole
/// piece of a stream, say. It answers what `read_packet_as` answers, and takes no checksum.
pub fn read_sealed_as<'a>(layout: &Layout, bytes: &'a [u8]) -> Result<SeenAs<'a>, PacketFault>
    requires { layout.now.has_checksum ≡ true → verdict bytes.now ≢ Err PacketFault.Checksum }
    ensures { Gives result (verdict_as layout.now.has_checksum bytes.now) }
{
    if !layout.has_checksum {
        return bare_packet(bytes);
    }
    known_packet(bytes)
}

// A packet whose packet error control isn't at fault.
#[tactic(auto, unfolding(crate::specs::Packets::verdict_as))]
fn known_packet(bytes: &[u8]) -> Result<SeenAs<'_>, PacketFault>
    requires { verdict bytes.now ≢ Err PacketFault.Checksum }
    ensures { Gives result (verdict_as true bytes.now) }
{
    match read_sealed(bytes)? {
        Seen::Idle => Ok(SeenAs::Idle),
        Seen::Packet(packet) => Ok(SeenAs::Packet(PacketAs::of(packet))),
    }
}

// A packet that has a packet error control.
fn sealed_packet(bytes: &[u8]) -> Result<SeenAs<'_>, PacketFault>
    ensures { Gives result (verdict_as true bytes.now) }
{
    match read_packet(bytes)? {
        Seen::Idle => Ok(SeenAs::Idle),
        Seen::Packet(packet) => Ok(SeenAs::Packet(PacketAs::of(packet))),
    }
}

// The tests of a packet that has none, in their order.
#[tactic(auto, unfolding(crate::specs::Packets::verdict_as))]
fn bare_packet(bytes: &[u8]) -> Result<SeenAs<'_>, PacketFault>
    ensures { Gives result (verdict_as false bytes.now) }
{
    if bytes.len() < 7 {
        return Err(PacketFault::Short);
    }
    let first = word(bytes, 0);
    let second = word(bytes, 2);
    if first >> 13 != 0 {
        return Err(PacketFault::Version);
    }
    if bytes.len() != 7 + usize::from(word(bytes, 4)) {
        return Err(PacketFault::Length);
    }
    if first & 0x07ff == 0x07ff {
        return Ok(SeenAs::Idle);
    }
    if second >> 14 != 3 {
        return Err(PacketFault::Segmented);
    }
    if (first >> 11) & 1 != 1 {
        return Err(PacketFault::NoSecondary);
    }
    let kind = if (first >> 12) & 1 == 1 {
        PacketKind::Tc
    } else {
        PacketKind::Tm
    };
    Ok(SeenAs::Packet(PacketAs {
        kind,
        apid: first & 0x07ff,
        count: second & 0x3fff,
        field: &bytes[PRIMARY_HEADER..],
    }))
}

// The 16-bit number at a place.
fn word(bytes: &[u8], at: usize) -> u16
    requires { at + 1 < length bytes.now }
    ensures { result ≡ word_at bytes.now at }
{
    u16::from_be_bytes([bytes[at], bytes[at + 1]])
}

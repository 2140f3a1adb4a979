//! Reading a packet from octets.

ghost use Rattle.std.specs.Prelude.{◌≡◌, ◌+◌, ◌-◌, ◌%◌, ◌<◌, ◌≤◌, ◌==◌, true, length, take, Ok, Err, IfOk};
ghost use Rattle.lpt_packet.specs.declared.fault.PacketFault.TheVariants.{Checksum};
ghost use Rattle.lpt_packet.specs.Checksums.{checksum};
ghost use Rattle.lpt_packet.specs.Numbers.{word_at};
ghost use Rattle.lpt_packet.specs.Packets.{Fields, IdlePacket, APacket, sight, IsSight, IsPacket, IsIdle, verdict, Gives};

use crate::sizes::{ERROR_CONTROL, PRIMARY_HEADER};
use crate::{Packet, PacketFault, PacketKind, Seen, crc16};

/// Reads octets as a space packet (CCSDS 133.0-B, with a packet error control in every packet).
///
/// The data field is borrowed. Errors, the first that applies: `Short`, fewer than 7 octets;
/// `Version`, not 0; `Length`, the octets aren't 7 more than the data length field; then a packet of
/// APID 2047 is idle, whatever else it holds; `Segmented`, the sequence flags aren't 'unsegmented';
/// `NoSecondary`, the secondary header flag is 0; `Checksum`, fewer than 8 octets, or the last two
/// aren't the checksum of those before.
pub fn read_packet(bytes: &[u8]) -> Result<Seen<'_>, PacketFault>
    // What is read is what the octets are.
    ensures found { IfOk result (λ s. IsSight bytes.now (sight s)) }

    // Each packet is read with its fields, and each idle packet is seen.
    ensures packet { (f : Fields) → IsPacket bytes.now f → Gives result (Ok (APacket f)) }
    ensures idle { IsIdle bytes.now → Gives result (Ok IdlePacket) }

    // The fault is the first.
    ensures exact { Gives result (verdict bytes.now) }
{
    first_fault_or_sight(bytes, false)
}

/// Reads octets of which it is known that their checksum isn't at fault: those of a whole packet
/// that was found in a stream, say. It answers what `read_packet` answers, and takes no checksum.
pub fn read_sealed(bytes: &[u8]) -> Result<Seen<'_>, PacketFault>
    requires { verdict bytes.now ≡ Err Checksum → ⊥ }
    ensures { Gives result (verdict bytes.now) }
{
    first_fault_or_sight(bytes, true)
}

// The tests of a packet, in their order; the last isn't made if it is known how it ends.
#[tactic(auto, unfolding(crate::specs::Packets::verdict))]
fn first_fault_or_sight(bytes: &[u8], is_known: bool) -> Result<Seen<'_>, PacketFault>
    requires { is_known ≡ true → verdict bytes.now ≡ Err Checksum → ⊥ }
    ensures { Gives result (verdict bytes.now) }
{
    if bytes.len() < 7 {
        return Err(PacketFault::Short);
    }
    let first = word(bytes, 0);
    let second = word(bytes, 2);
    if first >> 13 != 0 {
        return Err(PacketFault::Version);
    }
    if !has_its_length(bytes) {
        return Err(PacketFault::Length);
    }
    if first & 0x07ff == 0x07ff {
        return Ok(Seen::Idle);
    }
    if second >> 14 != 3 {
        return Err(PacketFault::Segmented);
    }
    if (first >> 11) & 1 != 1 {
        return Err(PacketFault::NoSecondary);
    }
    if !is_known && (bytes.len() < 8 || !is_sealed(bytes)) {
        return Err(PacketFault::Checksum);
    }
    let kind = if (first >> 12) & 1 == 1 {
        PacketKind::Tc
    } else {
        PacketKind::Tm
    };
    let field = &bytes[PRIMARY_HEADER..bytes.len() - ERROR_CONTROL];
    Ok(Seen::Packet(Packet {
        kind,
        apid: first & 0x07ff,
        count: count_in(second),
        field,
    }))
}

// Whether there are as many octets as the data length field says.
fn has_its_length(bytes: &[u8]) -> bool
    requires { 7 ≤ length bytes.now }
    ensures { result ≡ (length bytes.now == 7 + word_at bytes.now 4) }
{
    bytes.len() == 7 + usize::from(word(bytes, 4))
}

// Whether the last two octets are the checksum of those before.
#[inline(always)]
fn is_sealed(bytes: &[u8]) -> bool
    requires { 8 ≤ length bytes.now }
    ensures { result ≡ (checksum (take (length bytes.now - 2) bytes.now)
        == word_at bytes.now (length bytes.now - 2)) }
{
    let end = bytes.len() - ERROR_CONTROL;
    crc16(&bytes[..end]) == word(bytes, end)
}

// The sequence count in a header's second word.
fn count_in(second: u16) -> u16
    ensures { result ≡ second % 16384 }
{
    second & 0x3fff
}

// The 16-bit number at a place.
fn word(bytes: &[u8], at: usize) -> u16
    requires { at + 1 < length bytes.now }
    ensures { result ≡ word_at bytes.now at }
{
    u16::from_be_bytes([bytes[at], bytes[at + 1]])
}

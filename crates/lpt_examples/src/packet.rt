//! Calling `lpt_packet`: the data fields of one application's packets, and a telecommand.

ghost use Rattle.std.specs.Prelude.{◌≡◌, ◌↔◌, Err, IsSome, IfSome, IfOk, IfErr, IsOk};
ghost use Rattle.lpt_packet.specs.declared.packet.PacketKind.TheVariants.{Tc};
ghost use Rattle.lpt_packet.specs.Packets.{Fields, IsPacket, fields_of, verdict};
ghost use Rattle.lpt_packet.specs.Ranges.{InRange};

use lpt_packet::{Octets, Packet, PacketFault, PacketKind, Seen, read_packet, write_packet};
use std::alloc::{AllocError, Global};

/// The data field of a packet of this APID. `None` if the octets are idle, or of another APID.
///
/// Errors: the first test of a packet that the octets fail.
pub fn field_for(octets: &[u8], apid: u16) -> Result<Option<&[u8]>, PacketFault>
    // What is found is the data field of the packet that the octets are.
    ensures found { IfOk result (λ it. IfSome it (λ field.
        (f : Fields) × IsPacket octets.now f × (f.apid ≡ apid) × (f.octets ≡ field.now))) }

    // No packet of this APID is passed over.
    ensures all { (f : Fields) → IsPacket octets.now f → f.apid ≡ apid
        → IsOk result × IfOk result (λ it. IsSome it) }

    // The fault is the first.
    ensures fault { IfErr result (λ e. verdict octets.now ≡ Err e) }
{
    match read_packet(octets)? {
        Seen::Packet(packet) if packet.apid == apid => Ok(Some(packet.field)),
        Seen::Packet(_) | Seen::Idle => Ok(None),
    }
}

/// A telecommand's packet, or `None` if a field is out of its range. The only error is that
/// memory is out.
pub fn telecommand(
    alloc: Global,
    apid: u16,
    count: u16,
    field: &[u8],
) -> Result<Option<Octets>, AllocError>
    ensures fits { IfOk result (λ it. IsSome it ↔ InRange apid count field.now) }
    ensures packet { IfOk result (λ it. IfSome it (λ octets.
        IsPacket octets (fields_of Tc apid count field.now))) }
{
    match Packet::new(PacketKind::Tc, apid, count, field) {
        None => Ok(None),
        Some(packet) => Ok(Some(write_packet(alloc, &packet)?)),
    }
}

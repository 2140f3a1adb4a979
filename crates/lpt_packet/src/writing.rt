//! Writing a packet as octets.

ghost use Rattle.std.specs.Prelude.{◌≡◌, ◌+◌, ◌≤◌, ◌++◌, length, IfOk};
ghost use Rattle.lpt_packet.specs.Packets.{fields, fields_of, header_of, octets_sealed, spelling};
ghost use Rattle.lpt_packet.specs.Sizes.{longest_field};

use crate::sizes::{ERROR_CONTROL, PRIMARY_HEADER};
use crate::{Octets, Packet, PacketKind, crc16};
use std::alloc::{AllocError, Global};

/// The octets of a packet, its checksum last. The only error is out of memory.
pub fn write_packet(alloc: Global, packet: &Packet<'_>) -> Result<Octets, AllocError>
    ensures { IfOk result (λ o. o ≡ spelling (fields packet.now)) }
{
    let Packet {
        kind,
        apid,
        count,
        field,
    } = *packet;
    write_pieces(alloc, kind, apid, count, &[], &[], field)
}

/// The octets of a packet whose data field is given in three pieces, one behind the other. Each is
/// copied once, into a vector that has the packet's size from the first. The only error is out of
/// memory.
pub fn write_pieces(
    alloc: Global,
    kind: PacketKind,
    apid: u16,
    count: u16,
    header: &[u8],
    front: &[u8],
    rest: &[u8],
) -> Result<Octets, AllocError>
    requires apid { apid ≤ 2046 }
    requires count { count ≤ 16383 }
    requires field { length header.now + length front.now + length rest.now ≤ longest_field }
    ensures { IfOk result (λ o. o
        ≡ spelling (fields_of kind apid count (header.now ++ front.now ++ rest.now))) }
{
    let len = header.len() + front.len() + rest.len();
    let primary = primary_header(kind, apid, count, len);
    sealed_octets(alloc, &primary, header, front, rest)
}

/// The primary header of a packet whose data field has so many octets.
pub fn primary_header(kind: PacketKind, apid: u16, count: u16, len: usize) -> [u8; PRIMARY_HEADER]
    requires apid { apid ≤ 2046 }
    requires count { count ≤ 16383 }
    requires len { len ≤ longest_field }
    ensures { result ≡ header_of kind apid count len }
{
    let packet_type = match kind {
        PacketKind::Tm => 0,
        PacketKind::Tc => 0x1000,
    };
    let first = (packet_type + 0x0800 + apid).to_be_bytes();
    let second = (0xc000 + count).to_be_bytes();
    let third = (len as u16 + 1).to_be_bytes();
    [first[0], first[1], second[0], second[1], third[0], third[1]]
}

// The pieces, one behind the other, and their checksum.
fn sealed_octets(
    alloc: Global,
    primary: &[u8; PRIMARY_HEADER],
    header: &[u8],
    front: &[u8],
    rest: &[u8],
) -> Result<Octets, AllocError>
    requires { length header.now + length front.now + length rest.now ≤ longest_field }
    ensures { IfOk result
        (λ o. o ≡ octets_sealed (primary.now ++ header.now ++ front.now ++ rest.now)) }
{
    let mut octets = Vec::with_capacity(
        alloc,
        PRIMARY_HEADER + header.len() + front.len() + rest.len() + ERROR_CONTROL,
    )?;
    octets.extend_from_slice(primary)?;
    octets.extend_from_slice(header)?;
    octets.extend_from_slice(front)?;
    octets.extend_from_slice(rest)?;
    let checksum = crc16(&octets);
    octets.extend_from_slice(&checksum.to_be_bytes())?;
    Ok(Octets::from_vec(octets))
}

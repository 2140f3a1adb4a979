//! Packets.

ghost use Rattle.std.specs.Prelude.{◌≡◌};
ghost use Rattle.lpt_c.specs.Buffers.{code_for, left_by, needed_by};
ghost use Rattle.lpt_c.specs.Packets.{kind_of_number, packet_text, packet_told};
ghost use Rattle.lpt_c.specs.Readings.{code_read, left_in, packet_read};
ghost use Rattle.lpt_c.specs.Standing.{rest_in, standing};

use crate::codes::{DONE, IDLE, RANGE, TOO_LONG};
use crate::filling::fill_packet;
use crate::rest::Rest;
use lpt_packet::{LONGEST_FIELD, PRIMARY_HEADER, PacketKind, Seen, read_packet};

/// A packet that was read.
#[repr(C)]
#[derive(Clone, Copy)]
pub struct LptPacket {
    /// 0 telemetry, 1 a telecommand.
    pub kind: u32,
    /// The application process identifier, 0 to 2046.
    pub apid: u16,
    /// The packet sequence count, 0 to 16,383.
    pub count: u16,
    /// Where the data field begins in the octets that were read, from 0.
    pub at: usize,
    /// How many octets the data field has.
    pub len: usize,
}

/// Reads octets as a packet.
///
/// It answers 0, and `out` says what it is; 101 of an idle packet; 1 to 6, the first fault of what
/// is no packet.
pub fn lpt_read_packet(octets: &[u8], out: &mut LptPacket) -> u32
    ensures code { result ≡ code_read (packet_read octets.now) }
    ensures out { out.new ≡ left_in packet_told (packet_read octets.now) out.old }
{
    match read_packet(octets) {
        Err(fault) => u32::from(fault.code()),
        Ok(Seen::Idle) => IDLE,
        Ok(Seen::Packet(packet)) => {
            *out = LptPacket {
                kind: match packet.kind {
                    PacketKind::Tm => 0,
                    PacketKind::Tc => 1,
                },
                apid: packet.apid,
                count: packet.count,
                at: PRIMARY_HEADER,
                len: packet.field.len(),
            };
            DONE
        }
    }
}

/// Writes a packet of telemetry, `kind` 0, or of a telecommand, 1, to the front of a buffer.
///
/// It answers 0; 102 if the kind is another, the APID above 2046 or the count above 16,383; 14 if
/// the packet would have more than 65,542 octets; 103 if the buffer is too short. At 0 and at 103
/// `needed` says how many octets the packet has.
#[tactic(auto, unfolding(crate::specs::Standing::rest_in))]
pub fn lpt_write_packet(
    kind: u32,
    apid: u16,
    count: u16,
    field: &[u8],
    out: &mut [u8],
    needed: &mut usize,
) -> u32
    ensures code { result
        ≡ code_for (packet_text (kind_of_number kind) apid count field.now) out.old }
    ensures buffer { out.new
        ≡ left_by (packet_text (kind_of_number kind) apid count field.now) out.old }
    ensures needed { needed.new
        ≡ needed_by (packet_text (kind_of_number kind) apid count field.now) needed.old }
{
    write_packet(kind, apid, count, Rest::Given(field), out, needed)
}

/// Does the same with a data field of `field_len` octets that stand in the buffer already, from
/// `out[6]` on, where they belong in the packet.
///
/// It answers as `lpt_write_packet` does for those octets. If the answer isn't 0 the buffer is as
/// it was.
#[tactic(auto, unfolding(crate::specs::Standing::rest_in))]
pub fn lpt_build_packet(
    kind: u32,
    apid: u16,
    count: u16,
    field_len: usize,
    out: &mut [u8],
    needed: &mut usize,
) -> u32
    ensures code { result
        ≡ code_for (packet_text (kind_of_number kind) apid count
        (standing 6 field_len out.old)) out.old }
    ensures buffer { out.new
        ≡ left_by (packet_text (kind_of_number kind) apid count
        (standing 6 field_len out.old)) out.old }
    ensures needed { needed.new
        ≡ needed_by (packet_text (kind_of_number kind) apid count
        (standing 6 field_len out.old)) needed.old }
{
    write_packet(kind, apid, count, Rest::Standing(field_len), out, needed)
}

// Writes a packet with this data field to the front of a buffer.
#[tactic(auto, using(crate::proofs::RestLemmas::length_rest))]
fn write_packet(
    kind: u32,
    apid: u16,
    count: u16,
    field: Rest<'_>,
    out: &mut [u8],
    needed: &mut usize,
) -> u32
    ensures code { result
        ≡ code_for (packet_text (kind_of_number kind) apid count
        (rest_in field.entry 6 out.old)) out.old }
    ensures buffer { out.new
        ≡ left_by (packet_text (kind_of_number kind) apid count
        (rest_in field.entry 6 out.old)) out.old }
    ensures needed { needed.new
        ≡ needed_by (packet_text (kind_of_number kind) apid count
        (rest_in field.entry 6 out.old)) needed.old }
{
    let kind = match kind {
        0 => PacketKind::Tm,
        1 => PacketKind::Tc,
        _ => return RANGE,
    };
    if apid > 2046 || count > 16383 {
        return RANGE;
    }
    if field.len() > LONGEST_FIELD {
        return TOO_LONG;
    }
    fill_packet(kind, apid, count, &[], field, out, needed)
}

//! Writing to the front of a buffer of the caller's.

ghost use Rattle.std.specs.Prelude.{◌≡◌, ◌+◌, ◌≤◌, ◌++◌, length, drop, Ok};
ghost use Rattle.lpt_packet.specs.Packets.{fields_of, octets_sealed, spelling};
ghost use Rattle.lpt_packet.specs.Sizes.{longest_field, longest_packet};
ghost use Rattle.lpt_memory.specs.Memories.{put_at};
ghost use Rattle.lpt_c.specs.Buffers.{code_for, left_by};
ghost use Rattle.lpt_c.specs.Standing.{rest_in, rest_len};

use crate::codes::{DONE, ROOM};
use crate::rest::Rest;
use lpt_packet::{ERROR_CONTROL, PRIMARY_HEADER, PacketKind, crc16, primary_header};

// Writes a packet to the front of a buffer, if it has room. Its data field is a header and what
// stands behind it.
#[tactic(auto, using(crate::proofs::TextLemmas::length_packet, crate::proofs::RestLemmas::length_rest))]
pub(crate) fn fill_packet(
    kind: PacketKind,
    apid: u16,
    count: u16,
    header: &[u8],
    rest: Rest<'_>,
    out: &mut [u8],
    needed: &mut usize,
) -> u32
    requires apid { apid ≤ 2046 }
    requires count { count ≤ 16383 }
    requires field { length header.now + rest_len rest ≤ longest_field }
    ensures code { result
        ≡ code_for (Ok (spelling (fields_of kind apid count
        (header.now ++ rest_in rest.entry (6 + length header.now) out.old)))) out.old }
    ensures buffer { out.new
        ≡ left_by (Ok (spelling (fields_of kind apid count
        (header.now ++ rest_in rest.entry (6 + length header.now) out.old)))) out.old }
    ensures needed { needed.new
        ≡ length (spelling (fields_of kind apid count
        (header.now ++ rest_in rest.entry (6 + length header.now) out.old))) }
{
    *needed = PRIMARY_HEADER + header.len() + rest.len() + ERROR_CONTROL;
    if out.len() < *needed {
        return ROOM;
    }
    write_packet_into(kind, apid, count, header, rest, out);
    DONE
}

// Writes a packet to the front of a buffer that has room for it.
fn write_packet_into(
    kind: PacketKind,
    apid: u16,
    count: u16,
    header: &[u8],
    rest: Rest<'_>,
    out: &mut [u8],
)
    requires apid { apid ≤ 2046 }
    requires count { count ≤ 16383 }
    requires field { length header.now + rest_len rest ≤ longest_field }
    requires room { length header.now + rest_len rest + 8 ≤ length out.old }
    ensures { out.new ≡ spelling (fields_of kind apid count
        (header.now ++ rest_in rest.entry (6 + length header.now) out.old))
        ++ drop (length header.now + rest_len rest.entry + 8) out.old }
{
    let len = header.len() + rest.len();
    let primary = primary_header(kind, apid, count, len);
    let (packet, _) = out.split_at_mut(PRIMARY_HEADER + len + ERROR_CONTROL);
    seal_into(&primary, header, rest, packet);
}

// The pieces, one behind the other, and their checksum, into a buffer of just their length.
fn seal_into(primary: &[u8; PRIMARY_HEADER], header: &[u8], rest: Rest<'_>, out: &mut [u8])
    requires { length header.now + rest_len rest + 8 ≡ length out.old }
    ensures { out.new ≡ octets_sealed (primary.now ++ header.now ++ rest_in rest.entry
        (6 + length header.now) out.old) }
{
    let (before, last) = out.split_at_mut(out.len() - ERROR_CONTROL);
    join_into(primary, header, rest, before);
    last.copy_from_slice(&crc16(before).to_be_bytes());
}

// Two pieces, one behind the other, and what stands behind them, into a buffer of just their
// length.
#[tactic(auto, using(crate::proofs::RestLemmas::stands_last), unfolding(crate::specs::Standing::rest_in, crate::specs::Standing::rest_len))]
fn join_into(first: &[u8], second: &[u8], rest: Rest<'_>, out: &mut [u8])
    requires { length first.now + length second.now + rest_len rest ≡ length out.old }
    ensures { out.new ≡ first.now ++ second.now ++ rest_in rest.entry
        (length first.now + length second.now) out.old }
{
    let (a, left) = out.split_at_mut(first.len());
    a.copy_from_slice(first);
    let (b, c) = left.split_at_mut(second.len());
    b.copy_from_slice(second);
    match rest {
        Rest::Given(octets) => c.copy_from_slice(octets),
        Rest::Standing(_) => {}
    }
}

// Writes two pieces, one behind the other, to the front of a buffer, if it has room.
#[tactic(auto, unfolding(crate::specs::Standing::rest_in, crate::specs::Standing::rest_len))]
pub(crate) fn fill(front: &[u8], rest: &[u8], out: &mut [u8], needed: &mut usize) -> u32
    requires { length front.now + length rest.now ≤ longest_packet }
    ensures code { result ≡ code_for (Ok (front.now ++ rest.now)) out.old }
    ensures buffer { out.new ≡ left_by (Ok (front.now ++ rest.now)) out.old }
    ensures needed { needed.new ≡ length (front.now ++ rest.now) }
{
    fill_behind(&[], front, Rest::Given(rest), out, needed)
}

// Writes two pieces, one behind the other, and what stands behind them, to the front of a buffer,
// if it has room.
pub(crate) fn fill_behind(
    first: &[u8],
    second: &[u8],
    rest: Rest<'_>,
    out: &mut [u8],
    needed: &mut usize,
) -> u32
    requires { length first.now + length second.now + rest_len rest ≤ longest_packet }
    ensures code { result
        ≡ code_for (Ok (first.now ++ second.now ++ rest_in rest.entry
        (length first.now + length second.now) out.old)) out.old }
    ensures buffer { out.new
        ≡ left_by (Ok (first.now ++ second.now ++ rest_in rest.entry
        (length first.now + length second.now) out.old)) out.old }
    ensures needed { needed.new
        ≡ length (first.now ++ second.now ++ rest_in rest.entry
        (length first.now + length second.now) out.old) }
{
    *needed = first.len() + second.len() + rest.len();
    if out.len() < *needed {
        return ROOM;
    }
    let (text, _) = out.split_at_mut(*needed);
    join_into(first, second, rest, text);
    DONE
}

// Writes octets over those of a buffer from a place on.
pub(crate) fn put(out: &mut [u8], at: usize, octets: &[u8])
    requires { at + length octets.now ≤ length out.old }
    ensures { out.new ≡ put_at out.old at octets.now }
{
    out[at..at + octets.len()].copy_from_slice(octets);
}

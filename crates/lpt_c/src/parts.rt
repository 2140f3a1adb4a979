//! Parts of large messages.

ghost use Rattle.std.specs.Prelude.{◌≡◌, ◌<◌, ◌≤◌, length, Ok, Some};
ghost use Rattle.lpt_part.specs.Parts.{body_of};
ghost use Rattle.lpt_part.specs.Splitting.{IsPartSize, kind_at, part_count, part_of};
ghost use Rattle.lpt_c.specs.Buffers.{code_for, left_by, needed_by};
ghost use Rattle.lpt_c.specs.Packets.{kind_of_number};
ghost use Rattle.lpt_c.specs.Parts.{carried_kind, count_told, kind_in, kind_named, kind_number, kind_told, part_read, part_text, part_told, piece_of, slice_text};
ghost use Rattle.lpt_c.specs.Readings.{code_read, left_in};
ghost use Rattle.lpt_c.specs.Standing.{rest_in, rest_len, standing};

use crate::codes::{DONE, KIND_NUMBER, LONG, NO_SUCH_PART, PART_LENGTH, RANGE, SHORT, ZERO};
use crate::filling::fill_behind;
use crate::rest::Rest;
use lpt_packet::LONGEST_PACKET;
use lpt_part::{Kind, count, length_fits, number_fits, read_part, slice};

/// A part that was read.
#[repr(C)]
#[derive(Clone, Copy)]
pub struct LptPart {
    /// The transaction identifier.
    pub id: u16,
    /// The part sequence number, from 1.
    pub number: u16,
    /// 1 the first part, 2 an intermediate one, 3 the last.
    pub kind: u32,
    /// Where the part's octets begin in the body that was read, from 0.
    pub at: usize,
    /// How many octets the part has.
    pub len: usize,
}

/// The service type of large packet transfer.
const TRANSFER: u8 = 13;

/// What a message of this service and subtype is, in a packet of this kind: 1 the first part of a
/// message, 2 an intermediate one, 3 the last; 0 if it carries no part, or the packet's kind is
/// above 1.
pub fn lpt_part_kind(packet_kind: u32, service: u8, subtype: u8) -> u32
    ensures { result ≡ carried_kind (kind_of_number packet_kind) service subtype }
{
    match (packet_kind, service, subtype) {
        (0, TRANSFER, 1) | (1, TRANSFER, 9) => 1,
        (0, TRANSFER, 2) | (1, TRANSFER, 10) => 2,
        (0, TRANSFER, 3) | (1, TRANSFER, 11) => 3,
        _ => 0,
    }
}

/// How many parts of `part_size` octets a message of this length has; 0 if the size isn't 4 to
/// 1024, or the message has more than 65,542 octets.
pub fn lpt_part_count(message_len: usize, part_size: u32) -> u32
    ensures { result ≡ count_told message_len part_size }
{
    if part_size < 4 || part_size > 1024 || message_len > LONGEST_PACKET {
        return 0;
    }
    count(message_len as u32, part_size)
}

/// Reads a message's body as a part of this kind, for parts of `part_size` octets.
///
/// It answers 0, and `out` says what it is; 102 if the kind isn't 1 to 3 or the size isn't 4 to
/// 1024; 20 to 23, the first fault of a body that is no such part.
pub fn lpt_read_part(kind: u32, body: &[u8], part_size: u32, out: &mut LptPart) -> u32
    ensures code { result ≡ code_read (part_read (kind_named kind) body.now part_size) }
    ensures out { out.new
        ≡ left_in part_told (part_read (kind_named kind) body.now part_size) out.old }
{
    let Some(of_kind) = kind_named(kind) else {
        return RANGE;
    };
    if part_size < 4 || part_size > 1024 {
        return RANGE;
    }
    match read_part(of_kind, body, part_size) {
        Err(fault) => u32::from(fault.code()),
        Ok(part) => {
            *out = LptPart {
                id: part.id,
                number: part.number,
                kind: number_of(part.kind),
                at: 4,
                len: part.octets.len(),
            };
            DONE
        }
    }
}

/// Writes the body of a message that carries a part to the front of a buffer.
///
/// It answers 0; 102 if the kind isn't 1 to 3 or the size isn't 4 to 1024; 21, 22 or 23 if there is
/// no part of this kind, number and length; 103 if the buffer is too short. At 0 and at 103
/// `needed` says how many octets the body has, 4 more than the part.
#[tactic(auto, unfolding(crate::specs::Standing::rest_in))]
pub fn lpt_write_part(
    kind: u32,
    id: u16,
    number: u16,
    octets: &[u8],
    part_size: u32,
    out: &mut [u8],
    needed: &mut usize,
) -> u32
    ensures code { result
        ≡ code_for (part_text (kind_named kind) id number part_size octets.now) out.old }
    ensures buffer { out.new
        ≡ left_by (part_text (kind_named kind) id number part_size octets.now) out.old }
    ensures needed { needed.new
        ≡ needed_by (part_text (kind_named kind) id number part_size octets.now) needed.old }
{
    write_part(
        kind,
        id,
        number,
        Rest::Given(octets),
        part_size,
        out,
        needed,
    )
}

/// Does the same with a part of `octets_len` octets that stand in the buffer already, from `out[4]`
/// on, where they belong in the body.
///
/// It answers as `lpt_write_part` does for those octets. If the answer isn't 0 the buffer is as it
/// was.
#[tactic(auto, unfolding(crate::specs::Standing::rest_in))]
pub fn lpt_build_part(
    kind: u32,
    id: u16,
    number: u16,
    octets_len: usize,
    part_size: u32,
    out: &mut [u8],
    needed: &mut usize,
) -> u32
    ensures code { result
        ≡ code_for (part_text (kind_named kind) id number part_size
        (standing 4 octets_len out.old)) out.old }
    ensures buffer { out.new
        ≡ left_by (part_text (kind_named kind) id number part_size
        (standing 4 octets_len out.old)) out.old }
    ensures needed { needed.new
        ≡ needed_by (part_text (kind_named kind) id number part_size
        (standing 4 octets_len out.old)) needed.old }
{
    write_part(
        kind,
        id,
        number,
        Rest::Standing(octets_len),
        part_size,
        out,
        needed,
    )
}

// Writes the body of a message that carries a part to the front of a buffer.
#[tactic(auto, using(crate::proofs::RestLemmas::length_rest))]
fn write_part(
    kind: u32,
    id: u16,
    number: u16,
    octets: Rest<'_>,
    part_size: u32,
    out: &mut [u8],
    needed: &mut usize,
) -> u32
    ensures code { result
        ≡ code_for (part_text (kind_named kind) id number part_size
        (rest_in octets.entry 4 out.old)) out.old }
    ensures buffer { out.new
        ≡ left_by (part_text (kind_named kind) id number part_size
        (rest_in octets.entry 4 out.old)) out.old }
    ensures needed { needed.new
        ≡ needed_by (part_text (kind_named kind) id number part_size
        (rest_in octets.entry 4 out.old)) needed.old }
{
    let Some(of_kind) = kind_named(kind) else {
        return RANGE;
    };
    if part_size < 4 || part_size > 1024 {
        return RANGE;
    }
    if number == 0 {
        return ZERO;
    }
    if !number_fits(of_kind, number) {
        return KIND_NUMBER;
    }
    if !length_fits(of_kind, number, octets.len(), part_size) {
        return PART_LENGTH;
    }
    fill_part(of_kind, id, number, octets, out, needed)
}

/// Writes the body of the message that carries the part of a number, in parts of `part_size`
/// octets, to the front of a buffer, and gives the part's kind, 1 to 3.
///
/// It answers 0; 102 if the size isn't 4 to 1024; 42 if the message isn't longer than a part, 43 if
/// it has more than 65,542 octets; 46 if it has no part of that number; 103 if the buffer is too
/// short. At 0 and at 103 the kind is written, and `needed` says how many octets the body has.
#[tactic(auto, unfolding(crate::specs::Standing::rest_in, crate::specs::Standing::rest_len))]
pub fn lpt_slice_part(
    message: &[u8],
    part_size: u32,
    id: u16,
    number: u16,
    kind: &mut u32,
    out: &mut [u8],
    needed: &mut usize,
) -> u32
    ensures code { result ≡ code_for (slice_text message.now part_size id number) out.old }
    ensures buffer { out.new ≡ left_by (slice_text message.now part_size id number) out.old }
    ensures needed { needed.new
        ≡ needed_by (slice_text message.now part_size id number) needed.old }
    ensures kind { kind.new
        ≡ kind_told (slice_text message.now part_size id number)
        (kind_in message.now part_size number) kind.old }
{
    if part_size < 4 || part_size > 1024 {
        return RANGE;
    }
    if message.len() <= part_size as usize {
        return SHORT;
    }
    if message.len() > LONGEST_PACKET {
        return LONG;
    }
    let parts = count(message.len() as u32, part_size);
    if number == 0 || u32::from(number) > parts {
        return NO_SUCH_PART;
    }
    let of_kind = kind_of_part(u32::from(number), parts);
    *kind = number_of(of_kind);
    fill_part(
        of_kind,
        id,
        number,
        Rest::Given(part(message, part_size, number)),
        out,
        needed,
    )
}

// The octets of a part that the message has.
fn part(message: &[u8], p: u32, k: u16) -> &[u8]
    requires size { IsPartSize p }
    requires first { 1 ≤ k }
    requires last { k ≤ part_count (length message.now) p }
    ensures { result.now ≡ part_of message.now p k }
{
    slice(message, p, u32::from(k)).unwrap_or(&[])
}

// The kind of part k of so many.
fn kind_of_part(k: u32, parts: u32) -> Kind
    ensures { result ≡ kind_at k parts }
{
    if k == 1 {
        Kind::First
    } else if k == parts {
        Kind::Last
    } else {
        Kind::Middle
    }
}

// Writes a part's body to the front of a buffer, if it has room.
#[tactic(auto, unfolding(lpt_part::specs::Parts::body_of))]
fn fill_part(
    kind: Kind,
    id: u16,
    number: u16,
    octets: Rest<'_>,
    out: &mut [u8],
    needed: &mut usize,
) -> u32
    requires { rest_len octets ≤ 1024 }
    ensures code { result
        ≡ code_for (Ok (body_of (piece_of id number kind
        (rest_in octets.entry 4 out.old)))) out.old }
    ensures buffer { out.new
        ≡ left_by (Ok (body_of (piece_of id number kind
        (rest_in octets.entry 4 out.old)))) out.old }
    ensures needed { needed.new
        ≡ length (body_of (piece_of id number kind (rest_in octets.entry 4 out.old))) }
{
    let _ = kind;
    let id = id.to_be_bytes();
    let number = number.to_be_bytes();
    fill_behind(
        &[],
        &[id[0], id[1], number[0], number[1]],
        octets,
        out,
        needed,
    )
}

// The kind of a number.
fn kind_named(kind: u32) -> Option<Kind>
    ensures { result ≡ kind_named kind }
{
    match kind {
        1 => Some(Kind::First),
        2 => Some(Kind::Middle),
        3 => Some(Kind::Last),
        _ => None,
    }
}

// The number of a kind.
fn number_of(kind: Kind) -> u32
    ensures { result ≡ kind_number kind }
{
    match kind {
        Kind::First => 1,
        Kind::Middle => 2,
        Kind::Last => 3,
    }
}

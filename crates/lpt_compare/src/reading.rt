//! Check reports, read.

ghost use Rattle.std.specs.Prelude.{◌≡◌, ◌≢◌, map, option_map, true, Err, IfOk, Ok};
ghost use Rattle.lpt_packet.specs.declared.fault.PacketFault.TheVariants.{Checksum};
ghost use Rattle.lpt_packet.specs.declared.packet.PacketKind.TheVariants.{Tm};
ghost use Rattle.lpt_packet.specs.Packets.{verdict};
ghost use Rattle.lpt_memory.specs.Fields.{all_areas};
ghost use Rattle.lpt_carried.specs.Carried.{cut_for};
ghost use Rattle.lpt_layout.specs.Messages.{message_verdict, message_said};
ghost use Rattle.lpt_layout.specs.Packets.{fields};
ghost use Rattle.lpt_stream.specs.Pieces.{IsSealedBy};
ghost use Rattle.lpt_compare.specs.Checks.{in_body, one_area, piece_said, said_by, said_in};
ghost use Rattle.lpt_compare.specs.Sayings.{saying_of};

use crate::{Checked, Layout};
use lpt_layout::{Message, PacketAs, SeenAs, read_sealed_as, read_tm_as};
use lpt_memory::fields;
use lpt_stream::{Cut, PieceKind};
use std::alloc::{AllocError, Global};

/// The service type of memory management.
const MEMORY: u8 = 6;

/// The message subtype of a report that answers a check.
const CHECK_REPORT: u8 = 10;

/// The service type of large packet transfer, and the message subtypes of parts that come down.
const LARGE_PACKETS: u8 = 13;

const FIRST_PART: u8 = 1;

const LAST_PART: u8 = 3;

// What a packet is to who looks for check reports of a memory.
#[derive(Drop)]
pub(crate) enum Said {
    // One that says this of its areas: none, if it is another memory's.
    Areas(Vec<Checked>),
    // One that isn't read.
    Unread,
    // A part of a message, which may be one.
    Part,
    // One of this other APID, or a part of that.
    Foreign(u16),
    // None of these.
    Other,
}

// How a stream of packets of this layout is cut: by checksums, if they have one.
pub(crate) fn cut_for(layout: &Layout) -> Cut
    ensures { result ≡ cut_for layout.now.has_checksum }
{
    if layout.has_checksum {
        Cut::Sealed
    } else {
        Cut::Framed
    }
}

// What a piece of this kind is by this layout, to who looks for check reports of this APID and
// memory. The only error is out of memory.
pub(crate) fn said_in_piece(
    alloc: Global,
    layout: &Layout,
    apid: u16,
    memory: u8,
    kind: PieceKind,
    octets: &[u8],
) -> Result<Said, AllocError>
    requires { IsSealedBy (cut_for layout.now.has_checksum) kind octets.now }
    ensures { IfOk result (λ r. saying_of r ≡ piece_said layout.now apid memory kind octets.now) }
{
    match kind {
        PieceKind::Whole => said_in(alloc, layout, apid, memory, octets),
        PieceKind::Damaged => Ok(Said::Other),
        PieceKind::Stray => Ok(Said::Other),
    }
}

// What the octets of a whole piece are. The only error is out of memory.
#[tactic(auto, unfolding(crate::specs::Checks::said_in))]
fn said_in(
    alloc: Global,
    layout: &Layout,
    apid: u16,
    memory: u8,
    octets: &[u8],
) -> Result<Said, AllocError>
    requires { layout.now.has_checksum ≡ true → verdict octets.now ≢ Err Checksum }
    ensures { IfOk result (λ r. saying_of r ≡ said_in layout.now apid memory octets.now) }
{
    match read_sealed_as(layout, octets) {
        Ok(SeenAs::Packet(packet)) => in_packet(alloc, layout, apid, memory, &packet),
        Ok(SeenAs::Idle) | Err(_) => Ok(Said::Other),
    }
}

// What a packet is. The only error is out of memory.
fn in_packet(
    alloc: Global,
    layout: &Layout,
    apid: u16,
    memory: u8,
    packet: &PacketAs<'_>,
) -> Result<Said, AllocError>
    ensures { IfOk result (λ r. saying_of r
        ≡ said_by apid memory (message_verdict layout.now Tm (fields packet.now))) }
{
    match read_tm_as(layout, packet) {
        Ok(message) => in_message(alloc, apid, memory, &message),
        Err(_) => Ok(Said::Other),
    }
}

// What telemetry is. The only error is out of memory.
fn in_message(
    alloc: Global,
    apid: u16,
    memory: u8,
    message: &Message<'_>,
) -> Result<Said, AllocError>
    ensures { IfOk result (λ r. saying_of r ≡ said_by apid memory (Ok (message_said message.now))) }
{
    let is_own = message.apid == apid;
    match (message.service, message.subtype) {
        (MEMORY, CHECK_REPORT) if is_own => in_body(alloc, memory, message.body),
        (LARGE_PACKETS, FIRST_PART..=LAST_PART) if is_own => Ok(Said::Part),
        (MEMORY, CHECK_REPORT) => Ok(Said::Foreign(message.apid)),
        (LARGE_PACKETS, FIRST_PART..=LAST_PART) => Ok(Said::Foreign(message.apid)),
        _ => Ok(Said::Other),
    }
}

// What the body of a check report says of a memory. The only error is out of memory.
#[tactic(auto, unfolding(crate::specs::Checks::in_body, lpt_memory::specs::Requests::request_in))]
fn in_body(alloc: Global, memory: u8, body: &[u8]) -> Result<Said, AllocError>
    ensures { IfOk result (λ r. saying_of r ≡ in_body memory body.now) }
{
    let Some((of, count, rest)) = fields::head(body) else {
        return Ok(Said::Unread);
    };
    let Some(areas) = read_areas(alloc, count, rest)? else {
        return Ok(Said::Unread);
    };
    if of == memory {
        Ok(Said::Areas(areas))
    } else {
        Ok(Said::Areas(Vec::new(alloc)))
    }
}

// So many areas, with nothing behind them. The only error is out of memory.
fn read_areas(alloc: Global, count: u8, octets: &[u8]) -> Result<Option<Vec<Checked>>, AllocError>
    ensures { IfOk result (λ r. option_map (λ v. v.items) r
        ≡ all_areas one_area count octets.now) }
{
    let mut areas = Vec::with_capacity(alloc, usize::from(count))?;
    let mut rest = octets;
    for _ in 0..count {
        let Some((area, behind)) = read_area(rest) else {
            return Ok(None);
        };
        areas.push(area)?;
        rest = behind;
    }
    if !rest.is_empty() {
        return Ok(None);
    }
    Ok(Some(areas))
}

// The area that stands first, and what is behind it.
#[tactic(auto, unfolding(crate::specs::Checks::one_area, lpt_memory::specs::Requests::front_range))]
fn read_area(octets: &[u8]) -> Option<(Checked, &[u8])>
    ensures { option_map (λ x. (x.0, x.1.now)) result ≡ one_area octets.now }
{
    let (address, rest) = fields::long(octets)?;
    let (len, rest) = fields::word(rest)?;
    if len == 0 {
        return None;
    }
    let (checksum, rest) = fields::word(rest)?;
    Some((
        Checked {
            address,
            len,
            checksum,
        },
        rest,
    ))
}

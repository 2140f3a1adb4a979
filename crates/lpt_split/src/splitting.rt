//! The packets of a stream, each split as a message of its own.

ghost use Rattle.std.specs.Prelude.{◌≡◌, ◌≢◌, ◌<◌, ◌≤◌, ◌^◌, false, true, length, take, None, IfSome, Result};
ghost use Rattle.lpt_carried.specs.Carried.{kind_to};
ghost use Rattle.lpt_text.specs.Streams.{ReadEnds, WriteEnds};
ghost use Rattle.lpt_split.specs.MessagesEach.{IsMessage};
ghost use Rattle.lpt_split.specs.Streams.{SplitsEach, end_at, identifiers, is_end};
ghost use Rattle.lpt_split.specs.StreamsInside.{EndsBefore, MakesPackets};

use crate::one::{One, split_one};
use crate::{EachEnd, EachSplit, EachWanted, Writing, front, greatest};
use lpt_layout::{SeenAs, read_packet_as};
use lpt_packet::{Direction, PacketKind};
use lpt_stream::{Cut, Found, PacketBuffer, PieceKind};
use lpt_text::{FromStd, Sink, Source, StreamFault, write_out};
use std::alloc::Global;

/// Reads a stream of packets to its end, and then writes of each, as a message of its own, the
/// packets that are wanted: the first under the identifier of the name that is wanted, and each
/// other under the identifier behind. The sequence counts go on from message to message.
///
/// The answer says where that ended. Before the stream's end it ends if something isn't to be
/// split, and then nothing is written.
///
/// Errors: `Read` if a read failed, and `Memory`: nothing was written; `Write` if a write
/// failed: a front part of what is wanted stays written.
pub fn split_each<S: Source, K: Sink>(
    alloc: Global,
    wanted: &EachWanted<'_>,
    source: &mut S,
    out: &mut K,
) -> Result<EachSplit, StreamFault>
    ensures ends { SplitsEach wanted.now result (S.remaining source.old)
        (S.remaining source.new) (K.contents out.old) (K.contents out.new) }
    ensures reader { ReadEnds ⊥ result (S.failed source.old) (S.failed source.new) }
    ensures writer { WriteEnds result (K.failed out.old) (K.failed out.new) }
{
    let Ok(front) = front(alloc, wanted.writing.form) else {
        return Err(StreamFault::Memory);
    };
    let mut made = FromStd::new(front);
    let split = match make_packets(alloc, wanted, source, &mut made) {
        Ok(split) => split,
        Err(StreamFault::Read) => return Err(StreamFault::Read),
        Err(_) => return Err(StreamFault::Memory),
    };
    let made = made.into_inner();
    if !is_end(split.end) {
        return Ok(split);
    }
    match write_out(out, &made) {
        Ok(()) => Ok(split),
        Err(_) => Err(StreamFault::Write),
    }
}

// Reads a stream of packets, and writes what is wanted of each up to where it ends.
fn make_packets<S: Source, K: Sink>(
    alloc: Global,
    wanted: &EachWanted<'_>,
    source: &mut S,
    out: &mut K,
) -> Result<EachSplit, StreamFault>
    ensures makes { MakesPackets wanted.now result (S.remaining source.old)
        (S.remaining source.new) (K.contents out.old) (K.contents out.new) }
    ensures reader { ReadEnds ⊥ result (S.failed source.old) (S.failed source.new) }
{
    let mut buffer = PacketBuffer::new(alloc, Cut::Framed);
    let mut next = u64::from(wanted.id);
    let mut count = wanted.first;
    let mut place: u64 = 0;
    loop {
        let Some(found) = buffer.find_piece_passing(source, out)? else {
            return Ok(split_ended(next, EachEnd::End));
        };
        let held = buffer.octets_held();
        if let Some(end) = end_before(wanted, next, place, found, held) {
            return Ok(split_ended(next, end));
        }
        match split_one(alloc, wanted, next as u32, count, &held[..found.len], out) {
            Ok(One::Written(behind)) => count = behind,
            Ok(One::Unsplit(end)) => return Ok(split_ended(next, EachEnd::Unsplit(end))),
            Err(fault) => return Err(fault),
        }
        place = place.saturating_add(found.len as u64);
        next += 1;
        buffer.skip(found);
    }
}

// How the split ends before this piece, which is in front of what is held and would get this
// identifier. None if it is a message that gets one.
fn end_before(
    wanted: &EachWanted<'_>,
    next: u64,
    place: u64,
    found: Found,
    held: &[u8],
) -> Option<EachEnd>
    requires { found.len ≤ length held.now }
    ensures some { IfSome result (λ end. EndsBefore wanted.now next place found.kind
        (take found.len held.now) held.now end) }
    ensures none { result ≡ None → (found.kind ≡ PieceKind.Whole) × (next < identifiers wanted.now)
        × IsMessage wanted.now.writing (take found.len held.now) }
    ensures few { result ≡ None → next < 2 ^ 32 }
{
    if !is_packet(found.kind) {
        return Some(end_at(place, held));
    }
    if next > u64::from(greatest(wanted.writing.parts.id)) {
        return Some(EachEnd::NoIdentifier(place));
    }
    if !is_message(&wanted.writing, &held[..found.len]) {
        return Some(EachEnd::NoMessage(place));
    }
    None
}

// Whether a piece is a packet.
fn is_packet(kind: PieceKind) -> bool
    ensures packet { result ≡ true → kind ≡ PieceKind.Whole }
    ensures none { result ≡ false → kind ≢ PieceKind.Whole }
{
    matches!(kind, PieceKind::Whole)
}

// Whether octets are a packet of the layout and the direction.
fn is_message(writing: &Writing<'_>, octets: &[u8]) -> bool
    ensures fit { result ≡ true → IsMessage writing.now octets.now }
    ensures unfit { result ≡ false → IsMessage writing.now octets.now → ⊥ }
{
    match read_packet_as(&writing.layout, octets) {
        Ok(SeenAs::Packet(packet)) => goes(writing.direction, packet.kind),
        Ok(SeenAs::Idle) | Err(_) => false,
    }
}

// Whether packets of this type go in this direction.
fn goes(direction: Direction, kind: PacketKind) -> bool
    ensures fit { result ≡ true → kind ≡ kind_to direction }
    ensures unfit { result ≡ false → kind ≡ kind_to direction → ⊥ }
{
    match (direction, kind) {
        (Direction::Up, PacketKind::Tc) | (Direction::Down, PacketKind::Tm) => true,
        (Direction::Up, PacketKind::Tm) | (Direction::Down, PacketKind::Tc) => false,
    }
}

// An end before the message of this identifier.
fn split_ended(next: u64, end: EachEnd) -> EachSplit
    ensures { result ≡ record { next = next; end = end } }
{
    EachSplit { next, end }
}

// Whether it ended at the stream's end.
fn is_end(end: EachEnd) -> bool
    ensures { result ≡ is_end end }
{
    matches!(end, EachEnd::End)
}

// How a split ends before octets with which no whole packet begins, at this place.
fn end_at(place: u64, left: &[u8]) -> EachEnd
    ensures { result ≡ end_at place left.now }
{
    if left.is_empty() || left[0] >> 5 == 0 {
        EachEnd::Cut(place)
    } else {
        EachEnd::Stray(place)
    }
}

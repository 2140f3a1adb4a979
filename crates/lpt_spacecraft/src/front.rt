//! What stands at the front of a stream.

ghost use Rattle.std.specs.Prelude.{◌≡◌, ◌&&◌};
ghost use Rattle.std.specs.Io.KnownBytes.{Keeps};
ghost use Rattle.lpt_stream.specs.Buffers.{is_ended, octets_held};
ghost use Rattle.lpt_stream.specs.Pieces.{is_awaited, is_framed, is_version};
ghost use Rattle.lpt_text.specs.Streams.{WriteEnds};
ghost use Rattle.lpt_spacecraft.specs.Fronts.{FindsFront, IsCutting};
ghost use Rattle.lpt_spacecraft.specs.Stretches.{is_stray, is_taken};

use crate::strays::pass_over;
use crate::{Passing, Stop};
use lpt_stream::{PacketBuffer, Peer, PieceKind, is_awaited, packet_length, whole_length};
use lpt_text::{Sink, StreamFault};

// What stands at the front of a stream.
#[derive(Clone, Copy)]
pub(crate) enum Front {
    // A packet of so many octets.
    Packet(usize),
    // So many octets that are no packet: they were passed over.
    Strays(u64),
    // Neither: the stream stops there.
    Stop(Stop),
}

// Reads until what is held shows what stands in front of it, at this place of the stream, and gives
// that. If that is asked for, what is no packet is passed over: a damaged packet by its length, or
// octets astray, all of them. Before each read `out` passes on what it has kept back.
//
// Errors: `Read` if a read failed, or if 2^64 - 1 octets were passed over; `Write` if `out` failed;
// `Memory`, with which some octets of the stream are lost.
pub(crate) fn find_front<P: Peer, K: Sink>(
    buffer: &mut PacketBuffer,
    passing: Passing,
    place: u64,
    peer: &mut P,
    out: &mut K,
) -> Result<Front, StreamFault>
    requires cutting { IsCutting passing buffer.old (P.remaining peer.old) }
    ensures finds { FindsFront passing place result buffer.old buffer.new (P.remaining peer.old)
        (P.remaining peer.new) (P.failed peer.old) (P.failed peer.new) }
    ensures same { Keeps (K.contents out.old) (K.contents out.new) }
    ensures writer { WriteEnds result (K.failed out.old) (K.failed out.new) }
{
    let Some(found) = buffer.find_piece_passing(peer, out)? else {
        return Ok(Front::Stop(Stop::End));
    };
    let octets = buffer.octets_held();
    if is_taken(passing, found.kind, &octets[..found.len]) {
        return Ok(Front::Packet(found.len));
    }
    let said = packet_length(octets);
    if is_cut_off(buffer, passing.longest) {
        return Ok(Front::Stop(Stop::Cut(place, said)));
    }
    let is_on = passing.is_on;
    if !is_on {
        return Ok(Front::Stop(Stop::Stray(place, said)));
    }
    if !is_stray(found.kind) {
        // What a damaged packet carries isn't searched.
        buffer.skip(found);
        return Ok(Front::Strays(found.len as u64));
    }
    let len = pass_over(buffer, passing, found, peer, out)?;
    Ok(Front::Strays(len))
}

// Whether the stream has ended, in a packet that isn't longer than the longest.
fn is_cut_off(buffer: &PacketBuffer, longest: usize) -> bool
    ensures { result
        ≡ (is_ended buffer.now && is_awaited longest (octets_held buffer.now)) }
{
    buffer.is_ended() && is_awaited(longest, buffer.octets_held())
}

// Whether an octet is astray.
pub(crate) fn is_stray(kind: PieceKind) -> bool
    ensures { result ≡ is_stray kind }
{
    match kind {
        PieceKind::Stray => true,
        PieceKind::Whole | PieceKind::Damaged => false,
    }
}

// Whether a piece of this kind, of these octets, is taken.
fn is_taken(passing: Passing, kind: PieceKind, octets: &[u8]) -> bool
    ensures { result ≡ is_taken passing kind octets.now }
{
    match kind {
        PieceKind::Whole => true,
        PieceKind::Damaged => !passing.is_on && is_as_said(octets),
        PieceKind::Stray => false,
    }
}

// Whether they have version 0, and are as many as their header says.
fn is_as_said(octets: &[u8]) -> bool
    ensures { result ≡ (is_version octets.now && is_framed octets.now) }
{
    (octets.is_empty() || octets[0] >> 5 == 0) && whole_length(octets).is_some()
}

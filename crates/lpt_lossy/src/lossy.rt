//! A stream of packets, carried over the link as it comes.

ghost use Rattle.std.specs.Prelude.{◌≡◌, IfErr, IsOk, OnOk};
ghost use Rattle.std.specs.List.{concat};
ghost use Rattle.std.specs.Io.KnownBytes.{Appends};
ghost use Rattle.lpt_text.specs.Streams.{AppendsPart, ReadEnds, WriteEnds};
ghost use Rattle.lpt_lossy.specs.Ends.{Carries, CarriesPart, IsEndless};
ghost use Rattle.lpt_lossy.specs.Frames.{packet_in};
ghost use Rattle.lpt_lossy.specs.TurnsInside.{turn_octets};

use crate::carrying::carry;
use crate::counts::{CrossingCounts, LossyEnd};
use crate::dice::Dice;
use crate::link::LossyLink;
use crate::settling::fate_settled;
use crate::turns::Turns;
use lpt_stream::{Cut, Found, PacketBuffer, PieceKind};
use lpt_text::{Sink, Source, StreamFault, flush_out};
use std::alloc::Global;

/// Reads the packets of a stream and writes them again, as the dice say and the link allows: some
/// not, some twice, some later, and some with changed bits. At the end all that is held is written
/// and passed on; so is what was written before each read.
///
/// Each packet that is written is one that was read or, if packets of its type have a checksum and
/// the odds say that some are damaged, one that was and is none any more: it has as many octets,
/// and the checksum shows that bits of it were changed. Either its first octet and its length field
/// are as they were, or, if the odds say that headers are damaged, all behind its header is.
///
/// Octets with which no packet begins end the run: those of another version than 0, and those at
/// the stream's end that are fewer than their header says.
///
/// Errors: `Read` if a read failed, or if 2^64 - 1 packets came; `Write` if a write
/// failed; `Memory`. A front part of what would be written stays written.
pub fn lossy_stream<S: Source, K: Sink>(
    alloc: Global,
    link: &LossyLink,
    dice: &mut Dice,
    source: &mut S,
    out: &mut K,
) -> Result<LossyEnd, StreamFault>
    ensures ends { OnOk result (Carries link.now.layouts dice.old.odds
        (S.remaining source.old) (S.remaining source.new)
        (K.contents out.old) (K.contents out.new)) }

    // All that was written is passed on.
    ensures passed { IsOk result → K.flushed out.new ≡ K.contents out.new }

    // What a fault leaves.
    ensures leaves { IfErr result (λ _. CarriesPart link.now.layouts dice.old.odds
        (S.remaining source.old) (S.remaining source.new)
        (K.contents out.old) (K.contents out.new)) }
    ensures reader { ReadEnds (IsEndless (S.remaining source.old) (S.remaining source.new)) result
        (S.failed source.old) (S.failed source.new) }
    ensures writer { WriteEnds result (K.failed out.old) (K.failed out.new) }
{
    let mut buffer = PacketBuffer::new(alloc, Cut::Framed);
    let mut turns = Turns::new(alloc, link.most_later)?;
    let mut counts = CrossingCounts::new();
    let mut place: u64 = 0;
    for _ in 0..u64::MAX {
        let front = buffer.find_piece_passing(source, out)?;
        let found = match packet_in(front) {
            Some(found) => found,
            None => {
                end_run(&turns, out)?;
                let stray = stray_at(place, buffer.octets_held());
                return Ok(LossyEnd { counts, stray });
            }
        };
        let octets = &buffer.octets_held()[..found.len];
        let way = fate_settled(dice.decide(found.len), link, octets);
        carry(alloc, &way, octets, &mut turns, out)?;
        counts.add(&way);
        place = place.saturating_add(found.len as u64);
        buffer.skip(found);
    }
    Err(StreamFault::Read)
}

// Writes all that is held, and has it passed on.
//
// Errors: `Write` if a write failed.
fn end_run<K: Sink>(turns: &Turns, out: &mut K) -> Result<(), StreamFault>
    ensures ok { OnOk result (Appends (K.contents out.old) (K.contents out.new)
        (concat (turn_octets turns.now))) }
    ensures passed { IsOk result → K.flushed out.new ≡ K.contents out.new }
    ensures fault { IfErr result (λ e. e ≡ StreamFault.Write) }
    ensures part { IfErr result (λ _. AppendsPart (K.contents out.old) (K.contents out.new)
        (concat (turn_octets turns.now))) }
    ensures writer { WriteEnds result (K.failed out.old) (K.failed out.new) }
{
    turns.write_all(out)?;
    flush_out(out)
}

// The packet in front, if one is.
fn packet_in(front: Option<Found>) -> Option<Found>
    ensures { result ≡ packet_in front }
{
    let found = front?;
    match found.kind {
        PieceKind::Whole => Some(found),
        PieceKind::Damaged | PieceKind::Stray => None,
    }
}

// The place of octets that are left there, if some are.
fn stray_at(place: u64, left: &[u8]) -> Option<u64> {
    if left.is_empty() { None } else { Some(place) }
}

//! One packet, carried over the link.

ghost use Rattle.std.specs.Prelude.{◌≡◌, ◌<◌, ◌⊎◌, true, length, IfErr, IfSome, OnOk};
ghost use Rattle.std.specs.Io.KnownBytes.{Appends};
ghost use Rattle.lpt_text.specs.Streams.{AppendsPart, WriteEnds};
ghost use Rattle.lpt_lossy.specs.Bursts.{is_within, with_burst};
ghost use Rattle.lpt_lossy.specs.TurnsInside.{carried_now, carried_turns, handed_now, handed_turns, octets_repeated, turn_octets};

use crate::Fate;
use crate::burst::bits_changed;
use crate::turns::Turns;
use lpt_text::{Sink, StreamFault, write_out};
use std::alloc::Global;

// Writes of a packet what is written at once, holds what is written later, and then writes what is
// held for this turn.
//
// Errors: `Write` if a write failed; `Memory`.
pub(crate) fn carry<K: Sink>(
    alloc: Global,
    way: &Fate,
    octets: &[u8],
    turns: &mut Turns,
    out: &mut K,
) -> Result<(), StreamFault>
    requires lost { way.now.is_lost ≡ true → way.now.later ≡ 0 }
    requires turn { way.now.later < length (turn_octets turns.old) }
    requires burst { IfSome way.now.burst (λ u. is_within u (length octets.now) ≡ true) }
    ensures turns { OnOk result (turn_octets turns.new
        ≡ carried_turns way.now octets.now (turn_octets turns.old)) }
    ensures ok { OnOk result (Appends (K.contents out.old) (K.contents out.new)
        (carried_now way.now octets.now (turn_octets turns.old))) }
    ensures fault { IfErr result (λ e. (e ≡ StreamFault.Write) ⊎ (e ≡ StreamFault.Memory)) }
    ensures part { IfErr result (λ _. AppendsPart (K.contents out.old) (K.contents out.new)
        (carried_now way.now octets.now (turn_octets turns.old))) }
    ensures writer { WriteEnds result (K.failed out.old) (K.failed out.new) }
{
    hand_on_changed(alloc, way, octets, turns, out)?;
    turns.pass(out)
}

// Writes octets or holds them, with changed bits or without.
fn hand_on_changed<K: Sink>(
    alloc: Global,
    way: &Fate,
    octets: &[u8],
    turns: &mut Turns,
    out: &mut K,
) -> Result<(), StreamFault>
    requires lost { way.now.is_lost ≡ true → way.now.later ≡ 0 }
    requires turn { way.now.later < length (turn_octets turns.old) }
    requires burst { IfSome way.now.burst (λ u. is_within u (length octets.now) ≡ true) }
    ensures turns { OnOk result (turn_octets turns.new
        ≡ handed_turns way.now (with_burst way.now.burst octets.now) (turn_octets turns.old)) }
    ensures ok { OnOk result (Appends (K.contents out.old) (K.contents out.new)
        (handed_now way.now (with_burst way.now.burst octets.now))) }
    ensures fault { IfErr result (λ e. (e ≡ StreamFault.Write) ⊎ (e ≡ StreamFault.Memory)) }
    ensures part { IfErr result (λ _. AppendsPart (K.contents out.old) (K.contents out.new)
        (handed_now way.now (with_burst way.now.burst octets.now))) }
    ensures writer { WriteEnds result (K.failed out.old) (K.failed out.new) }
{
    match way.burst {
        Some(burst) => {
            let changed = bits_changed(alloc, &burst, octets)?;
            hand_on(way, changed.as_slice(), turns, out)
        }
        None => hand_on(way, octets, turns, out),
    }
}

// Writes octets or holds them, once or twice, unless they are lost.
fn hand_on<K: Sink>(
    way: &Fate,
    octets: &[u8],
    turns: &mut Turns,
    out: &mut K,
) -> Result<(), StreamFault>
    requires lost { way.now.is_lost ≡ true → way.now.later ≡ 0 }
    requires turn { way.now.later < length (turn_octets turns.old) }
    ensures turns { OnOk result (turn_octets turns.new
        ≡ handed_turns way.now octets.now (turn_octets turns.old)) }
    ensures ok { OnOk result (Appends (K.contents out.old) (K.contents out.new)
        (handed_now way.now octets.now)) }
    ensures fault { IfErr result (λ e. (e ≡ StreamFault.Write) ⊎ (e ≡ StreamFault.Memory)) }
    ensures part { IfErr result (λ _. AppendsPart (K.contents out.old) (K.contents out.new)
        (handed_now way.now octets.now)) }
    ensures writer { WriteEnds result (K.failed out.old) (K.failed out.new) }
{
    if way.is_lost {
        return Ok(());
    }
    if way.later > 0 {
        turns.hold(way.later, octets, way.is_twice)?;
        return Ok(());
    }
    write_again(octets, way.is_twice, out)
}

// Writes octets once or twice.
fn write_again<K: Sink>(octets: &[u8], is_twice: bool, out: &mut K) -> Result<(), StreamFault>
    ensures ok { OnOk result (Appends (K.contents out.old) (K.contents out.new)
        (octets_repeated is_twice octets.now)) }
    ensures fault { IfErr result (λ e. e ≡ StreamFault.Write) }
    ensures part { IfErr result (λ _. AppendsPart (K.contents out.old) (K.contents out.new)
        (octets_repeated is_twice octets.now)) }
    ensures writer { WriteEnds result (K.failed out.old) (K.failed out.new) }
{
    write_out(out, octets)?;
    if is_twice {
        return write_out(out, octets);
    }
    Ok(())
}

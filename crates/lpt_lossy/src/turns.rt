//! What is held until it is written.

ghost use Rattle.std.specs.Prelude.{◌≡◌, ◌++◌, OnOk};
ghost use Rattle.lpt_lossy.specs.TurnsInside.{octets_repeated};

use lpt_text::{Sink, StreamFault, write_out};
use std::alloc::{AllocError, Global};

/// The octets that are held for each turn: those that are written with the next packet, then those
/// with the one behind it, and so on.
#[derive(Drop)]
pub(crate) struct Turns {
    turns: Vec<Vec<u8>>,
}

impl Turns {
    ghost use Rattle.std.specs.Prelude.{◌≡◌, ◌+◌, ◌<◌, [], length, replicate, IfErr, IfOk, OnOk};
    ghost use Rattle.std.specs.List.{concat};
    ghost use Rattle.std.specs.Io.KnownBytes.{Appends};
    ghost use Rattle.lpt_text.specs.Streams.{AppendsPart, WriteEnds};
    ghost use Rattle.lpt_lossy.specs.TurnsInside.{behind_turn, first_octets, next_octets, octets_repeated, turn_octets};

    // Turns of which none holds anything, one more than a packet may be later. The only error is
    // out of memory.
    pub(crate) fn new(alloc: Global, most_later: u16) -> Result<Turns, AllocError>
        ensures { IfOk result (λ t. turn_octets t ≡ replicate (most_later + 1) []) }
    {
        let mut turns = Vec::new(alloc);
        turns.push(Vec::new(alloc))?;
        for _ in 0..most_later {
            turns.push(Vec::new(alloc))?;
        }
        Ok(Turns { turns })
    }

    // Holds octets, once or twice, for a turn. The only error is out of memory.
    pub(crate) fn hold(
        &mut self,
        turn: u16,
        octets: &[u8],
        is_twice: bool,
    ) -> Result<(), AllocError>
        requires { turn < length (turn_octets self.old) }
        ensures { OnOk result (turn_octets self.new
            ≡ behind_turn turn (octets_repeated is_twice octets.now) (turn_octets self.old)) }
    {
        add(&mut self.turns[usize::from(turn)], octets, is_twice)
    }

    // Writes what is held for this turn, and goes on to the next one.
    //
    // Errors: `Write` if a write failed.
    pub(crate) fn pass<K: Sink>(&mut self, out: &mut K) -> Result<(), StreamFault>
        requires { 0 < length (turn_octets self.old) }
        ensures next { OnOk result (turn_octets self.new ≡ next_octets (turn_octets self.old)) }
        ensures ok { OnOk result (Appends (K.contents out.old) (K.contents out.new)
            (first_octets (turn_octets self.old))) }
        ensures fault { IfErr result (λ e. e ≡ StreamFault.Write) }
        ensures part { IfErr result (λ _. AppendsPart (K.contents out.old) (K.contents out.new)
            (first_octets (turn_octets self.old))) }
        ensures writer { WriteEnds result (K.failed out.old) (K.failed out.new) }
    {
        write_out(out, &self.turns[0])?;
        self.turns[0].clear();
        self.turns.rotate_left(1);
        Ok(())
    }

    // Writes all that is held.
    //
    // Errors: `Write` if a write failed.
    pub(crate) fn write_all<K: Sink>(&self, out: &mut K) -> Result<(), StreamFault>
        ensures ok { OnOk result (Appends (K.contents out.old) (K.contents out.new)
            (concat (turn_octets self.now))) }
        ensures fault { IfErr result (λ e. e ≡ StreamFault.Write) }
        ensures part { IfErr result (λ _. AppendsPart (K.contents out.old) (K.contents out.new)
            (concat (turn_octets self.now))) }
        ensures writer { WriteEnds result (K.failed out.old) (K.failed out.new) }
    {
        for turn in &self.turns {
            write_out(out, turn)?;
        }
        Ok(())
    }
}

// Adds octets once or twice. The only error is out of memory.
fn add(held: &mut Vec<u8>, octets: &[u8], is_twice: bool) -> Result<(), AllocError>
    ensures { OnOk result (held.new.items ≡ held.old.items ++ octets_repeated is_twice octets.now) }
{
    held.extend_from_slice(octets)?;
    if is_twice {
        held.extend_from_slice(octets)?;
    }
    Ok(())
}

//! Scripts: lines of text that ask a world for events, or show what is in it.

ghost use Rattle.std.specs.Prelude.{◌≡◌, ◌≢◌, ◌↔◌, ⊤, IfOk, IsErrOf, IsOk, IsSome, Err};
ghost use Rattle.lpt_text.specs.Streams.{ReadEnds, WriteEnds};
ghost use Rattle.lpt_script.specs.Ends.{LinesLeave, RunEnds, ScriptEnds, streams_end};
ghost use Rattle.lpt_script.specs.Runs.{script_end};
ghost use Rattle.lpt_script.specs.Scripts.{is_later, kept_of, left_of};
ghost use Rattle.lpt_events.specs.Configs.{config_fault};
ghost use Rattle.lpt_world.specs.Worlds.{new_world};

use crate::running::Running;
use crate::shows::Shows;
use crate::{ScriptEnd, ScriptFault};
use lpt_events::{Config, ConfigFault};
use lpt_memory::Memories;
use lpt_text::{Sink, Source, StreamFault, each_line, flush_out};
use lpt_world::World;
use std::alloc::Global;

/// Runs a script from a reader on a new world of this configuration and these memories, and writes
/// what its lines print.
///
/// Each line is run as it comes: before more is read, every whole line that came has been run, and
/// `out` has passed on what it printed. If the run ends well, `out` has passed on all of it. A script
/// has 16,777,216 octets at most; what it takes of memory depends on its longest line, and on the journal
/// of its world.
///
/// Errors: `Config` for a configuration out of its ranges, before anything is read; `Line` at the
/// first unreadable line, which ends the run; `Read` if a read failed or more octets came than a
/// script may have, after the lines before that, unless the line that this cuts is too long already
/// and so unreadable; `Write` if a write failed or took nothing; `Memory`.
pub fn run_script<S: Source, K: Sink>(
    alloc: Global,
    config: Config,
    memories: Memories,
    reader: &mut S,
    out: &mut K,
) -> Result<ScriptEnd, ScriptFault>
    ensures ends { ScriptEnds (new_world config memories) result (S.remaining reader.old) (S.remaining reader.new)
        (K.contents out.old) (K.contents out.new) (S.failed reader.new) (K.failed out.new) }
    ensures config { IsErrOf result ScriptFault.Config ↔ IsSome (config_fault config) }

    // A fault of a write is reported, and so is one of a read, unless the run ended by another.
    ensures writer { WriteEnds (streams_end result) (K.failed out.old) (K.failed out.new) }
    ensures reader { ReadEnds ⊤ (streams_end result) (S.failed reader.old) (S.failed reader.new) }
    ensures passed { IsOk result → K.flushed out.new ≡ K.contents out.new }
{
    match World::new(alloc, config, memories) {
        Ok(world) => run_all(alloc, world, reader, out),
        Err(ConfigFault::Memory) => Err(ScriptFault::Stream(StreamFault::Memory)),
        Err(_) => Err(ScriptFault::Config),
    }
}

// Runs the lines that a reader gives, each in its place, and has what they printed passed on.
fn run_all<S: Source, K: Sink>(
    alloc: Global,
    world: World,
    reader: &mut S,
    out: &mut K,
) -> Result<ScriptEnd, ScriptFault>
    ensures ends { ScriptEnds world result (S.remaining reader.old) (S.remaining reader.new)
        (K.contents out.old) (K.contents out.new) (S.failed reader.new) (K.failed out.new) }
    ensures config { result ≢ Err ScriptFault.Config }
    ensures writer { WriteEnds (streams_end result) (K.failed out.old) (K.failed out.new) }
    ensures reader { ReadEnds ⊤ (streams_end result) (S.failed reader.old) (S.failed reader.new) }
    ensures passed { IsOk result → K.flushed out.new ≡ K.contents out.new }
{
    let (ran, world, shows) = run_lines(alloc, world, Shows::Now, reader, out);
    drop(world);
    drop(shows);
    let end = match ran {
        Ok(end) => end,
        Err(fault) => return Err(fault),
    };
    match flush_out(out) {
        Ok(()) => Ok(end),
        Err(fault) => Err(ScriptFault::Stream(fault)),
    }
}

/// Runs the lines that a reader gives on a world, the first of which has number 1, and counts those of
/// which an event was refused. The world is given back, and so is what was kept to be shown later.
///
/// Errors: those of `run_script` but `Config`.
pub fn run_lines<S: Source, K: Sink>(
    alloc: Global,
    world: World,
    shows: Shows,
    reader: &mut S,
    out: &mut K,
) -> (Result<ScriptEnd, ScriptFault>, World, Shows)
    ensures ends { RunEnds (is_later shows) world result.0 (S.remaining reader.old) (S.remaining reader.new)
        (K.contents out.old) (K.contents out.new) (S.failed reader.new) (K.failed out.new) }
    ensures left { IfOk result.0 (λ end. LinesLeave (is_later shows) (kept_of shows) world end (left_of result.1 (kept_of result.2))
        (S.remaining reader.old) (S.remaining reader.new) (K.contents out.old) (K.contents out.new)) }
    ensures config { result.0 ≢ Err ScriptFault.Config }
    ensures writer { WriteEnds (streams_end result.0) (K.failed out.old) (K.failed out.new) }
    ensures reader { ReadEnds ⊤ (streams_end result.0) (S.failed reader.old) (S.failed reader.new) }
{
    let mut running = Running {
        alloc,
        text: String::new(alloc),
        world,
        shows,
        bad: None,
    };
    let taken = each_line(alloc, reader, out, &mut running);
    let Running {
        alloc: _,
        text,
        world,
        shows,
        bad,
    } = running;
    drop(text);
    (script_end(taken, bad), world, shows)
}

// How a script ends whose lines were taken, up to an unreadable one of this number.
fn script_end(taken: Result<u64, StreamFault>, bad: Option<u64>) -> Result<ScriptEnd, ScriptFault>
    ensures { result ≡ script_end taken bad }
{
    match (taken, bad) {
        (Ok(_), Some(number)) => Err(ScriptFault::Line(number)),
        (Ok(refused), None) => Ok(ScriptEnd { refused }),
        (Err(fault), _) => Err(ScriptFault::Stream(fault)),
    }
}

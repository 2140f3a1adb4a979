//! Scripts whose lines may ask for views.

ghost use Rattle.std.specs.Prelude.{◌≡◌, ◌≢◌, ◌↔◌, ℕ, ⊤, IsErrOf, IsOk, IsSome, Err};
ghost use Rattle.lpt_text.specs.Streams.{ReadEnds, WriteEnds};
ghost use Rattle.lpt_events.specs.Configs.{config_fault};
ghost use Rattle.lpt_script.specs.Ends.{streams_end};
ghost use Rattle.lpt_script.specs.Runs.{ended_by, script_end};
ghost use Rattle.lpt_script.specs.RunsInside.{LineTaken};
ghost use Rattle.lpt_script.specs.Scripts.{command_ran, line_ran, text_printed};
ghost use Rattle.lpt_world.specs.Worlds.{Shown, new_world};
ghost use Rattle.lpt_script_views.specs.Viewing.{ViewsEnd, line_viewed, unread_ran};
ghost use Rattle.lpt_script_views.specs.Views.{asked_view, view_text};

use crate::views::{View, asked_view, print_view};
use lpt_events::{Config, ConfigFault};
use lpt_memory::Memories;
use lpt_script::{ScriptEnd, ScriptFault, put, run_command};
use lpt_script_text::print_unreadable;
use lpt_script_words::{Command, Reading, read_line};
use lpt_text::{LineTaker, Sink, Source, StreamFault, Taken, each_line, flush_out};
use lpt_world::World;
use std::alloc::Global;

/// Runs a script from a reader on a new world of this configuration and these memories, and writes
/// what its lines print, as `run_script` does; but the lines `show link`, `show senders`,
/// `show receptions` and `show jobs` print what the world has now.
///
/// Errors: `Config` for a configuration out of its ranges, before anything is read; `Line` at the
/// first unreadable line, which ends the run; `Read` if a read failed or more octets came than a
/// script may have, after the lines before that, unless the line that this cuts is too long already
/// and so unreadable; `Write` if a write failed or took nothing; `Memory`.
pub fn run_views<S: Source, K: Sink>(
    alloc: Global,
    config: Config,
    memories: Memories,
    reader: &mut S,
    out: &mut K,
) -> Result<ScriptEnd, ScriptFault>
    ensures ends { ViewsEnd (new_world config memories) result (S.remaining reader.old) (S.remaining reader.new)
        (K.contents out.old) (K.contents out.new) (S.failed reader.new) (K.failed out.new) }
    ensures config { IsErrOf result ScriptFault.Config ↔ IsSome (config_fault config) }

    // A fault of a write is reported, and so is one of a read, unless the run ended by another.
    ensures writer { WriteEnds (streams_end result) (K.failed out.old) (K.failed out.new) }
    ensures reader { ReadEnds ⊤ (streams_end result) (S.failed reader.old) (S.failed reader.new) }
    ensures passed { IsOk result → K.flushed out.new ≡ K.contents out.new }
{
    match World::new(alloc, config, memories) {
        Ok(world) => run_all(alloc, world, reader, out),
        Err(ConfigFault::Memory) => Err(ScriptFault::Stream(StreamFault::Memory)),
        Err(_) => Err(ScriptFault::Config),
    }
}

// Runs the lines that a reader gives, and has what they printed passed on.
fn run_all<S: Source, K: Sink>(
    alloc: Global,
    world: World,
    reader: &mut S,
    out: &mut K,
) -> Result<ScriptEnd, ScriptFault>
    ensures ends { ViewsEnd world result (S.remaining reader.old) (S.remaining reader.new)
        (K.contents out.old) (K.contents out.new) (S.failed reader.new) (K.failed out.new) }
    ensures config { result ≢ Err ScriptFault.Config }
    ensures writer { WriteEnds (streams_end result) (K.failed out.old) (K.failed out.new) }
    ensures reader { ReadEnds ⊤ (streams_end result) (S.failed reader.old) (S.failed reader.new) }
    ensures passed { IsOk result → K.flushed out.new ≡ K.contents out.new }
{
    let end = match run_lines(alloc, world, reader, out) {
        Ok(end) => end,
        Err(fault) => return Err(fault),
    };
    match flush_out(out) {
        Ok(()) => Ok(end),
        Err(fault) => Err(ScriptFault::Stream(fault)),
    }
}

// Runs the lines that a reader gives on a world.
fn run_lines<S: Source, K: Sink>(
    alloc: Global,
    world: World,
    reader: &mut S,
    out: &mut K,
) -> Result<ScriptEnd, ScriptFault>
    ensures ends { ViewsEnd world result (S.remaining reader.old) (S.remaining reader.new)
        (K.contents out.old) (K.contents out.new) (S.failed reader.new) (K.failed out.new) }
    ensures config { result ≢ Err ScriptFault.Config }
    ensures writer { WriteEnds (streams_end result) (K.failed out.old) (K.failed out.new) }
    ensures reader { ReadEnds ⊤ (streams_end result) (S.failed reader.old) (S.failed reader.new) }
{
    let mut viewing = Viewing {
        alloc,
        world,
        bad: None,
    };
    let taken = each_line(alloc, reader, out, &mut viewing);
    let Viewing {
        alloc: _,
        world,
        bad,
    } = viewing;
    drop(world);
    script_end(taken, bad)
}

// How a script ends whose lines were taken, up to an unreadable one of this number.
fn script_end(taken: Result<u64, StreamFault>, bad: Option<u64>) -> Result<ScriptEnd, ScriptFault>
    ensures { result ≡ script_end taken bad }
{
    match (taken, bad) {
        (Ok(_), Some(number)) => Err(ScriptFault::Line(number)),
        (Ok(refused), None) => Ok(ScriptEnd { refused }),
        (Err(fault), _) => Err(ScriptFault::Stream(fault)),
    }
}

/// A world on which the lines of a script are run.
#[derive(Drop)]
pub(crate) struct Viewing {
    alloc: Global,
    world: World,
    // The number of the unreadable line that ended the run.
    bad: Option<u64>,
}

impl LineTaker for Viewing {
    ghost use Rattle.lpt_script_views.specs.Viewing.{ViewsLeft, is_ended, story_of};

    ghost Left = { ViewsLeft };

    ghost story = { story_of };

    ghost is_over = { is_ended };

    fn take<K: Sink>(
        &mut self,
        number: u64,
        line: &[u8],
        out: &mut K,
    ) -> Result<Taken, StreamFault> {
        match run_line(self.alloc, &mut self.world, number, line, out) {
            Ok(taken) => {
                self.bad = ended_by(taken, number);
                Ok(taken)
            }
            Err(fault) => Err(fault),
        }
    }
}

// The number of a line that ended a run, by what became of it.
fn ended_by(taken: Taken, number: u64) -> Option<u64>
    ensures { result ≡ ended_by taken number }
{
    match taken {
        Taken::Done | Taken::Failed => None,
        Taken::Over => Some(number),
    }
}

// Runs a line, and answers what became of it.
fn run_line<K: Sink>(
    alloc: Global,
    world: &mut World,
    number: u64,
    line: &[u8],
    out: &mut K,
) -> Result<Taken, StreamFault>
    ensures ends { LineTaken (line_viewed world.old line.now number) number result world.new
        (K.contents out.old) (K.contents out.new) }
    ensures writer { WriteEnds result (K.failed out.old) (K.failed out.new) }
{
    match read_line(alloc, world.config().source, line) {
        Err(_) => Err(StreamFault::Memory),
        Ok(Reading::Skipped) => Ok(Taken::Done),
        Ok(Reading::Asks(command)) => run_asked(alloc, world, command, number, out),
        Ok(Reading::Unreadable) => run_unread(alloc, world, asked_view(line), number, out),
    }
}

// Does a command, and answers what became of the line of this number, which asks for it.
fn run_asked<K: Sink>(
    alloc: Global,
    world: &mut World,
    command: Command,
    number: u64,
    out: &mut K,
) -> Result<Taken, StreamFault>
    ensures ends { LineTaken (command_ran command world.old) number result world.new (K.contents out.old) (K.contents out.new) }
    ensures writer { WriteEnds result (K.failed out.old) (K.failed out.new) }
{
    match run_command(alloc, world, command, out) {
        Ok(Some(_)) => Ok(Taken::Failed),
        Ok(None) => Ok(Taken::Done),
        Err(fault) => Err(fault),
    }
}

// Answers the line of this number, which a script doesn't read, by the view that it asks for.
fn run_unread<K: Sink>(
    alloc: Global,
    world: &World,
    asked: Option<View>,
    number: u64,
    out: &mut K,
) -> Result<Taken, StreamFault>
    ensures ends { LineTaken (unread_ran world.now number asked) number result world.now
        (K.contents out.old) (K.contents out.new) }
    ensures writer { WriteEnds result (K.failed out.old) (K.failed out.new) }
{
    match asked {
        Some(view) => put_view(alloc, world, view, out),
        None => end_unreadable(alloc, number, out),
    }
}

// Writes what is shown.
fn put_view<K: Sink>(
    alloc: Global,
    world: &World,
    view: View,
    out: &mut K,
) -> Result<Taken, StreamFault>
    ensures ends { (n : ℕ) → LineTaken (text_printed world.now (view_text world.now view)) n result
        world.now (K.contents out.old) (K.contents out.new) }
    ensures writer { WriteEnds result (K.failed out.old) (K.failed out.new) }
{
    match put(out, print_view(alloc, world, view)) {
        Ok(()) => Ok(Taken::Done),
        Err(fault) => Err(fault),
    }
}

// Writes that the line of this number is unreadable, which ends the run.
fn end_unreadable<K: Sink>(alloc: Global, number: u64, out: &mut K) -> Result<Taken, StreamFault>
    ensures ends { (w : Shown) → LineTaken (line_ran Reading.Unreadable number w) number result w
        (K.contents out.old) (K.contents out.new) }
    ensures writer { WriteEnds result (K.failed out.old) (K.failed out.new) }
{
    match put(out, print_unreadable(alloc, number)) {
        Ok(()) => Ok(Taken::Over),
        Err(fault) => Err(fault),
    }
}

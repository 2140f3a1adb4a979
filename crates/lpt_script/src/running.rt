//! Lines run one by one on a world.

ghost use Rattle.std.specs.Prelude.{◌≡◌, ◌++◌, IfOk};
ghost use Rattle.lpt_text.specs.Streams.{WriteEnds};
ghost use Rattle.lpt_script_words.specs.Grammar.{reading_of};
ghost use Rattle.lpt_script.specs.Runs.{ended_by};
ghost use Rattle.lpt_script.specs.RunsInside.{LineTaken};
ghost use Rattle.lpt_script.specs.Scripts.{command_ran, is_later, kept_of, line_ran, says, shows_left};
ghost use Rattle.lpt_world.specs.Worlds.{Shown};

use crate::command::run_command_in;
use crate::printed::put;
use crate::shows::Shows;
use lpt_script_text::print_unreadable;
use lpt_script_words::{Command, Reading, read_line};
use lpt_text::{LineTaker, Sink, StreamFault, Taken};
use lpt_world::World;
use std::alloc::Global;

/// A world on which the lines of a script are run.
#[derive(Drop)]
pub(crate) struct Running {
    pub alloc: Global,
    /// The text of a line, made anew at each.
    pub text: String,
    pub world: World,
    pub shows: Shows,
    /// The number of the unreadable line that ended the run.
    pub bad: Option<u64>,
}

impl LineTaker for Running {
    ghost use Rattle.lpt_script.specs.Runs.{RunLeft};
    ghost use Rattle.lpt_script.specs.RunsInside.{is_ended, story_of};

    ghost Left = { RunLeft };

    ghost story = { story_of };

    ghost is_over = { is_ended };

    fn take<K: Sink>(
        &mut self,
        number: u64,
        line: &[u8],
        out: &mut K,
    ) -> Result<Taken, StreamFault> {
        match self.run_line(number, line, out) {
            Ok(taken) => {
                self.bad = ended_by(taken, number);
                Ok(taken)
            }
            Err(fault) => Err(fault),
        }
    }
}

impl Running {
    ghost use Rattle.lpt_script.specs.RunsInside.{LineTaken};

    // Runs a line, and answers what became of it.
    #[inline(always)]
    fn run_line<K: Sink>(
        &mut self,
        number: u64,
        line: &[u8],
        out: &mut K,
    ) -> Result<Taken, StreamFault>
        ensures bad { self.new.bad ≡ self.old.bad }
        ensures same { is_later self.new.shows ≡ is_later self.old.shows }
        ensures left { IfOk result (λ _. kept_of self.new.shows ≡ kept_of self.old.shows
            ++ shows_left (is_later self.old.shows) (reading_of self.old.world.config.source line.now)) }
        ensures ends { LineTaken (line_ran (says (is_later self.old.shows) self.old.world.config.source line.now)
            number self.old.world) number result self.new.world (K.contents out.old) (K.contents out.new) }
        ensures writer { WriteEnds result (K.failed out.old) (K.failed out.new) }
    {
        match read_line(self.alloc, self.world.config().source, line) {
            Err(_) => Err(StreamFault::Memory),
            Ok(Reading::Skipped) => Ok(Taken::Done),
            Ok(Reading::Asks(command)) => match self.shows.keep(command) {
                Ok(Some(command)) => {
                    run_asked(
                        self.alloc,
                        &mut self.text,
                        &mut self.world,
                        command,
                        number,
                        out,
                    )
                }
                Ok(None) => Ok(Taken::Done),
                Err(_) => Err(StreamFault::Memory),
            },
            Ok(Reading::Unreadable) => end_unreadable(self.alloc, number, out),
        }
    }
}

// Does a command, and answers what became of the line of this number, which asks for it.
fn run_asked<K: Sink>(
    alloc: Global,
    text: &mut String,
    world: &mut World,
    command: Command,
    number: u64,
    out: &mut K,
) -> Result<Taken, StreamFault>
    ensures ends { LineTaken (command_ran command world.old) number result world.new (K.contents out.old) (K.contents out.new) }
    ensures writer { WriteEnds result (K.failed out.old) (K.failed out.new) }
{
    match run_command_in(alloc, text, world, command, out) {
        Ok(Some(_)) => Ok(Taken::Failed),
        Ok(None) => Ok(Taken::Done),
        Err(fault) => Err(fault),
    }
}

// Writes that the line of this number is unreadable, which ends the run.
fn end_unreadable<K: Sink>(alloc: Global, number: u64, out: &mut K) -> Result<Taken, StreamFault>
    ensures ends { (w : Shown) → LineTaken (line_ran Reading.Unreadable number w) number result w
        (K.contents out.old) (K.contents out.new) }
    ensures writer { WriteEnds result (K.failed out.old) (K.failed out.new) }
{
    match put(out, print_unreadable(alloc, number)) {
        Ok(()) => Ok(Taken::Over),
        Err(fault) => Err(fault),
    }
}

// The number of a line that ended a run, by what became of it.
fn ended_by(taken: Taken, number: u64) -> Option<u64>
    ensures { result ≡ ended_by taken number }
{
    match taken {
        Taken::Done | Taken::Failed => None,
        Taken::Over => Some(number),
    }
}

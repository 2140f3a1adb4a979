//! Scripts run, with threads behind them and without.

use crate::ends::status_at_end;
use lpt_command_line::SettingWords;
use lpt_events::{Config, Turns};
use lpt_io::{
    Failure, Incoming, Machine, Status, finish, open_input, output, settings_of, tell_place,
};
use lpt_memory::Memories;
use lpt_script::ScriptEnd;
use lpt_script_views::run_views;
use lpt_tool::{ThreadsEnd, ToolFault, run_script, run_threads_script};
use std::sync::Wait;
use std::thread::Threads;

/// What is done with the lines of a script.
#[derive(Clone, Copy)]
pub enum RunKind {
    /// They are run, up to an unreadable one.
    Run,
    /// The same, and they may ask for views.
    Views,
    /// They are run, and ten threads after their events.
    Threads,
}

/// Runs a script on a new world: the one at this path, or standard input for `-`. The world is that
/// of the configuration that the words give.
///
/// Errors: `Config` if that is refused; `Line` at an unreadable line, after standard error was
/// told which it is; `Read` if the script or the configuration can't be opened or read, `Write`
/// if a write failed, `Memory`, `Threads` if the threads failed.
pub fn run<R: Machine, T: Threads + Wait + Sync>(
    rt: &R,
    threads: &T,
    settings: &SettingWords<'_>,
    way: RunKind,
    script: &str,
) -> Result<Status, Failure> {
    let (config, memories, turns) = settings_of(rt, settings)?;
    let mut source = match open_input(rt, script) {
        Ok(source) => source,
        Err(failure) => {
            drop(memories);
            return Err(failure);
        }
    };
    let status = lines_run(rt, threads, config, memories, turns, way, &mut source).and_then(
        |ran| status_at_end(rt, source.inner().error(), script, ran),
    );
    drop(source);
    status
}

// Runs the lines of a script, and writes what the output has kept back: how the run ended, or why
// the output can't be written.
fn lines_run<R: Machine, T: Threads + Wait + Sync>(
    rt: &R,
    threads: &T,
    config: Config,
    memories: Memories,
    turns: Turns,
    way: RunKind,
    source: &mut Incoming<R>,
) -> Result<Result<ScriptEnd, ToolFault>, Failure> {
    let mut out = match output(rt) {
        Ok(out) => out,
        Err(fault) => {
            drop(memories);
            return Err(Failure::from(fault));
        }
    };
    let alloc = rt.alloc();
    let ran = match way {
        RunKind::Run => run_script(alloc, config, memories, source, &mut out),
        RunKind::Views => match run_views(alloc, config, memories, source, &mut out) {
            Ok(end) => Ok(end),
            Err(fault) => Err(ToolFault::from(fault)),
        },
        RunKind::Threads => {
            let ran = run_threads_script(alloc, threads, config, memories, turns, source, &mut out);
            told_full(rt, turns, ran)
        }
    };
    finish(rt, out)?;
    Ok(ran)
}

// How the lines of a script with threads ended, after standard error was told which seats reached
// their limit.
fn told_full(
    rt: &(impl Eprint + AllocGlobal),
    turns: Turns,
    ran: Result<ThreadsEnd, ToolFault>,
) -> Result<ScriptEnd, ToolFault> {
    let end = ran?;
    for seat in &end.full {
        tell_full(rt, turns, *seat);
    }
    Ok(ScriptEnd {
        refused: end.refused,
    })
}

// Says on standard error that a seat reached its limit.
fn tell_full(rt: &(impl Eprint + AllocGlobal), turns: Turns, seat: u8) {
    let who = seat_words(seat);
    let limit = turns.per_seat;
    if let Ok(text) = format!(in rt.alloc();
        "{who} stopped at per_seat = {limit}: more may be left to do"
    ) {
        tell_place(rt, text.as_str());
    }
}

// Who has a seat of a run of threads.
fn seat_words(seat: u8) -> &'static str {
    match seat {
        1 => "s1",
        2 => "s2",
        3 => "g1",
        4 => "g2",
        5 => "the timer of craft",
        6 => "the timer of ground",
        7 => "w1",
        8 => "w2",
        9 => "the sender up",
        _ => "the sender down",
    }
}

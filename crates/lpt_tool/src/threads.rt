//! Scripts whose events are followed by a run of threads.

ghost use Rattle.std.specs.Prelude.{⊤, ◌≡◌, ◌≢◌, ◌↔◌, ◌⊎◌, ◌++◌, ℕ, List, IfErr, IfOk, IsErrOf, IsOk, IsSome, OnOk, Err, true};
ghost use Rattle.lpt_text.specs.Streams.{ReadEnds, WriteEnds};
ghost use Rattle.std.specs.Io.KnownBytes.{Appends};
ghost use Rattle.lpt_events.specs.Configs.{config_fault};
ghost use Rattle.lpt_script.specs.Ends.{Grows, TextEnds};
ghost use Rattle.lpt_script.specs.Scripts.{left_of};
ghost use Rattle.lpt_journal.specs.Releases.{releases};
ghost use Rattle.lpt_world.specs.Worlds.{history, new_world};
ghost use Rattle.lpt_share.specs.WholeRuns.{IsRun};
ghost use Rattle.lpt_tool.specs.Faults.{streams_end};
ghost use Rattle.lpt_tool.specs.Ends.{shown_text, GoesOn, ThreadsEnds};
ghost use Rattle.lpt_tool.specs.Summary.{IsSummary};

use crate::ToolFault;
use crate::full::full_seats;
use crate::summary::put_summary;
use crate::threads_end::ThreadsEnd;
use lpt_events::{Config, ConfigFault, Turns};
use lpt_memory::Memories;
use lpt_script::{Shows, run_lines, run_show};
use lpt_script_words::Show;
use lpt_share::{Gate, Point, ShareFault, run_threads};
use lpt_text::{Sink, Source, StreamFault, flush_out};
use lpt_world::World;
use std::alloc::Global;
use std::sync::Wait;
use std::thread::Threads;

// A gate that stops nobody.
struct Open;

impl Gate for Open {
    fn pass(&self, _seat: u8, _point: Point) {}
}

/// Runs a script's lines, then ten threads on the world that they left, and then shows what the
/// script asks to be shown.
///
/// The lines that don't show are run as `run_script` runs them, and print the same; those that show
/// are read with them, so an unreadable one ends the run in its place, and no thread runs. Behind that
/// text stand the large releases, by direction and name, how many plain requests were released
/// and how many requests executed; then what the kept lines show, in order. If the run ends well,
/// `out` has passed on all that was written, and it is answered which seats have as many calls in the
/// journal as `turns` gives each, or more: of those much may be left to do.
///
/// Errors: those of `run_script`, and `Threads` with the fault by which the threads ended.
pub fn run_threads_script<R: Threads + Wait + Sync, S: Source, K: Sink>(
    alloc: Global,
    rt: &R,
    config: Config,
    memories: Memories,
    turns: Turns,
    reader: &mut S,
    out: &mut K,
) -> Result<ThreadsEnd, ToolFault>
    ensures ends { ThreadsEnds turns (new_world config memories) result (S.remaining reader.old) (S.remaining reader.new)
        (K.contents out.old) (K.contents out.new) (S.failed reader.new) (K.failed out.new) }
    ensures config { IsErrOf result ToolFault.Config ↔ IsSome (config_fault config) }
    ensures writer { WriteEnds (streams_end result) (K.failed out.old) (K.failed out.new) }
    ensures reader { ReadEnds ⊤ (streams_end result) (S.failed reader.old) (S.failed reader.new) }
    ensures passed { IsOk result → K.flushed out.new ≡ K.contents out.new }
{
    match World::new(alloc, config, memories) {
        Ok(world) => run_all(alloc, rt, world, turns, reader, out),
        Err(ConfigFault::Memory) => Err(ToolFault::Memory),
        Err(_) => Err(ToolFault::Config),
    }
}

// Runs the lines that a reader gives, and then the threads.
fn run_all<R: Threads + Wait + Sync, S: Source, K: Sink>(
    alloc: Global,
    rt: &R,
    world: World,
    turns: Turns,
    reader: &mut S,
    out: &mut K,
) -> Result<ThreadsEnd, ToolFault>
    ensures ends { ThreadsEnds turns world result (S.remaining reader.old) (S.remaining reader.new)
        (K.contents out.old) (K.contents out.new) (S.failed reader.new) (K.failed out.new) }
    ensures config { result ≢ Err ToolFault.Config }
    ensures writer { WriteEnds (streams_end result) (K.failed out.old) (K.failed out.new) }
    ensures reader { ReadEnds ⊤ (streams_end result) (S.failed reader.old) (S.failed reader.new) }
    ensures passed { IsOk result → K.flushed out.new ≡ K.contents out.new }
{
    let (ran, world, shows) = run_lines(alloc, world, Shows::later(alloc), reader, out);
    match ran {
        Ok(end) => {
            let kept = shows.into_kept(alloc);
            go_on(alloc, rt, world, turns, kept, end.refused, out)
        }
        Err(fault) => {
            drop(world);
            drop(shows);
            Err(ToolFault::from(fault))
        }
    }
}

// Runs the threads, prints what they left, and has it passed on; so many of the lines were refused.
#[tactic(auto, using(crate::proofs::ThreadLemmas::shown_passed))]
fn go_on<R: Threads + Wait + Sync, K: Sink>(
    alloc: Global,
    rt: &R,
    world: World,
    turns: Turns,
    kept: Vec<Show>,
    refused: u64,
    out: &mut K,
) -> Result<ThreadsEnd, ToolFault>
    ensures ends { GoesOn turns (left_of world kept.items) refused result (K.contents out.old) (K.contents out.new) (K.failed out.new) }
    ensures passed { IsOk result → K.flushed out.new ≡ K.contents out.new }
    ensures writer { WriteEnds (streams_end result) (K.failed out.old) (K.failed out.new) }
{
    match run_ten(alloc, rt, world, turns) {
        Ok(world) => {
            let full = full_seats(alloc, turns.per_seat, world.journal());
            let shown = show_left(alloc, &world, kept.as_slice(), out);
            drop(world);
            match shown {
                Ok(()) => match flush_out(out) {
                    Ok(()) => match full {
                        Ok(full) => Ok(ThreadsEnd { refused, full }),
                        Err(_) => Err(ToolFault::Memory),
                    },
                    Err(fault) => Err(ToolFault::from(fault)),
                },
                Err(fault) => Err(ToolFault::from(fault)),
            }
        }
        Err(fault) => Err(ToolFault::Threads(fault)),
    }
}

// Runs ten threads.
fn run_ten<R: Threads + Wait + Sync>(
    alloc: Global,
    rt: &R,
    world: World,
    turns: Turns,
) -> Result<World, ShareFault>
    ensures { IfOk result (λ left. IsRun turns world left) }
{
    match run_threads(alloc, rt, world, turns, &Open) {
        Ok((world, logs)) => {
            drop(logs);
            Ok(world)
        }
        Err(end) => {
            let fault = end.fault;
            drop(end);
            Err(fault)
        }
    }
}

// Prints what threads left, and then what the kept lines show of it.
fn show_left<K: Sink>(
    alloc: Global,
    world: &World,
    kept: &[Show],
    out: &mut K,
) -> Result<(), StreamFault>
    ensures all { OnOk result ((summary : List ℕ) × IsSummary world.now.config.source (releases world.now.config (history world.now)) world.now.journal summary
        × Appends (K.contents out.old) (K.contents out.new) (summary ++ shown_text kept.now world.now)) }
    ensures grows { Grows (K.contents out.old) (K.contents out.new) }
    ensures only { IfErr result (λ e. (e ≡ StreamFault.Write) ⊎ (e ≡ StreamFault.Memory)) }
    ensures writer { WriteEnds result (K.failed out.old) (K.failed out.new) }
{
    match put_summary(
        alloc,
        world.config().source,
        world.released(),
        world.journal(),
        out,
    ) {
        Ok(()) => show_kept(alloc, world, kept, out),
        Err(fault) => Err(fault),
    }
}

// Prints what the kept lines show.
fn show_kept<K: Sink>(
    alloc: Global,
    world: &World,
    kept: &[Show],
    out: &mut K,
) -> Result<(), StreamFault>
    ensures ends { TextEnds (shown_text kept.now world.now) result (K.contents out.old) (K.contents out.new) }
    ensures writer { WriteEnds result (K.failed out.old) (K.failed out.new) }
{
    for show in kept {
        match run_show(alloc, world, *show, out) {
            Ok(()) => {}
            Err(fault) => return Err(fault),
        }
    }
    Ok(())
}

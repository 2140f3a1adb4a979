//! What a command does to a world and what it prints.

ghost use Rattle.std.specs.Prelude.{◌≡◌, ◌≢◌, ◌<◌, ◌-◌, length, slice_get, IsErrOf, None, IfErr, IfOk, IfSome, OnOk, Err, true};
ghost use Rattle.lpt_text.specs.Streams.{WriteEnds};
ghost use Rattle.lpt_script_text.specs.Printing.{accepted_text};
ghost use Rattle.lpt_script.specs.Ends.{IsTickRefused, LineEnds, TextEnds, none_refused};
ghost use Rattle.lpt_world.specs.Worlds.{RefusedBy, refusal_at, with_entry};
ghost use Rattle.lpt_script.specs.Scripts.{and_then, event_answered, command_ran, event_stepped, clock_ticked, job_worked};

use crate::loading::run_load;
use crate::printed::put_refused;
use crate::showing::run_show;
use lpt_events::{Entry, Event, Side, StepFault, Worker};
use lpt_script_text::write_accepted;
use lpt_script_words::Command;
use lpt_text::{Sink, StreamFault, write_out};
use lpt_world::World;
use std::alloc::Global;

/// The seat of the session, for which scripts ask.
const SESSION: u8 = 0;

/// Does a command, prints its text, and answers why an event was refused, if one was.
pub fn run_command<K: Sink>(
    alloc: Global,
    world: &mut World,
    command: Command,
    out: &mut K,
) -> Result<Option<StepFault>, StreamFault>
    ensures ends { LineEnds (command_ran command world.old) result world.new (K.contents out.old) (K.contents out.new) }
    ensures writer { WriteEnds result (K.failed out.old) (K.failed out.new) }
{
    let mut text = String::new(alloc);
    let ran = run_command_in(alloc, &mut text, world, command, out);
    drop(text);
    ran
}

/// The same, if the text of a line is made in one that serves for many.
pub(crate) fn run_command_in<K: Sink>(
    alloc: Global,
    text: &mut String,
    world: &mut World,
    command: Command,
    out: &mut K,
) -> Result<Option<StepFault>, StreamFault>
    ensures ends { LineEnds (command_ran command world.old) result world.new
        (K.contents out.old) (K.contents out.new) }
    ensures writer { WriteEnds result (K.failed out.old) (K.failed out.new) }
{
    match command {
        Command::Event(event) => run_event(text, world, event, out),
        Command::Load(load) => run_load(alloc, text, world, &load, out),
        Command::Tick(side, count) => run_ticks(text, world, side, count, out),
        Command::Pass(lane, number) => {
            let (take, deliver) = (Event::Take(lane, number), Event::Deliver(lane));
            run_both(text, world, take, deliver, out)
        }
        Command::Work => run_work(text, world, out),
        Command::Show(show) => quietly(run_show(alloc, world, show, out)),
    }
}

// What printed nothing of an event has not been refused.
fn quietly(written: Result<(), StreamFault>) -> Result<Option<StepFault>, StreamFault>
    ensures { result ≡ none_refused written }
{
    match written {
        Ok(()) => Ok(None),
        Err(fault) => Err(fault),
    }
}

/// Asks the world for an event, prints what it answers, and answers why it was refused, if it was.
#[inline(never)]
pub(crate) fn run_event<K: Sink>(
    text: &mut String,
    world: &mut World,
    event: Event,
    out: &mut K,
) -> Result<Option<StepFault>, StreamFault>
    ensures ends { LineEnds (event_stepped world.old event) result world.new (K.contents out.old)
        (K.contents out.new) }
    ensures writer { WriteEnds result (K.failed out.old) (K.failed out.new) }
{
    match world.step(SESSION, event) {
        Ok(_) => put_last(text, world, out),
        Err(refused) => put_refused(text, refused.fault, out),
    }
}

// Prints what the last event of the journal answered.
#[inline(always)]
fn put_last<K: Sink>(
    text: &mut String,
    world: &World,
    out: &mut K,
) -> Result<Option<StepFault>, StreamFault>
    requires { 0 < length world.now.journal }
    ensures ends { IfSome (slice_get world.now.journal (length world.now.journal - 1))
        (λ x. TextEnds (accepted_text world.now.config.source x.event x.reply) result (K.contents out.old) (K.contents out.new)) }
    ensures accepted { IfOk result (λ r. r ≡ None) }
    ensures writer { WriteEnds result (K.failed out.old) (K.failed out.new) }
{
    let journal = world.journal();
    let last = &journal[journal.len() - 1];
    put_entry(text, world.config().source, last, out)
}

// Prints what an accepted event answered, if this source is configured.
#[inline(always)]
fn put_entry<K: Sink>(
    text: &mut String,
    source: u16,
    entry: &Entry,
    out: &mut K,
) -> Result<Option<StepFault>, StreamFault>
    ensures ends { TextEnds (accepted_text source entry.now.event entry.now.reply) result (K.contents out.old) (K.contents out.new) }
    ensures accepted { IfOk result (λ r. r ≡ None) }
    ensures writer { WriteEnds result (K.failed out.old) (K.failed out.new) }
{
    if write_accepted(text, source, &entry.event, &entry.reply).is_err() {
        return Err(StreamFault::Memory);
    }
    match write_out(out, text.as_bytes()) {
        Ok(()) => Ok(None),
        Err(fault) => Err(fault),
    }
}

// Asks for two events, for the second unless the first was refused.
fn run_both<K: Sink>(
    text: &mut String,
    world: &mut World,
    first: Event,
    second: Event,
    out: &mut K,
) -> Result<Option<StepFault>, StreamFault>
    ensures ends { LineEnds (and_then (event_stepped world.old first) (λ w. event_stepped w second))
        result world.new (K.contents out.old) (K.contents out.new) }
    ensures writer { WriteEnds result (K.failed out.old) (K.failed out.new) }
{
    match run_event(text, world, first, out) {
        Ok(None) => run_event(text, world, second, out),
        Ok(Some(fault)) => Ok(Some(fault)),
        Err(fault) => Err(fault),
    }
}

// Claims and commits a job with the first worker, and executes the oldest, up to the first of these
// that is refused.
fn run_work<K: Sink>(
    text: &mut String,
    world: &mut World,
    out: &mut K,
) -> Result<Option<StepFault>, StreamFault>
    ensures ends { LineEnds (job_worked world.old) result world.new (K.contents out.old)
        (K.contents out.new) }
    ensures writer { WriteEnds result (K.failed out.old) (K.failed out.new) }
{
    let (claim, commit) = (Event::Claim(Worker::W1), Event::Commit(Worker::W1));
    match run_both(text, world, claim, commit, out) {
        Ok(None) => run_event(text, world, Event::Apply, out),
        Ok(Some(reason)) => Ok(Some(reason)),
        Err(fault) => Err(fault),
    }
}

// Asks for so many ticks of a node's clock, up to the first that is refused, and prints the last.
fn run_ticks<K: Sink>(
    text: &mut String,
    world: &mut World,
    side: Side,
    count: u32,
    out: &mut K,
) -> Result<Option<StepFault>, StreamFault>
    ensures ends { LineEnds (clock_ticked count side world.old) result world.new
        (K.contents out.old) (K.contents out.new) }
    ensures writer { WriteEnds result (K.failed out.old) (K.failed out.new) }
{
    if count == 0 {
        return Ok(None);
    }
    match tick_before_last(world, side, count) {
        Ok(()) => run_event(text, world, Event::Tick(side), out),
        Err(fault) => put_refused(text, fault, out),
    }
}

// All ticks but the last.
fn tick_before_last(world: &mut World, side: Side, count: u32) -> Result<(), StepFault>
    requires { 0 < count }
    ensures ok { OnOk result
        (clock_ticked count side world.old ≡ event_stepped world.new (Event.Tick side)) }
    ensures err { IfErr result (λ f. IsTickRefused count side world.old world.new f) }
{
    for _ in 1..count {
        match tick(world, side) {
            Ok(()) => {}
            Err(fault) => return Err(fault),
        }
    }
    Ok(())
}

// One tick, which prints nothing.
fn tick(world: &mut World, side: Side) -> Result<(), StepFault>
    ensures ok { OnOk result ((refusal_at world.old 0 (Event.Tick side) ≡ None)
        × (world.new ≡ with_entry world.old 0 (Event.Tick side)
        (event_answered world.old (Event.Tick side)))) }
    ensures err { IfErr result (λ f. (world.new ≡ world.old) × RefusedBy (refusal_at world.old 0 (Event.Tick side)) f) }
{
    match world.step(SESSION, Event::Tick(side)) {
        Ok(_) => Ok(()),
        Err(refused) => Err(refused.fault),
    }
}

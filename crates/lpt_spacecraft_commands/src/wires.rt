//! A spacecraft over the wires on which it hears and writes.

ghost use Rattle.lpt_spacecraft.specs.Keeping.{IsKeptAs};
ghost use Rattle.lpt_spacecraft.specs.Streams.{IsIdle};

use crate::inbox::Inbox;
use crate::keeping::{keep_failure, kept_files};
use crate::logging::{Log, Silent};
use crate::pipes::{PipeReader, PipeWriter};
use crate::ticker::{Stopped, Ticker};
use lpt_command_line::{SpacecraftWords, longest_on_link};
use lpt_io::{
    Failure, Fault, PlainMachine, STANDARD, Status, Watched, finish, output, read_failure,
    tell_text,
};
use lpt_spacecraft::{
    Keeper, Listener, Pace, Passing, Spacecraft, Stop, serve_stream, serve_waiting,
};
use lpt_text::{FromStd, Sink, StreamFault};
use std::io::Read;
use std::sync::Wait;
use std::thread::Threads;
use std::time::Clock;

/// What a spacecraft hears and writes over.
#[derive(Drop)]
pub enum Wires<T: Wait + Drop, I> {
    /// Standard input, which this reads, and standard output.
    Standard(I),
    /// Pipes to other threads.
    Pipes(PipeReader<T>, PipeWriter<T>),
}

/// Serves over these wires, and keeps the spacecraft if that is asked for.
///
/// Errors: as of `spacecraft`.
pub(crate) fn serve_kept<R, T, I>(
    rt: &R,
    threads: &T,
    craft: &mut Spacecraft,
    words: &SpacecraftWords<'_>,
    state: Option<&str>,
    wires: Wires<T, I>,
) -> Result<Status, Failure>
where
    R: PlainMachine,
    T: Threads + Wait + Clock + Copy + Drop + Send + 'static,
    I: Read + Drop + Send + 'static,
    requires { IsIdle craft.old }
{
    let mut keeper = kept_files(rt, words, state)?;
    if !keeper.keep(craft, &[]) {
        return Err(keep_failure(keeper));
    }
    let ended = match wires {
        Wires::Standard(input) => { serve_standard(rt, threads, craft, words, &mut keeper, input) }
        Wires::Pipes(source, out) => {
            serve_pipes(rt, threads, craft, words, &mut keeper, (source, out))
        }
    };
    if keeper.has_failed() {
        drop(ended);
        return Err(keep_failure(keeper));
    }
    drop(keeper);
    ended
}

// Serves standard input, and says where it stopped.
fn serve_standard<R, T, I, H: Keeper>(
    rt: &R,
    threads: &T,
    craft: &mut Spacecraft,
    words: &SpacecraftWords<'_>,
    keeper: &mut H,
    input: I,
) -> Result<Status, Failure>
where
    R: PlainMachine,
    T: Threads + Wait + Clock + Copy + Drop + Send + 'static,
    I: Read + Drop + Send + 'static,
    requires idle { IsIdle craft.old }
    requires kept { IsKeptAs (H.kept keeper.old) craft.old }
{
    let mut out = output(rt)?;
    let mut log = Log::new(rt, craft.source(), words.log);
    let pace = pace_of(craft, words);
    let ended = serve_input(
        (rt, threads),
        craft,
        (pace, words.tick),
        keeper,
        input,
        &mut log,
        &mut out,
    );
    match finish(rt, out) {
        Ok(()) => Ok(status_at(rt, ended?, pace.passing.longest, log.has_skipped())),
        Err(failure) => {
            drop(ended);
            Err(failure)
        }
    }
}

// Serves what comes through a pipe, and writes to another. What is no packet was damaged on the
// link, so it isn't told.
fn serve_pipes<R, T, H: Keeper>(
    rt: &R,
    threads: &T,
    craft: &mut Spacecraft,
    words: &SpacecraftWords<'_>,
    keeper: &mut H,
    pipes: (PipeReader<T>, PipeWriter<T>),
) -> Result<Status, Failure>
where
    R: PlainMachine,
    T: Threads + Wait + Clock + Copy + Drop + Send + 'static,
    requires idle { IsIdle craft.old }
    requires kept { IsKeptAs (H.kept keeper.old) craft.old }
{
    let (source, out) = pipes;
    let mut out = FromStd::new(Watched::new(out));
    let pace = (pace_of(craft, words), words.tick);
    let ended = serve_input(
        (rt, threads),
        craft,
        pace,
        keeper,
        source,
        &mut Silent,
        &mut out,
    );
    drop(out);
    ended?;
    Ok(Status::Done)
}

// Serves what this reads, and says where it stopped. If a clock ticks so often, it ticks also while
// nothing comes.
fn serve_input<R, T, I, H: Keeper, L: Listener, K: Sink>(
    on: (&R, &T),
    craft: &mut Spacecraft,
    paces: (Pace, u32),
    keeper: &mut H,
    input: I,
    log: &mut L,
    out: &mut K,
) -> Result<Stop, Failure>
where
    R: PlainMachine,
    T: Threads + Wait + Clock + Copy + Drop + Send + 'static,
    I: Read + Drop + Send + 'static,
    requires idle { IsIdle craft.old }
    requires kept { IsKeptAs (H.kept keeper.old) craft.old }
{
    let ((rt, threads), (pace, tick)) = (on, paces);
    if tick == 0 {
        let mut source = FromStd::new(Watched::new(input));
        let ended = serve_stream(craft, pace, &mut source, &mut Stopped, keeper, log, out);
        let ended = match ended {
            Ok(stop) => Ok(stop),
            Err(StreamFault::Read) => Err(read_failure(rt, source.inner(), STANDARD)),
            Err(fault) => Err(Failure::from(fault)),
        };
        drop(source);
        return ended;
    }
    let mut clock = Ticker::new(rt, tick)?;
    let mut inbox = Inbox::begin(rt, threads, FromStd::new(input), pace.passing, clock)?;
    let ended = serve_waiting(craft, pace, &mut inbox, &mut clock, keeper, log, out);
    drop(inbox);
    match ended {
        Ok(stop) => Ok(stop),
        Err(StreamFault::Read) => Err(input_failure(rt)),
        Err(fault) => Err(Failure::from(fault)),
    }
}

// That a thread couldn't read standard input on.
fn input_failure(rt: &impl AllocGlobal) -> Failure {
    let place = format!(in rt.alloc(); "standard input: a read failed");
    Failure::at(Fault::Read, place)
}

// How its clock goes, and what of the stream is taken.
fn pace_of(craft: &Spacecraft, words: &SpacecraftWords<'_>) -> Pace {
    Pace {
        every: words.tick_every,
        clocked: false,
        reuse: words.reuse,
        passing: Passing {
            longest: longest_on_link(words.longest, craft.part_size()),
            is_on: words.resync,
        },
    }
}

// The status of work that stopped there, which is told, and that passed over octets or didn't.
fn status_at(
    rt: &(impl Eprint + AllocGlobal),
    stop: Stop,
    longest: usize,
    has_skipped: bool,
) -> Status {
    let alloc = rt.alloc();
    let text = match stop {
        Stop::End if has_skipped => return Status::Refused,
        Stop::End => return Status::Done,
        Stop::Cut(place, Some(said)) => {
            format!(in alloc; "inside a packet of {said} octets since octet {place}")
        }
        Stop::Cut(place, None) => {
            format!(in alloc; "inside a packet's header since octet {place}")
        }
        Stop::Stray(place, Some(said)) if said > longest => {
            format!(in alloc;
                "octet {place}: no packet begins there: {said} octets, but --longest is {longest}"
            )
        }
        Stop::Stray(place, _) => format!(in alloc; "octet {place}: no packet begins there"),
    };
    tell_text(rt, text);
    Status::Refused
}

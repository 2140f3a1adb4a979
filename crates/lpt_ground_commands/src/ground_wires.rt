//! What a pass hears and writes.

use crate::ground_notes::GroundNotes;
use lpt_command_line::GroundWords;
use lpt_ground_run::{Cutting, HearFault, Hearing, Terms, TimedWriter};
use lpt_io::{EndMachine, Failure, Fault, PlainMachine, Watched, failure_at};
use lpt_text::{FromStd, Source, StreamFault, flush_out};
use std::io::{ErrorKind, Write};
use std::sync::Wait;
use std::thread::Threads;
use std::time::{Clock, Duration};

/// How standard output is called.
pub const OUTPUT: &str = "standard output";

/// For so many milliseconds at least it is waited that something of what goes up is read.
const LEAST_LIMIT: u64 = 10_000;

/// The ear at standard input.
pub type Ears<R, T> = Hearing<T, GroundNotes<R>>;

/// Where requests are written, each at once: whoever is stopped, none goes in part, since a pipe
/// takes so few octets whole.
pub type Wire<W> = FromStd<Watched<W>>;

/// Hears what comes on standard input, and waits so many milliseconds for reports under these
/// terms.
///
/// Errors: `Read` if no thread could be started; `Memory`.
pub fn hear<R: EndMachine, T: Threads + Wait + Clock + Copy + Drop + Send + 'static>(
    rt: &R,
    threads: &T,
    cutting: Cutting,
    wait: u32,
    terms: Terms,
    notes: GroundNotes<R>,
) -> Result<Ears<R, T>, Failure> {
    let source = FromStd::new(rt.standard_input());
    hear_source(rt, threads, source, cutting, wait, terms, notes)
}

/// Hears what comes from this source in the same way.
///
/// Errors: as of `hear`.
pub fn hear_source<R, T, S>(
    rt: &R,
    threads: &T,
    source: S,
    cutting: Cutting,
    wait: u32,
    terms: Terms,
    notes: GroundNotes<R>,
) -> Result<Ears<R, T>, Failure>
where
    R: PlainMachine,
    T: Threads + Wait + Clock + Copy + Drop + Send + 'static,
    S: Source + Drop + Send + 'static,
{
    match Hearing::begin(threads, rt.alloc(), source, cutting, wait, terms, notes) {
        Ok(ears) => Ok(ears),
        Err(fault) => Err(unbegun(rt, Fault::Read, fault)),
    }
}

// Why nothing is heard or written.
fn unbegun(rt: &impl AllocGlobal, without: Fault, fault: HearFault) -> Failure {
    match fault {
        HearFault::Memory => Failure::from(Fault::Memory),
        HearFault::NoThread => {
            let place = format!(in rt.alloc(); "no thread could be started");
            Failure::at(without, place)
        }
    }
}

/// Where requests are written by a thread of its own: the FIFO of these words, or standard output.
///
/// Errors: `Write` if it can't be opened, or no thread could be started; `Memory`.
pub fn uplink_wire<R: EndMachine, T: Threads + Wait + Clock + Copy + Drop + Send + 'static>(
    rt: &R,
    threads: &T,
    words: &GroundWords<'_>,
) -> Result<Wire<TimedWriter<T>>, Failure> {
    let name = words.up.unwrap_or(OUTPUT);
    let to = match rt.uplink(words.up) {
        Ok(to) => to,
        Err(error) => return Err(failure_at(rt, Fault::Write, name, &error)),
    };
    match TimedWriter::begin(threads, rt.alloc(), to, limit_of(words)) {
        Ok(writer) => Ok(FromStd::new(Watched::new(writer))),
        Err(fault) => Err(unbegun(rt, Fault::Write, fault)),
    }
}

/// How long it is waited for that something of what goes up is read: as long as the waits are that
/// may settle nothing, and at least so long that a machine that is busy doesn't end a pass.
pub fn limit_of(words: &GroundWords<'_>) -> Duration {
    let waits = u64::from(words.wait).saturating_mul(u64::from(words.tries));
    Duration::from_millis(waits.max(LEAST_LIMIT))
}

/// Whether it was waited in vain that something of what goes up is read.
pub fn is_late<W: Write>(out: &Wire<W>) -> bool {
    match out.inner().error() {
        Some(error) => error.kind() == ErrorKind::TimedOut,
        None => false,
    }
}

/// Closes what is written to under this name, and gives why a write failed, if one did for another
/// reason than that it was late.
///
/// Errors: `Write`.
pub fn close<W: Write + Drop>(
    rt: &impl AllocGlobal,
    out: Wire<W>,
    name: &str,
) -> Result<(), Failure> {
    let mut out = out;
    if is_late(&out) {
        return Ok(());
    }
    let flushed = flush_out(&mut out);
    let failure = match (out.inner().error(), flushed) {
        (Some(error), _) => Some(failure_at(rt, Fault::Write, name, error)),
        (None, Ok(())) => None,
        (None, Err(StreamFault::Memory)) => Some(Failure::from(Fault::Memory)),
        (None, Err(_)) => Some(Failure::from(Fault::Write)),
    };
    drop(out);
    match failure {
        Some(failure) => Err(failure),
        None => Ok(()),
    }
}

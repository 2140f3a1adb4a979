//! How work ends that read packets or a file, and wrote to standard output.

ghost use Rattle.std.specs.Prelude.{◌≡◌, IfOk};

use crate::end::Failure;
use crate::fault::Fault;
use crate::input::{Packets, packets_end, read_failure};
use crate::machine::Machine;
use crate::progress::Voice;
use crate::streams::{Output, finish};
use crate::watched::Watched;
use lpt_text::StreamFault;
use std::alloc::{AllocError, AllocFailed};
use std::io;

impl From<AllocError> for Failure {
    fn from(_: AllocError) -> Self {
        Failure::from(Fault::Memory)
    }
}

impl<T: Drop> From<AllocFailed<T>> for Failure {
    fn from(failed: AllocFailed<T>) -> Self {
        drop(failed);
        Failure::from(Fault::Memory)
    }
}

/// What reading the packets at these paths gave, once standard error was told what
/// `packets_end` tells.
///
/// Errors: why it failed.
pub fn read_ended<R: Machine, T: Drop>(
    rt: &R,
    voice: Voice,
    packets: &Packets<R>,
    paths: &[&str],
    read: Result<T, StreamFault>,
) -> Result<T, Failure>
    ensures { IfOk result (λ value. read ≡ Ok value) }
{
    let failed = matches!(read, Err(StreamFault::Read));
    match (packets_end(rt, voice, packets, paths, failed), read) {
        (None, Ok(value)) => Ok(value),
        (None, Err(fault)) => Err(Failure::from(fault)),
        (Some(failure), read) => {
            drop(read);
            Err(failure)
        }
    }
}

/// The same of work that wrote to standard output besides, which is finished.
///
/// Errors: why it couldn't be finished; otherwise why the work failed.
pub fn carried_ended<R: Machine, T: Drop>(
    rt: &R,
    voice: Voice,
    packets: &Packets<R>,
    paths: &[&str],
    out: Output<'_, R>,
    carried: Result<T, StreamFault>,
) -> Result<T, Failure>
    ensures { IfOk result (λ value. carried ≡ Ok value) }
{
    let ended = read_ended(rt, voice, packets, paths, carried);
    with_output(rt, out, ended)
}

/// What work gave that read the input at this path and wrote to standard output, which is finished.
///
/// Errors: why it couldn't be finished; otherwise why the work failed.
pub fn copied_ended<I, R: Print + AllocGlobal, T: Drop>(
    rt: &R,
    input: &Watched<I>,
    path: &str,
    out: Output<'_, R>,
    copied: Result<T, StreamFault>,
) -> Result<T, Failure>
    ensures { IfOk result (λ value. copied ≡ Ok value) }
{
    let ended = match copied {
        Ok(value) => Ok(value),
        Err(StreamFault::Read) => Err(read_failure(rt, input, path)),
        Err(fault) => Err(Failure::from(fault)),
    };
    with_output(rt, out, ended)
}

/// What work gave that wrote to standard output, which is finished.
///
/// Errors: why it couldn't be finished; otherwise why the work failed.
pub fn written_ended<R: Print + AllocGlobal, T: Drop>(
    rt: &R,
    out: Output<'_, R>,
    written: Result<T, StreamFault>,
) -> Result<T, Failure>
    ensures { IfOk result (λ value. written ≡ Ok value) }
{
    let ended = match written {
        Ok(value) => Ok(value),
        Err(fault) => Err(Failure::from(fault)),
    };
    with_output(rt, out, ended)
}

// What work gave that ended so, once standard output is finished.
fn with_output<R: Print + AllocGlobal, T: Drop>(
    rt: &R,
    out: Output<'_, R>,
    ended: Result<T, Failure>,
) -> Result<T, Failure>
    ensures { IfOk result (λ value. ended ≡ Ok value) }
{
    match finish(rt, out) {
        Ok(()) => ended,
        Err(failure) => {
            drop(ended);
            Err(failure)
        }
    }
}

/// What was done with the file or the stream of this name.
///
/// Errors: this fault, and why it couldn't be done.
pub(crate) fn done_at<T>(
    rt: &impl AllocGlobal,
    fault: Fault,
    name: &str,
    done: io::Result<T>,
) -> Result<T, Failure> {
    match done {
        Ok(done) => Ok(done),
        Err(error) => Err(failure_at(rt, fault, name, &error)),
    }
}

/// That what is read or written under this name failed with this error.
pub fn failure_at(rt: &impl AllocGlobal, fault: Fault, name: &str, error: &io::Error) -> Failure {
    let place = format!(in rt.alloc(); "{name}: {error}");
    Failure::at(fault, place)
}

//! Standard output.

ghost use Rattle.std.specs.Prelude.{◌≡◌, IfErr, IfSome, IsNone, IsOk};

use crate::end::Failure;
use crate::ended::failure_at;
use crate::fault::Fault;
use crate::watched::Watched;
use lpt_text::{FromStd, flush_out, write_out};
use std::io;
use std::io::{BufWriter, ErrorKind, Printer};

/// Standard output, written when there is enough of it.
pub type Output<'a, R> = FromStd<BufWriter<Watched<Printer<'a, R>>>>;

/// Standard output.
///
/// Errors: `Memory`.
pub fn output<R: Print + AllocGlobal>(rt: &R) -> Result<Output<'_, R>, Fault> {
    match BufWriter::new(rt.alloc(), Watched::new(io::writer(rt))) {
        Ok(writer) => Ok(FromStd::new(writer)),
        Err(_) => Err(Fault::Memory),
    }
}

/// Writes what the output has kept back, and gives why that failed, or a write before it. If
/// nobody reads the output any more, nothing is reported of it.
///
/// Errors: `Write`.
pub fn finish<R: Print + AllocGlobal>(rt: &R, mut out: Output<'_, R>) -> Result<(), Failure> {
    let flushed = flush_out(&mut out);
    let writer = out.inner().get_ref();
    let ended = match writer.error() {
        Some(error) if error.kind() == ErrorKind::BrokenPipe => Err(Failure::unread()),
        Some(error) => Err(failure_at(rt, Fault::Write, "standard output", error)),
        None => match flushed {
            Ok(()) => Ok(()),
            Err(fault) => Err(Failure::from(fault)),
        },
    };
    drop(out);
    ended
}

/// Writes octets to standard output.
///
/// Errors: `Write`, `Memory`.
pub fn write_all_out(rt: &(impl Print + AllocGlobal), octets: &[u8]) -> Result<(), Failure> {
    let mut out = output(rt)?;
    let written = write_out(&mut out, octets);
    finish(rt, out)?;
    Ok(written?)
}

/// How it ends when the output was finished so and then this failed, if it did: the first of both.
pub fn first_failure(finished: Result<(), Failure>, other: Option<Failure>) -> Result<(), Failure>
    ensures first { IfErr finished (λ failure. result ≡ Err failure) }
    ensures other { IsOk finished → IfSome other (λ failure. result ≡ Err failure) }
    ensures ok { IsOk finished → IsNone other → IsOk result }
{
    match (finished, other) {
        (Ok(()), Some(failure)) => Err(failure),
        (finished, None) => finished,
        (Err(failure), Some(other)) => {
            drop(other);
            Err(failure)
        }
    }
}

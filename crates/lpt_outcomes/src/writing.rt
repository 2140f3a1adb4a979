//! The lines of requests, written.

ghost use Rattle.std.specs.Prelude.{◌≡◌, ◌⊎◌, IfErr, IfOk, IsOk, OnOk};
ghost use Rattle.std.specs.Io.KnownBytes.{Appends};
ghost use Rattle.std.specs.String.{string_bytes};
ghost use Rattle.lpt_text.specs.Streams.{AppendsPart, WriteEnds};
ghost use Rattle.lpt_outcomes.specs.Lines.{lines_of};

use crate::Asked;
use crate::answers::{count_sharers, sharers};
use crate::lines::print_line;
use lpt_list::Form;
use lpt_text::{Sink, StreamFault, flush_out, write_out};
use std::alloc::{AllocError, Global};

/// Writes a line for each request, in their order, and passes it on: what the request asks, and
/// which successes were reported, or the failure code and what it means, or that nothing was yet,
/// or that it asks for no report of success; and how many requests have its source and its request
/// ID, if it isn't one alone.
///
/// Errors: `Memory`, and then nothing was written; `Write`, and then a front part was.
pub fn write_outcomes<K: Sink>(
    alloc: Global,
    form: Form,
    requests: &[Asked],
    out: &mut K,
) -> Result<(), StreamFault>
    ensures ok { OnOk result (Appends (K.contents out.old) (K.contents out.new)
        (lines_of form requests.now)) }
    ensures passed { IsOk result → K.flushed out.new ≡ K.contents out.new }
    ensures fault { IfErr result (λ e. (e ≡ StreamFault.Write) ⊎ (e ≡ StreamFault.Memory)) }
    ensures part { IfErr result (λ _. AppendsPart (K.contents out.old) (K.contents out.new)
        (lines_of form requests.now)) }
    ensures writer { WriteEnds result (K.failed out.old) (K.failed out.new) }
{
    let Ok(text) = print_lines(alloc, form, requests) else {
        return Err(StreamFault::Memory);
    };
    write_out(out, text.as_bytes())?;
    flush_out(out)
}

// The lines of requests. The only error is out of memory.
fn print_lines(alloc: Global, form: Form, requests: &[Asked]) -> Result<String, AllocError>
    ensures { IfOk result (λ t. string_bytes t ≡ lines_of form requests.now) }
{
    let counts = count_sharers(alloc, requests)?;
    let mut text = String::new(alloc);
    for asked in requests {
        let line = print_line(alloc, form, sharers(&counts, asked), asked)?;
        text.push_str(line.as_str())?;
    }
    Ok(text)
}

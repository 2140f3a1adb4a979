//! Texts on their way to the writer.

ghost use Rattle.std.specs.Prelude.{◌≡◌, ◌≢◌, ◌⊎◌, ℕ, List, IfErr, IfOk, IsErrOf, Err, Some, string_bytes, true};
ghost use Rattle.lpt_text.specs.Streams.{WriteEnds};
ghost use Rattle.lpt_script_text.specs.Printing.{refused_text};
ghost use Rattle.lpt_script.specs.Ends.{Grows, TextEnds};

use lpt_events::StepFault;
use lpt_script_text::write_refused;
use lpt_text::{Sink, StreamFault, write_out};
use std::alloc::{AllocError, Global};

/// Writes a text, if it could be made.
#[inline(always)]
pub fn put<K: Sink>(out: &mut K, text: Result<String, AllocError>) -> Result<(), StreamFault>
    ensures ends { (t : List ℕ) → IfOk text (λ s. string_bytes s ≡ t) → TextEnds t result (K.contents out.old) (K.contents out.new) }
    ensures grows { Grows (K.contents out.old) (K.contents out.new) }
    ensures only { IfErr result (λ e. (e ≡ StreamFault.Write) ⊎ (e ≡ StreamFault.Memory)) }
    ensures writer { WriteEnds result (K.failed out.old) (K.failed out.new) }
{
    match text {
        Ok(text) => write_out(out, text.as_bytes()),
        Err(_) => Err(StreamFault::Memory),
    }
}

/// Writes why an event was refused, and answers it. Nothing is written when out of memory,
/// which ends the run.
#[inline(always)]
pub(crate) fn put_refused<K: Sink>(
    text: &mut String,
    fault: StepFault,
    out: &mut K,
) -> Result<Option<StepFault>, StreamFault>
    ensures refused { IfOk result (λ r. r ≡ Some fault) }
    ensures ends { TextEnds (refused_text fault) result (K.contents out.old) (K.contents out.new) }
    ensures memory { fault ≡ StepFault.Memory → (result ≡ Err StreamFault.Memory) × (K.contents out.old ≡ K.contents out.new) }
    ensures writer { WriteEnds result (K.failed out.old) (K.failed out.new) }
{
    if fault == StepFault::Memory {
        return Err(StreamFault::Memory);
    }
    if write_refused(text, fault).is_err() {
        return Err(StreamFault::Memory);
    }
    match write_out(out, text.as_bytes()) {
        Ok(()) => Ok(Some(fault)),
        Err(fault) => Err(fault),
    }
}

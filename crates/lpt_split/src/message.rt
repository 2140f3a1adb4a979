//! A message split from one stream to another.

ghost use Rattle.std.specs.Prelude.{◌≡◌, ◌⊎◌, ◌++◌, IfErr, IfOk};
ghost use Rattle.lpt_text.specs.Streams.{ReadEnds, WriteEnds};
ghost use Rattle.lpt_split.specs.Forms.{front_in};
ghost use Rattle.lpt_split.specs.Messages.{LeavesSplit, PutsSplit, SplitLeaves, SplitsTo, WritesSplit, choice};

use crate::packets::front;
use crate::putting::put_split;
use crate::{SplitEnd, Wanted};
use lpt_text::{End, Sink, Source, StreamFault, read_text, write_out};
use std::alloc::{AllocError, Global};

/// Reads a message to its end, and writes the packets of the parts that are wanted of it, in the form
/// that is wanted.
///
/// The answer says what isn't split, and nothing is written then.
///
/// Errors: `Read` if a read failed; `Write` if a write failed; `Memory`. A front part of the
/// packets stays written.
pub fn split_message<S: Source, K: Sink>(
    alloc: Global,
    wanted: &Wanted<'_>,
    source: &mut S,
    out: &mut K,
) -> Result<SplitEnd, StreamFault>
    ensures ends { IfOk result (λ end. SplitsTo wanted.now end
        (S.remaining source.old) (S.remaining source.new)
        (K.contents out.old) (K.contents out.new)) }

    // What a fault leaves.
    ensures leaves { IfErr result (λ _. SplitLeaves wanted.now
        (S.remaining source.old) (S.remaining source.new)
        (K.contents out.old) (K.contents out.new)) }
    ensures reader { ReadEnds ⊥ result (S.failed source.old) (S.failed source.new) }
    ensures writer { WriteEnds result (K.failed out.old) (K.failed out.new) }
{
    let (message, end) = match read_text(alloc, source) {
        Ok(read) => read,
        Err(_) => return Err(StreamFault::Memory),
    };
    match end {
        End::Failed => return Err(StreamFault::Read),
        End::TooLong => return Ok(SplitEnd::Long),
        End::Whole => {}
    }
    match write_split(alloc, wanted, message.as_slice(), out) {
        Ok(end) => Ok(end),
        Err(fault) => Err(fault),
    }
}

// Writes the packets of the parts that are wanted of a message, if each can be made.
fn write_split<K: Sink>(
    alloc: Global,
    wanted: &Wanted<'_>,
    message: &[u8],
    out: &mut K,
) -> Result<SplitEnd, StreamFault>
    ensures ends { IfOk result (λ end. WritesSplit wanted.now.writing (choice wanted.now)
        message.now end (K.contents out.old) (K.contents out.new)) }
    ensures fault { IfErr result (λ e. (e ≡ StreamFault.Write) ⊎ (e ≡ StreamFault.Memory)) }
    ensures leaves { IfErr result (λ _. LeavesSplit wanted.now.writing (choice wanted.now)
        message.now (K.contents out.old) (K.contents out.new)) }
    ensures writer { WriteEnds result (K.failed out.old) (K.failed out.new) }
{
    let Ok((end, octets)) = split_octets(alloc, wanted, message) else {
        return Err(StreamFault::Memory);
    };
    match end {
        SplitEnd::Written(_) => {
            write_out(out, &octets)?;
            Ok(end)
        }
        _ => Ok(end),
    }
}

// How the split of a message ends, and what is written of it if all that is wanted is made. The
// only error is out of memory.
fn split_octets(
    alloc: Global,
    wanted: &Wanted<'_>,
    message: &[u8],
) -> Result<(SplitEnd, Vec<u8>), AllocError>
    ensures { IfOk result (λ r. PutsSplit wanted.now.writing (choice wanted.now) message.now r.0
        (front_in wanted.now.writing.form) r.1.items) }
{
    let mut octets = front(alloc, wanted.writing.form)?;
    let end = put_split(alloc, wanted, message, &mut octets)?;
    Ok((end, octets))
}

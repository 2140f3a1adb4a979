//! One message of a stream.

ghost use Rattle.std.specs.Prelude.{◌≡◌, ◌≤◌, ◌⊎◌, IfErr, IfOk};
ghost use Rattle.lpt_text.specs.Streams.{WriteEnds};
ghost use Rattle.lpt_split.specs.Shares.{WritesOne, parts_picked};

use crate::pick::parts_picked;
use crate::{EachWanted, SplitEnd, Wanted, put_split};
use lpt_text::{Sink, StreamFault, write_out};
use std::alloc::Global;

// What became of a message.
#[derive(Clone, Copy)]
pub(crate) enum One {
    // What is wanted of it was written; this is the sequence count behind it.
    Written(u16),
    // It isn't split, for this reason, and nothing was written.
    Unsplit(SplitEnd),
}

// Writes the packets that are wanted of a message under this identifier, of sequence counts from
// this one on.
//
// Errors: `Write` if a write failed; `Memory`.
pub(crate) fn split_one<K: Sink>(
    alloc: Global,
    wanted: &EachWanted<'_>,
    id: u32,
    first: u16,
    message: &[u8],
    out: &mut K,
) -> Result<One, StreamFault>
    requires { first ≤ 16383 }
    ensures ok { IfOk result (λ one. WritesOne wanted.now id first message.now one
        (K.contents out.old) (K.contents out.new)) }
    ensures writer { WriteEnds result (K.failed out.old) (K.failed out.new) }
    ensures fault { IfErr result (λ e. (e ≡ StreamFault.Write) ⊎ (e ≡ StreamFault.Memory)) }
{
    let Some(parts) = parts_picked(wanted.picks, id) else {
        return Ok(One::Written(first));
    };
    let choice = Wanted {
        writing: wanted.writing,
        id,
        parts,
        first,
        whole: true,
    };
    let mut octets = Vec::new(alloc);
    match put_split(alloc, &choice, message, &mut octets) {
        Ok(SplitEnd::Written(behind)) => {
            write_out(out, &octets)?;
            Ok(One::Written(behind))
        }
        Ok(end) => Ok(One::Unsplit(end)),
        Err(_) => Err(StreamFault::Memory),
    }
}

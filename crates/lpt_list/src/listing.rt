//! The list of a stream, written as the stream comes.

ghost use Rattle.std.specs.Prelude.{◌≡◌, ◌⊎◌, Err, IfErr, IfOk, IsOk};
ghost use Rattle.lpt_text.specs.Streams.{ReadEnds, WriteEnds};
ghost use Rattle.lpt_stream.specs.Reads.{IsEndlessBy};
ghost use Rattle.lpt_carried.specs.Layouts.{SizesFit};
ghost use Rattle.lpt_list.specs.Lists.{ListLeaves, ListsAll, ListsTo, cut_for};

use crate::lister::Lister;
use crate::{Form, Listed};
use lpt_carried::Layouts;
use lpt_stream::{Peer, take_pieces};
use lpt_text::{Sink, StreamFault, flush_out};
use std::alloc::Global;

/// Reads a stream to its end, of which the first octet has the place `from`, and writes a line for
/// each packet in it by the layout of its packet type, and one for each place from which on octets
/// are no packet. If `strict` is set, it ends behind the first line of what is no packet.
///
/// If packets of both types have a checksum, the next packet is found behind octets that are none;
/// otherwise the stream is cut by lengths alone. Each line is written as its packet comes, and
/// before more is read `out` has passed on what was written.
///
/// Errors: `Read` if a read failed, or if 2^64 - 1 pieces came; `Write` if a write failed;
/// `Memory`. A front part of the list stays written.
pub fn list_stream<P: Peer, K: Sink>(
    alloc: Global,
    form: Form,
    layouts: &Layouts,
    strict: bool,
    from: u64,
    source: &mut P,
    out: &mut K,
) -> Result<Listed, StreamFault>
    requires { SizesFit layouts.now }
    ensures ends { IfOk result (λ l. ListsTo form layouts.now from strict l.end l.tally
        (P.remaining source.old) (P.remaining source.new)
        (K.contents out.old) (K.contents out.new)) }

    // What a fault leaves.
    ensures leaves { IfErr result (λ _. ListLeaves form layouts.now from
        (P.remaining source.old) (P.remaining source.new)
        (K.contents out.old) (K.contents out.new)) }

    // If a read fails, each line is written that what was read before it shows.
    ensures settled { result ≡ Err StreamFault.Read
        → ListsAll form layouts.now from (P.remaining source.old) (P.remaining source.new)
        (K.contents out.old) (K.contents out.new)
        ⊎ IsEndlessBy (cut_for layouts.now) (P.remaining source.old) (P.remaining source.new) }
    ensures reader { ReadEnds
        (IsEndlessBy (cut_for layouts.now) (P.remaining source.old) (P.remaining source.new)) result
        (P.failed source.old) (P.failed source.new) }
    ensures writer { WriteEnds result (K.failed out.old) (K.failed out.new) }
    ensures passed { IsOk result → K.flushed out.new ≡ K.contents out.new }
{
    let first = Lister::new(form, layouts, strict);
    let last = take_pieces(alloc, from, source, first, out, &mut ())?;
    flush_out(out)?;
    Ok(last.listed_so_far())
}

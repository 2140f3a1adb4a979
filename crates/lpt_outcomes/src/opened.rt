//! The requests that are open, written again.

ghost use Rattle.std.specs.Prelude.{◌≡◌, true, Some, IfErr, IfOk};
ghost use Rattle.lpt_text.specs.Streams.{AppendsPart, ReadEnds, WriteEnds};
ghost use Rattle.lpt_carried.specs.Carried.{cut_for};
ghost use Rattle.lpt_stream.specs.Pieces.{IsSealedBy};
ghost use Rattle.lpt_stream.specs.Reads.{IsEndlessBy};
ghost use Rattle.lpt_stream.specs.Takes.{LeavesBy, ReadsBy};
ghost use Rattle.lpt_outcomes.specs.Opened.{left_by, octets_open, open_in, open_octets, IsOpened};
ghost use Rattle.lpt_outcomes.specs.Passing.{in_piece};
ghost use Rattle.lpt_outcomes.specs.Requests.{request_in};

use crate::reading::{cut_for, request_in_piece};
use crate::{Asked, Layout};
use lpt_stream::{Cut, PieceKind, Taker, take_pieces};
use lpt_text::{Sink, Source, StreamFault, write_out};
use std::alloc::Global;

/// Writes the packets of a stream's requests of this layout that are open, as they stand there, and
/// gives how many requests are left that the stream doesn't have: its first request is the first of
/// these, and so on. A request is open if no report tells its end: neither that it failed, nor the
/// last success that it asks for.
///
/// Errors: `Read` if a read failed, or if 2^64 - 1 pieces came; `Write` if a write failed;
/// `Memory`. A front part stays written.
pub fn write_open<S: Source, K: Sink>(
    alloc: Global,
    layout: &Layout,
    requests: &[Asked],
    source: &mut S,
    out: &mut K,
) -> Result<usize, StreamFault>
    // The stream is read to its end.
    ensures written { IfOk result (λ left. ReadsBy (cut_for layout.now.has_checksum)
        (S.remaining source.old) (S.remaining source.new) true
        (IsOpened layout.now requests.now (K.contents out.old) (K.contents out.new) left)) }
    ensures leaves { IfErr result (λ _. LeavesBy (cut_for layout.now.has_checksum)
        (S.remaining source.old) (S.remaining source.new) (λ pieces.
        AppendsPart (K.contents out.old) (K.contents out.new)
        (open_octets layout.now requests.now pieces))) }
    ensures reader { ReadEnds (IsEndlessBy (cut_for layout.now.has_checksum)
        (S.remaining source.old) (S.remaining source.new)) result
        (S.failed source.old) (S.failed source.new) }
    ensures writer { WriteEnds result (K.failed out.old) (K.failed out.new) }
{
    let first = OpenTaker {
        layout,
        rest: requests,
    };
    let last = take_pieces(alloc, 0, source, first, out, &mut ())?;
    Ok(last.rest.len())
}

// The requests that are left behind the pieces so far.
#[derive(Clone, Copy)]
struct OpenTaker<'a> {
    layout: &'a Layout,
    rest: &'a [Asked],
}

impl<'a, K: Sink> Taker<K, ()> for OpenTaker<'a> {
    ghost use Rattle.std.specs.Prelude.{◌≡◌, true, ⊤};
    ghost use Rattle.lpt_carried.specs.Carried.{cut_for};
    ghost use Rattle.lpt_outcomes.specs.Opened.{left_behind, open_octets};

    ghost cut = { λ t. cut_for t.layout.now.has_checksum };

    ghost is_open = { λ _. true };

    ghost takes = { λ from first now old new pieces. (now.layout.now ≡ first.layout.now)
        × (now.rest.now ≡ left_behind first.layout.now first.rest.now pieces) };

    ghost leaves = { λ from first old new pieces. ⊤ };

    ghost writes = { λ from first pieces.
        open_octets first.layout.now first.rest.now pieces };

    ghost others = { λ e. ⊥ };

    fn cut(&self) -> Cut {
        cut_for(self.layout)
    }

    fn is_open(&self) -> bool {
        true
    }

    fn take(
        self,
        _alloc: Global,
        out: &mut K,
        _lent: &mut (),
        _place: u64,
        kind: PieceKind,
        octets: &[u8],
    ) -> Result<OpenTaker<'a>, StreamFault> {
        let layout = self.layout;
        let (open, rest) = open_piece(layout, self.rest, kind, octets);
        write_out(out, open)?;
        Ok(OpenTaker { layout, rest })
    }
}

// The octets of a piece of this kind, if it is the next of these requests and that is open, and the
// requests behind it.
fn open_piece<'a, 'b>(
    layout: &Layout,
    requests: &'a [Asked],
    kind: PieceKind,
    octets: &'b [u8],
) -> (&'b [u8], &'a [Asked])
    requires { IsSealedBy (cut_for layout.now.has_checksum) kind octets.now }
    ensures open { result.0.now
        ≡ open_in requests.now (in_piece (request_in layout.now) kind octets.now) octets.now }
    ensures rest { result.1.now
        ≡ left_by requests.now (in_piece (request_in layout.now) kind octets.now) }
{
    if request_in_piece(layout, kind, octets).is_err() {
        return (&octets[..0], requests);
    }
    match requests.split_first() {
        None => (&octets[..0], requests),
        Some((next, rest)) => (if_open(next, octets), rest),
    }
}

// The octets of a request, if it is open.
fn if_open<'b>(request: &Asked, octets: &'b [u8]) -> &'b [u8]
    ensures { result.now ≡ octets_open (Some request.now) octets.now }
{
    if request.is_open() {
        octets
    } else {
        &octets[..0]
    }
}

//! Piece after piece of a stream, each taken as it comes, if nothing is written.

ghost use Rattle.std.specs.Prelude.{◌≡◌, ◌⊎◌, [], Err, IfErr, IfOk};
ghost use Rattle.lpt_text.specs.Streams.{ReadEnds};
ghost use Rattle.lpt_stream.specs.declared.cut.Cut.TheVariants.{Sealed};
ghost use Rattle.lpt_stream.specs.Reads.{IsEndless, ReadsPieces};
ghost use Rattle.lpt_stream.specs.Takes.{HasTaken, LeavesBy, TakenAll};

use crate::nowhere::Nowhere;
use crate::{Cut, PieceKind, Taker, take_pieces};
use lpt_text::{Source, StreamFault};
use std::alloc::Global;

/// Takes the pieces of a stream, one after the other, beside something that is lent to it. It
/// writes nothing, and takes all that are found by checksums.
pub trait PieceTaker<W>: Drop {
    ghost use Rattle.std.specs.Prelude.{◌≡◌, ◌≢◌, ◌∷◌, ◌++◌, [], List, IfErr, IfOk};
    ghost use Rattle.lpt_text.specs.declared.fault.StreamFault.{StreamFault};
    ghost use Rattle.lpt_stream.specs.Pieces.{Piece, IsSealed, octets_in, up_to_limit};

    // What it has become by these pieces, and what has become of what is lent to it.
    ghost takes: { (first now : Self) → (old new : W) → List Piece → Type 0 };

    // What has become of what is lent to it, if it failed at the last of these pieces.
    ghost leaves: { (first : Self) → (old new : W) → List Piece → Type 0 };

    // The faults that it may end with, none of them a read's.
    ghost fails: { StreamFault → Type 0 };

    /// Takes the next piece, which stands at this place of the stream; at 2^64 - 1, there or behind
    /// it. The checksum of a whole piece was taken, and is right.
    ///
    /// Errors: those of the taker.
    fn take(
        self,
        alloc: Global,
        lent: &mut W,
        place: u64,
        kind: PieceKind,
        octets: &[u8],
    ) -> Result<Self, StreamFault>
        requires before { (first : Self) × (old : W) × (pieces : List Piece)
            × takes first self old lent.old pieces }
        requires sealed { IsSealed kind octets.now }
        ensures taken { (first : Self) (old : W) (pieces : List Piece)
            → takes first self old lent.old pieces → place ≡ up_to_limit (octets_in pieces)
            → IfOk result (λ now. takes first now old lent.new
            (pieces ++ record { kind = kind; octets = octets.now } ∷ [])) }
        ensures left { (first : Self) (old : W) (pieces : List Piece)
            → takes first self old lent.old pieces
            → IfErr result (λ _. leaves first old lent.new
            (pieces ++ record { kind = kind; octets = octets.now } ∷ [])) }
        ensures fault { IfErr result fails }
        ensures none_read { IfErr result (λ e. e ≢ StreamFault.Read) };
}

/// Reads a stream to its end, and lets the taker take each of its pieces.
///
/// Errors: `Read` if a read failed, or if 2^64 - 1 pieces came; `Memory`; those of the taker.
pub fn each_piece<S: Source, W, T: PieceTaker<W>>(
    alloc: Global,
    source: &mut S,
    first: T,
    lent: &mut W,
) -> Result<T, StreamFault>
    requires { T.takes first first lent.old lent.old [] }

    // The stream is read to its end, and what it was cut into was taken.
    ensures taken { IfOk result (λ now. ReadsPieces (S.remaining source.old)
        (S.remaining source.new) (T.takes first now lent.old lent.new)) }

    // What a fault leaves: the pieces that were found before it were taken.
    ensures leaves { IfErr result (λ _. LeavesBy Sealed (S.remaining source.old)
        (S.remaining source.new) (λ pieces. HasTaken (T.takes first) lent.old lent.new pieces
        ⊎ T.leaves first lent.old lent.new pieces)) }

    // If a read fails, each piece was taken that what was read before it shows.
    ensures settled { result ≡ Err StreamFault.Read → TakenAll Sealed (S.remaining source.old)
        (S.remaining source.new) (HasTaken (T.takes first) lent.old lent.new)
        ⊎ IsEndless (S.remaining source.old) (S.remaining source.new) }
    ensures reader { ReadEnds (IsEndless (S.remaining source.old) (S.remaining source.new)) result
        (S.failed source.old) (S.failed source.new) }

    // Each fault is that of a read, of memory or of the taker.
    ensures fault { IfErr result (λ e. (e ≡ StreamFault.Read)
        ⊎ ((e ≡ StreamFault.Memory) ⊎ T.fails e)) }
{
    let mut out = Nowhere { failed: false };
    match take_pieces(alloc, 0, source, Silent { taker: first }, &mut out, lent) {
        Ok(last) => Ok(last.taker),
        // No write to it ever fails.
        Err(StreamFault::Write) if out.failed => Err(StreamFault::Memory),
        Err(fault) => Err(fault),
    }
}

// A taker that writes nothing.
#[derive(Drop)]
struct Silent<T> {
    taker: T,
}

impl<W, T: PieceTaker<W>> Taker<Nowhere, W> for Silent<T> {
    ghost use Rattle.std.specs.Prelude.{◌≡◌, [], true};
    ghost use Rattle.lpt_stream.specs.declared.cut.Cut.TheVariants as cuts;

    ghost cut = { λ _. cuts.Sealed };

    ghost is_open = { λ _. true };

    ghost takes = { λ from first now old new pieces. (from ≡ 0)
        × T.takes first.taker now.taker old new pieces };

    ghost leaves = { λ from first old new pieces. T.leaves first.taker old new pieces };

    ghost writes = { λ from first pieces. [] };

    ghost others = { T.fails };

    fn cut(&self) -> Cut {
        Cut::Sealed
    }

    fn is_open(&self) -> bool {
        true
    }

    fn take(
        self,
        alloc: Global,
        _out: &mut Nowhere,
        lent: &mut W,
        place: u64,
        kind: PieceKind,
        octets: &[u8],
    ) -> Result<Silent<T>, StreamFault> {
        let taker = self.taker.take(alloc, lent, place, kind, octets)?;
        Ok(Silent { taker })
    }
}

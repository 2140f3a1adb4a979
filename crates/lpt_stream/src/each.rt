//! Piece after piece of a stream, each taken as it comes, while what was written is passed on.

ghost use Rattle.std.specs.Prelude.{◌≡◌, ◌⊎◌, [], Err, IfErr, IfOk, OnOk};
ghost use Rattle.std.specs.Io.KnownBytes.{Appends};
ghost use Rattle.lpt_text.specs.Streams.{failed_write, AppendsPart, ReadEnds};
ghost use Rattle.lpt_stream.specs.Reads.{IsEndlessBy};
ghost use Rattle.lpt_stream.specs.Takes.{HasTaken, LeavesBy, ReadsBy, TakenAll};

use crate::{Cut, PacketBuffer, Peer, PieceKind};
use lpt_text::{Sink, StreamFault};
use std::alloc::Global;

/// Takes the pieces of a stream, one after the other, and writes what they give to a sink, beside
/// something that is lent to it.
pub trait Taker<K: Sink, W>: Drop {
    ghost use Rattle.std.specs.Prelude.{◌≡◌, ◌⊎◌, ◌∷◌, ◌++◌, ◌+◌, ℕ, [], Bool, true, List, Option, IfErr, IfOk, OnOk};
    ghost use Rattle.std.specs.Io.KnownBytes.{Appends};
    ghost use Rattle.lpt_text.specs.Streams.{failed_write, AppendsPart};
    ghost use Rattle.lpt_text.specs.declared.fault.StreamFault.{StreamFault};
    ghost use Rattle.lpt_stream.specs.declared.cut.Cut.{Cut};
    ghost use Rattle.lpt_stream.specs.Pieces.{Piece, IsSealedBy, octets_in, up_to_limit};

    // How its stream is cut.
    ghost cut: { Self → Cut };

    // Whether it takes more.
    ghost is_open: { Self → Bool };

    // What it has become by these pieces of a stream that begins at this place, and what has become
    // of what is lent to it.
    ghost takes: { (from : ℕ) → (first now : Self) → (old new : W) → List Piece → Type 0 };

    // What has become of what is lent to it, if it failed at the last of these pieces.
    ghost leaves: { (from : ℕ) → (first : Self) → (old new : W) → List Piece → Type 0 };

    // What is written of pieces as they come.
    ghost writes: { (from : ℕ) → Self → List Piece → List ℕ };

    // The faults of others than the sink.
    ghost others: { StreamFault → Type 0 };

    /// How its stream is cut.
    fn cut(&self) -> Cut
        ensures { result ≡ cut self.now };

    /// Whether it takes more.
    fn is_open(&self) -> bool
        ensures { result ≡ is_open self.now };

    /// Takes the next piece, which stands at this place of the stream; at 2^64 - 1, there or behind
    /// it. If the cut looks at checksums, that of a whole piece was taken, and is right.
    ///
    /// Errors: `Write`, behind a front part of what is written; `Memory`.
    fn take(
        self,
        alloc: Global,
        out: &mut K,
        lent: &mut W,
        place: u64,
        kind: PieceKind,
        octets: &[u8],
    ) -> Result<Self, StreamFault>
        requires before { (from : ℕ) × (first : Self) × (old : W) × (pieces : List Piece)
            × takes from first self old lent.old pieces }
        requires open { is_open self ≡ true }
        requires sealed { IsSealedBy (cut self) kind octets.now }
        ensures taken { (from : ℕ) (first : Self) (old : W) (pieces : List Piece)
            → takes from first self old lent.old pieces
            → place ≡ up_to_limit (from + octets_in pieces)
            → IfOk result (λ now. takes from first now old lent.new
            (pieces ++ record { kind = kind; octets = octets.now } ∷ [])) }
        ensures left { (from : ℕ) (first : Self) (old : W) (pieces : List Piece)
            → takes from first self old lent.old pieces
            → IfErr result (λ _. leaves from first old lent.new
            (pieces ++ record { kind = kind; octets = octets.now } ∷ [])) }
        ensures same { IfOk result (λ now. cut now ≡ cut self) }
        ensures wrote { (from : ℕ) (first : Self) (old : W) (pieces : List Piece)
            (start : Option (List ℕ)) → takes from first self old lent.old pieces
            → place ≡ up_to_limit (from + octets_in pieces)
            → Appends start (K.contents out.old) (writes from first pieces)
            → OnOk result (Appends start (K.contents out.new)
            (writes from first (pieces ++ record { kind = kind; octets = octets.now } ∷ []))) }
        ensures part { (from : ℕ) (first : Self) (old : W) (pieces : List Piece)
            (start : Option (List ℕ)) → takes from first self old lent.old pieces
            → place ≡ up_to_limit (from + octets_in pieces)
            → Appends start (K.contents out.old) (writes from first pieces)
            → IfErr result (λ _. AppendsPart start (K.contents out.new)
            (writes from first (pieces ++ record { kind = kind; octets = octets.now } ∷ []))) }
        ensures fault { IfErr result (λ e. (e ≡ StreamFault.Write) ⊎ (e ≡ StreamFault.Memory)) }
        ensures writer { OnOk result (K.failed out.new ≡ K.failed out.old) }
        ensures failed { IfErr result (λ e. others e
            ⊎ (K.failed out.new ≡ failed_write e (K.failed out.old))) };
}

/// Reads a stream, whose first octet has the place `from`, to its end, or until the taker takes no
/// more, and lets it take each piece. Before each read `out` passes on what was written.
///
/// Errors: `Read` if a read failed, or if 2^64 - 1 pieces came; `Write` if `out` failed;
/// `Memory`; those of the taker. A front part of what the pieces give stays written.
pub fn take_pieces<P: Peer, K: Sink, W, T: Taker<K, W>>(
    alloc: Global,
    from: u64,
    source: &mut P,
    first: T,
    out: &mut K,
    lent: &mut W,
) -> Result<T, StreamFault>
    requires taken { T.takes from first first lent.old lent.old [] }
    requires nothing { T.writes from first [] ≡ [] }
    ensures taken { IfOk result (λ now. ReadsBy (T.cut first) (P.remaining source.old)
        (P.remaining source.new) (T.is_open now) (λ pieces.
        T.takes from first now lent.old lent.new pieces
        × Appends (K.contents out.old) (K.contents out.new) (T.writes from first pieces))) }

    // What a fault leaves: a front part of what the pieces give, written and taken.
    ensures leaves { IfErr result (λ _. LeavesBy (T.cut first) (P.remaining source.old)
        (P.remaining source.new) (λ pieces.
        (HasTaken (T.takes from first) lent.old lent.new pieces
        ⊎ T.leaves from first lent.old lent.new pieces)
        × AppendsPart (K.contents out.old) (K.contents out.new) (T.writes from first pieces))) }

    // If a read fails, each piece was taken and written that what was read before it shows.
    ensures settled { result ≡ Err StreamFault.Read
        → TakenAll (T.cut first) (P.remaining source.old) (P.remaining source.new) (λ pieces.
        HasTaken (T.takes from first) lent.old lent.new pieces
        × Appends (K.contents out.old) (K.contents out.new) (T.writes from first pieces))
        ⊎ IsEndlessBy (T.cut first) (P.remaining source.old) (P.remaining source.new) }
    ensures reader { ReadEnds
        (IsEndlessBy (T.cut first) (P.remaining source.old) (P.remaining source.new)) result
        (P.failed source.old) (P.failed source.new) }
    ensures writer { OnOk result (K.failed out.new ≡ K.failed out.old) }
    ensures failed { IfErr result (λ e. T.others e
        ⊎ (K.failed out.new ≡ failed_write e (K.failed out.old))) }
{
    let cut = first.cut();
    let mut buffer = PacketBuffer::new(alloc, cut);
    let mut taker = first;
    let mut place = from;
    for count in 0..u64::MAX {
        if !taker.is_open() {
            return Ok(taker);
        }
        let Some(found) = buffer.find_piece_passing(source, out)? else {
            return Ok(taker);
        };
        let octets = &buffer.octets_held()[..found.len];
        taker = taker.take(alloc, out, lent, place, found.kind, octets)?;
        place = place.saturating_add(found.len as u64);
        buffer.skip(found);
    }
    Err(StreamFault::Read)
}

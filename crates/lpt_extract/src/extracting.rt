//! The octets of dump reports, extracted from a stream as it comes.

ghost use Rattle.std.specs.Prelude.{◌≡◌, ◌⊎◌, Err, IfErr, IfOk, IsOk};
ghost use Rattle.std.specs.Io.KnownBytes.{Appends};
ghost use Rattle.lpt_text.specs.Streams.{ReadEnds, WriteEnds};
ghost use Rattle.lpt_stream.specs.Pieces.{packets_of};
ghost use Rattle.lpt_stream.specs.Reads.{IsEndlessBy};
ghost use Rattle.lpt_stream.specs.Takes.{TakenAll};
ghost use Rattle.lpt_extract.specs.Extracts.{areas_in, cut_of, notices_in, written_first, ExtractLeaves, ExtractsTo};
ghost use Rattle.lpt_extract.specs.Notices.{Hears};

use crate::ending::end_extract;
use crate::holding::Holding;
use crate::taking::take_piece;
use crate::{Extracted, Listener, Wanted};
use lpt_stream::{Cut, PieceKind, Taker, take_pieces};
use lpt_text::{Sink, Source, StreamFault};
use std::alloc::Global;

/// Reads a stream of packets to its end, and writes what is wanted of the dump reports among them:
/// the octets of each area, as it comes; or at the end an image, in which of two areas that overlap
/// the later one wins. The listener is told of each area, of each dump report that isn't taken, and
/// of what is no packet. Before each read, and at the end, `out` passes on what was written.
///
/// If packets have a checksum, the next one is found behind octets that are none; otherwise the
/// stream is cut by lengths alone.
///
/// Errors: `Read` if a read failed, or if 2^64 - 1 pieces came; `Write` if a write failed;
/// `Memory`. A front part of the octets stays written; of an image, only if a write failed.
pub fn extract_stream<S: Source, K: Sink, L: Listener>(
    alloc: Global,
    wanted: &Wanted,
    source: &mut S,
    out: &mut K,
    listener: &mut L,
) -> Result<Extracted, StreamFault>
    ensures ends { IfOk result (λ x. ExtractsTo wanted.now x
        (S.remaining source.old) (S.remaining source.new) (K.contents out.old) (K.contents out.new)
        (L.heard listener.old) (L.heard listener.new)) }

    // All that was written is passed on.
    ensures passed { IsOk result → K.flushed out.new ≡ K.contents out.new }

    // What a fault leaves.
    ensures leaves { IfErr result (λ e. ExtractLeaves wanted.now e
        (S.remaining source.old) (S.remaining source.new)
        (K.contents out.old) (K.contents out.new)) }

    // If a read fails, just what the packets give was told and written that what was read before
    // it shows.
    ensures settled { result ≡ Err StreamFault.Read → TakenAll (cut_of wanted.now)
        (S.remaining source.old) (S.remaining source.new) (λ pieces.
        Hears (L.heard listener.old) (L.heard listener.new) (notices_in wanted.now 0 pieces)
        × Appends (K.contents out.old) (K.contents out.new)
        (written_first wanted.now.at (areas_in wanted.now (packets_of pieces))))
        ⊎ IsEndlessBy (cut_of wanted.now) (S.remaining source.old) (S.remaining source.new) }
    ensures reader { ReadEnds
        (IsEndlessBy (cut_of wanted.now) (S.remaining source.old) (S.remaining source.new)) result
        (S.failed source.old) (S.failed source.new) }
    ensures writer { WriteEnds result (K.failed out.old) (K.failed out.new) }
{
    let holding = Holding::new(alloc);
    let first = Extraction {
        wanted: *wanted,
        holding,
    };
    let last = match take_pieces(alloc, 0, source, first, out, listener) {
        Ok(last) => last,
        Err(fault) => return Err(fault),
    };
    end_extract(wanted, last.holding, out)
}

// What a stream's pieces have given so far.
#[derive(Drop)]
struct Extraction {
    wanted: Wanted,
    holding: Holding,
}

impl<K: Sink, L: Listener> Taker<K, L> for Extraction {
    ghost use Rattle.std.specs.Prelude.{true, ⊤};
    ghost use Rattle.lpt_stream.specs.Pieces.{packets_of};
    ghost use Rattle.lpt_extract.specs.Extracts.{areas_in, cut_of, written_first};
    ghost use Rattle.lpt_extract.specs.ExtractsInside.{IsExtracted};

    ghost cut = { λ e. cut_of e.wanted };

    ghost is_open = { λ _. true };

    ghost takes = { λ from first now old new pieces. IsExtracted from first now
        (L.heard old) (L.heard new) pieces };

    ghost leaves = { λ from first old new pieces. ⊤ };

    ghost writes = { λ from first pieces.
        written_first first.wanted.at (areas_in first.wanted (packets_of pieces)) };

    ghost others = { λ _. ⊥ };

    fn cut(&self) -> Cut {
        self.wanted.cut()
    }

    fn is_open(&self) -> bool {
        true
    }

    fn take(
        self,
        alloc: Global,
        out: &mut K,
        lent: &mut L,
        place: u64,
        kind: PieceKind,
        octets: &[u8],
    ) -> Result<Extraction, StreamFault> {
        let Extraction {
            wanted,
            mut holding,
        } = self;
        let (cut, held) = (wanted.cut(), &mut holding);
        take_piece(alloc, &wanted, cut, place, kind, octets, held, out, lent)?;
        Ok(Extraction { wanted, holding })
    }
}

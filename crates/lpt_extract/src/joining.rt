//! The octets of dump reports that may come in parts, extracted from a stream as it comes.

ghost use Rattle.std.specs.Prelude.{◌≡◌, ◌⊎◌, ◌++◌, ℕ, List, [], Err, IfErr, IfOk, IsOk, OnOk};
ghost use Rattle.std.specs.Io.KnownBytes.{Appends};
ghost use Rattle.lpt_text.specs.Streams.{failed_write, AppendsPart, ReadEnds, WriteEnds};
ghost use Rattle.lpt_stream.specs.Pieces.{IsSealedBy, packet_before, packets_of};
ghost use Rattle.lpt_stream.specs.Reads.{IsEndlessBy};
ghost use Rattle.lpt_stream.specs.Takes.{TakenAll};
ghost use Rattle.lpt_memory.specs.declared.request.Area.{Area};
ghost use Rattle.lpt_extract.specs.declared.notice.Notice.{Notice};
ghost use Rattle.lpt_extract.specs.Extracts.{areas_in, written_first};
ghost use Rattle.lpt_extract.specs.ExtractsInside.{HeldAreas};
ghost use Rattle.lpt_extract.specs.Joined.{joined_at, joined_in, reads, reads_from, ExtractsJoined, JoinedLeaves, Reads, ReadsCut};
ghost use Rattle.lpt_extract.specs.JoinedInside.{IsInPlace};
ghost use Rattle.lpt_extract.specs.Notices.{Hears};

use crate::ending::end_extract;
use crate::holding::Holding;
use crate::joins::{InPlace, Joins};
use crate::taking::{take_packet, take_piece};
use crate::{Extracted, Listener, Wanted};
use lpt_stream::{Cut, PieceKind, Taker, take_pieces};
use lpt_text::{Sink, Source, StreamFault};
use std::alloc::Global;

/// Who is told of what.
#[derive(Drop)]
pub struct Hearers<L, T> {
    /// Who is told of areas, of reports that aren't taken, and of what is no packet.
    pub listener: L,
    /// Who is told what becomes of parts.
    pub taker: T,
}

/// Reads a stream of packets to its end, as `extract_stream` does, if dump reports may come in
/// parts that are joined so.
///
/// Errors: `Read` if a read failed, or if 2^64 - 1 pieces came; `Write` if a write failed;
/// `Memory`; those of the taker. A front part of the octets stays written; of an image, only if
/// a write failed.
pub(crate) fn join_stream<S: Source, K: Sink, L: Listener, T, J: Joins<T>>(
    alloc: Global,
    wanted: &Wanted,
    joins: J,
    source: &mut S,
    out: &mut K,
    hearers: &mut Hearers<L, T>,
) -> Result<Extracted, StreamFault>
    requires keeps { J.keeps joins joins [] }
    requires tells { J.tells joins hearers.old.taker hearers.old.taker [] }
    ensures ends { IfOk result (λ x. ReadsCut (J.cut joins) (S.remaining source.old)
        (S.remaining source.new) (λ pieces. ExtractsJoined wanted.now (J.reads joins) x pieces
        (K.contents out.old) (K.contents out.new)
        (L.heard hearers.old.listener) (L.heard hearers.new.listener)
        × J.tells_all joins hearers.old.taker hearers.new.taker (packets_of pieces))) }
    ensures passed { IsOk result → K.flushed out.new ≡ K.contents out.new }
    ensures leaves { IfErr result (λ e. JoinedLeaves (J.cut joins) wanted.now (J.reads joins) e
        (S.remaining source.old) (S.remaining source.new)
        (K.contents out.old) (K.contents out.new)) }
    ensures settled { result ≡ Err StreamFault.Read → TakenAll (J.cut joins)
        (S.remaining source.old) (S.remaining source.new) (λ pieces.
        Hears (L.heard hearers.old.listener) (L.heard hearers.new.listener)
        (joined_in wanted.now (J.reads joins) [] 0 pieces)
        × J.tells joins hearers.old.taker hearers.new.taker (packets_of pieces)
        × Appends (K.contents out.old) (K.contents out.new) (written_first wanted.now.at
        (areas_in wanted.now (reads (J.reads joins) (packets_of pieces)))))
        ⊎ IsEndlessBy (J.cut joins) (S.remaining source.old) (S.remaining source.new) }
    ensures reader { ReadEnds
        (IsEndlessBy (J.cut joins) (S.remaining source.old) (S.remaining source.new)) result
        (S.failed source.old) (S.failed source.new) }
    ensures writer { OnOk result (K.failed out.new ≡ K.failed out.old) }
    ensures failed { IfErr result (λ e. (e ≡ StreamFault.Write)
        ⊎ (K.failed out.new ≡ failed_write e (K.failed out.old))) }
{
    let holding = Holding::new(alloc);
    let first = Joiner {
        wanted: *wanted,
        joins,
        holding,
    };
    let last = match take_pieces(alloc, 0, source, first, out, hearers) {
        Ok(last) => last,
        Err(fault) => return Err(fault),
    };
    last.joins.leave(&mut hearers.taker)?;
    end_extract(wanted, last.holding, out)
}

// What a stream's pieces have given so far.
#[derive(Drop)]
struct Joiner<J> {
    wanted: Wanted,
    joins: J,
    holding: Holding,
}

impl<K: Sink, L: Listener, T, J: Joins<T>> Taker<K, Hearers<L, T>> for Joiner<J> {
    ghost use Rattle.std.specs.Prelude.{◌≡◌, true, ⊤};
    ghost use Rattle.lpt_text.specs.declared.fault.StreamFault.TheVariants as faults;
    ghost use Rattle.lpt_stream.specs.Pieces.{packets_of};
    ghost use Rattle.lpt_extract.specs.Extracts.{areas_in, written_first};
    ghost use Rattle.lpt_extract.specs.Joined.{reads};
    ghost use Rattle.lpt_extract.specs.JoinedInside.{IsJoined};

    ghost cut = { λ j. J.cut j.joins };

    ghost is_open = { λ _. true };

    ghost takes = { λ from first now old new pieces. IsJoined (J.reads first.joins) from
        first.wanted now.wanted now.holding (L.heard old.listener) (L.heard new.listener) pieces
        × J.keeps first.joins now.joins (packets_of pieces)
        × J.tells first.joins old.taker new.taker (packets_of pieces) };

    ghost leaves = { λ from first old new pieces. ⊤ };

    ghost writes = { λ from first pieces. written_first first.wanted.at
        (areas_in first.wanted (reads (J.reads first.joins) (packets_of pieces))) };

    ghost others = { λ e. e ≡ faults.Write };

    fn cut(&self) -> Cut {
        self.joins.cut()
    }

    fn is_open(&self) -> bool {
        true
    }

    fn take(
        self,
        alloc: Global,
        out: &mut K,
        lent: &mut Hearers<L, T>,
        place: u64,
        kind: PieceKind,
        octets: &[u8],
    ) -> Result<Joiner<J>, StreamFault> {
        let Joiner {
            wanted,
            joins,
            mut holding,
        } = self;
        let cut = joins.cut();
        let (joins, read) = joins.gather(alloc, &mut lent.taker, place, kind, octets)?;
        let (held, told) = (&mut holding, &mut lent.listener);
        take_in_place(
            alloc, &wanted, cut, place, kind, octets, &read, held, out, told,
        )?;
        Ok(Joiner {
            wanted,
            joins,
            holding,
        })
    }
}

// Takes what is read in place of a piece of a stream that is cut so.
fn take_in_place<K: Sink, L: Listener>(
    alloc: Global,
    wanted: &Wanted,
    cut: Cut,
    place: u64,
    kind: PieceKind,
    octets: &[u8],
    read: &InPlace,
    holding: &mut Holding,
    out: &mut K,
    listener: &mut L,
) -> Result<(), StreamFault>
    requires { IsSealedBy cut kind octets.now }
    ensures held { (r : Reads) (bs : List (List ℕ)) → IsInPlace r bs kind octets.now read.now
        → (areas : List Area) (ns : List Notice) → HeldAreas wanted.now.at areas ns holding.old
        → OnOk result (HeldAreas wanted.now.at (areas
        ++ areas_in wanted.now (reads_from r bs (packet_before kind octets.now [])))
        (ns ++ joined_at wanted.now r bs place kind octets.now) holding.new) }
    ensures wrote { (r : Reads) (bs : List (List ℕ)) → IsInPlace r bs kind octets.now read.now
        → OnOk result (Appends (K.contents out.old) (K.contents out.new) (written_first
        wanted.now.at (areas_in wanted.now (reads_from r bs (packet_before kind octets.now []))))) }
    ensures heard { (r : Reads) (bs : List (List ℕ)) → IsInPlace r bs kind octets.now read.now
        → OnOk result (Hears (L.heard listener.old) (L.heard listener.new)
        (joined_at wanted.now r bs place kind octets.now)) }
    ensures fault { IfErr result (λ e. (e ≡ StreamFault.Write) ⊎ (e ≡ StreamFault.Memory)) }
    ensures part { (r : Reads) (bs : List (List ℕ)) → IsInPlace r bs kind octets.now read.now
        → IfErr result (λ _. AppendsPart (K.contents out.old) (K.contents out.new) (written_first
        wanted.now.at (areas_in wanted.now (reads_from r bs (packet_before kind octets.now []))))) }
    ensures writer { WriteEnds result (K.failed out.old) (K.failed out.new) }
{
    match read {
        InPlace::Itself => take_piece(
            alloc, wanted, cut, place, kind, octets, holding, out, listener,
        ),
        InPlace::Message(message) => {
            let octets = message.as_slice();
            take_packet(alloc, wanted, place, octets, false, holding, out, listener)
        }
        InPlace::Nothing => Ok(()),
    }
}

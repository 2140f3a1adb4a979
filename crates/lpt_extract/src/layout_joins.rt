//! Dump reports that a mission lays out and that may come in parts.

ghost use Rattle.std.specs.Prelude.{◌≡◌, ◌⊎◌, ◌∷◌, ◌++◌, ℕ, List, [], false, Err, IfErr, IfOk, IsOk, OnOk};
ghost use Rattle.std.specs.Io.KnownBytes.{Appends};
ghost use Rattle.lpt_text.specs.Streams.{failed_write, ReadEnds};
ghost use Rattle.lpt_stream.specs.Pieces.{IsSealedBy, packets_of};
ghost use Rattle.lpt_stream.specs.Reads.{IsEndlessBy};
ghost use Rattle.lpt_stream.specs.Takes.{TakenAll};
ghost use Rattle.lpt_carried.specs.Carried.{part_carried, cut};
ghost use Rattle.lpt_layout_each.specs.Told.{events_of};
ghost use Rattle.lpt_layout_each.specs.News as teller;
ghost use Rattle.lpt_layout_each.specs.Helds.{HoldsEach};
ghost use Rattle.lpt_layout_each.specs.Streams.{Tells, events, told_by};
ghost use Rattle.lpt_extract.specs.Extracts.{areas_in, written_first};
ghost use Rattle.lpt_extract.specs.Joined.{joined_in, reads, ExtractsJoined, JoinedLeaves, ReadsCut};
ghost use Rattle.lpt_extract.specs.JoinedInside.{IsInPlace, IsRead};
ghost use Rattle.lpt_extract.specs.Notices.{Hears};
ghost use Rattle.lpt_extract.specs.LayoutJoined.{layout_reads, messages_in};

use crate::joining::join_stream;
use crate::joins::{InPlace, Joins};
use crate::{Extracted, Hearers, Listener, Wanted};
use lpt_carried::{Name, Reading, carried_in};
use lpt_layout_each::{HeldsAs, NewsAs, TakerAs, leave_as};
use lpt_stream::{Cut, PieceKind};
use lpt_text::{Sink, Source, StreamFault};
use std::alloc::Global;

/// Reads a stream of packets to its end, as `extract_stream` does, if dump reports may come in
/// parts as well, of packets that are read so: a packet that carries a part, of any name, is no
/// report itself. The message that becomes whole with it is read in its place. The taker is told of
/// that message first, of parts that are given up, and at the end of what is left of each name.
///
/// Errors: `Read` if a read failed, or if 2^64 - 1 pieces came; `Write` if a write failed;
/// `Memory`; those of the taker. A front part of the octets stays written; of an image, only if
/// a write failed.
pub fn extract_joined_as<S: Source, K: Sink, L: Listener, T: TakerAs>(
    alloc: Global,
    wanted: &Wanted,
    reading: &Reading,
    source: &mut S,
    out: &mut K,
    hearers: &mut Hearers<L, T>,
) -> Result<Extracted, StreamFault>
    // The stream is read to its end.
    ensures ends { IfOk result (λ x. ReadsCut (cut reading.now) (S.remaining source.old)
        (S.remaining source.new) (λ pieces.
        ExtractsJoined wanted.now (layout_reads reading.now) x pieces
        (K.contents out.old) (K.contents out.new)
        (L.heard hearers.old.listener) (L.heard hearers.new.listener)
        × Tells reading.now false (packets_of pieces)
        (T.heard hearers.old.taker) (T.heard hearers.new.taker))) }

    // All that was written is passed on.
    ensures passed { IsOk result → K.flushed out.new ≡ K.contents out.new }

    // What a fault leaves.
    ensures leaves { IfErr result (λ e. JoinedLeaves (cut reading.now) wanted.now
        (layout_reads reading.now) e (S.remaining source.old) (S.remaining source.new)
        (K.contents out.old) (K.contents out.new)) }

    // If a read fails, just what the packets give was told and written that what was read before
    // it shows.
    ensures settled { result ≡ Err StreamFault.Read → TakenAll (cut reading.now)
        (S.remaining source.old) (S.remaining source.new) (λ pieces.
        Hears (L.heard hearers.old.listener) (L.heard hearers.new.listener)
        (joined_in wanted.now (layout_reads reading.now) [] 0 pieces)
        × teller.Hears (T.heard hearers.old.taker) (T.heard hearers.new.taker)
        (events reading.now false (packets_of pieces))
        × Appends (K.contents out.old) (K.contents out.new) (written_first wanted.now.at
        (areas_in wanted.now (reads (layout_reads reading.now) (packets_of pieces)))))
        ⊎ IsEndlessBy (cut reading.now) (S.remaining source.old) (S.remaining source.new) }
    ensures reader { ReadEnds
        (IsEndlessBy (cut reading.now) (S.remaining source.old) (S.remaining source.new)) result
        (S.failed source.old) (S.failed source.new) }

    // Of a fault of a write it may be the taker that failed.
    ensures writer { OnOk result (K.failed out.new ≡ K.failed out.old) }
    ensures failed { IfErr result (λ e. (e ≡ StreamFault.Write)
        ⊎ (K.failed out.new ≡ failed_write e (K.failed out.old))) }
{
    let helds = HeldsAs::new(alloc);
    let joins = LayoutJoins {
        reading: *reading,
        helds,
    };
    join_stream(alloc, wanted, joins, source, out, hearers)
}

// What was joined so far.
#[derive(Drop)]
struct LayoutJoins {
    reading: Reading,
    helds: HeldsAs,
}

impl<T: TakerAs> Joins<T> for LayoutJoins {
    ghost use Rattle.std.specs.Prelude.{◌≡◌, false};
    ghost use Rattle.lpt_carried.specs.Carried as carried;
    ghost use Rattle.lpt_layout_each.specs.Helds.{HoldsEach};
    ghost use Rattle.lpt_layout_each.specs.News as teller;
    ghost use Rattle.lpt_layout_each.specs.Streams.{Tells, events};
    ghost use Rattle.lpt_extract.specs.LayoutJoined.{layout_reads};

    ghost cut = { λ j. carried.cut j.reading };

    ghost reads = { λ j. layout_reads j.reading };

    ghost keeps = { λ first now bs. (now.reading ≡ first.reading)
        × HoldsEach now.reading false bs now.helds };

    ghost tells = { λ first old new bs. teller.Hears (T.heard old) (T.heard new)
        (events first.reading false bs) };

    ghost tells_all = { λ first old new bs. Tells first.reading false bs
        (T.heard old) (T.heard new) };

    fn cut(&self) -> Cut {
        self.reading.cut()
    }

    fn gather(
        self,
        alloc: Global,
        taker: &mut T,
        place: u64,
        kind: PieceKind,
        octets: &[u8],
    ) -> Result<(LayoutJoins, InPlace), StreamFault> {
        match kind {
            PieceKind::Whole => gather_packet(alloc, self, taker, place, octets),
            PieceKind::Damaged => Ok((self, InPlace::Itself)),
            PieceKind::Stray => Ok((self, InPlace::Itself)),
        }
    }

    fn leave(self, taker: &mut T) -> Result<(), StreamFault> {
        leave_as(self.helds, taker)
    }
}

// Joins the part that the next packet carries, if it does, and tells what becomes of it.
fn gather_packet<T: TakerAs>(
    alloc: Global,
    joins: LayoutJoins,
    taker: &mut T,
    place: u64,
    octets: &[u8],
) -> Result<(LayoutJoins, InPlace), StreamFault>
    requires { IsSealedBy (cut joins.reading) PieceKind.Whole octets.now }
    ensures same { IfOk result (λ x. x.0.reading ≡ joins.reading) }
    ensures kept { (bs : List (List ℕ)) → HoldsEach joins.reading false bs joins.helds
        → IfOk result (λ x. HoldsEach x.0.reading false (bs ++ octets.now ∷ []) x.0.helds) }
    ensures told { (bs : List (List ℕ)) → HoldsEach joins.reading false bs joins.helds
        → OnOk result (teller.Hears (T.heard taker.old) (T.heard taker.new)
        (told_by joins.reading false bs octets.now (part_carried joins.reading octets.now))) }
    ensures placed { (bs : List (List ℕ)) → HoldsEach joins.reading false bs joins.helds
        → IfOk result (λ x. IsInPlace (layout_reads joins.reading) bs PieceKind.Whole octets.now
        x.1) }
    ensures fault { IfErr result (λ e. (e ≡ StreamFault.Write) ⊎ (e ≡ StreamFault.Memory)) }
{
    let LayoutJoins { reading, helds } = joins;
    let part = match carried_in(&reading, PieceKind::Whole, octets) {
        Ok(part) => part,
        Err(_) => {
            let helds = helds.pass_over(&reading, octets)?;
            return Ok((LayoutJoins { reading, helds }, InPlace::Itself));
        }
    };
    let (helds, event) = match helds.take(alloc, &reading, false, place, octets, &part) {
        Ok(taken) => taken,
        Err(_) => return Err(StreamFault::Memory),
    };
    let read = told_to(taker, event)?;
    Ok((LayoutJoins { reading, helds }, read))
}

// Tells what became of the parts of a name, if something did, and gives the message that became
// whole.
fn told_to<T: TakerAs>(taker: &mut T, event: Option<(Name, NewsAs)>) -> Result<InPlace, StreamFault>
    ensures told { OnOk result (teller.Hears (T.heard taker.old) (T.heard taker.new)
        (events_of event)) }
    ensures read { IfOk result (λ x. IsRead (messages_in (events_of event)) x) }
    ensures fault { IfErr result (λ e. (e ≡ StreamFault.Write) ⊎ (e ≡ StreamFault.Memory)) }
{
    let Some((name, news)) = event else {
        return Ok(InPlace::Nothing);
    };
    taker.take(name, &news)?;
    match news {
        NewsAs::Given(message) => Ok(InPlace::Message(message)),
        NewsAs::Dropped(_came) => Ok(InPlace::Nothing),
        NewsAs::Unfit(_misfit) => Ok(InPlace::Nothing),
        NewsAs::Overtaken(_came, message) => Ok(InPlace::Message(message)),
    }
}

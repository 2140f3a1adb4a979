//! The messages of a stream, each of every name, as its packets come.

ghost use Rattle.std.specs.Prelude.{◌≡◌, ◌≤◌, ◌⊎◌, ◌∷◌, ◌++◌, ℕ, List, [], length, None, Ok, Err, IfErr, IfOk, OnOk};
ghost use Rattle.lpt_text.specs.Streams.{ReadEnds};
ghost use Rattle.lpt_packet.specs.Sizes.{longest_packet};
ghost use Rattle.lpt_stream.specs.Pieces.{packets_of};
ghost use Rattle.lpt_stream.specs.Reads.{IsEndlessBy};
ghost use Rattle.lpt_stream.specs.Takes.{LeavesBy, TakenAll};
ghost use Rattle.lpt_carried.specs.Carried.{part_carried, cut, part_named};
ghost use Rattle.lpt_carried.specs.Tallies.{skips_of};
ghost use Rattle.lpt_layout_join.specs.Writes.{ReadsCut};
ghost use Rattle.lpt_layout_each.specs.Helds.{HoldsEach};
ghost use Rattle.lpt_layout_each.specs.News.{Hears, HearsPart};
ghost use Rattle.lpt_layout_each.specs.Streams.{Tells, TellsPart, any_of, events, told_by};

use crate::TakerAs;
use crate::helds::HeldsAs;
use crate::leaving::leave_as;
use lpt_carried::{CarriedPart, Reading, Skips, Wanted, carried_in};
use lpt_layout_join::Nowhere;
use lpt_stream::{Cut, PieceKind, Taker, take_pieces};
use lpt_text::{Source, StreamFault};
use std::alloc::Global;

/// Reads a stream of packets to its end, and tells the taker of each message of every name, in the
/// order in which they become whole, and of what is given up. At the end it is told what is left
/// of each name, in the order of names. The answer counts what was passed over, by its reasons.
///
/// A message is given out if it is a packet of the layout and the direction, or with `any`
/// whatever it is; by a layout without a checksum, but with `any`, only if its parts came in
/// their order, and few sequence counts are missing between them.
///
/// Errors: `Read` if a read failed, or if 2^64 - 1 pieces came; `Memory`; those of the taker.
/// A front part of what was to be told stays told.
pub fn each_as<S: Source, T: TakerAs>(
    alloc: Global,
    reading: &Reading,
    any: bool,
    source: &mut S,
    taker: &mut T,
) -> Result<Skips, StreamFault>
    ensures told { IfOk result (λ skips. ReadsCut (cut reading.now) (S.remaining source.old)
        (S.remaining source.new) (λ pieces. Tells reading.now any (packets_of pieces)
        (T.heard taker.old) (T.heard taker.new)
        × (skips ≡ skips_of (any_of reading.now) pieces))) }

    // What a fault leaves: a front part of what the packets before it tell was told.
    ensures leaves { IfErr result (λ _. LeavesBy (cut reading.now) (S.remaining source.old)
        (S.remaining source.new) (λ pieces. TellsPart reading.now any (packets_of pieces)
        (T.heard taker.old) (T.heard taker.new))) }

    // If a read fails, just what the packets tell that what was read before it shows.
    ensures settled { result ≡ Err StreamFault.Read → TakenAll (cut reading.now)
        (S.remaining source.old) (S.remaining source.new) (λ pieces.
        Hears (T.heard taker.old) (T.heard taker.new)
        (events reading.now any (packets_of pieces)))
        ⊎ IsEndlessBy (cut reading.now) (S.remaining source.old) (S.remaining source.new) }
    ensures reader { ReadEnds (IsEndlessBy (cut reading.now) (S.remaining source.old)
        (S.remaining source.new)) result (S.failed source.old) (S.failed source.new) }
{
    let first = Teller {
        wanted: Wanted {
            reading: *reading,
            name: None,
        },
        any,
        helds: HeldsAs::new(alloc),
        skips: Skips::new(),
    };
    let mut out = Nowhere { failed: false };
    let last = take_pieces(alloc, 0, source, first, &mut out, taker)?;
    leave_as(last.helds, taker)?;
    Ok(last.skips)
}

// What a stream's pieces have given of each name so far, while the taker is told.
#[derive(Drop)]
struct Teller {
    // How parts are read; those of any name are wanted.
    wanted: Wanted,
    any: bool,
    helds: HeldsAs,
    // What was passed over.
    skips: Skips,
}

impl Teller {
    ghost use Rattle.std.specs.Prelude.{◌≢◌, Option};
    ghost use Rattle.lpt_stream.specs.declared.piece_kind.PieceKind.TheVariants.{Whole};
    ghost use Rattle.lpt_stream.specs.Pieces.{Piece, IsSealedBy};
    ghost use Rattle.lpt_layout_each.specs.News.{Event};
    ghost use Rattle.lpt_layout_each.specs.Tellers.{IsTold};

    // Takes the next piece.
    fn add<T: TakerAs>(
        self,
        alloc: Global,
        place: u64,
        kind: PieceKind,
        octets: &[u8],
        taker: &mut T,
    ) -> Result<Teller, StreamFault>
        requires sealed { IsSealedBy (cut self.wanted.reading) kind octets.now }
        ensures same { IfOk result (λ t. t.wanted ≡ self.wanted) }
        ensures told { (first : Teller) (heard : Option (List Event)) (ps : List Piece)
            → IsTold first self heard (T.heard taker.old) ps → IfOk result (λ t.
            IsTold first t heard (T.heard taker.new)
            (ps ++ record { kind = kind; octets = octets.now } ∷ [])) }
        ensures left { (first : Teller) (heard : Option (List Event)) (ps : List Piece)
            → IsTold first self heard (T.heard taker.old) ps → IfErr result (λ _.
            HearsPart heard (T.heard taker.new) (events first.wanted.reading first.any
            (packets_of (ps ++ record { kind = kind; octets = octets.now } ∷ [])))) }
        ensures fault { IfErr result (λ e. (e ≡ StreamFault.Write) ⊎ (e ≡ StreamFault.Memory)) }
    {
        match kind {
            PieceKind::Whole => self.add_packet(alloc, place, octets, taker),
            PieceKind::Damaged => Ok(self.pass(PieceKind::Damaged, octets)),
            PieceKind::Stray => Ok(self.pass(PieceKind::Stray, octets)),
        }
    }

    // Passes over the next piece, which is no packet.
    fn pass(self, kind: PieceKind, octets: &[u8]) -> Teller
        requires other { kind ≢ Whole }
        requires sealed { IsSealedBy (cut self.wanted.reading) kind octets.now }
        ensures same { result.wanted ≡ self.wanted }
        ensures told { (first : Teller) (heard hears : Option (List Event)) (ps : List Piece)
            → IsTold first self heard hears ps → IsTold first result heard hears
            (ps ++ record { kind = kind; octets = octets.now } ∷ []) }
    {
        let mut teller = self;
        let wanted = teller.wanted;
        teller.skips.note(&wanted, kind, octets);
        teller
    }

    // Takes the next piece, which is a packet.
    fn add_packet<T: TakerAs>(
        self,
        alloc: Global,
        place: u64,
        octets: &[u8],
        taker: &mut T,
    ) -> Result<Teller, StreamFault>
        requires sealed { IsSealedBy (cut self.wanted.reading) Whole octets.now }
        ensures same { IfOk result (λ t. t.wanted ≡ self.wanted) }
        ensures told { (first : Teller) (heard : Option (List Event)) (ps : List Piece)
            → IsTold first self heard (T.heard taker.old) ps → IfOk result (λ t.
            IsTold first t heard (T.heard taker.new)
            (ps ++ record { kind = Whole; octets = octets.now } ∷ [])) }
        ensures left { (first : Teller) (heard : Option (List Event)) (ps : List Piece)
            → IsTold first self heard (T.heard taker.old) ps → IfErr result (λ _.
            HearsPart heard (T.heard taker.new) (events first.wanted.reading first.any
            (packets_of (ps ++ record { kind = Whole; octets = octets.now } ∷ [])))) }
        ensures fault { IfErr result (λ e. (e ≡ StreamFault.Write) ⊎ (e ≡ StreamFault.Memory)) }
    {
        let Teller {
            wanted,
            any,
            helds,
            mut skips,
        } = self;
        let part = match carried_in(&wanted.reading, PieceKind::Whole, octets) {
            Ok(part) => part,
            Err(_) => {
                skips.note(&wanted, PieceKind::Whole, octets);
                let helds = helds.pass_over(&wanted.reading, octets)?;
                return Ok(Teller {
                    wanted,
                    any,
                    helds,
                    skips,
                });
            }
        };
        skips.pass(octets);
        let reading = &wanted.reading;
        let helds = take_part(alloc, reading, any, place, octets, &part, helds, taker)?;
        Ok(Teller {
            wanted,
            any,
            helds,
            skips,
        })
    }
}

impl<T: TakerAs> Taker<Nowhere, T> for Teller {
    ghost use Rattle.std.specs.Prelude.{◌≡◌, ◌⊎◌, [], None, true};
    ghost use Rattle.lpt_text.specs.declared.fault.StreamFault.TheVariants as faults;
    ghost use Rattle.lpt_stream.specs.Pieces.{packets_of};
    ghost use Rattle.lpt_carried.specs.Carried as carried;
    ghost use Rattle.lpt_layout_each.specs.News.{HearsPart};
    ghost use Rattle.lpt_layout_each.specs.Streams.{events};
    ghost use Rattle.lpt_layout_each.specs.Tellers.{IsTold};

    ghost cut = { λ t. carried.cut t.wanted.reading };

    ghost is_open = { λ _. true };

    ghost takes = { λ from first now old new pieces. (from ≡ 0)
        × IsTold first now (T.heard old) (T.heard new) pieces };

    ghost leaves = { λ from first old new pieces. HearsPart (T.heard old) (T.heard new)
        (events first.wanted.reading first.any (packets_of pieces)) };

    ghost writes = { λ from first pieces. [] };

    ghost others = { λ e. (e ≡ faults.Write) ⊎ (e ≡ faults.Memory) };

    fn cut(&self) -> Cut {
        self.wanted.reading.cut()
    }

    fn is_open(&self) -> bool {
        true
    }

    fn take(
        self,
        alloc: Global,
        _out: &mut Nowhere,
        lent: &mut T,
        place: u64,
        kind: PieceKind,
        octets: &[u8],
    ) -> Result<Teller, StreamFault> {
        self.add(alloc, place, kind, octets, lent)
    }
}

// Takes a part that a packet carries.
fn take_part<T: TakerAs>(
    alloc: Global,
    reading: &Reading,
    any: bool,
    place: u64,
    octets: &[u8],
    part: &CarriedPart<'_>,
    helds: HeldsAs,
    taker: &mut T,
) -> Result<HeldsAs, StreamFault>
    requires number { 1 ≤ part.now.part.number }
    requires short { length part.now.part.octets.now ≤ longest_packet }
    ensures held { (bs : List (List ℕ)) → HoldsEach reading.now any bs helds
        → part_carried reading.now octets.now ≡ Ok (part_named part.now)
        → IfOk result (HoldsEach reading.now any (bs ++ octets.now ∷ [])) }
    ensures told { (bs : List (List ℕ)) → HoldsEach reading.now any bs helds
        → part_carried reading.now octets.now ≡ Ok (part_named part.now)
        → OnOk result (Hears (T.heard taker.old) (T.heard taker.new)
        (told_by reading.now any bs octets.now (part_carried reading.now octets.now))) }
    ensures left { (bs : List (List ℕ)) → HoldsEach reading.now any bs helds
        → part_carried reading.now octets.now ≡ Ok (part_named part.now)
        → IfErr result (λ _. HearsPart (T.heard taker.old) (T.heard taker.new)
        (told_by reading.now any bs octets.now (part_carried reading.now octets.now))) }
    ensures fault { IfErr result (λ e. (e ≡ StreamFault.Write) ⊎ (e ≡ StreamFault.Memory)) }
{
    let (helds, event) = match helds.take(alloc, reading, any, place, octets, part) {
        Ok(taken) => taken,
        Err(_) => return Err(StreamFault::Memory),
    };
    let Some((name, news)) = event else {
        return Ok(helds);
    };
    taker.take(name, &news)?;
    Ok(helds)
}

//! The transactions of a stream, as its packets come.

ghost use Rattle.std.specs.Prelude.{◌≡◌, ◌≤◌, ◌⊎◌, length, true, None, IfOk, IfErr, IfSome, Ok};
ghost use Rattle.lpt_packet.specs.Sizes.{longest_packet};
ghost use Rattle.lpt_carried.specs.declared.name.Name.{Name};
ghost use Rattle.lpt_text.specs.Streams.{ReadEnds};
ghost use Rattle.lpt_carried.specs.Carried.{part_carried, cut, name_of, part_named, part_of};
ghost use Rattle.lpt_stream.specs.declared.piece_kind.PieceKind.TheVariants.{Whole};
ghost use Rattle.lpt_stream.specs.Pieces.{IsSealedBy};
ghost use Rattle.lpt_carried.specs.Tallies.{skips_of};
ghost use Rattle.lpt_stream.specs.Reads.{IsEndlessBy};
ghost use Rattle.lpt_layout_join.specs.Gatherings.{GivesEach, is_wanted};
ghost use Rattle.lpt_layout_join.specs.Writes.{ReadsCut};

use crate::nowhere::Nowhere;
use crate::{Counts, Gatherings};
use lpt_carried::{CarriedPart, Name, Skips, Wanted, carried_in};
use lpt_stream::{Cut, PieceKind, Taker, take_pieces};
use lpt_text::{Source, StreamFault};
use std::alloc::{AllocError, Global};

/// Keeps what a stream's packets give of each transaction that is wanted, up to the stream's end,
/// and counts what was passed over, by its reasons.
///
/// Errors: `Read` if a read failed, or if 2^64 - 1 pieces came; `Memory`.
pub fn gather_stream<S: Source>(
    alloc: Global,
    wanted: &Wanted,
    source: &mut S,
) -> Result<(Gatherings, Skips), StreamFault>
    ensures gathered { IfOk result (λ r. ReadsCut (cut wanted.now.reading)
        (S.remaining source.old) (S.remaining source.new)
        (λ ps. GivesEach wanted.now.reading wanted.now.name ps r.0
        × (r.1 ≡ skips_of wanted.now ps))) }
    ensures reader { ReadEnds (IsEndlessBy (cut wanted.now.reading) (S.remaining source.old)
        (S.remaining source.new)) result (S.failed source.old) (S.failed source.new) }
    ensures fault { IfErr result (λ e. (e ≡ StreamFault.Read) ⊎ (e ≡ StreamFault.Memory)) }
{
    let mut findings = Findings {
        gatherings: Gatherings::new(alloc),
        counts: Counts::new(alloc),
        skips: Skips::new(),
    };
    let first = Gatherer { wanted };
    let mut out = Nowhere { failed: false };
    match take_pieces(alloc, 0, source, first, &mut out, &mut findings) {
        Ok(_) => {
            let Findings {
                gatherings,
                skips,
                ..
            } = findings;
            Ok((gatherings, skips))
        }
        Err(StreamFault::Read) => Err(StreamFault::Read),
        Err(StreamFault::Memory) => Err(StreamFault::Memory),
        // No write to it ever fails.
        Err(StreamFault::Write) => Err(StreamFault::Memory),
    }
}

// What a stream's pieces have given of each transaction so far.
#[derive(Drop)]
struct Findings {
    gatherings: Gatherings,
    counts: Counts,
    // What was passed over.
    skips: Skips,
}

impl Findings {
    ghost use Rattle.std.specs.Prelude.{◌∷◌, ◌++◌, [], List, OnOk};
    ghost use Rattle.lpt_stream.specs.declared.piece_kind.PieceKind.TheVariants.{Whole};
    ghost use Rattle.lpt_stream.specs.Pieces.{Piece, IsSealedBy, octets_in, up_to_limit};
    ghost use Rattle.lpt_layout_join.specs.Readers.{Gathers};

    // Adds the next piece. The only error is out of memory.
    fn add(
        &mut self,
        alloc: Global,
        wanted: &Wanted,
        place: u64,
        kind: PieceKind,
        octets: &[u8],
    ) -> Result<(), AllocError>
        requires { IsSealedBy (cut wanted.now.reading) kind octets.now }
        ensures { (ps : List Piece) → Gathers wanted.now self.old ps
            → place ≡ up_to_limit (octets_in ps) → OnOk result (Gathers wanted.now self.new
            (ps ++ record { kind = kind; octets = octets.now } ∷ [])) }
    {
        match kind {
            PieceKind::Whole => self.add_packet(alloc, wanted, place, octets),
            PieceKind::Damaged | PieceKind::Stray => {
                self.skips.note(wanted, kind, octets);
                Ok(())
            }
        }
    }

    // Adds the next piece, which is a packet. The only error is out of memory.
    fn add_packet(
        &mut self,
        alloc: Global,
        wanted: &Wanted,
        place: u64,
        octets: &[u8],
    ) -> Result<(), AllocError>
        requires { IsSealedBy (cut wanted.now.reading) Whole octets.now }
        ensures { (ps : List Piece) → Gathers wanted.now self.old ps
            → place ≡ up_to_limit (octets_in ps) → OnOk result (Gathers wanted.now self.new
            (ps ++ record { kind = Whole; octets = octets.now } ∷ [])) }
    {
        self.counts.take(&wanted.reading, octets)?;
        let Some(part) = wanted_part(wanted, octets) else {
            self.skips.note(wanted, PieceKind::Whole, octets);
            return Ok(());
        };
        self.skips.pass(octets);
        let missing = self.counts.missing();
        self.gatherings.add(alloc, missing, place, &part)?;
        Ok(())
    }
}

// The part that a packet carries, if that is wanted.
fn wanted_part<'a>(wanted: &Wanted, octets: &'a [u8]) -> Option<CarriedPart<'a>>
    requires { IsSealedBy (cut wanted.now.reading) Whole octets.now }
    ensures carried { IfSome result
        (λ c. part_carried wanted.now.reading octets.now ≡ Ok (part_named c)) }
    ensures wanted { IfSome result (λ c. is_wanted wanted.now.name (name_of (part_named c)) ≡ true) }
    ensures number { IfSome result (λ c. 1 ≤ c.part.number) }
    ensures within { IfSome result (λ c. c.part.number ≤ longest_packet) }
    ensures short { IfSome result (λ c. length c.part.octets.now ≤ longest_packet) }
    ensures none { result ≡ None → (n : Name) → is_wanted wanted.now.name n ≡ true
        → part_of n (part_carried wanted.now.reading octets.now) ≡ None }
{
    let Ok(part) = carried_in(&wanted.reading, PieceKind::Whole, octets) else {
        return None;
    };
    if is_wanted(wanted.name, part.name()) {
        Some(part)
    } else {
        None
    }
}

// Whether parts of this name are wanted.
fn is_wanted(wanted: Option<Name>, name: Name) -> bool
    ensures { result ≡ is_wanted wanted name }
{
    match wanted {
        Some(wanted) => name == wanted,
        None => true,
    }
}

// It lets each piece add to what was found before. It is small, since it is moved at each piece.
#[derive(Drop)]
struct Gatherer<'a> {
    wanted: &'a Wanted,
}

impl Taker<Nowhere, Findings> for Gatherer<'_> {
    ghost use Rattle.std.specs.Prelude.{◌≡◌, [], true, ⊤};
    ghost use Rattle.lpt_text.specs.declared.fault.StreamFault.TheVariants as faults;
    ghost use Rattle.lpt_carried.specs.Carried as carried;
    ghost use Rattle.lpt_layout_join.specs.Readers.{Takes};

    ghost cut = { λ g. carried.cut g.wanted.now.reading };

    ghost is_open = { λ _. true };

    ghost takes = { λ from first now old new pieces. Takes from first now new pieces };

    ghost leaves = { λ from first old new pieces. ⊤ };

    ghost writes = { λ from first pieces. [] };

    ghost others = { λ e. e ≡ faults.Memory };

    fn cut(&self) -> Cut {
        self.wanted.reading.cut()
    }

    fn is_open(&self) -> bool {
        true
    }

    fn take(
        self,
        alloc: Global,
        _out: &mut Nowhere,
        lent: &mut Findings,
        place: u64,
        kind: PieceKind,
        octets: &[u8],
    ) -> Result<Self, StreamFault> {
        match lent.add(alloc, self.wanted, place, kind, octets) {
            Ok(()) => Ok(self),
            Err(_) => Err(StreamFault::Memory),
        }
    }
}

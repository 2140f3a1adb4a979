//! The check reports of a stream.

ghost use Rattle.std.specs.Prelude.{◌≡◌, ◌⊎◌, true, IfErr, IfOk};
ghost use Rattle.lpt_text.specs.Streams.{ReadEnds};
ghost use Rattle.lpt_carried.specs.Carried.{cut_for};
ghost use Rattle.lpt_stream.specs.Reads.{IsEndlessBy};
ghost use Rattle.lpt_stream.specs.Takes.{ReadsBy};
ghost use Rattle.lpt_compare.specs.Read.{AreChecks};

use crate::reading::{Said, cut_for, said_in_piece};
use crate::{Checked, Layout, Others};
use lpt_stream::{Cut, PieceKind, Taker, take_pieces};
use lpt_text::{FromStd, Sink, Source, StreamFault};
use std::alloc::{AllocError, Global};

/// What the check reports of a stream say of a memory, and how much of the stream is no packet.
/// Each number stays at 2^64 - 1 if it would be more.
#[derive(Drop)]
pub struct Checks {
    /// The areas, in their order.
    pub areas: Vec<Checked>,
    /// Runs of octets that are no packets, each as long as its header says.
    pub damaged: u64,
    /// Octets that are part of no packet, nor of such a run.
    pub stray: u64,
    /// Check reports of the APID that aren't read.
    pub unread: u64,
    /// Parts of messages of the APID, which may be check reports.
    pub parts: u64,
    /// Check reports and parts of other APIDs.
    pub others: Others,
}

/// The areas of the check reports of this layout among the packets of a stream that are of this
/// APID and of this memory. Other packets are passed over; check reports that aren't read, parts of
/// messages, both of other APIDs, and what is no packet are counted.
///
/// Errors: `Read` if a read failed, or if 2^64 - 1 pieces came; `Memory`.
pub fn read_checks<S: Source>(
    alloc: Global,
    layout: &Layout,
    apid: u16,
    memory: u8,
    source: &mut S,
) -> Result<Checks, StreamFault>
    // The stream is read to its end.
    ensures checks { IfOk result (λ r. ReadsBy (cut_for layout.now.has_checksum)
        (S.remaining source.old) (S.remaining source.new) true
        (λ pieces. AreChecks layout.now apid memory pieces r)) }
    ensures reader { ReadEnds (IsEndlessBy (cut_for layout.now.has_checksum)
        (S.remaining source.old) (S.remaining source.new)) result
        (S.failed source.old) (S.failed source.new) }
    ensures fault { IfErr result (λ e. (e ≡ StreamFault.Read) ⊎ (e ≡ StreamFault.Memory)) }
{
    let first = CheckTaker {
        layout: *layout,
        apid,
        memory,
        checks: Checks {
            areas: Vec::new(alloc),
            damaged: 0,
            stray: 0,
            unread: 0,
            parts: 0,
            others: Others::new(),
        },
    };
    let mut out = FromStd::new(Vec::new(alloc));
    match take_pieces(alloc, 0, source, first, &mut out, &mut ()) {
        Ok(last) => Ok(last.checks),
        Err(StreamFault::Read) => Err(StreamFault::Read),
        // Nothing is written, so no write fails.
        Err(StreamFault::Write | StreamFault::Memory) => Err(StreamFault::Memory),
    }
}

impl Checks {
    ghost use Rattle.std.specs.Prelude.{◌≡◌, ◌++◌, ◌∷◌, ℕ, List, [], OnOk};
    ghost use Rattle.lpt_layout.specs.declared.layout.Layout.{Layout};
    ghost use Rattle.lpt_stream.specs.Pieces.{Piece};
    ghost use Rattle.lpt_compare.specs.Checks.{areas_in, piece_said};
    ghost use Rattle.lpt_compare.specs.Read.{AreCounted, ArePassed};
    ghost use Rattle.lpt_compare.specs.Sayings.{saying_of};

    // Counts a piece of this kind, if it is no packet.
    fn count(&mut self, kind: PieceKind)
        ensures areas { self.new.areas ≡ self.old.areas }
        ensures counted { (ps : List Piece) (p : Piece) → p.kind ≡ kind → AreCounted ps self.old
            → AreCounted (ps ++ p ∷ []) self.new }
        ensures unread { self.new.unread ≡ self.old.unread }
        ensures parts { self.new.parts ≡ self.old.parts }
        ensures others { self.new.others ≡ self.old.others }
    {
        match kind {
            PieceKind::Whole => {}
            PieceKind::Damaged => self.damaged = self.damaged.saturating_add(1),
            PieceKind::Stray => self.stray = self.stray.saturating_add(1),
        }
    }

    // Counts a piece that is this, if it is passed over.
    fn pass(&mut self, said: &Said)
        ensures areas { self.new.areas ≡ self.old.areas }
        ensures damaged { self.new.damaged ≡ self.old.damaged }
        ensures stray { self.new.stray ≡ self.old.stray }
        ensures passed { (l : Layout) (apid memory : ℕ) (ps : List Piece) (p : Piece)
            → saying_of said.now ≡ piece_said l apid memory p.kind p.octets
            → ArePassed l apid memory ps self.old
            → ArePassed l apid memory (ps ++ p ∷ []) self.new }
    {
        match said {
            Said::Areas(_) => {}
            Said::Unread => self.unread = self.unread.saturating_add(1),
            Said::Part => self.parts = self.parts.saturating_add(1),
            Said::Foreign(apid) => self.others.add(*apid),
            Said::Other => {}
        }
    }

    // Keeps the areas that it says. The only error is out of memory.
    fn keep(&mut self, said: &Said) -> Result<(), AllocError>
        ensures areas { OnOk result (self.new.areas.items
            ≡ self.old.areas.items ++ areas_in (saying_of said.now)) }
        ensures damaged { self.new.damaged ≡ self.old.damaged }
        ensures stray { self.new.stray ≡ self.old.stray }
        ensures unread { self.new.unread ≡ self.old.unread }
        ensures parts { self.new.parts ≡ self.old.parts }
        ensures others { self.new.others ≡ self.old.others }
    {
        if let Said::Areas(areas) = said {
            self.areas.extend_from_slice(areas)?;
        }
        Ok(())
    }
}

// What has been said so far.
#[derive(Drop)]
struct CheckTaker {
    layout: Layout,
    apid: u16,
    memory: u8,
    checks: Checks,
}

impl<K: Sink> Taker<K, ()> for CheckTaker {
    ghost use Rattle.std.specs.Prelude.{[], true, ⊤};
    ghost use Rattle.lpt_carried.specs.Carried.{cut_for};
    ghost use Rattle.lpt_compare.specs.ChecksInside.{IsTaken};

    ghost cut = { λ t. cut_for t.layout.has_checksum };

    ghost is_open = { λ _. true };

    ghost takes = { λ from first now old new pieces. IsTaken first now pieces };

    ghost leaves = { λ from first old new pieces. ⊤ };

    ghost writes = { λ from first pieces. [] };

    ghost others = { λ e. ⊤ };

    fn cut(&self) -> Cut {
        cut_for(&self.layout)
    }

    fn is_open(&self) -> bool {
        true
    }

    fn take(
        self,
        alloc: Global,
        _out: &mut K,
        _lent: &mut (),
        _place: u64,
        kind: PieceKind,
        octets: &[u8],
    ) -> Result<CheckTaker, StreamFault> {
        let CheckTaker {
            layout,
            apid,
            memory,
            mut checks,
        } = self;
        checks.count(kind);
        let said = match said_in_piece(alloc, &layout, apid, memory, kind, octets) {
            Ok(said) => said,
            Err(_) => return Err(StreamFault::Memory),
        };
        checks.pass(&said);
        match checks.keep(&said) {
            Ok(()) => Ok(CheckTaker {
                layout,
                apid,
                memory,
                checks,
            }),
            Err(_) => Err(StreamFault::Memory),
        }
    }
}

//! What lists the pieces of a stream, one after the other.

ghost use Rattle.std.specs.Prelude.{◌≡◌, Result};
ghost use Rattle.lpt_stream.specs.Pieces.{IsSealedBy, keeps_step};
ghost use Rattle.lpt_layout.specs.Packets.{Gives, verdict_as};
ghost use Rattle.lpt_packet.specs.declared.fault.PacketFault.{PacketFault};
ghost use Rattle.lpt_packet.specs.Packets.{Sight};
ghost use Rattle.lpt_list.specs.Lists.{cut_for, flagged_kind, kind_judged, stopped_with};

use crate::choice::{direction_of, kind_in};
use crate::lines::{print_none, print_piece};
use crate::list_end::tally_with;
use crate::{Form, ListEnd, Listed, Tally};
use lpt_carried::Layouts;
use lpt_layout::{Layout, SeenAs, read_packet_as, read_sealed_as};
use lpt_packet::PacketFault;
use lpt_stream::{Cut, PieceKind, Taker, ends_in_checksum};
use lpt_text::{Sink, StreamFault, write_out};
use std::alloc::{AllocError, Global};

/// Lists pieces of a stream.
#[derive(Clone, Copy)]
pub(crate) struct Lister<'a> {
    form: Form,
    layouts: &'a Layouts,
    cut: Cut,
    strict: bool,
    // Whether the next octets come right behind a packet.
    in_step: bool,
    tally: Tally,
    // The place of the first piece that is no packet, if the list ends there.
    stopped: Option<u64>,
}

impl<'a> Lister<'a> {
    ghost use Rattle.std.specs.Prelude.{◌≡◌, ℕ, [], IfOk, if◌then◌else◌};
    ghost use Rattle.std.specs.String.{string_bytes};
    ghost use Rattle.lpt_stream.specs.Pieces.{IsSealedBy};
    ghost use Rattle.lpt_carried.specs.Layouts.{SizesFit};
    ghost use Rattle.lpt_list.specs.Listers.{HasListed};
    ghost use Rattle.lpt_list.specs.Lists.{cut_for, end_of, kind_as, line_for, none_line, piece_line};

    // Nothing was listed.
    pub(crate) fn new(form: Form, layouts: &'a Layouts, strict: bool) -> Lister<'a>
        requires { SizesFit layouts.now }
        ensures form { result.form ≡ form }
        ensures layouts { result.layouts.now ≡ layouts.now }
        ensures cut { result.cut ≡ cut_for layouts.now }
        ensures strict { result.strict ≡ strict }
        ensures none { (from : ℕ) → HasListed from result result [] }
    {
        Lister {
            form,
            layouts,
            cut: cut_for(layouts),
            strict,
            in_step: true,
            tally: Tally {
                damaged: 0,
                stray: 0,
            },
            stopped: None,
        }
    }

    // What was listed.
    pub(crate) fn listed_so_far(&self) -> Listed
        ensures end { result.end ≡ end_of self.now.stopped }
        ensures tally { result.tally ≡ self.now.tally }
    {
        let end = match self.stopped {
            Some(place) => ListEnd::Stopped(place),
            None => ListEnd::Whole,
        };
        Listed {
            end,
            tally: self.tally,
        }
    }

    // What is listed of a piece, and what it is by its layout. The only error is out of memory.
    fn line(
        &self,
        alloc: Global,
        place: u64,
        kind: PieceKind,
        octets: &[u8],
    ) -> Result<(String, PieceKind), AllocError>
        requires sizes { SizesFit self.now.layouts.now }
        requires sealed { IsSealedBy self.now.cut kind octets.now }
        ensures line { IfOk result (λ r. string_bytes r.0 ≡ line_for self.now.form
            self.now.layouts.now place self.now.in_step kind octets.now) }
        ensures kind { IfOk result (λ r. r.1 ≡ kind_as self.now.layouts.now kind octets.now) }
    {
        match kind {
            PieceKind::Whole | PieceKind::Damaged => self.packet_line(alloc, place, kind, octets),
            PieceKind::Stray => Ok((self.none_line(alloc, place)?, kind)),
        }
    }

    // The line of a packet, or of octets as long as one, and what that is.
    fn packet_line(
        &self,
        alloc: Global,
        place: u64,
        kind: PieceKind,
        octets: &[u8],
    ) -> Result<(String, PieceKind), AllocError>
        requires sizes { SizesFit self.now.layouts.now }
        requires sealed { IsSealedBy self.now.cut kind octets.now }
        ensures line { IfOk result (λ r. string_bytes r.0
            ≡ piece_line self.now.form self.now.layouts.now place octets.now) }
        ensures kind { IfOk result (λ r. r.1 ≡ kind_as self.now.layouts.now kind octets.now) }
    {
        let layouts = self.layouts;
        let tailored = layouts.tailored_in(direction_of(kind_in(octets)));
        let seen = read_seen(self.cut, &tailored.packets, kind, octets);
        let line = print_piece(alloc, self.form, layouts, place, octets, &seen)?;
        let found = kind_seen(tailored.packets.has_checksum, octets, kind, &seen);
        Ok((line, found))
    }

    // What is listed of an octet that is no packet: of the first of several, that no packet is
    // there; of the others nothing.
    fn none_line(&self, alloc: Global, place: u64) -> Result<String, AllocError>
        ensures { IfOk result (λ t. string_bytes t
            ≡ (if self.now.in_step then none_line self.now.form place else [])) }
    {
        if self.in_step {
            print_none(alloc, self.form, place)
        } else {
            Ok(String::new(alloc))
        }
    }
}

impl<'a, K: Sink> Taker<K, ()> for Lister<'a> {
    ghost use Rattle.std.specs.Prelude.{◌≡◌, is_none, ⊤};
    ghost use Rattle.lpt_list.specs.Listers.{HasListed, lines};

    ghost cut = { λ l. l.cut };

    ghost is_open = { λ l. is_none l.stopped };

    ghost takes = { λ from first now old new pieces. HasListed from first now pieces };

    ghost leaves = { λ from first old new pieces. ⊤ };

    ghost writes = { λ from first pieces. lines from first pieces };

    ghost others = { λ e. ⊥ };

    fn cut(&self) -> Cut {
        self.cut
    }

    fn is_open(&self) -> bool {
        self.stopped.is_none()
    }

    fn take(
        self,
        alloc: Global,
        out: &mut K,
        _lent: &mut (),
        place: u64,
        kind: PieceKind,
        octets: &[u8],
    ) -> Result<Lister<'a>, StreamFault> {
        let Ok((line, found)) = self.line(alloc, place, kind, octets) else {
            return Err(StreamFault::Memory);
        };
        write_out(out, line.as_bytes())?;
        Ok(Lister {
            form: self.form,
            layouts: self.layouts,
            cut: self.cut,
            strict: self.strict,
            in_step: goes_on(kind),
            tally: tally_with(self.tally, found),
            stopped: stopped_with(self.strict, place, found, self.stopped),
        })
    }
}

// How a stream of these layouts is cut: by checksums, if all packets have one.
fn cut_for(layouts: &Layouts) -> Cut
    ensures { result ≡ cut_for layouts.now }
{
    if layouts.telemetry.packets.has_checksum && layouts.telecommands.packets.has_checksum {
        Cut::Sealed
    } else {
        Cut::Framed
    }
}

// The octets of a piece of this kind, read by this layout: if its checksum was taken before, it
// isn't taken again.
fn read_seen<'a>(
    cut: Cut,
    layout: &Layout,
    kind: PieceKind,
    octets: &'a [u8],
) -> Result<SeenAs<'a>, PacketFault>
    requires { IsSealedBy cut kind octets.now }
    ensures { Gives result (verdict_as layout.now.has_checksum octets.now) }
{
    match (cut, kind) {
        (Cut::Sealed, PieceKind::Whole) => read_sealed_as(layout, octets),
        _ => read_packet_as(layout, octets),
    }
}

// What a piece of this kind is that is read as this: damaged if its checksum is wrong, also that of
// a segment, or of a packet without a secondary header.
fn kind_seen(
    has_checksum: bool,
    octets: &[u8],
    kind: PieceKind,
    seen: &Result<SeenAs<'_>, PacketFault>,
) -> PieceKind
    ensures { (v : Result Sight PacketFault) → Gives seen.now v
        → result ≡ kind_judged has_checksum octets.now kind v }
{
    match (kind, seen) {
        (PieceKind::Whole, Err(PacketFault::Checksum)) => PieceKind::Damaged,
        (PieceKind::Whole, Err(PacketFault::Segmented | PacketFault::NoSecondary)) => {
            flagged_kind(has_checksum, octets)
        }
        _ => kind,
    }
}

// What octets are that fail a test of the header's flags.
fn flagged_kind(has_checksum: bool, octets: &[u8]) -> PieceKind
    ensures { result ≡ flagged_kind has_checksum octets.now }
{
    if has_checksum && !ends_in_checksum(octets) {
        PieceKind::Damaged
    } else {
        PieceKind::Whole
    }
}

// Whether what comes behind such a piece is in step.
fn goes_on(kind: PieceKind) -> bool
    ensures { result ≡ keeps_step kind }
{
    match kind {
        PieceKind::Whole | PieceKind::Damaged => true,
        PieceKind::Stray => false,
    }
}

// The place of the first piece that is no packet, if a list ends there, with a piece more.
fn stopped_with(strict: bool, place: u64, kind: PieceKind, stopped: Option<u64>) -> Option<u64>
    ensures { result ≡ stopped_with strict place kind stopped }
{
    match (stopped, kind) {
        (Some(place), _) => Some(place),
        (None, PieceKind::Whole) => None,
        (None, PieceKind::Damaged | PieceKind::Stray) => strict.then_some(place),
    }
}

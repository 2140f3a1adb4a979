//! What a piece of a stream gives.

ghost use Rattle.std.specs.Prelude.{◌≡◌, ◌≢◌, ◌⊎◌, ◌∷◌, ◌++◌, if◌then◌else◌, true, List, [], Err, IfErr, OnOk};
ghost use Rattle.std.specs.Io.KnownBytes.{Appends};
ghost use Rattle.lpt_text.specs.Streams.{AppendsPart, WriteEnds};
ghost use Rattle.lpt_stream.specs.Pieces.{packet_before, IsSealedBy};
ghost use Rattle.lpt_packet.specs.declared.fault.PacketFault.TheVariants.{Checksum};
ghost use Rattle.lpt_packet.specs.Packets.{verdict};
ghost use Rattle.lpt_memory.specs.declared.request.Area.{Area};
ghost use Rattle.lpt_memory.specs.Meanings.{area};
ghost use Rattle.lpt_extract.specs.declared.notice.Notice.{Notice};
ghost use Rattle.lpt_extract.specs.Extracts.{areas_in, areas_of, notices_at, notices_of, written_first};
ghost use Rattle.lpt_extract.specs.ExtractsInside.{areas_given, is_sealed, told_of, HeldAreas};
ghost use Rattle.lpt_extract.specs.Joined.{notices_by};
ghost use Rattle.lpt_extract.specs.Notices.{is_in_reach, is_taken, Hears};
ghost use Rattle.lpt_extract.specs.Reports.{said_in};
ghost use Rattle.lpt_extract.specs.ReportsInside.{dump_found, load_area};

use crate::holding::Holding;
use crate::report::{Dump, Report, dump_in, read_report};
use crate::seen_area::SeenArea;
use crate::{Listener, Notice, Span, Wanted};
use lpt_packet::crc16;
use lpt_stream::{Cut, PieceKind};
use lpt_text::{Sink, StreamFault, write_out};
use std::alloc::Global;

/// How many addresses a memory has at most.
const ADDRESSES: u64 = 4_294_967_296;

// Takes what a piece of a stream gives that is cut so: a packet, or what is none and gives nothing.
//
// Errors: `Write` if a write failed; `Memory`.
pub(crate) fn take_piece<K: Sink, L: Listener>(
    alloc: Global,
    wanted: &Wanted,
    cut: Cut,
    place: u64,
    kind: PieceKind,
    octets: &[u8],
    holding: &mut Holding,
    out: &mut K,
    listener: &mut L,
) -> Result<(), StreamFault>
    requires { IsSealedBy cut kind octets.now }
    ensures held { (areas : List Area) (ns : List Notice)
        → HeldAreas wanted.now.at areas ns holding.old
        → OnOk result (HeldAreas wanted.now.at
        (areas ++ areas_in wanted.now (packet_before kind octets.now []))
        (ns ++ notices_at wanted.now place kind octets.now) holding.new) }
    ensures wrote { OnOk result (Appends (K.contents out.old) (K.contents out.new)
        (written_first wanted.now.at (areas_in wanted.now (packet_before kind octets.now [])))) }
    ensures heard { OnOk result (Hears (L.heard listener.old) (L.heard listener.new)
        (notices_at wanted.now place kind octets.now)) }
    ensures fault { IfErr result (λ e. (e ≡ StreamFault.Write) ⊎ (e ≡ StreamFault.Memory)) }
    ensures part { IfErr result (λ _. AppendsPart (K.contents out.old) (K.contents out.new)
        (written_first wanted.now.at (areas_in wanted.now (packet_before kind octets.now [])))) }
    ensures writer { WriteEnds result (K.failed out.old) (K.failed out.new) }
{
    match kind {
        PieceKind::Whole => {
            let is_sealed = is_sealed(cut);
            take_packet(
                alloc, wanted, place, octets, is_sealed, holding, out, listener,
            )
        }
        PieceKind::Damaged => {
            holding.tell(listener, Notice::Damaged);
            Ok(())
        }
        PieceKind::Stray => {
            holding.tell(listener, Notice::Stray);
            Ok(())
        }
    }
}

// Whether a stream that is cut so has whole pieces whose checksum was taken.
fn is_sealed(cut: Cut) -> bool
    ensures { result ≡ is_sealed cut }
{
    matches!(cut, Cut::Sealed)
}

// Takes what octets give that are read as a packet. The checksum of sealed ones was taken before.
pub(crate) fn take_packet<K: Sink, L: Listener>(
    alloc: Global,
    wanted: &Wanted,
    place: u64,
    octets: &[u8],
    is_sealed: bool,
    holding: &mut Holding,
    out: &mut K,
    listener: &mut L,
) -> Result<(), StreamFault>
    requires { is_sealed ≡ true → verdict octets.now ≢ Err Checksum }
    ensures held { (areas : List Area) (ns : List Notice)
        → HeldAreas wanted.now.at areas ns holding.old
        → OnOk result (HeldAreas wanted.now.at
        (areas ++ areas_in wanted.now (octets.now ∷ []))
        (ns ++ notices_by wanted.now place (octets.now ∷ [])) holding.new) }
    ensures wrote { OnOk result (Appends (K.contents out.old) (K.contents out.new)
        (written_first wanted.now.at (areas_in wanted.now (octets.now ∷ [])))) }
    ensures heard { OnOk result (Hears (L.heard listener.old) (L.heard listener.new)
        (notices_by wanted.now place (octets.now ∷ []))) }
    ensures fault { IfErr result (λ e. (e ≡ StreamFault.Write) ⊎ (e ≡ StreamFault.Memory)) }
    ensures part { IfErr result (λ _. AppendsPart (K.contents out.old) (K.contents out.new)
        (written_first wanted.now.at (areas_in wanted.now (octets.now ∷ [])))) }
    ensures writer { WriteEnds result (K.failed out.old) (K.failed out.new) }
{
    let dump = dump_in(&wanted.layout, octets, is_sealed);
    take_dump(alloc, wanted, place, dump, holding, out, listener)
}

// Takes what that gives which was found in the packet at this place of a stream, or nothing, if
// nothing was: the areas that are wanted of a dump report are written or put into the image, and
// the listener is told.
fn take_dump<K: Sink, L: Listener>(
    alloc: Global,
    wanted: &Wanted,
    place: u64,
    dump: Option<Dump<'_>>,
    holding: &mut Holding,
    out: &mut K,
    listener: &mut L,
) -> Result<(), StreamFault>
    ensures held { (areas : List Area) (ns : List Notice)
        → HeldAreas wanted.now.at areas ns holding.old
        → OnOk result (HeldAreas wanted.now.at
        (areas ++ areas_of wanted.now.at (said_in wanted.now.apid (dump_found dump.entry)))
        (ns ++ notices_of wanted.now.at place (said_in wanted.now.apid (dump_found dump.entry)))
        holding.new) }
    ensures wrote { OnOk result (Appends (K.contents out.old) (K.contents out.new)
        (written_first wanted.now.at
        (areas_of wanted.now.at (said_in wanted.now.apid (dump_found dump.entry))))) }
    ensures heard { OnOk result (Hears (L.heard listener.old) (L.heard listener.new)
        (notices_of wanted.now.at place (said_in wanted.now.apid (dump_found dump.entry)))) }
    ensures fault { IfErr result (λ e. (e ≡ StreamFault.Write) ⊎ (e ≡ StreamFault.Memory)) }
    ensures part { IfErr result (λ _. AppendsPart (K.contents out.old) (K.contents out.new)
        (written_first wanted.now.at
        (areas_of wanted.now.at (said_in wanted.now.apid (dump_found dump.entry))))) }
    ensures writer { WriteEnds result (K.failed out.old) (K.failed out.new) }
{
    let report = match read_report(alloc, wanted.apid, dump) {
        Ok(report) => report,
        Err(_) => return Err(StreamFault::Memory),
    };
    match report {
        Report::Other => Ok(()),
        Report::OfPart => {
            holding.tell(listener, Notice::OfPart(place));
            Ok(())
        }
        Report::Foreign(of) => {
            holding.tell(listener, Notice::OtherApid(of));
            Ok(())
        }
        Report::Unread(len) => {
            holding.tell(listener, Notice::Unread(len, place));
            Ok(())
        }
        Report::Areas(memory, areas) => {
            if !wanted.is_of(memory) {
                holding.tell(listener, Notice::OtherMemory(memory));
                return Ok(());
            }
            take_areas(wanted, place, memory, &areas, holding, out, listener)
        }
    }
}

// Takes the areas of a memory.
fn take_areas<K: Sink, L: Listener>(
    wanted: &Wanted,
    place: u64,
    memory: u8,
    areas: &[SeenArea<'_>],
    holding: &mut Holding,
    out: &mut K,
    listener: &mut L,
) -> Result<(), StreamFault>
    ensures held { (before : List Area) (ns : List Notice)
        → HeldAreas wanted.now.at before ns holding.old
        → OnOk result (HeldAreas wanted.now.at (before ++ areas_given areas.now)
        (ns ++ told_of memory place areas.now) holding.new) }
    ensures wrote { OnOk result (Appends (K.contents out.old) (K.contents out.new)
        (written_first wanted.now.at (areas_given areas.now))) }
    ensures heard { OnOk result (Hears (L.heard listener.old) (L.heard listener.new)
        (told_of memory place areas.now)) }
    ensures fault { IfErr result (λ e. (e ≡ StreamFault.Write) ⊎ (e ≡ StreamFault.Memory)) }
    ensures part { IfErr result (λ _. AppendsPart (K.contents out.old) (K.contents out.new)
        (written_first wanted.now.at (areas_given areas.now))) }
    ensures writer { WriteEnds result (K.failed out.old) (K.failed out.new) }
{
    for seen in areas {
        match take_area(wanted, place, memory, seen, holding, out, listener) {
            Ok(()) => {}
            Err(fault) => return Err(fault),
        }
    }
    Ok(())
}

// Takes an area of a memory, if it ends within the addresses and its checksum is right.
fn take_area<K: Sink, L: Listener>(
    wanted: &Wanted,
    place: u64,
    memory: u8,
    seen: &SeenArea<'_>,
    holding: &mut Holding,
    out: &mut K,
    listener: &mut L,
) -> Result<(), StreamFault>
    ensures held { (before : List Area) (ns : List Notice)
        → HeldAreas wanted.now.at before ns holding.old
        → OnOk result (HeldAreas wanted.now.at (before ++ areas_given (seen.now ∷ []))
        (ns ++ told_of memory place (seen.now ∷ [])) holding.new) }
    ensures wrote { OnOk result (Appends (K.contents out.old) (K.contents out.new)
        (written_first wanted.now.at (areas_given (seen.now ∷ [])))) }
    ensures heard { OnOk result (Hears (L.heard listener.old) (L.heard listener.new)
        (told_of memory place (seen.now ∷ []))) }
    ensures fault { IfErr result (λ e. (e ≡ StreamFault.Write) ⊎ (e ≡ StreamFault.Memory)) }
    ensures part { IfErr result (λ _. AppendsPart (K.contents out.old) (K.contents out.new)
        (written_first wanted.now.at (areas_given (seen.now ∷ [])))) }
    ensures writer { WriteEnds result (K.failed out.old) (K.failed out.new) }
{
    let span = Span {
        memory,
        address: seen.address,
        len: seen.octets.len(),
    };
    if !is_taken(seen) {
        holding.tell(listener, untaken(span, place, seen));
        return Ok(());
    }
    holding.tell(listener, Notice::Taken(span));
    keep_area(wanted, seen, holding, out)
}

// Whether an area is taken: it ends within the addresses, and its checksum is right.
fn is_taken(seen: &SeenArea<'_>) -> bool
    ensures { result ≡ is_taken (load_area seen.now) }
{
    is_in_reach(seen) && crc16(seen.octets) == seen.checksum
}

// Whether an area ends with the last address or before it.
fn is_in_reach(seen: &SeenArea<'_>) -> bool
    ensures { result ≡ is_in_reach (load_area seen.now) }
{
    seen.octets.len() as u64 <= ADDRESSES - u64::from(seen.address)
}

// What is told of an area that isn't taken.
fn untaken(span: Span, place: u64, seen: &SeenArea<'_>) -> Notice
    ensures { result ≡ (if is_in_reach (load_area seen.now)
        then Notice.WrongChecksum span place else Notice.PastEnd span place) }
{
    if is_in_reach(seen) {
        Notice::WrongChecksum(span, place)
    } else {
        Notice::PastEnd(span, place)
    }
}

// Writes an area, or puts it into the image.
fn keep_area<K: Sink>(
    wanted: &Wanted,
    seen: &SeenArea<'_>,
    holding: &mut Holding,
    out: &mut K,
) -> Result<(), StreamFault>
    ensures held { (before : List Area) (ns : List Notice)
        → HeldAreas wanted.now.at before ns holding.old
        → OnOk result (HeldAreas wanted.now.at
        (before ++ area (load_area seen.now) ∷ []) ns holding.new) }
    ensures wrote { OnOk result (Appends (K.contents out.old) (K.contents out.new)
        (written_first wanted.now.at (area (load_area seen.now) ∷ []))) }
    ensures fault { IfErr result (λ e. (e ≡ StreamFault.Write) ⊎ (e ≡ StreamFault.Memory)) }
    ensures part { IfErr result (λ _. AppendsPart (K.contents out.old) (K.contents out.new)
        (written_first wanted.now.at (area (load_area seen.now) ∷ []))) }
    ensures writer { WriteEnds result (K.failed out.old) (K.failed out.new) }
{
    match wanted.at {
        None => {
            holding.image.reach(seen.address, seen.octets.len());
            write_out(out, seen.octets)
        }
        Some(place) => match holding.image.put(&place, seen.address, seen.octets) {
            Ok(()) => Ok(()),
            Err(_) => Err(StreamFault::Memory),
        },
    }
}

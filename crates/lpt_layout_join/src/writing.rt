//! A message joined from one stream to another.

ghost use Rattle.std.specs.Prelude.{◌≡◌, ◌⊎◌, ℕ, List, false, Some, None, IfErr, IfOk, IfSome};
ghost use Rattle.lpt_text.specs.Streams.{AppendsPart, ReadEnds, WriteEnds};
ghost use Rattle.lpt_carried.specs.declared.name.Name.{Name};
ghost use Rattle.lpt_carried.specs.Carried.{cut};
ghost use Rattle.lpt_stream.specs.Pieces.{Piece};
ghost use Rattle.lpt_stream.specs.Reads.{IsEndlessBy};
ghost use Rattle.lpt_layout_join.specs.declared.gathering.Gathering.{Gathering};
ghost use Rattle.lpt_layout_join.specs.Gathered.{Gathered};
ghost use Rattle.lpt_layout_join.specs.Gatherings.{GivesEach, IsChosen, IsOnly, NoneIsChosen, NoneIsOnly, ShowsGathered};
ghost use Rattle.lpt_layout_join.specs.Writes.{ChosenFails, Ends, EndsAs, EndsFailed, JoinLeaves, JoinsTo, WritesEnd, WritesFit, end_missing, end_of, end_whole, kind_misfit, misfit, unfit, unsure};

use crate::{Gathering, Gatherings, JoinEnd, JoinReport, MisfitAs, gather_stream};
use lpt_carried::{Name, Reading, Wanted};
use lpt_layout::{SeenAs, read_packet_as};
use lpt_packet::{Direction, PacketKind};
use lpt_text::{Sink, Source, StreamFault, write_out};
use std::alloc::{AllocError, Global};

/// Reads a stream of packets to its end, and writes the message of the transaction that is wanted,
/// or of the only one of which parts came. Nothing is written if the parts are joined to no
/// message. Unless `any` octets are taken, nothing is written either if what they are joined to is
/// no packet of the layout and the direction, or if the layout has no checksum, and the parts
/// didn't come in their order, or between one of them and the next no fewer sequence counts of the
/// APID are missing than the number of the first of these. The answer says what is kept of each
/// transaction, and what was passed over.
///
/// Errors: `Read` if a read failed, or if 2^64 - 1 pieces came; `Write` if a write failed,
/// behind a front part of the message; `Memory`.
pub fn join_as<S: Source, K: Sink>(
    alloc: Global,
    wanted: &Wanted,
    any: bool,
    source: &mut S,
    out: &mut K,
) -> Result<JoinReport, StreamFault>
    ensures joins { IfOk result (λ j. JoinsTo wanted.now any j
        (S.remaining source.old) (S.remaining source.new)
        (K.contents out.old) (K.contents out.new)) }

    // What is written is a packet of the layout and the direction, unless any octets are taken.
    ensures fit { any ≡ false → IfOk result (λ _. WritesFit wanted.now.reading
        (K.contents out.old) (K.contents out.new)) }

    // What a fault leaves.
    ensures leaves { IfErr result (λ e. JoinLeaves wanted.now any e
        (S.remaining source.old) (S.remaining source.new)
        (K.contents out.old) (K.contents out.new)) }
    ensures reader { ReadEnds (IsEndlessBy (cut wanted.now.reading) (S.remaining source.old)
        (S.remaining source.new)) result (S.failed source.old) (S.failed source.new) }
    ensures writer { WriteEnds result (K.failed out.old) (K.failed out.new) }
{
    let (gatherings, skips) = match gather_stream(alloc, wanted, source) {
        Ok(gathered) => gathered,
        Err(fault) => return Err(fault),
    };
    match write_chosen(alloc, wanted, any, &gatherings, out) {
        Ok(end) => Ok(JoinReport {
            end,
            gatherings,
            skips,
        }),
        Err(fault) => {
            drop(gatherings);
            Err(fault)
        }
    }
}

// Writes the message of the transaction that is wanted, or of the only one, if it is whole.
fn write_chosen<K: Sink>(
    alloc: Global,
    wanted: &Wanted,
    any: bool,
    gatherings: &Gatherings,
    out: &mut K,
) -> Result<Option<JoinEnd>, StreamFault>
    ensures ends { (ps : List Piece)
        → GivesEach wanted.now.reading wanted.now.name ps gatherings.now → IfOk result (λ end.
        EndsAs wanted.now any wanted.now.name ps gatherings.now end
        (K.contents out.old) (K.contents out.new)) }
    ensures fit { any ≡ false → IfOk result (λ _. WritesFit wanted.now.reading
        (K.contents out.old) (K.contents out.new)) }
    ensures fault { IfErr result (λ e. (e ≡ StreamFault.Write) ⊎ (e ≡ StreamFault.Memory)) }
    ensures leaves { (ps : List Piece)
        → GivesEach wanted.now.reading wanted.now.name ps gatherings.now → IfErr result (λ e.
        ChosenFails wanted.now any ps e (K.contents out.old) (K.contents out.new)) }
    ensures writer { WriteEnds result (K.failed out.old) (K.failed out.new) }
{
    let Some(gathering) = chosen_gathering(gatherings, wanted.name) else {
        return Ok(if wanted.name.is_some() {
            Some(JoinEnd::Missing)
        } else {
            None
        });
    };
    match write_gathering(alloc, &wanted.reading, any, gathering, out) {
        Ok(end) => Ok(Some(end)),
        Err(fault) => Err(fault),
    }
}

// What is kept of the transaction of this name, or of the only one, if there is only one.
fn chosen_gathering(gatherings: &Gatherings, name: Option<Name>) -> Option<&Gathering>
    ensures some { IfSome result (λ g. IsChosen gatherings.now name g.now) }
    ensures none { result ≡ None → NoneIsChosen gatherings.now name }
{
    match name {
        Some(name) => gatherings.kept.get(&name),
        None => only(gatherings),
    }
}

// What is kept of the only transaction, if there is only one.
fn only(gatherings: &Gatherings) -> Option<&Gathering>
    ensures some { IfSome result (λ g. (n : Name) × IsOnly gatherings.now n g.now) }
    ensures none { result ≡ None → NoneIsOnly gatherings.now }
{
    if gatherings.kept.len() != 1 || gatherings.has_more {
        return None;
    }
    match gatherings.kept.first_key_value() {
        Some((_, gathering)) => Some(gathering),
        None => None,
    }
}

// Writes the message of a transaction, if it is whole and fit to be written.
fn write_gathering<K: Sink>(
    alloc: Global,
    reading: &Reading,
    any: bool,
    gathering: &Gathering,
    out: &mut K,
) -> Result<JoinEnd, StreamFault>
    ensures ends { (g : Gathered) → ShowsGathered g gathering.now → IfOk result (λ end.
        Ends reading.now any g end (K.contents out.old) (K.contents out.new)) }
    ensures fit { any ≡ false → IfOk result (λ _. WritesFit reading.now
        (K.contents out.old) (K.contents out.new)) }
    ensures fault { IfErr result (λ e. (e ≡ StreamFault.Write) ⊎ (e ≡ StreamFault.Memory)) }
    ensures leaves { (g : Gathered) → ShowsGathered g gathering.now → IfErr result (λ e.
        EndsFailed reading.now any g e (K.contents out.old) (K.contents out.new)) }
    ensures writer { WriteEnds result (K.failed out.old) (K.failed out.new) }
{
    match gathering.came.message(alloc) {
        Ok(Some(message)) => write_message(reading, any, gathering.sure, message.as_slice(), out),
        Ok(None) => Ok(end_missing(gathering.came.against().is_some())),
        Err(_) => Err(StreamFault::Memory),
    }
}

/// How the join of a transaction ends of which this is kept: its message counts as written if it is
/// whole and fit. The only error is out of memory.
pub fn end_of(
    alloc: Global,
    reading: &Reading,
    any: bool,
    gathering: &Gathering,
) -> Result<JoinEnd, AllocError>
    ensures { (g : Gathered) → ShowsGathered g gathering.now → IfOk result (λ end.
        end ≡ end_of reading.now any g) }
{
    let Some(message) = gathering.came.message(alloc)? else {
        return Ok(end_missing(gathering.came.against().is_some()));
    };
    match unfit(reading, any, gathering.sure, message.as_slice()) {
        Some(misfit) => Ok(JoinEnd::Unfit(misfit)),
        None => Ok(JoinEnd::Written(message.as_slice().len())),
    }
}

// How a join ends whose message isn't whole.
fn end_missing(broken: bool) -> JoinEnd
    ensures { result ≡ end_missing broken }
{
    if broken {
        JoinEnd::BrokenOff
    } else {
        JoinEnd::Missing
    }
}

// Writes a message that is fit to be written.
fn write_message<K: Sink>(
    reading: &Reading,
    any: bool,
    sure: bool,
    message: &[u8],
    out: &mut K,
) -> Result<JoinEnd, StreamFault>
    ensures end { IfOk result (λ end. end
        ≡ end_whole message.now (unfit reading.now any sure message.now)) }
    ensures ok { IfOk result (λ end. WritesEnd end (Some message.now)
        (K.contents out.old) (K.contents out.new)) }
    ensures fit { any ≡ false → IfOk result (λ _. WritesFit reading.now
        (K.contents out.old) (K.contents out.new)) }
    ensures fault { IfErr result (λ e. e ≡ StreamFault.Write) }
    ensures unfit { IfErr result (λ _. unfit reading.now any sure message.now ≡ None) }
    ensures leaves { IfErr result (λ _. AppendsPart (K.contents out.old) (K.contents out.new)
        message.now) }
    ensures writer { WriteEnds result (K.failed out.old) (K.failed out.new) }
{
    if let Some(misfit) = unfit(reading, any, sure, message) {
        return Ok(JoinEnd::Unfit(misfit));
    }
    write_out(out, message)?;
    Ok(JoinEnd::Written(message.len()))
}

/// Why octets aren't written, if they aren't, unless `any` octets are taken: they are no packet of
/// the layout and the direction; or packets have no checksum, and it isn't sure that they are one
/// message.
pub fn unfit(reading: &Reading, any: bool, sure: bool, octets: &[u8]) -> Option<MisfitAs>
    ensures { result ≡ unfit reading.now any sure octets.now }
{
    if any {
        return None;
    }
    misfit(reading, octets).or(unsure(reading, sure))
}

// Why octets are no packet of the layout and the direction, if they aren't.
fn misfit(reading: &Reading, octets: &[u8]) -> Option<MisfitAs>
    ensures { result ≡ misfit reading.now octets.now }
{
    match read_packet_as(&reading.layout, octets) {
        Ok(SeenAs::Packet(packet)) => kind_misfit(reading.direction, packet.kind),
        Ok(SeenAs::Idle) => Some(MisfitAs::OtherKind),
        Err(fault) => Some(MisfitAs::NoPacket(fault)),
    }
}

// That octets may be joined of parts of several messages, if nothing tells.
fn unsure(reading: &Reading, sure: bool) -> Option<MisfitAs>
    ensures { result ≡ unsure reading.now sure }
{
    if reading.layout.has_checksum || sure {
        return None;
    }
    Some(MisfitAs::Unsure)
}

// Why a packet of this type is none of the direction, if it isn't.
fn kind_misfit(direction: Direction, kind: PacketKind) -> Option<MisfitAs>
    ensures { result ≡ kind_misfit direction kind }
{
    match (direction, kind) {
        (Direction::Up, PacketKind::Tc) | (Direction::Down, PacketKind::Tm) => None,
        _ => Some(MisfitAs::OtherKind),
    }
}

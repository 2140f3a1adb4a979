//! The part that a packet carries, or a piece of a stream.

ghost use Rattle.std.specs.Prelude.{◌≡◌, ◌≤◌, length, Result, IfOk, Ok, Some};
ghost use Rattle.lpt_packet.specs.declared.fault.PacketFault.{PacketFault};
ghost use Rattle.lpt_packet.specs.Packets.{APacket, Sight};
ghost use Rattle.lpt_packet.specs.Sizes.{longest_packet};
ghost use Rattle.lpt_layout.specs.Messages.{message_said, message_verdict};
ghost use Rattle.lpt_layout.specs.Packets as packets;
ghost use Rattle.lpt_layout.specs.Packets.{fields, sight};
ghost use Rattle.lpt_layout.specs.Parts.{IsPartSizeAs};
ghost use Rattle.lpt_pus.specs.Messages as messages;
ghost use Rattle.lpt_carried.specs.Carried.{Gives, part_carried, carried_in, cut, kind_to, of_kind, of_message, of_sight};
ghost use Rattle.lpt_carried.specs.Sizes.{size_for};
ghost use Rattle.lpt_stream.specs.Pieces.{IsSealedBy};

use crate::{Name, Reading, Skip};
use lpt_events::part_kind;
use lpt_layout::{
    Message, PacketAs, PartAs, SeenAs, read_packet_as, read_part_as, read_sealed_as, read_tc_as,
    read_tm_as,
};
use lpt_packet::{Direction, PacketFault};
use lpt_part::Kind;
use lpt_pus::PusFault;
use lpt_stream::PieceKind;

/// A part of a packet, and where that comes from or goes to.
#[derive(Clone, Copy)]
pub struct CarriedPart<'a> {
    /// The source ID of the telecommand, or the destination ID of the telemetry.
    pub user: u32,
    /// The part.
    pub part: PartAs<'a>,
}

impl<'a> CarriedPart<'a> {
    ghost use Rattle.std.specs.Prelude.{◌≡◌};
    ghost use Rattle.lpt_carried.specs.Carried.{name_of, part_named};

    /// The name of the part's transaction.
    pub fn name(&self) -> Name
        ensures { result ≡ name_of (part_named self.now) }
    {
        Name {
            user: self.user,
            id: self.part.id,
        }
    }
}

/// The part that octets carry, read like this.
///
/// Errors: why they carry none.
#[tactic(auto, unfolding(crate::specs::Carried::part_carried))]
pub fn part_carried<'a>(reading: &Reading, octets: &'a [u8]) -> Result<CarriedPart<'a>, Skip>
    ensures exact { Gives result (part_carried reading.now octets.now) }
    ensures number { IfOk result (λ c. 1 ≤ c.part.number) }
    ensures short { IfOk result (λ c. length c.part.octets.now ≤ longest_packet) }
{
    in_read(reading, read_packet_as(&reading.layout, octets))
}

/// The part that a piece of a stream carries, read like this. If its packets have a checksum,
/// that of a whole piece was taken before, and is right; it isn't taken again.
///
/// Errors: why it carries none.
#[tactic(auto, unfolding(crate::specs::Carried::part_carried))]
pub fn carried_in<'a>(
    reading: &Reading,
    kind: PieceKind,
    octets: &'a [u8],
) -> Result<CarriedPart<'a>, Skip>
    requires { IsSealedBy (cut reading.now) kind octets.now }
    ensures exact { Gives result (carried_in reading.now kind octets.now) }
    ensures number { IfOk result (λ c. 1 ≤ c.part.number) }
    ensures short { IfOk result (λ c. length c.part.octets.now ≤ longest_packet) }
{
    match kind {
        PieceKind::Whole => in_read(reading, read_sealed_as(&reading.layout, octets)),
        PieceKind::Damaged => part_carried(reading, octets),
        PieceKind::Stray => Err(Skip::Stray(octets.len())),
    }
}

// The part that octets carry which are read as this.
fn in_read<'a>(
    reading: &Reading,
    read: Result<SeenAs<'a>, PacketFault>,
) -> Result<CarriedPart<'a>, Skip>
    ensures exact { (v : Result Sight PacketFault) → packets.Gives read.entry v
        → Gives result (of_sight reading.now v) }
    ensures number { IfOk result (λ c. 1 ≤ c.part.number) }
    ensures short { IfOk result (λ c. length c.part.octets.now ≤ longest_packet) }
{
    match read {
        Ok(seen) => in_sight(reading, &seen),
        Err(fault) => Err(Skip::NoPacket(fault)),
    }
}

// The part that octets carry which are seen as this.
fn in_sight<'a>(reading: &Reading, seen: &SeenAs<'a>) -> Result<CarriedPart<'a>, Skip>
    ensures exact { Gives result (of_sight reading.now (Ok (sight seen.now))) }
    ensures number { IfOk result (λ c. 1 ≤ c.part.number) }
    ensures short { IfOk result (λ c. length c.part.octets.now ≤ longest_packet) }
{
    match seen {
        SeenAs::Idle => Err(Skip::Idle),
        SeenAs::Packet(packet) => in_packet(reading, packet),
    }
}

// The part that a packet carries.
fn in_packet<'a>(reading: &Reading, packet: &PacketAs<'a>) -> Result<CarriedPart<'a>, Skip>
    ensures exact { Gives result (of_sight reading.now (Ok (APacket (fields packet.now)))) }
    ensures number { IfOk result (λ c. 1 ≤ c.part.number) }
    ensures short { IfOk result (λ c. length c.part.octets.now ≤ longest_packet) }
{
    if packet.apid != reading.apid {
        return Err(Skip::OtherApid(packet.apid));
    }
    match read_message(reading, packet) {
        Ok(message) => in_message(reading, &message),
        Err(fault) => Err(Skip::NoMessage(fault)),
    }
}

// Reads a packet as a message of the direction.
fn read_message<'a>(reading: &Reading, packet: &PacketAs<'a>) -> Result<Message<'a>, PusFault>
    ensures { messages.Gives message_said result
        (message_verdict reading.now.layout (kind_to reading.now.direction) (fields packet.now)) }
{
    match reading.direction {
        Direction::Up => read_tc_as(&reading.layout, packet),
        Direction::Down => read_tm_as(&reading.layout, packet),
    }
}

// The part that a message carries.
fn in_message<'a>(reading: &Reading, message: &Message<'a>) -> Result<CarriedPart<'a>, Skip>
    ensures exact { Gives result (of_message reading.now (Ok (message_said message.now))) }
    ensures number { IfOk result (λ c. 1 ≤ c.part.number) }
    ensures short { IfOk result (λ c. length c.part.octets.now ≤ longest_packet) }
{
    match part_kind(reading.direction, message.service, message.subtype) {
        Some(kind) => in_body(reading, message, kind),
        None => Err(Skip::OtherType {
            service: message.service,
            subtype: message.subtype,
        }),
    }
}

// The part of this kind that a message's body is.
fn in_body<'a>(
    reading: &Reading,
    message: &Message<'a>,
    kind: Kind,
) -> Result<CarriedPart<'a>, Skip>
    ensures exact { Gives result (of_kind reading.now (message_said message.now) (Some kind)) }
    ensures number { IfOk result (λ c. 1 ≤ c.part.number) }
    ensures short { IfOk result (λ c. length c.part.octets.now ≤ longest_packet) }
{
    let len = message.body.len().saturating_sub(reading.parts.header());
    match read_part_as(&reading.parts, kind, message.body, size_for(reading, len)) {
        Ok(part) => Ok(CarriedPart {
            user: message.user,
            part,
        }),
        Err(fault) => Err(Skip::NoPart(fault)),
    }
}

// The part size by which a part of so many octets is read.
fn size_for(reading: &Reading, len: usize) -> u32
    ensures size { result ≡ size_for reading.now.part_size len }
    ensures fits { IsPartSizeAs result }
{
    match reading.part_size {
        Some(size) => size,
        None => len.clamp(1, 65_535) as u32,
    }
}

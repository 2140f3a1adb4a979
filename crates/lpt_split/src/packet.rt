//! The packet that carries a part of a message.

ghost use Rattle.std.specs.Prelude.{◌≡◌};
ghost use Rattle.lpt_events.specs.Arrivals.{part_subtype};
ghost use Rattle.lpt_layout.specs.Parts.{piece};
ghost use Rattle.lpt_layout.specs.Messages.{HeadFits};
ghost use Rattle.lpt_layout.specs.Writes.{Writes};
ghost use Rattle.lpt_split.specs.Packets.{MakesPart, made_of, said_of};

use crate::Writing;
use lpt_layout::{LayoutFault, Message, PartAs, write_part_as, write_tc_as, write_tm_as};
use lpt_packet::{Direction, Octets};
use lpt_part::{Kind, TRANSFER};
use std::alloc::Global;

// The packet that carries a part, of this sequence count. Telemetry has message type counter 0.
//
// Errors, the first that applies: `Unfit` if the identifier, the number, the source or another
// field doesn't fit the layout; `TooLong` if the packet would have more than 65,542 octets;
// `Memory` if memory runs out.
pub(crate) fn part_packet(
    alloc: Global,
    writing: &Writing<'_>,
    count: u16,
    part: &PartAs<'_>,
) -> Result<Octets, LayoutFault>
    ensures { MakesPart writing.now count (piece part.now) result }
{
    let body = write_part_as(alloc, &writing.parts, part)?;
    let packet = body_packet(alloc, writing, count, part.kind, body.as_slice());
    drop(body);
    packet
}

// The packet of this body, which is a part of this kind.
fn body_packet(
    alloc: Global,
    writing: &Writing<'_>,
    count: u16,
    kind: Kind,
    body: &[u8],
) -> Result<Octets, LayoutFault>
    ensures { Writes (HeadFits writing.now.layout (said_of writing.now count kind body.now))
        (made_of writing.now count kind body.now) result }
{
    let message = Message {
        apid: writing.apid,
        count,
        flags: 0,
        service: TRANSFER,
        subtype: subtype_of(writing.direction, kind),
        counter: 0,
        user: writing.user,
        time: writing.time,
        spare: writing.spare,
        body,
    };
    match writing.direction {
        Direction::Up => write_tc_as(alloc, &writing.layout, &message),
        Direction::Down => write_tm_as(alloc, &writing.layout, &message),
    }
}

// The message subtype of a part of this kind (ECSS-E-ST-70-41C, service 13).
fn subtype_of(direction: Direction, kind: Kind) -> u8
    ensures { result ≡ part_subtype direction kind }
{
    match (direction, kind) {
        (Direction::Up, Kind::First) => 9,
        (Direction::Up, Kind::Middle) => 10,
        (Direction::Up, Kind::Last) => 11,
        (Direction::Down, Kind::First) => 1,
        (Direction::Down, Kind::Middle) => 2,
        (Direction::Down, Kind::Last) => 3,
    }
}

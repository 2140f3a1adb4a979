//! What the message types of large packet transfer carry.

ghost use Rattle.std.specs.Prelude.{◌≡◌};
ghost use Rattle.lpt_events.specs.Arrivals.{carried_kind};

use lpt_packet::Direction;
use lpt_part::{Kind, TRANSFER};

/// The kind of part that a packet of this message type carries in this direction; none for other
/// types (ECSS-E-ST-70-41C: service 13, subtypes 9 to 11 of requests and 1 to 3 of reports).
pub fn part_kind(direction: Direction, service: u8, subtype: u8) -> Option<Kind>
    ensures { result ≡ carried_kind direction service subtype }
{
    match (direction, service, subtype) {
        (Direction::Up, TRANSFER, 9) | (Direction::Down, TRANSFER, 1) => Some(Kind::First),
        (Direction::Up, TRANSFER, 10) | (Direction::Down, TRANSFER, 2) => Some(Kind::Middle),
        (Direction::Up, TRANSFER, 11) | (Direction::Down, TRANSFER, 3) => Some(Kind::Last),
        _ => None,
    }
}

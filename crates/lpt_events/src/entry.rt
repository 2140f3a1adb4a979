//! What stands in a journal, and what follows from it.

ghost use Rattle.std.specs.Prelude.{◌≡◌};
ghost use Rattle.lpt_events.specs.Openings.{is_opened, is_opening_of};

use crate::{Event, Reply};
use lpt_packet::{Direction, Name, Octets};

/// An accepted event with the seat that asked for it and its reply. Its place is its index in the
/// journal, from 0.
#[derive(Debug, Drop, PartialEq, Eq)]
pub struct Entry {
    /// The seat that asked, 0 to 10.
    pub seat: u8,
    /// The event.
    pub event: Event,
    /// What it gave.
    pub reply: Reply,
}

/// The opening of a transaction.
#[derive(Debug, Drop, PartialEq, Eq)]
pub struct Opening {
    /// The place of the entry that opened it.
    pub place: u64,
    /// The direction in which the message goes.
    pub direction: Direction,
    /// The transaction's name in that direction.
    pub name: Name,
    /// The message.
    pub message: Octets,
}

impl Opening {
    /// Whether it is the opening of this transaction.
    pub fn is_of(&self, direction: Direction, name: Name) -> bool
        ensures { result ≡ is_opening_of direction name self.now }
    {
        self.direction == direction && self.name == name
    }
}

/// Whether one of these openings is of the transaction.
pub fn is_opened(openings: &[Opening], direction: Direction, name: Name) -> bool
    ensures { result ≡ is_opened openings.now direction name }
{
    let mut rest = openings;
    while let Some((opening, later)) = rest.split_first() {
        if opening.is_of(direction, name) {
            return true;
        }
        rest = later;
    }
    false
}

/// A message that was released.
#[derive(Debug, Drop, PartialEq, Eq)]
pub struct Release {
    /// The place of the entry that released it.
    pub place: u64,
    /// The transaction of a large message; none of a plain request.
    pub of: Option<(Direction, Name)>,
    /// The message.
    pub message: Octets,
}

//! The two ends of the link, and which of them sends and receives in a direction.

ghost use Rattle.std.specs.Prelude.{◌≡◌};
ghost use Rattle.lpt_events.specs.Sides.{sender_side, receiver_side, direction_to, side_word};

use lpt_packet::Direction;

/// Which end of the link a node is.
#[derive(Clone, Copy, Debug, PartialEq, Eq)]
pub enum Side {
    /// Ground: it sends up and receives down.
    Ground,
    /// The spacecraft: it sends down and receives up.
    Craft,
}

impl Side {
    /// The side that sends in a direction.
    pub fn sender(direction: Direction) -> Side
        ensures { result ≡ sender_side direction }
    {
        match direction {
            Direction::Up => Side::Ground,
            Direction::Down => Side::Craft,
        }
    }

    /// The side that receives in a direction.
    pub fn receiver(direction: Direction) -> Side
        ensures { result ≡ receiver_side direction }
    {
        match direction {
            Direction::Up => Side::Craft,
            Direction::Down => Side::Ground,
        }
    }

    /// The direction in which this side receives.
    pub fn receives(self) -> Direction
        ensures { result ≡ direction_to self }
    {
        match self {
            Side::Ground => Direction::Down,
            Side::Craft => Direction::Up,
        }
    }

    /// The side's word.
    pub fn word(self) -> &'static str
        ensures { result.now ≡ side_word self }
    {
        match self {
            Side::Ground => "ground",
            Side::Craft => "craft",
        }
    }
}

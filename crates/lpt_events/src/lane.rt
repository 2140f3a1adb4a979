//! The lanes, which take packets from the link and deliver them.

ghost use Rattle.std.specs.Prelude.{◌≡◌};
ghost use Rattle.lpt_events.specs.Lanes.{lane_direction};
ghost use Rattle.lpt_events.specs.Sides.{receiver_side};

use crate::Side;
use lpt_packet::Direction;

/// A lane. Each direction has two, so that one can deliver while another holds a packet back.
#[derive(Clone, Copy, Debug, PartialEq, Eq)]
pub enum Lane {
    /// The spacecraft's first lane.
    S1,
    /// The spacecraft's second lane.
    S2,
    /// Ground's first lane.
    G1,
    /// Ground's second lane.
    G2,
}

impl Lane {
    /// The direction of the packets that the lane takes: up to the spacecraft, or down to ground.
    pub fn direction(self) -> Direction
        ensures { result ≡ lane_direction self }
    {
        match self {
            Lane::S1 | Lane::S2 => Direction::Up,
            Lane::G1 | Lane::G2 => Direction::Down,
        }
    }

    /// The side that receives the packets that the lane takes.
    pub fn receiver(self) -> Side
        ensures { result ≡ receiver_side (lane_direction self) }
    {
        Side::receiver(self.direction())
    }
}

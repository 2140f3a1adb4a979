//! The two directions of the link.

ghost use Rattle.std.specs.Prelude.{◌≡◌};
ghost use Rattle.lpt_packet.specs.Directions.{direction_word};

/// Which way a message goes. Up and down transactions of one identifier are two transactions.
#[derive(Clone, Copy, Debug, PartialEq, Eq)]
pub enum Direction {
    /// From the ground node to the spacecraft node.
    Up,
    /// From the spacecraft node to the ground node.
    Down,
}

impl Direction {
    /// The direction's word.
    pub fn word(self) -> &'static str
        ensures { result.now ≡ direction_word self }
    {
        match self {
            Direction::Up => "up",
            Direction::Down => "down",
        }
    }
}

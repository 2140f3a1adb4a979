//! Whether anything is left of a transaction.

ghost use Rattle.std.specs.Prelude.{◌≡◌, ◌||◌};
ghost use Rattle.lpt_journal.specs.Clear.{is_clear, part_held, part_in_hand};
ghost use Rattle.lpt_journal.specs.Receivers.{heard, has_parts};
ghost use Rattle.lpt_journal.specs.Senders.{is_open, sender};
ghost use Rattle.lpt_world.specs.Worlds.{history};

use crate::World;
use lpt_ledger::State;
use lpt_packet::{Direction, Name};

impl World {
    /// Whether a transaction is clear: no part of it is on the link or in a lane's hand, its
    /// receiver keeps no part of it, and its sender isn't open.
    pub fn is_clear(&self, direction: Direction, name: Name) -> bool
        ensures { result ≡ is_clear self.now.config (history self.now) direction name }
    {
        !self.is_under_way(direction, name)
            && !self.is_receiving(direction, name)
            && !self.is_sending(direction, name)
    }

    // Whether a held packet, or one in a hand, is a part of it.
    fn is_under_way(&self, direction: Direction, name: Name) -> bool
        ensures { result ≡ (part_held self.now.config (history self.now) direction name
            || part_in_hand self.now.config (history self.now) direction name) }
    {
        self.system.link.holds(direction, name)
    }

    // Whether its receiver keeps parts of it.
    fn is_receiving(&self, direction: Direction, name: Name) -> bool
        ensures { result ≡ has_parts (heard self.now.config (history self.now) direction name) }
    {
        self.system.is_receiving(direction, name)
    }

    // Whether its sender is open.
    fn is_sending(&self, direction: Direction, name: Name) -> bool
        ensures { result ≡ is_open (sender (history self.now) direction name) }
    {
        matches!(self.sender(direction, name), State::Open)
    }
}

//! What the spacecraft's end knows of names.

ghost use Rattle.std.specs.Prelude.{◌≡◌, not, is_some};
ghost use Rattle.lpt_events.specs.declared.side.Side.TheVariants.{Craft};
ghost use Rattle.lpt_ledger.specs.LeastFree.{least_free_in};
ghost use Rattle.lpt_node.specs.Restarts.{name_state};
ghost use Rattle.lpt_spacecraft.specs.Flights.{freed_as, is_closed};
ghost use Rattle.lpt_spacecraft.specs.Telling.{names_at};

use crate::Spacecraft;
use lpt_ledger::State;
use lpt_packet::{Direction, Name};

impl Spacecraft {
    /// The configured source.
    pub fn source(&self) -> u16
        ensures { result ≡ self.now.config.source }
    {
        self.config.source
    }

    /// The configured part size, in octets.
    pub fn part_size(&self) -> u32
        ensures { result ≡ self.now.config.part_size }
    {
        self.config.part_size
    }

    // The clock, in ticks.
    pub(crate) fn clock(&self) -> u32
        ensures { result ≡ self.now.node.at.clock }
    {
        self.node.clock()
    }

    // Whether a source has no free name left in a direction.
    pub(crate) fn is_used_up(&self, direction: Direction, source: u16) -> bool
        ensures { result
            ≡ not (is_some (least_free_in (names_at self.now.node.at direction) source)) }
    {
        let ledger = match direction {
            Direction::Up => self.node.receivers(),
            Direction::Down => self.node.senders(),
        };
        ledger.least_free(source).is_none()
    }

    // Frees a name that is closed, and answers whether it was.
    pub(crate) fn free(&mut self, direction: Direction, name: Name) -> bool
        ensures done { result ≡ is_closed (name_state Craft self.old.node.at direction name) }
        ensures node { self.new.node.at
            ≡ freed_as (name_state Craft self.old.node.at direction name) self.old.node.at
            direction name }

        ensures jobs { self.new.node.at.jobs ≡ self.old.node.at.jobs }
        ensures memories { self.new.memories ≡ self.old.memories }
        ensures config { self.new.config ≡ self.old.config }
    {
        match self.node.state(direction, name) {
            State::Closed => {
                self.node.retire(direction, name);
                true
            }
            _ => false,
        }
    }
}

//! The hands of the four lanes.

ghost use Rattle.std.specs.Prelude.{◌≡◌};

use lpt_events::Lane;

/// What each lane has in its hand: the number of a packet, or nothing.
#[derive(Clone, Copy)]
pub(crate) struct Hands {
    pub(crate) s1: Option<u64>,
    pub(crate) s2: Option<u64>,
    pub(crate) g1: Option<u64>,
    pub(crate) g2: Option<u64>,
}

impl Hands {
    ghost use Rattle.lpt_link.specs.Hands.{hand_in, with_hand, no_hands};

    // Four empty hands.
    pub(crate) fn empty() -> Hands
        ensures { result ≡ no_hands }
    {
        Hands {
            s1: None,
            s2: None,
            g1: None,
            g2: None,
        }
    }

    // What the lane's hand has.
    pub(crate) fn of(&self, lane: Lane) -> Option<u64>
        ensures { result ≡ hand_in self.now lane }
    {
        match lane {
            Lane::S1 => self.s1,
            Lane::S2 => self.s2,
            Lane::G1 => self.g1,
            Lane::G2 => self.g2,
        }
    }

    // Puts this into the lane's hand, in place of what it has.
    pub(crate) fn put(&mut self, lane: Lane, number: Option<u64>)
        ensures { self.new ≡ with_hand self.old lane number }
    {
        match lane {
            Lane::S1 => self.s1 = number,
            Lane::S2 => self.s2 = number,
            Lane::G1 => self.g1 = number,
            Lane::G2 => self.g2 = number,
        }
    }
}

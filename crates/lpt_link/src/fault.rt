//! Why the link refuses a call.

ghost use Rattle.std.specs.Prelude.{◌≡◌};
ghost use Rattle.lpt_link.specs.FaultNames.{code_of, name_of};

use thiserror::Error;

/// Why a call of the link is refused.
#[derive(Clone, Copy, Debug, PartialEq, Eq, Error)]
pub enum LinkFault {
    /// The link holds no such packet, or it goes in the other direction than the lane.
    #[error("the link holds no such packet")]
    NotHeld,
    /// The lane has a packet in its hand already.
    #[error("the lane's hand is full")]
    HandFull,
    /// The lane has no packet in its hand.
    #[error("the lane's hand is empty")]
    HandEmpty,
    /// There was no memory for one more packet.
    #[error("out of memory")]
    Memory,
}

impl LinkFault {
    /// The fault's number, 34 to 37.
    pub fn code(self) -> u16
        ensures { result ≡ code_of self }
    {
        match self {
            LinkFault::NotHeld => 34,
            LinkFault::HandFull => 35,
            LinkFault::HandEmpty => 36,
            LinkFault::Memory => 37,
        }
    }

    /// The fault's name, as it is printed.
    pub fn name(self) -> &'static str
        ensures { result.now ≡ name_of self }
    {
        match self {
            LinkFault::NotHeld => "NotHeld",
            LinkFault::HandFull => "HandFull",
            LinkFault::HandEmpty => "HandEmpty",
            LinkFault::Memory => "Memory",
        }
    }
}

//! Why a packet can't be read as a message, or a message can't be written.

ghost use Rattle.std.specs.Prelude.{◌≡◌};
ghost use Rattle.lpt_pus.specs.FaultNames.{code_of, name_of};

use thiserror::Error;

/// Why a packet can't be read as a telecommand or as telemetry, or why one can't be written.
///
/// Reading gives `WrongType`, `ShortHeader` and `PusVersion`, tested in this order. Writing gives
/// `TooLong`, and otherwise `Memory`.
#[derive(Clone, Copy, Debug, PartialEq, Eq, Error)]
pub enum PusFault {
    /// The PUS version number isn't 2.
    #[error("the PUS version number isn't 2")]
    PusVersion,
    /// Telemetry if a telecommand is read, or the other way round.
    #[error("a packet of the other type")]
    WrongType,
    /// The packet's data field is shorter than the secondary header.
    #[error("the data field is shorter than the secondary header")]
    ShortHeader,
    /// The whole packet would have more than 65,542 octets.
    #[error("the packet would have more than 65,542 octets")]
    TooLong,
    /// Out of memory.
    #[error("out of memory")]
    Memory,
}

impl PusFault {
    /// The fault's number, 11 to 15.
    pub fn code(self) -> u16
        ensures { result ≡ code_of self }
    {
        match self {
            PusFault::PusVersion => 11,
            PusFault::WrongType => 12,
            PusFault::ShortHeader => 13,
            PusFault::TooLong => 14,
            PusFault::Memory => 15,
        }
    }

    /// The fault's name, as it is printed.
    pub fn name(self) -> &'static str
        ensures { result.now ≡ name_of self }
    {
        match self {
            PusFault::PusVersion => "PusVersion",
            PusFault::WrongType => "WrongType",
            PusFault::ShortHeader => "ShortHeader",
            PusFault::TooLong => "TooLong",
            PusFault::Memory => "Memory",
        }
    }
}

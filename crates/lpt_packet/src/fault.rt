//! Why octets are no packet.

ghost use Rattle.std.specs.Prelude.{◌≡◌};
ghost use Rattle.lpt_packet.specs.FaultNames.{code_of, name_of};

use thiserror::Error;

/// The first test that octets fail, in the order in which they are tested.
#[derive(Clone, Copy, Debug, PartialEq, Eq, Error)]
pub enum PacketFault {
    /// Fewer than 7 octets.
    #[error("fewer than 7 octets")]
    Short,
    /// The packet version number isn't 0.
    #[error("the packet version number isn't 0")]
    Version,
    /// The data length field doesn't agree with the number of octets.
    #[error("the data length doesn't agree with the octets")]
    Length,
    /// The sequence flags say that the packet is a segment of a longer one.
    #[error("a segmented packet")]
    Segmented,
    /// The secondary header flag is 0.
    #[error("no secondary header")]
    NoSecondary,
    /// The packet error control is absent or isn't the checksum of the octets before it.
    #[error("the checksum doesn't agree with the octets")]
    Checksum,
}

impl PacketFault {
    /// The fault's number, 1 to 6.
    pub fn code(self) -> u16
        ensures { result ≡ code_of self }
    {
        match self {
            PacketFault::Short => 1,
            PacketFault::Version => 2,
            PacketFault::Length => 3,
            PacketFault::Segmented => 4,
            PacketFault::NoSecondary => 5,
            PacketFault::Checksum => 6,
        }
    }

    /// The fault's name, as it is printed.
    pub fn name(self) -> &'static str
        ensures { result.now ≡ name_of self }
    {
        match self {
            PacketFault::Short => "Short",
            PacketFault::Version => "Version",
            PacketFault::Length => "Length",
            PacketFault::Segmented => "Segmented",
            PacketFault::NoSecondary => "NoSecondary",
            PacketFault::Checksum => "Checksum",
        }
    }
}

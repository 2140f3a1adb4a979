//! What became of a delivered packet.

ghost use Rattle.std.specs.Prelude.{◌≡◌};
ghost use Rattle.lpt_events.specs.Whys.{why_name};

use lpt_packet::Name;
use lpt_part::Reason;

/// What a node made of a packet that was delivered to it.
#[derive(Clone, Copy, Debug, PartialEq, Eq)]
pub enum Outcome {
    /// The part of this name and number was added to its reception.
    Kept(Name, u16),
    /// The part of this name and number had been kept before.
    Again(Name, u16),
    /// The message of this name is whole; it has so many octets.
    Released(Name, u32),
    /// A telecommand that is no part, released as it is; it has so many octets.
    PlainReleased(u32),
    /// Telemetry of this service type and message subtype that is no part.
    ReportNoted(u8, u8),
    /// The report that the reception of this name was aborted, for this reason.
    AbortNoted(Name, Reason),
    /// The reception of this name is aborted, for this reason.
    Broken(Name, Reason),
    /// Nothing was made of the packet.
    Ignored(Why),
}

/// Why nothing was made of a packet.
#[derive(Clone, Copy, Debug, PartialEq, Eq)]
pub enum Why {
    /// It doesn't read as a space packet, or not as a telecommand at the spacecraft or telemetry on ground.
    Unreadable,
    /// An idle packet.
    Idle,
    /// It has another APID than the configured one.
    ForeignApid,
    /// A part or an abortion report whose body isn't read.
    BadPart,
    /// The transaction's reception has ended.
    Closed,
    /// As many receptions are open as the limit, and none of this transaction.
    NoRoom,
}

impl Why {
    /// The reason's name.
    pub fn name(self) -> &'static str
        ensures { result.now ≡ why_name self }
    {
        match self {
            Why::Unreadable => "Unreadable",
            Why::Idle => "Idle",
            Why::ForeignApid => "ForeignApid",
            Why::BadPart => "BadPart",
            Why::Closed => "Closed",
            Why::NoRoom => "NoRoom",
        }
    }
}

//! What was found in a packet's octets.

use lpt_packet::Name;
use lpt_part::{Kind, Part, Reason};

/// What was found in a packet's octets. Of a part and of an abortion report it is the place in the
/// packet's data field from which the body stands.
#[derive(Clone, Copy)]
pub(crate) enum Layout {
    /// No packet of the kind that comes to this side.
    Unreadable,
    /// An idle packet.
    Idle,
    /// A packet of another APID.
    Foreign,
    /// A telecommand that carries no part.
    Request,
    /// Telemetry of this service type and message subtype that is neither of the next two.
    Report(u8, u8),
    /// A message that is to carry a part of this kind, from this source or to it.
    Part(Kind, u16, usize),
    /// A report to this source that a reception was broken off.
    Abort(u16, usize),
}

/// What a parsed packet shows.
#[derive(Clone, Copy)]
pub(crate) enum Arrival<'a> {
    /// No packet of the kind that comes to this side.
    Unreadable,
    /// An idle packet.
    Idle,
    /// A packet of another APID.
    Foreign,
    /// A telecommand that carries no part.
    Request,
    /// Telemetry of this service type and message subtype that is neither a part nor the report
    /// of an abortion.
    Report(u8, u8),
    /// A part or a report of an abortion whose body isn't read.
    BadPart,
    /// A part, from this source or to it.
    Part(u16, Part<'a>),
    /// A report that the reception of this name was broken off, for this reason.
    Abort(Name, Reason),
}

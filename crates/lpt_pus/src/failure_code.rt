//! Why a request failed.

ghost use Rattle.std.specs.Prelude.{◌≡◌, ◌≤◌, ◌↔◌, IsSome, IfSome};
ghost use Rattle.lpt_pus.specs.Codes.{number_of};

/// Why the acceptance of a request, or the start of its execution, failed.
///
/// Deviation: the numbers, 1 to 8, and their width of 16 bits are this project's own.
#[derive(Clone, Copy, Debug, PartialEq, Eq)]
pub enum FailureCode {
    /// The service type or the message subtype is unknown.
    UnknownRequest,
    /// The body isn't that of such a request.
    MalformedBody,
    /// There is no such memory.
    UnknownMemory,
    /// An area ends past the end of its memory.
    OutOfRange,
    /// An area's octets don't have the checksum that stands behind them.
    WrongChecksum,
    /// The data report would be longer than the longest packet.
    ReplyTooLong,
    /// The data report needs a transaction identifier, and none is free.
    NoFreeIdentifier,
    /// The data report needs a transaction, and as many are open as may be.
    TooManyOpen,
}

impl FailureCode {
    /// The failure code of this number, or `None` if it isn't one of 1 to 8.
    pub fn from_number(number: u16) -> Option<FailureCode>
        ensures known { IsSome result ↔ ((1 ≤ number) × (number ≤ 8)) }
        ensures value { IfSome result (λ c. number_of c ≡ number) }
    {
        match number {
            1 => Some(FailureCode::UnknownRequest),
            2 => Some(FailureCode::MalformedBody),
            3 => Some(FailureCode::UnknownMemory),
            4 => Some(FailureCode::OutOfRange),
            5 => Some(FailureCode::WrongChecksum),
            6 => Some(FailureCode::ReplyTooLong),
            7 => Some(FailureCode::NoFreeIdentifier),
            8 => Some(FailureCode::TooManyOpen),
            _ => None,
        }
    }

    /// The failure code's number in a report, 1 to 8.
    pub fn number(self) -> u16
        ensures { result ≡ number_of self }
    {
        match self {
            FailureCode::UnknownRequest => 1,
            FailureCode::MalformedBody => 2,
            FailureCode::UnknownMemory => 3,
            FailureCode::OutOfRange => 4,
            FailureCode::WrongChecksum => 5,
            FailureCode::ReplyTooLong => 6,
            FailureCode::NoFreeIdentifier => 7,
            FailureCode::TooManyOpen => 8,
        }
    }
}

//! Why a transfer was aborted.

ghost use Rattle.std.specs.Prelude.{◌≡◌};
ghost use Rattle.lpt_part.specs.Aborts.{reason_code};

/// Why the receiver of a large message has aborted its reception.
#[derive(Clone, Copy, Debug, PartialEq, Eq)]
pub enum Reason {
    /// No part came for as long as the timeout.
    Expired,
    /// A part came out of sequence.
    Discontinuity,
    /// A part contradicted those that were kept.
    Conflict,
}

impl Reason {
    /// The failure reason's number in an abortion report, 1 to 3.
    pub fn code(self) -> u8
        ensures { result ≡ reason_code self }
    {
        match self {
            Reason::Expired => 1,
            Reason::Discontinuity => 2,
            Reason::Conflict => 3,
        }
    }
}

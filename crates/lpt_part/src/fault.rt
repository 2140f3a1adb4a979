//! Why a body is no part, or no abortion report.

ghost use Rattle.std.specs.Prelude.{◌≡◌};
ghost use Rattle.lpt_part.specs.FaultNames.{code_of, name_of};

use thiserror::Error;

/// The first test that a body fails, in the order in which they are tested.
#[derive(Clone, Copy, Debug, PartialEq, Eq, Error)]
pub enum PartFault {
    /// Fewer than 4 octets.
    #[error("a part's body has fewer than 4 octets")]
    ShortPart,
    /// The part sequence number is 0.
    #[error("the part sequence number is 0")]
    Zero,
    /// A first part whose number isn't 1, or another part whose number is 1.
    #[error("a part of this kind has another part sequence number")]
    KindNumber,
    /// A first or intermediate part that hasn't as many octets as the part size, a last one that
    /// has none or more, or a part that ends past the longest message.
    #[error("a part of this kind and number has another length")]
    PartLength,
    /// The body of an abortion report hasn't 3 octets, or its failure reason isn't 1, 2 or 3.
    #[error("the body is no abortion report")]
    AbortBody,
}

impl PartFault {
    /// The fault's number, 20 to 24.
    pub fn code(self) -> u16
        ensures { result ≡ code_of self }
    {
        match self {
            PartFault::ShortPart => 20,
            PartFault::Zero => 21,
            PartFault::KindNumber => 22,
            PartFault::PartLength => 23,
            PartFault::AbortBody => 24,
        }
    }

    /// The fault's name, as it is printed.
    pub fn name(self) -> &'static str
        ensures { result.now ≡ name_of self }
    {
        match self {
            PartFault::ShortPart => "ShortPart",
            PartFault::Zero => "Zero",
            PartFault::KindNumber => "KindNumber",
            PartFault::PartLength => "PartLength",
            PartFault::AbortBody => "AbortBody",
        }
    }
}

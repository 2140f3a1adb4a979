//! The acknowledgement flags of a telecommand.

ghost use Rattle.std.specs.Prelude.{◌≡◌, ◌≤◌, ◌↔◌, IsSome, IfSome};

use std::marker::Model;

/// The acknowledgement flags of a telecommand (ECSS-E-ST-70-41C): which reports it asks for.
///
/// They are a number, 0 to 15, the sum of: 1 acceptance, 2 start, 4 progress and 8 completion of
/// execution.
#[derive(Clone, Copy, Debug, PartialEq, Eq)]
pub struct AckFlags {
    bits: u8,
}

impl Model for AckFlags {
    ghost use Rattle.std.specs.Prelude.{ℕ, ◌≤◌};

    ghost Value = { ℕ };

    ghost view = { λ a. a.bits };

    ghost invariant = { λ a. a.bits ≤ 15 };

    ghost inverse = { λ n. record { bits = n } };
}

impl AckFlags {
    /// The flags of this number, or `None` if it is above 15.
    pub fn new(bits: u8) -> Option<AckFlags>
        ensures fits { IsSome result ↔ (bits ≤ 15) }
        ensures value { IfSome result (λ flags. flags ≡ bits) }
    {
        if bits > 15 {
            return None;
        }
        Some(AckFlags { bits })
    }

    /// The flags' number.
    pub fn bits(self) -> u8
        ensures same { result ≡ self }
        ensures fits { result ≤ 15 }
    {
        self.bits
    }
}

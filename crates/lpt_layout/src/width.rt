//! How wide a number is.

ghost use Rattle.std.specs.Prelude.{◌≡◌};
ghost use Rattle.lpt_layout.specs.Numbers.{octets_of};

/// How wide a number of a header is. It stands with its greatest octet first.
#[derive(Clone, Copy)]
pub enum Width {
    /// There is no such field, and the number is 0.
    Absent,
    /// 8 bits.
    Octet,
    /// 16 bits.
    Word,
    /// 32 bits.
    Long,
}

impl Width {
    /// The octets of such a number: 0, 1, 2 or 4.
    pub fn octets(self) -> usize
        ensures { result ≡ octets_of self }
    {
        match self {
            Width::Absent => 0,
            Width::Octet => 1,
            Width::Word => 2,
            Width::Long => 4,
        }
    }
}

//! Which of its message's parts a part is.

ghost use Rattle.std.specs.Prelude.{◌≡◌};
ghost use Rattle.lpt_part.specs.Kinds.{kind_word};

/// Which of its message's parts a part is. A message has at least two parts, so no part is both
/// the first and the last.
#[derive(Clone, Copy, Debug, PartialEq, Eq)]
pub enum Kind {
    /// The first part. Its part sequence number is 1.
    First,
    /// An intermediate part.
    Middle,
    /// The last part.
    Last,
}

impl Kind {
    /// The kind's word.
    pub fn word(self) -> &'static str
        ensures { result.now ≡ kind_word self }
    {
        match self {
            Kind::First => "first",
            Kind::Middle => "middle",
            Kind::Last => "last",
        }
    }
}

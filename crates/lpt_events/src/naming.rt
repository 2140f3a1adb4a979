//! The name of a transaction as a word.

ghost use Rattle.std.specs.Prelude.{◌≡◌};

use lpt_packet::Name;
use std::fmt::{self, Display};

/// The word of a name if this source is configured.
#[derive(Clone, Copy)]
pub struct NameWord {
    source: u16,
    name: Name,
}

impl Display for NameWord {
    ghost use Rattle.std.specs.Prelude.{Some};
    ghost use Rattle.lpt_events.specs.NameTexts.{name_text};

    ghost output = { λ w. Some (name_text w.source w.name) };

    fn fmt<W: fmt::Write>(&self, f: &mut fmt::Formatter<W>) -> fmt::Result {
        let Name { source, id } = self.name;
        if source == self.source {
            write!(f, "{id}")
        } else {
            write!(f, "{source}/{id}")
        }
    }
}

/// The word of a name if this source is configured: its identifier alone if it is of that
/// source, and `SOURCE/ID` otherwise.
pub fn name_word(source: u16, name: Name) -> NameWord
    ensures { result ≡ record { source = source; name = name } }
{
    NameWord { source, name }
}

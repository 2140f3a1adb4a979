//! What is told of the parts of a name, and to whom.

use lpt_carried::Name;
use lpt_layout::Octets;
use lpt_layout_join::{CameAs, MisfitAs};
use lpt_text::StreamFault;

/// What became of the parts of a name.
#[derive(Drop)]
pub enum NewsAs {
    /// A message is whole.
    Given(Octets),
    /// Parts were given up that weren't whole: these came.
    Dropped(CameAs),
    /// What parts were joined to is no packet of the layout and the direction.
    Unfit(MisfitAs),
    /// Parts were given up that weren't whole: these came before the part with which this message
    /// is whole.
    Overtaken(CameAs, Octets),
}

/// Who is told what becomes of the parts of each name.
pub trait TakerAs {
    ghost use Rattle.std.specs.Prelude.{◌≡◌, ◌⊎◌, ◌∷◌, [], List, Option, IfErr, OnOk};
    ghost use Rattle.lpt_layout_each.specs.Told.{news_of};
    ghost use Rattle.lpt_layout_each.specs.News.{Event, Hears, HearsPart};

    // What was told so far, if that is known.
    ghost heard: { Self → Option (List Event) };

    /// Is told something more.
    ///
    /// Errors: `Write` if it couldn't be written; `Memory`.
    fn take(&mut self, name: Name, news: &NewsAs) -> Result<(), StreamFault>
        ensures heard { OnOk result (Hears (heard self.old) (heard self.new)
            ((name, news_of news.now) ∷ [])) }
        ensures left { IfErr result (λ _. HearsPart (heard self.old) (heard self.new)
            ((name, news_of news.now) ∷ [])) }
        ensures fault { IfErr result (λ e. (e ≡ StreamFault.Write) ⊎ (e ≡ StreamFault.Memory)) };
}

//! Where files are made.

use crate::NewsAs;
use lpt_carried::Name;
use lpt_text::StreamFault;

/// Where each message goes into a new file, and who is told of what never became whole.
pub trait Shelf: Drop {
    ghost use Rattle.std.specs.Prelude.{◌≡◌, ◌⊎◌, List, Option, IfErr, OnErr, OnOk};
    ghost use Rattle.lpt_layout_each.specs.News.{Event};
    ghost use Rattle.lpt_layout_each.specs.Told.{news_of};
    ghost use Rattle.lpt_layout_each.specs.Files.{NewFile, files_at, with_event, with_files};

    // What it was told so far, if that is known.
    ghost heard: { Self → Option (List Event) };

    // The files that were made, in their order, if they are known.
    ghost files: { Self → Option (List NewFile) };

    /// Takes news of a name. If they have a message, a new file at this path gets its octets: all
    /// of them, or there is no such file.
    ///
    /// Errors: `Write` if it couldn't be made, or there is a file at this path; `Memory`. No file
    /// was made then.
    fn take(&mut self, name: Name, news: &NewsAs, path: &str) -> Result<(), StreamFault>
        ensures heard { OnOk result (heard self.new
            ≡ with_event (name, news_of news.now) (heard self.old)) }
        ensures made { OnOk result (files self.new
            ≡ with_files (files_at path.now (news_of news.now)) (files self.old)) }
        ensures unheard { OnErr result (heard self.new ≡ heard self.old) }
        ensures unmade { OnErr result (files self.new ≡ files self.old) }
        ensures fault { IfErr result (λ e. (e ≡ StreamFault.Write) ⊎ (e ≡ StreamFault.Memory)) };
}

//! What is left of each name at the end of a stream.

ghost use Rattle.std.specs.Prelude.{◌≡◌, ◌⊎◌, ℕ, Bool, List, IfErr, OnOk};
ghost use Rattle.lpt_carried.specs.declared.reading.Reading.{Reading};
ghost use Rattle.lpt_layout_each.specs.Eaches as each;
ghost use Rattle.lpt_layout_each.specs.Helds.{HoldsEach, IsKept};
ghost use Rattle.lpt_layout_each.specs.News.{Event, Hears, HearsPart};
ghost use Rattle.lpt_layout_each.specs.Streams.{Leaves, of};

use crate::helds::HeldsAs;
use crate::kept::KeptAs;
use crate::{NewsAs, TakerAs};
use lpt_carried::Name;
use lpt_text::StreamFault;

/// Tells what is left of each name, in the order of names.
///
/// Errors: those of the taker.
pub fn leave_as<T: TakerAs>(helds: HeldsAs, taker: &mut T) -> Result<(), StreamFault>
    ensures told { (r : Reading) (any : Bool) (bs : List (List ℕ)) → HoldsEach r any bs helds
        → OnOk result ((es : List Event) × Leaves r any bs es
        × Hears (T.heard taker.old) (T.heard taker.new) es) }
    ensures left { (r : Reading) (any : Bool) (bs : List (List ℕ)) → HoldsEach r any bs helds
        → IfErr result (λ _. (es : List Event) × Leaves r any bs es
        × HearsPart (T.heard taker.old) (T.heard taker.new) es) }
    ensures fault { IfErr result (λ e. (e ≡ StreamFault.Write) ⊎ (e ≡ StreamFault.Memory)) }
{
    let mut kept = helds.kept;
    while let Some((name, held)) = kept.pop_first() {
        tell_left(name, held, taker)?;
    }
    Ok(())
}

// Tells what is left of a name.
fn tell_left<T: TakerAs>(name: Name, held: KeptAs, taker: &mut T) -> Result<(), StreamFault>
    ensures told { (c : each.Course) → IsKept c held → OnOk result
        (Hears (T.heard taker.old) (T.heard taker.new) (of name (each.news_left c))) }
    ensures left { (c : each.Course) → IsKept c held → IfErr result
        (λ _. HearsPart (T.heard taker.old) (T.heard taker.new) (of name (each.news_left c))) }
    ensures fault { IfErr result (λ e. (e ≡ StreamFault.Write) ⊎ (e ≡ StreamFault.Memory)) }
{
    if held.is_empty() {
        return Ok(());
    }
    let news = NewsAs::Dropped(held.into_new());
    taker.take(name, &news)?;
    Ok(())
}

//! What is left of each name at the end of a stream, one after the other.

ghost use Rattle.std.specs.Prelude.{◌≡◌, ◌++◌, [], ℕ, Bool, List, None};
ghost use Rattle.lpt_carried.specs.declared.reading.Reading.{Reading};
ghost use Rattle.lpt_layout_each.specs.Eaches as each;
ghost use Rattle.lpt_layout_each.specs.Helds.{HoldsEach, IsKept};
ghost use Rattle.lpt_layout_each.specs.Lefts.{HoldsYet, left_yet};
ghost use Rattle.lpt_layout_each.specs.Streams.{Leaves, of};
ghost use Rattle.lpt_layout_each.specs.Told.{events_of};

use crate::NewsAs;
use crate::helds::HeldsAs;
use crate::kept::KeptAs;
use lpt_carried::Name;

/// Takes out the first name, in the order of names, of which something is left, and gives what that
/// is; none if nothing is left of any. What is kept may then be used for nothing else.
pub fn pop_left(helds: &mut HeldsAs) -> Option<(Name, NewsAs)>
    ensures first { (r : Reading) (any : Bool) (bs : List (List ℕ)) → HoldsEach r any bs helds.old
        → HoldsYet r any bs helds.old × Leaves r any bs (left_yet r any bs helds.old) }
    ensures held { (r : Reading) (any : Bool) (bs : List (List ℕ)) → HoldsYet r any bs helds.old
        → HoldsYet r any bs helds.new }
    ensures told { (r : Reading) (any : Bool) (bs : List (List ℕ)) → HoldsYet r any bs helds.old
        → left_yet r any bs helds.old ≡ events_of result ++ left_yet r any bs helds.new }
    ensures none { result ≡ None → (r : Reading) (any : Bool) (bs : List (List ℕ))
        → left_yet r any bs helds.new ≡ [] }
{
    while let Some((name, held)) = helds.kept.pop_first() {
        match left_in(name, held) {
            Some(event) => return Some(event),
            None => {}
        }
    }
    None
}

// What is left of a name; none if nothing is.
fn left_in(name: Name, held: KeptAs) -> Option<(Name, NewsAs)>
    ensures { (c : each.Course) → IsKept c held → events_of result ≡ of name (each.news_left c) }
{
    if held.is_empty() {
        return None;
    }
    Some((name, NewsAs::Dropped(held.into_new())))
}

//! Items between commas.

ghost use Rattle.std.specs.Prelude.{◌≡◌, ◌<◌, [], ◌∷◌, length, MatchOption, IfSome};
ghost use Rattle.lpt_text.specs.Items.{items_of};

use crate::line_end::first_place;

/// The item in front of the first comma of a list, and what is behind it; none if there is no
/// comma: then the list is one item.
pub fn cut_item(list: &[u8]) -> Option<(&[u8], &[u8])>
    ensures items { MatchOption result (items_of list.now ≡ list.now ∷ [])
        (λ cut. items_of list.now ≡ cut.0.now ∷ items_of cut.1.now) }
    ensures shorter { IfSome result (λ cut. length cut.1.now < length list.now) }
{
    match first_place(list, b',') {
        Some(place) => Some((&list[..place], &list[place + 1..])),
        None => None,
    }
}

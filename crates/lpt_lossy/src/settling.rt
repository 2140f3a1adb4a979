//! What becomes of a packet in the end.

ghost use Rattle.std.specs.Prelude.{◌≡◌, ◌≤◌, true, IfSome, Some};
ghost use Rattle.lpt_lossy.specs.Bursts.{can_change};

use crate::burst::can_change;
use crate::{Burst, Fate, Layouts, LossyLink};

// What becomes of these octets on a link: nothing else becomes of what is lost, none are written
// later than they may be, and bits are changed only if that shows.
pub(crate) fn fate_settled(fate: Fate, link: &LossyLink, octets: &[u8]) -> Fate
    ensures most { result.later ≤ link.now.most_later }
    ensures lost { result.is_lost ≡ true → result.later ≡ 0 }
    ensures decided { IfSome result.burst (λ u. fate.burst ≡ Some u) }
    ensures shows { IfSome result.burst
        (λ u. can_change link.now.layouts u octets.now ≡ true) }
{
    if fate.is_lost {
        return Fate {
            is_lost: true,
            is_twice: false,
            later: 0,
            burst: None,
        };
    }
    Fate {
        is_lost: false,
        is_twice: fate.is_twice,
        later: fate.later.min(link.most_later),
        burst: if_it_can(&link.layouts, fate.burst, octets),
    }
}

// A burst that can change these octets.
fn if_it_can(layouts: &Layouts, burst: Option<Burst>, octets: &[u8]) -> Option<Burst>
    ensures decided { IfSome result (λ u. burst ≡ Some u) }
    ensures shows { IfSome result (λ u. can_change layouts.now u octets.now ≡ true) }
{
    match burst {
        Some(burst) => if can_change(layouts, &burst, octets) {
            Some(burst)
        } else {
            None
        },
        None => None,
    }
}

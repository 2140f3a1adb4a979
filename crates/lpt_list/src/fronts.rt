//! What is found in octets that are there.

ghost use Rattle.std.specs.Prelude.{◌≡◌, ◌+◌, ◌≤◌, length, true, false, None, IfSome};
ghost use Rattle.lpt_packet.specs.Numbers.{word_at};
ghost use Rattle.lpt_stream.specs.declared.cut.Cut.TheVariants.{Framed};
ghost use Rattle.lpt_stream.specs.Pieces.{begins_by};
ghost use Rattle.lpt_carried.specs.Layouts.{SizesFit};
ghost use Rattle.lpt_list.specs.Told.{IsTold};

use crate::Told;
use crate::told::{nothing_told, told_with};
use lpt_carried::Layouts;
use lpt_stream::whole_length;

/// So many octets show what begins in front of them.
const LOOKAHEAD: usize = 131_084;

/// What is found in the packets at the front of octets, one behind the other, as a list of them by
/// layouts would tell it. They are cut by the lengths in their headers.
pub fn told_in(layouts: &Layouts, octets: &[u8]) -> Told
    requires { SizesFit layouts.now }
    ensures { IsTold layouts.now octets.now result }
{
    let mut told = nothing_told();
    let mut rest = octets;
    while let Some(len) = frame_length(&rest[..LOOKAHEAD.min(rest.len())]) {
        told = told_with(told, layouts, &rest[..len]);
        rest = &rest[len..];
    }
    told
}

// How many octets the packet at the front of these has, if one is there whole.
fn frame_length(near: &[u8]) -> Option<usize>
    ensures found { IfSome result (λ n. (begins_by Framed true near.now ≡ true)
        × (n ≡ 7 + word_at near.now 4) × (n ≤ length near.now)) }
    ensures none { result ≡ None → begins_by Framed true near.now ≡ false }
{
    if near.is_empty() || near[0] >> 5 == 0 {
        whole_length(near)
    } else {
        None
    }
}

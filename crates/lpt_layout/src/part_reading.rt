//! Reading a part of a layout from a body.

ghost use Rattle.std.specs.Prelude.{◌≡◌, IfOk};
ghost use Rattle.lpt_part.specs.Parts.{length_test};
ghost use Rattle.lpt_layout.specs.Parts.{IsPartSizeAs, is_numbered, piece, IsPartAs, part_verdict_as, Gives};

use crate::numbers::number_at;
use crate::{PartAs, PartLayout};
use lpt_packet::LONGEST_PACKET;
use lpt_part::{Kind, PartFault};

/// Reads the body of a message that carries a part of this kind, for parts of `p` octets, 1 to
/// 65,535, as the layout has it.
///
/// The octets are borrowed. Errors, the first that applies: `ShortPart`, fewer octets than the
/// identifier and the number have; `Zero`, number 0; `KindNumber`, a first part whose number isn't
/// 1, or another whose number is 1; `PartLength`, a first or intermediate part of other than `p`
/// octets, a last one of other than 1 to `p`, or a part that ends past the 65,542 octets of the
/// longest message.
pub fn read_part_as<'a>(
    layout: &PartLayout,
    kind: Kind,
    body: &'a [u8],
    p: u32,
) -> Result<PartAs<'a>, PartFault>
    requires { IsPartSizeAs p }
    // What is read is what the octets are.
    ensures found { IfOk result (λ t. IsPartAs layout.now p body.now (piece t) × (t.kind ≡ kind)) }
    // The fault is the first.
    ensures exact { Gives result (part_verdict_as layout.now kind body.now p) }
{
    first_fault_or_part(layout, kind, body, p)
}

// The tests of a body, in their order.
#[tactic(auto, unfolding(crate::specs::Parts::part_verdict_as))]
fn first_fault_or_part<'a>(
    layout: &PartLayout,
    kind: Kind,
    body: &'a [u8],
    p: u32,
) -> Result<PartAs<'a>, PartFault>
    requires { IsPartSizeAs p }
    ensures { Gives result (part_verdict_as layout.now kind body.now p) }
{
    let start = layout.header();
    if body.len() < start {
        return Err(PartFault::ShortPart);
    }
    let id = number_at(layout.id, body, 0);
    let number = number_at(layout.number, body, layout.id.octets());
    let octets = &body[start..];
    if number == 0 {
        return Err(PartFault::Zero);
    }
    if !is_numbered(kind, number) {
        return Err(PartFault::KindNumber);
    }
    if !length_fits(kind, number, octets.len(), p) {
        return Err(PartFault::PartLength);
    }
    Ok(PartAs {
        id,
        number,
        kind,
        octets,
    })
}

// Whether a part of this kind may have this number.
fn is_numbered(kind: Kind, number: u32) -> bool
    ensures { result ≡ is_numbered kind number }
{
    match kind {
        Kind::First => number == 1,
        Kind::Middle | Kind::Last => number >= 2,
    }
}

// Whether a part of this kind and number may have so many octets, for parts of `p` octets.
fn length_fits(kind: Kind, number: u32, len: usize, p: u32) -> bool
    requires { IsPartSizeAs p }
    ensures { result ≡ length_test kind number len p }
{
    let p = p as usize;
    let least = match kind {
        Kind::First | Kind::Middle => p,
        Kind::Last => 1,
    };
    let before = (number as usize).saturating_sub(1) * p;
    least <= len && len <= p && before + len <= LONGEST_PACKET
}

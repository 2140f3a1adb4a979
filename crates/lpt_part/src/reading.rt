//! Reading a part from a body.

ghost use Rattle.std.specs.Prelude.{◌≡◌, Ok, IfOk};
ghost use Rattle.lpt_part.specs.Splitting.{IsPartSize};
ghost use Rattle.lpt_part.specs.Parts.{Piece, piece, IsPart, part_verdict, Gives};

use crate::fitting::{length_fits, number_fits};
use crate::{Kind, Part, PartFault};

/// Reads the body of a message that carries a part of this kind, for parts of `p` octets: the
/// transaction identifier (16 bits), the part sequence number (16 bits) and the part's octets.
///
/// The octets are borrowed. Errors, the first that applies: `ShortPart`, fewer than 4 octets;
/// `Zero`, number 0; `KindNumber`, a first part whose number isn't 1, or another whose number is
/// 1; `PartLength`, a first or intermediate part of other than `p` octets, a last one of other
/// than 1 to `p`, or a part that ends past the 65,542 octets of the longest message.
pub fn read_part(kind: Kind, body: &[u8], p: u32) -> Result<Part<'_>, PartFault>
    requires { IsPartSize p }
    // What is read is what the octets are.
    ensures found { IfOk result (λ t. IsPart p body.now (piece t) × (t.kind ≡ kind)) }
    // Each part is read.
    ensures part { (q : Piece) → q.kind ≡ kind → IsPart p body.now q → Gives p result (Ok q) }
    // The fault is the first.
    ensures exact { Gives p result (part_verdict kind body.now p) }
{
    first_fault_or_part(kind, body, p)
}

// The tests of a body, in their order.
#[tactic(auto, unfolding(crate::specs::Parts::part_verdict))]
fn first_fault_or_part(kind: Kind, body: &[u8], p: u32) -> Result<Part<'_>, PartFault>
    requires { IsPartSize p }
    ensures { Gives p result (part_verdict kind body.now p) }
{
    if body.len() < 4 {
        return Err(PartFault::ShortPart);
    }
    let id = u16::from_be_bytes([body[0], body[1]]);
    let number = u16::from_be_bytes([body[2], body[3]]);
    let octets = &body[4..];
    if number == 0 {
        return Err(PartFault::Zero);
    }
    if !number_fits(kind, number) {
        return Err(PartFault::KindNumber);
    }
    if !length_fits(kind, number, octets.len(), p) {
        return Err(PartFault::PartLength);
    }
    Ok(Part {
        id,
        number,
        kind,
        octets,
        p,
    })
}

//! Writing a part of a layout as a body.

ghost use Rattle.std.specs.Prelude.{◌≡◌, IfOk};
ghost use Rattle.lpt_layout.specs.Parts.{piece, body_as};
ghost use Rattle.lpt_layout.specs.Writes.{WritesPart};

use crate::numbers::{fits, octets_of};
use crate::{LayoutFault, PartAs, PartLayout};
use lpt_packet::Octets;
use std::alloc::{AllocError, Global};

/// The body of a message that carries this part, as the layout has it.
///
/// Errors, the first that applies: `Unfit` if the identifier or the number is too great for its
/// width, which is found before any memory is taken; `Memory` if memory runs out.
pub fn write_part_as(
    alloc: Global,
    layout: &PartLayout,
    part: &PartAs<'_>,
) -> Result<Octets, LayoutFault>
    ensures { WritesPart layout.now (piece part.now) result }
{
    if !fits(layout.id, part.id) || !fits(layout.number, part.number) {
        return Err(LayoutFault::Unfit);
    }
    part_octets(alloc, layout, part).map_err(|_| LayoutFault::Memory)
}

// The octets of the fields, one behind the other.
fn part_octets(alloc: Global, layout: &PartLayout, part: &PartAs<'_>) -> Result<Octets, AllocError>
    ensures { IfOk result (λ o. o ≡ body_as layout.now (piece part.now)) }
{
    let id = part.id.to_be_bytes();
    let number = part.number.to_be_bytes();
    let mut body = Vec::with_capacity(alloc, layout.header() + part.octets.len())?;
    body.extend_from_slice(octets_of(layout.id, &id))?;
    body.extend_from_slice(octets_of(layout.number, &number))?;
    body.extend_from_slice(part.octets)?;
    Ok(Octets::from_vec(body))
}

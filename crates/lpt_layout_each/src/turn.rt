//! What a further part makes of those that came before it.

ghost use Rattle.std.specs.Prelude.{◌≤◌, Bool, length, IfOk, OnOk};
ghost use Rattle.lpt_packet.specs.Sizes.{longest_packet};
ghost use Rattle.lpt_layout.specs.Parts.{piece};
ghost use Rattle.lpt_layout_join.specs.Came.{Came};
ghost use Rattle.lpt_layout_join.specs.CameInside.{Shows};
ghost use Rattle.lpt_layout_each.specs.Eaches.{alone, more, turn};
ghost use Rattle.lpt_layout_each.specs.Helds.{IsTurn};

use lpt_carried::Reading;
use lpt_layout::{Octets, PartAs};
use lpt_layout_join::{CameAs, MisfitAs, unfit};
use std::alloc::{AllocError, Global};

/// What a further part makes of those that came before it.
#[derive(Drop)]
pub(crate) enum Turn {
    /// Parts are missing.
    Waits,
    /// It contradicts them.
    Broken,
    /// What they are joined to isn't given out.
    Unfit(MisfitAs),
    /// They are whole, and joined to this message.
    Gives(Octets),
}

// Adds a part, at this place, to others. The only error is out of memory.
pub(crate) fn turn_with(
    alloc: Global,
    reading: &Reading,
    any: bool,
    place: u64,
    came: &mut CameAs,
    part: &PartAs<'_>,
) -> Result<Turn, AllocError>
    requires number { 1 ≤ part.now.number }
    requires short { length part.now.octets.now ≤ longest_packet }
    ensures came { (c : Came) → Shows c came.old
        → OnOk result (Shows (more c (piece part.now)) came.new) }
    ensures turn { (c : Came) → Shows c came.old → IfOk result (λ t.
        (again : Bool)
        → IsTurn again c (piece part.now) t (turn reading.now any again c (piece part.now))) }
{
    came.take_from(place, part)?;
    if came.against().is_some() {
        return Ok(Turn::Broken);
    }
    match came.message(alloc)? {
        None => Ok(Turn::Waits),
        Some(message) => match unfit(reading, any, false, message.as_slice()) {
            None => Ok(Turn::Gives(message)),
            Some(misfit) => Ok(Turn::Unfit(misfit)),
        },
    }
}

// The parts with which a part at this place begins anew. The only error is out of memory.
pub(crate) fn alone(alloc: Global, place: u64, part: &PartAs<'_>) -> Result<CameAs, AllocError>
    requires number { 1 ≤ part.now.number }
    requires short { length part.now.octets.now ≤ longest_packet }
    ensures { IfOk result (Shows (alone (piece part.now))) }
{
    let mut came = CameAs::new(alloc);
    came.take_from(place, part)?;
    Ok(came)
}

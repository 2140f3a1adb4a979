//! What the definitions say of links, proved of all of them: functions with empty bodies.

ghost use Rattle.std.specs.Prelude.{ℕ, ◌↔◌, IsTrue};
ghost use Rattle.lpt_packet.specs.declared.direction.Direction.{Direction};
ghost use Rattle.lpt_packet.specs.Names.{Name};
ghost use Rattle.lpt_link.specs.Links.{LinkData, holds, IsPresent};

/// The link holds a transaction exactly if some packet of it is held or in a lane's hand.
pub fn holds_what_is_present()
    ensures { (d : LinkData) (direction : Direction) (name : Name) →
        IsTrue (holds d direction name) ↔ ((n : ℕ) × IsPresent d direction name n) }
{}

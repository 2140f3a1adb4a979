//! What the definitions say of what is carried: functions with empty bodies.

ghost use Rattle.std.specs.Prelude.{◌≡◌, ℕ, List};
ghost use Rattle.std.specs.Option.{option_map};
ghost use Rattle.std.specs.Result.{result_ok};
ghost use Rattle.lpt_events.specs.Arrivals.{arrival};
ghost use Rattle.lpt_events.specs.Sides.{receiver_side};
ghost use Rattle.lpt_packet.specs.Numbers.{IsOctets};
ghost use Rattle.lpt_carried.specs.declared.reading.Reading.{Reading};
ghost use Rattle.lpt_carried.specs.Carried.{part_carried};
ghost use Rattle.lpt_carried.specs.Own.{IsOwn, in_own, part_arrived};

use lpt_layout::laws::the_own_layouts;
use lpt_packet::laws::seen_is_read;
use lpt_pus::laws::bodies_stand_last;

/// At the profile's own reading octets carry the part that arrives with them at the end that
/// receives in that direction, or none.
pub fn the_own_parts()
    ensures { (r : Reading) (p : ℕ) (b : List ℕ) → IsOwn r p → IsOctets b
        → option_map in_own (result_ok (part_carried r b))
        ≡ part_arrived (arrival (receiver_side r.direction) r.apid p b) }
{
    the_own_layouts();
    seen_is_read();
    bodies_stand_last();
}

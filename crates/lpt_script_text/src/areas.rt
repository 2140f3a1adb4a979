//! The areas that a body names.

ghost use Rattle.std.specs.Prelude.{◌≡◌};
ghost use Rattle.lpt_script_text.specs.Areas.{areas_at, areas_in, has_areas};

use lpt_memory::fields;
use lpt_packet::Direction;

/// The service type of memory management.
const MEMORY: u8 = 6;

/// The areas that a message names.
#[derive(Clone, Copy)]
pub struct Areas {
    /// The identifier of the memory.
    pub memory: u8,
    /// How many areas, from 1.
    pub count: u8,
    /// The address of the first octet of the first area.
    pub address: u32,
    /// How many octets the first area has, from 1.
    pub len: u16,
}

/// The areas that a message of this direction, service and subtype names in its body. There are
/// none if it is no load, dump or check of raw memory, nor a report on a dump or a check; or
/// if the body ends before the first area's length, or says that there is no area, or that the
/// first has no octets.
#[tactic(auto, unfolding(crate::specs::Areas::areas_in))]
pub fn read_areas(direction: Direction, service: u8, subtype: u8, body: &[u8]) -> Option<Areas>
    ensures { result ≡ areas_in direction service subtype body.now }
{
    if has_areas(direction, service, subtype) {
        areas_at(body)
    } else {
        None
    }
}

// Whether the body of such a message names areas.
fn has_areas(direction: Direction, service: u8, subtype: u8) -> bool
    ensures { result ≡ has_areas direction service subtype }
{
    service == MEMORY
        && match direction {
            Direction::Up => matches!(subtype, 2 | 5 | 9),
            Direction::Down => matches!(subtype, 6 | 10),
        }
}

// The areas that stand first in a body.
#[tactic(auto, unfolding(lpt_memory::specs::Requests::front_range))]
fn areas_at(body: &[u8]) -> Option<Areas>
    ensures { result ≡ areas_at body.now }
{
    let (memory, count, rest) = fields::head(body)?;
    let (address, rest) = fields::long(rest)?;
    let (len, _) = fields::word(rest)?;
    if len == 0 {
        return None;
    }
    Some(Areas {
        memory,
        count,
        address,
        len,
    })
}

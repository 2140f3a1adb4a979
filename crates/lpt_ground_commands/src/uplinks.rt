//! A load that goes up as one large message.

ghost use Rattle.lpt_events.specs.Configs.{IsConfig};

use lpt_command_line::GroundWords;
use lpt_events::Config;
use lpt_ground_run::{Asked, Heads, Names, PlanFault, Uplink, plan_uplink};
use std::alloc::Global;

/// How many octets the longest load of one request has.
pub const LONGEST_LOAD: u16 = 65_519;

/// How many transaction identifiers there are.
const MOST_NAMES: u32 = 65_536;

/// How the one request of a pass goes up, if these words ask for a large message: none if it goes
/// as it is.
///
/// Errors: as of `plan_uplink`.
pub fn uplink_in(
    alloc: Global,
    config: &Config,
    words: &GroundWords<'_>,
    heads: &Heads,
    asked: &[Asked],
) -> Result<Option<Uplink>, PlanFault>
    requires { IsConfig config.now }
{
    let (Some(large), [one]) = (words.large, asked) else {
        return Ok(None);
    };
    let names = Names {
        first: large.first,
        many: large.many.min(MOST_NAMES),
    };
    plan_uplink(alloc, heads, config.part_size, names, one)
}

//! A request that goes up as a large message.

ghost use Rattle.std.specs.Prelude.{IfOk};
ghost use Rattle.lpt_part.specs.Splitting.{IsPartSize};
ghost use Rattle.lpt_ground_run.specs.Uplinks.{IsUplink};

use crate::{Heads, PlanFault};
use lpt_ground::{Asked, Large, Names, Uplink};
use lpt_packet::{LONGEST_PACKET, Octets};
use std::alloc::Global;

/// How a request goes up under these names, in parts of so many octets, whose packets are counted
/// behind it. There is none if it is no longer than a part: its packet goes as it is then.
///
/// Errors: `TooLong` if it has more than 65,542 octets; `Memory`.
pub fn plan_uplink(
    alloc: Global,
    heads: &Heads,
    part_size: u32,
    names: Names,
    asked: &Asked,
) -> Result<Option<Uplink>, PlanFault>
    requires { IsPartSize part_size }
    ensures { IfOk result (IsUplink heads.now part_size names asked.now) }
{
    let octets = asked.octets.as_slice();
    if octets.len() <= part_size as usize {
        return Ok(None);
    }
    if octets.len() > LONGEST_PACKET {
        return Err(PlanFault::TooLong);
    }
    let Ok(message) = Vec::from_slice(alloc, octets) else {
        return Err(PlanFault::Memory);
    };
    let behind = heads.behind(1);
    Ok(Some(Uplink::new(Large {
        apid: behind.apid,
        source: behind.source,
        count: behind.count,
        part_size,
        names,
        message: Octets::from_vec(message),
    })))
}

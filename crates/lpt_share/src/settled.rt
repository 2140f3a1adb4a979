//! What is looked at when the threads of a run have ended.

ghost use Rattle.std.specs.Prelude.{◌↔◌, ◌≤◌, ◌<◌, ◌+◌, ◌^◌, length, IfOk, IsTrue};
ghost use Rattle.lpt_share.specs.Runs.{IsInOrder};
ghost use Rattle.lpt_share.specs.Settled.{AreThrough, IsSettled};

use crate::finish::{are_carried, are_executed, is_idle, is_ticked};
use crate::owed::{Owed, are_owed_carried};
use crate::sending::are_in_turn;
use crate::taken::are_taken;
use lpt_events::{Entry, SeatLog, Side, Turns};
use lpt_world::World;
use std::alloc::{AllocError, Global};

/// The last seat that has a thread.
const LAST_SEAT: u8 = 10;

/// Whether nothing was left to do at the end of a run that began at this place with what was owed,
/// but for what seats left whose logs are full; no packet was taken twice, and no part sent twice.
/// The only error is out of memory.
pub fn is_settled(
    alloc: Global,
    world: &World,
    from: u64,
    owed: &[Owed],
    turns: Turns,
    logs: &[SeatLog],
) -> Result<bool, AllocError>
    requires { from ≤ length world.now.journal }
    ensures { IfOk result (λ done. IsTrue done ↔ IsSettled turns from owed.now world.now logs.now) }
{
    let entries = &world.journal()[from as usize..];
    if !are_through(world, from, entries, owed, turns, logs) {
        return Ok(false);
    }
    are_taken(alloc, world, entries, turns.per_seat, logs)
}

// Whether hands, workers and jobs are done with, parts were sent in turn, the timers have ticked,
// and what was owed or was opened from this place on is carried. The entries are those from there
// on.
fn are_through(
    world: &World,
    from: u64,
    entries: &[Entry],
    owed: &[Owed],
    turns: Turns,
    logs: &[SeatLog],
) -> bool
    requires { length entries.now + 1 < 2 ^ 64 }
    ensures { IsTrue result ↔ AreThrough turns from owed.now world.now logs.now entries.now }
{
    is_idle(world)
        && are_in_turn(entries)
        && are_executed(world, turns.per_seat, logs)
        && is_ticked(world, entries, Side::Craft, turns, logs)
        && is_ticked(world, entries, Side::Ground, turns, logs)
        && are_owed_carried(
            owed,
            world.config().part_size,
            entries,
            turns.per_seat,
            logs,
        )
        && are_carried(world, from, entries, turns.per_seat, logs)
}

/// Whether the logs are those of seats 1 to 10, in this order.
pub fn are_in_order(logs: &[SeatLog]) -> bool
    ensures { IsTrue result ↔ IsInOrder 1 logs.now }
{
    let mut seat = 1;
    let mut rest = logs;
    while let Some((log, tail)) = rest.split_first() {
        if seat > LAST_SEAT || log.seat != seat {
            return false;
        }
        seat += 1;
        rest = tail;
    }
    seat > LAST_SEAT
}

//! What is found when the threads of a run have ended.

ghost use Rattle.std.specs.Prelude.{◌≡◌, ◌≢◌, ◌↔◌, Some, None, true, IfOk, IfErr, IfSome, IsTrue};
ghost use Rattle.lpt_share.specs.Agreeing.{Agree};
ghost use Rattle.lpt_share.specs.Kinds.{are_of_seats};
ghost use Rattle.lpt_share.specs.Runs.{IsInOrder};
ghost use Rattle.lpt_share.specs.WholeRuns.{IsWholeRun};

use crate::{Owed, ShareFault, agrees, are_in_order, are_of_seats, is_settled};
use lpt_events::{SeatLog, Turns};
use lpt_world::World;
use std::alloc::{AllocError, Global};

/// How the threads of a run ended: with these logs, and why not all were run to their end.
#[derive(Drop)]
pub(crate) struct Ran {
    pub(crate) logs: Vec<SeatLog>,
    pub(crate) fault: Option<ShareFault>,
}

/// The logs of a run that began at this place with what was owed. A seat that found the journal
/// torn has only ended before its time: what that left is found as for any other.
///
/// Errors: `Torn` if the run isn't whole; `Memory` and `NoThread`, with which the logs agree
/// with the journal.
pub(crate) fn run_judged(
    alloc: Global,
    world: &World,
    from: u64,
    owed: &[Owed],
    turns: Turns,
    ran: Ran,
) -> Result<Vec<SeatLog>, (ShareFault, Vec<SeatLog>)>
    ensures whole { IfOk result (λ logs. IsWholeRun turns from owed.now world.now logs.items) }
    ensures torn { IfErr result (λ e. e.0 ≡ ShareFault.Torn → ¬ (IsWholeRun turns from owed.now world.now e.1.items)) }
    ensures agree { IfErr result (λ e. e.0 ≢ ShareFault.Torn → Agree world.now from e.1.items) }
{
    let Ran { logs, fault } = ran;
    let why = match fault {
        None | Some(ShareFault::Torn) => fault_found(
            alloc,
            world,
            from,
            owed,
            turns,
            logs.as_slice(),
        ),
        Some(fault) => Some(cut_short(world, from, logs.as_slice(), fault)),
    };
    match why {
        None => Ok(logs),
        Some(fault) => Err((fault, logs)),
    }
}

// Why a run that wasn't done isn't whole: for this reason, or since its logs don't agree with the
// journal.
fn cut_short(world: &World, from: u64, logs: &[SeatLog], fault: ShareFault) -> ShareFault
    requires { fault ≢ ShareFault.Torn }
    ensures agree { result ≢ ShareFault.Torn → Agree world.now from logs.now }
    ensures torn { result ≡ ShareFault.Torn → ¬ (Agree world.now from logs.now) }
{
    if !agrees(world, from, logs) {
        return ShareFault::Torn;
    }
    fault
}

// Why a run isn't whole, or that memory ran out before that was seen.
fn fault_found(
    alloc: Global,
    world: &World,
    from: u64,
    owed: &[Owed],
    turns: Turns,
    logs: &[SeatLog],
) -> Option<ShareFault>
    ensures whole { result ≡ None → IsWholeRun turns from owed.now world.now logs.now }
    ensures torn { result ≡ Some ShareFault.Torn → ¬ (IsWholeRun turns from owed.now world.now logs.now) }
    ensures agree { IfSome result (λ f. f ≢ ShareFault.Torn → Agree world.now from logs.now) }
{
    match is_whole(alloc, world, from, owed, turns, logs) {
        Ok(true) => None,
        Ok(false) => Some(ShareFault::Torn),
        Err(_) => Some(ShareFault::Memory),
    }
}

// Whether the logs of a run are those of its seats and agree with the journal, and nothing was left
// to do. The only error is out of memory; they are those of its seats and agree then.
fn is_whole(
    alloc: Global,
    world: &World,
    from: u64,
    owed: &[Owed],
    turns: Turns,
    logs: &[SeatLog],
) -> Result<bool, AllocError>
    ensures whole { IfOk result (λ whole. IsTrue whole ↔ IsWholeRun turns from owed.now world.now logs.now) }
    ensures agree { IfErr result (λ e. Agree world.now from logs.now) }
{
    if !are_of_run(world, from, logs) {
        return Ok(false);
    }
    is_settled(alloc, world, from, owed, turns, logs)
}

// Whether logs are in order and of their seats' events, and agree with the journal.
fn are_of_run(world: &World, from: u64, logs: &[SeatLog]) -> bool
    ensures { IsTrue result ↔ (IsInOrder 1 logs.now × (are_of_seats logs.now ≡ true) × Agree world.now from logs.now) }
{
    are_in_order(logs) && are_of_seats(logs) && agrees(world, from, logs)
}

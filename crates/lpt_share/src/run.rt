//! The run of ten seats round one world, each in a thread of its own.

ghost use Rattle.std.specs.Prelude.{◌≡◌, ◌≢◌, Some, true, length, IfOk, IfErr, IfSome};
ghost use Rattle.lpt_share.specs.Agreeing.{Agree};
ghost use Rattle.lpt_share.specs.Finished.{IsFinished, owed_of};
ghost use Rattle.lpt_share.specs.Kinds.{are_of_seats};
ghost use Rattle.lpt_world.specs.Worlds.{Promised};
ghost use Rattle.lpt_share.specs.Runs.{IsInOrder};
ghost use Rattle.lpt_share.specs.Entering.{IsLegal};
ghost use Rattle.lpt_share.specs.Origins.{Continues};
ghost use Rattle.lpt_share.specs.WholeRuns.{IsWholeRun};

use crate::first::all_seats;
use crate::held::Origin;
use crate::judging::{Ran, run_judged};
use crate::seats::{Ended, Pass};
use crate::task::Seat;
use crate::{Gate, Owed, ShareFault, Shared, open_transactions};
use lpt_events::{SeatLog, Turns};
use lpt_world::World;
use std::alloc::{AllocError, Global};
use std::marker::Brand;
use std::sync::Wait;
use std::thread;
use std::thread::{JoinHandle, Threads};

/// Why a run failed, with the world and the logs as they are then.
#[derive(Drop)]
pub struct ShareEnd {
    /// Why it failed.
    pub fault: ShareFault,
    /// The world, which went on from the given one.
    pub world: World,
    /// The logs of the seats that had a thread, in order of seat. But for `Torn` they agree with
    /// the world's journal.
    pub logs: Vec<SeatLog>,
}

/// Runs seats 1 to 10 round a world, each in a thread of its own, and answers the world and the log
/// of each seat, in order of seat. The gate is told of each call that was accepted.
///
/// Ground's sender sends and finishes each transaction that is open, the spacecraft's sender too,
/// also those that are opened meanwhile. Four lanes take and deliver the packets, two workers
/// claim, prepare, commit and execute the jobs, and two timers tick. The calls of each log are its
/// seat's entries in the journal behind the given one's, and of events that are its own: lanes take
/// and deliver, timers tick and end receptions, workers claim, commit and have jobs executed, and
/// senders send and finish. Nothing is left to do: each transaction that was open or was opened
/// meanwhile was sent whole and finished, or aborted; each packet that was never lost was taken;
/// hands and workers are empty, each job is executed, and each timer has ticked as often as it was
/// to, or its clock is at its greatest. What a seat left whose log has `per_seat` calls is excused,
/// if no other seat does the same: both lanes of a direction, both workers, a sender, a timer.
/// No packet was taken twice, and no timer ticked more often than it was to. It returns only if
/// each thread ends.
///
/// Errors: `Torn`, the journal and the logs don't agree, or something was left to do: the world and
/// the logs that come back show it; `Memory`; `NoThread`, a thread couldn't be started. The world
/// comes back, with all that was done, and but for `Torn` the logs agree with it.
pub fn run_threads<R: Threads + Wait + Sync, G: Gate + Sync>(
    alloc: Global,
    rt: &R,
    world: World,
    turns: Turns,
    gate: &G,
) -> Result<(World, Vec<SeatLog>), ShareEnd>
    ensures goes_on { IfOk result (λ r. Continues world r.0) }
    ensures in_order { IfOk result (λ r. IsInOrder 1 r.1.items) }
    ensures kinds { IfOk result (λ r. are_of_seats r.1.items ≡ true) }
    ensures agree { IfOk result (λ r. Agree r.0 (length world.journal) r.1.items) }
    ensures finished { IfOk result (λ r. IsFinished turns world r.0 r.1.items) }
    ensures legal { IfOk result (λ r. IsLegal r.0) }
    ensures promised { IfOk result (λ r. Promised r.0) }

    // What comes back with a fault goes on from the given world too.
    ensures err_goes_on { IfErr result (λ e. Continues world e.world) }
    ensures err { IfErr result (λ e. IsLegal e.world) }
    ensures err_promised { IfErr result (λ e. Promised e.world) }
    ensures err_agree { IfErr result (λ e. e.fault ≢ ShareFault.Torn → Agree e.world (length world.journal) e.logs.items) }

    // Torn has evidence: the logs and the world that come back aren't those of a whole run.
    ensures torn { IfErr result (λ e. e.fault ≡ ShareFault.Torn
        → ¬ (IsWholeRun turns (length world.journal) (owed_of world) e.world e.logs.items)) }
{
    run_from::<Brand, R, G>(alloc, rt, world, turns, gate)
}

// The same, under a lock that knows the given world by its type.
#[tactic(auto, using(crate::proofs::Going::continues_itself))]
fn run_from<J: Origin + Send + Sync, R: Threads + Wait + Sync, G: Gate + Sync>(
    alloc: Global,
    rt: &R,
    world: World,
    turns: Turns,
    gate: &G,
) -> Result<(World, Vec<SeatLog>), ShareEnd>
    requires { J.given ≡ Some world }
    ensures goes_on { IfOk result (λ r. Continues world r.0) }
    ensures in_order { IfOk result (λ r. IsInOrder 1 r.1.items) }
    ensures kinds { IfOk result (λ r. are_of_seats r.1.items ≡ true) }
    ensures agree { IfOk result (λ r. Agree r.0 (length world.journal) r.1.items) }
    ensures finished { IfOk result (λ r. IsFinished turns world r.0 r.1.items) }
    ensures legal { IfOk result (λ r. IsLegal r.0) }
    ensures promised { IfOk result (λ r. Promised r.0) }

    // What comes back with a fault goes on from the given world too.
    ensures err_goes_on { IfErr result (λ e. Continues world e.world) }
    ensures err { IfErr result (λ e. IsLegal e.world) }
    ensures err_promised { IfErr result (λ e. Promised e.world) }
    ensures err_agree { IfErr result (λ e. e.fault ≢ ShareFault.Torn → Agree e.world (length world.journal) e.logs.items) }

    // Torn has evidence: the logs and the world that come back aren't those of a whole run.
    ensures torn { IfErr result (λ e. e.fault ≡ ShareFault.Torn
        → ¬ (IsWholeRun turns (length world.journal) (owed_of world) e.world e.logs.items)) }
{
    let from = world.journal().len() as u64;
    let (seats, owed) = match seats_started(alloc, rt, &world) {
        Ok(started) => started,
        Err(_) => {
            return Err(ShareEnd {
                fault: ShareFault::Memory,
                world,
                logs: Vec::new(alloc),
            });
        }
    };
    let shared: Shared<J> = Shared::from_origin(world);
    let pass = Pass {
        alloc,
        rt,
        shared: &shared,
        from,
        turns,
        gate,
    };
    let ran = run_seats(&pass, seats);
    let world = shared.into_world();
    match run_judged(alloc, &world, from, owed.as_slice(), turns, ran) {
        Ok(logs) => Ok((world, logs)),
        Err((fault, logs)) => Err(ShareEnd { fault, world, logs }),
    }
}

// The seats of a run of this world, and what it owes. The only error is out of memory.
fn seats_started<R: Wait>(
    alloc: Global,
    rt: &R,
    world: &World,
) -> Result<(Vec<Seat>, Vec<Owed>), AllocError>
    ensures { IfOk result (λ r. r.1.items ≡ owed_of world.now) }
{
    let owed = open_transactions(alloc, world)?;
    let seats = all_seats(alloc, rt, world)?;
    Ok((seats, owed))
}

// Runs each seat in a thread of its own, and waits for all of them. The logs are in the seats'
// order.
fn run_seats<'a, J: Origin + Send + Sync, R: Threads + Wait + Sync, G: Gate + Sync>(
    pass: &Pass<'a, J, R, G>,
    seats: Vec<Seat>,
) -> Ran {
    let handles = Vec::with_capacity(pass.alloc, seats.len());
    let logs = Vec::with_capacity(pass.alloc, seats.len());
    let (Ok(mut handles), Ok(logs)) = (handles, logs) else {
        return Ran {
            logs: Vec::new(pass.alloc),
            fault: Some(ShareFault::Memory),
        };
    };
    thread::scope(thread::scope_env(), pass.rt, move |scope| -> Ran {
        let mut fault = None;
        for seat in seats {
            match scope.spawn(move || pass.run(seat)) {
                Ok(handle) => {
                    let _ = handles.push(handle);
                }
                Err(_) => {
                    fault = Some(ShareFault::NoThread);
                    break;
                }
            }
        }
        threads_joined(pass.rt, handles, logs, fault)
    })
}

// The logs of threads that are waited for; with why not all were started, or else the first reason
// for which one of them ended before its time.
fn threads_joined<R: Threads>(
    rt: &R,
    handles: Vec<JoinHandle<Ended>>,
    mut logs: Vec<SeatLog>,
    mut fault: Option<ShareFault>,
) -> Ran
    ensures first { IfSome fault (λ f. result.fault ≡ Some f) }
{
    for handle in handles {
        let ended = handle.join(rt);
        let _ = logs.push(ended.log);
        fault = fault.or(ended.fault);
    }
    Ran { logs, fault }
}

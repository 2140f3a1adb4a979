//! The calls of turns that have work outside the lock, and a worker's turn.

ghost use Rattle.std.specs.Prelude.{◌≡◌, ◌+◌, ◌≤◌, ◌<◌, ◌^◌, [], ◌∷◌, length, vec_len, vec_capacity, Some, IfOk, IfErr, IfSome, Ok, Err};
ghost use Rattle.lpt_events.specs.Configs.{IsConfig};
ghost use Rattle.lpt_journal.specs.Jobs.{job_given};
ghost use Rattle.lpt_memory.specs.Memories.{sizes_of};
ghost use Rattle.lpt_world.specs.Outside.{octets_of};
ghost use Rattle.lpt_world.specs.Worlds.{history};
ghost use Rattle.lpt_share.specs.Doing.{DoesOne};
ghost use Rattle.lpt_share.specs.Entering.{IsLegal};
ghost use Rattle.lpt_share.specs.Origins.{GoesOn};
ghost use Rattle.lpt_share.specs.Turns.{Adds, Follow, IsAsked, IsTurnFault};

use crate::held::{Held, Origin};
use crate::turns::{Again, turn_ended};
use crate::{Gate, Point, ShareFault, Shared};
use lpt_events::{Config, Event, Lane, Reply, SeatLog, Worker};
use lpt_memory::{Prepared, Shape, Ticket, prepare};
use lpt_node::Parsed;
use lpt_packet::Octets;
use std::alloc::Global;
use std::sync::Wait;

impl<J: Origin> Shared<J> {
    /// A worker's turn: claims a job, prepares it while the lock is free, commits it, and then has
    /// the oldest jobs executed as long as they are committed. A refusal ends the turn. The answer
    /// is how many calls were accepted.
    ///
    /// Errors: `Torn` and `Memory`; the calls that were accepted before stay in the log and in the
    /// journal. If the preparation finds no memory, the job stays the worker's.
    pub fn worker_turn<R: Wait, G: Gate>(
        &self,
        alloc: Global,
        rt: &R,
        log: &mut SeatLog,
        worker: Worker,
        gate: &G,
    ) -> Result<u64, ShareFault>
        ensures added { Adds J.given (Follow (Event.Claim worker ∷ Event.Commit worker ∷ []) Event.Apply) log.old log.new }
        ensures count { IfOk result (λ k. vec_len log.new.calls ≡ vec_len log.old.calls + k) }
        ensures fault { IfErr result (λ f. IsTurnFault J.given log.new.seen f) }
    {
        let Some(job) = self.job_claimed(rt, log, worker)? else {
            return Ok(0);
        };
        gate.pass(log.seat, Point::Claimed);
        let done = self.job_worked(alloc, rt, log, worker, job, gate)?;
        Ok(done + 1)
    }

    // Prepares a job that the worker has claimed, commits it, and has the oldest jobs executed.
    fn job_worked<R: Wait, G: Gate>(
        &self,
        alloc: Global,
        rt: &R,
        log: &mut SeatLog,
        worker: Worker,
        job: (Ticket, Shape, u16),
        gate: &G,
    ) -> Result<u64, ShareFault>
        ensures added { Adds J.given (Follow (Event.Commit worker ∷ []) Event.Apply) log.old log.new }
        ensures count { IfOk result (λ k. vec_len log.new.calls ≡ vec_len log.old.calls + k) }
        ensures fault { IfErr result (λ f. IsTurnFault J.given log.new.seen f) }
    {
        let prepared = prepare_job(alloc, job)?;
        let Some(_reply) = self.job_committed(rt, log, worker, prepared)? else {
            return Ok(0);
        };
        gate.pass(log.seat, Point::Committed);
        let applied = self.repeat(rt, log, Again::Apply, Point::Applied, gate)?;
        Ok(applied + 1)
    }

    // Takes a packet, for a reader under this configuration.
    #[tactic(auto, using(crate::proofs::DoingLemmas::unasked))]
    pub(crate) fn packet_taken<R: Wait>(
        &self,
        rt: &R,
        log: &mut SeatLog,
        lane: Lane,
        n: u64,
    ) -> Result<Option<(Octets, Config)>, ShareFault>
        ensures asked { IsAsked J.given (Event.Take lane n) log.old log.new result }
        ensures configured { IfOk result (λ r. IfSome r (λ t. IsConfig t.1)) }
    {
        log.make_place()?;
        take(&mut self.world.lock(rt), log, lane, n)
    }

    // Delivers what was read of the lane's packet.
    #[tactic(auto, using(crate::proofs::DoingLemmas::unasked))]
    pub(crate) fn packet_delivered<R: Wait>(
        &self,
        rt: &R,
        log: &mut SeatLog,
        lane: Lane,
        parsed: Parsed,
    ) -> Result<Option<Reply>, ShareFault>
        ensures { IsAsked J.given (Event.Deliver lane) log.old log.new result }
    {
        log.make_place()?;
        deliver(&mut self.world.lock(rt), log, lane, parsed)
    }

    // Claims a job, with the memories' shape and the APID for which it is prepared.
    #[tactic(auto, using(crate::proofs::DoingLemmas::unasked))]
    fn job_claimed<R: Wait>(
        &self,
        rt: &R,
        log: &mut SeatLog,
        worker: Worker,
    ) -> Result<Option<(Ticket, Shape, u16)>, ShareFault>
        ensures { IsAsked J.given (Event.Claim worker) log.old log.new result }
    {
        log.make_place()?;
        claim(&mut self.world.lock(rt), log, worker)
    }

    // Commits a job that was prepared. If it is refused, the preparation is given up.
    #[tactic(auto, using(crate::proofs::DoingLemmas::unasked))]
    fn job_committed<R: Wait>(
        &self,
        rt: &R,
        log: &mut SeatLog,
        worker: Worker,
        prepared: Prepared,
    ) -> Result<Option<Reply>, ShareFault>
        ensures { IsAsked J.given (Event.Commit worker) log.old log.new result }
    {
        match log.make_place() {
            Ok(()) => commit(&mut self.world.lock(rt), log, worker, prepared),
            Err(_) => {
                prepared.abandon();
                Err(ShareFault::Memory)
            }
        }
    }
}

// Prepares a job. If there is no memory for that, the job stays the worker's.
fn prepare_job(alloc: Global, job: (Ticket, Shape, u16)) -> Result<Prepared, ShareFault>
    ensures value { IfOk result (λ p. p ≡ record {
      boot = job.0.boot;
      job = job.0.job;
      read = record {
        apid = job.2;
        sizes = job.1;
        message = job.0.message;
      };
    }) }
    ensures memory { IfErr result (λ fault. fault ≡ ShareFault.Memory) }
{
    let (ticket, shape, apid) = job;
    match prepare(alloc, &shape, apid, ticket) {
        Ok(prepared) => Ok(prepared),
        Err(ticket) => {
            ticket.abandon();
            Err(ShareFault::Memory)
        }
    }
}

// The place of the log's next call, if the journal isn't shorter than the seat has seen it.
fn next_place<J: Origin>(world: &Held<J>, log: &SeatLog) -> Result<u64, ShareFault>
    ensures place { IfOk result (λ place. place ≡ length world.now.journal) }
    ensures seen { IfOk result (λ place. log.now.seen ≤ place) }
    ensures small { IfOk result (λ place. place + 1 < 2 ^ 64) }
    ensures legal { IsLegal world.now }
    ensures goes_on { GoesOn J.given world.now }
    ensures torn { IfErr result (λ fault. length world.now.journal < log.now.seen) }
    ensures fault { IfErr result (λ fault. fault ≡ ShareFault.Torn) }
{
    let place = world.len();
    if place < log.seen {
        return Err(ShareFault::Torn);
    }
    Ok(place)
}

// Takes a packet under the lock.
#[tactic(auto, using(crate::proofs::DoingLemmas::refused))]
fn take<J: Origin>(
    world: &mut Held<J>,
    log: &mut SeatLog,
    lane: Lane,
    n: u64,
) -> Result<Option<(Octets, Config)>, ShareFault>
    requires room { vec_len log.old.calls + 1 ≤ vec_capacity log.old.calls }
    ensures legal { IsLegal world.old }
    ensures goes_on { GoesOn J.given world.old }
    ensures one { DoesOne (Event.Take lane n) world.old world.new log.old log.new result }
    ensures octets { IfOk result (λ r. IfSome r (λ t. octets_of world.old n ≡ Some t.0)) }
    ensures config { IfOk result (λ r. IfSome r (λ t. t.1 ≡ world.old.config)) }
    ensures configured { IfOk result (λ r. IfSome r (λ t. IsConfig t.1)) }
{
    let place = next_place(world, log)?;
    match world.take_out(log.seat, lane, n) {
        Ok((reply, octets)) => {
            log.note(place, Event::Take(lane, n), reply);
            Ok(Some((octets, world.config())))
        }
        Err(refused) => {
            log.seen = place;
            let fault = refused.fault;
            drop(refused);
            turn_ended(fault)
        }
    }
}

// Delivers a packet under the lock.
#[tactic(auto, using(crate::proofs::DoingLemmas::refused))]
fn deliver<J: Origin>(
    world: &mut Held<J>,
    log: &mut SeatLog,
    lane: Lane,
    parsed: Parsed,
) -> Result<Option<Reply>, ShareFault>
    requires room { vec_len log.old.calls + 1 ≤ vec_capacity log.old.calls }
    ensures legal { IsLegal world.old }
    ensures goes_on { GoesOn J.given world.old }
    ensures one { DoesOne (Event.Deliver lane) world.old world.new log.old log.new result }
{
    let place = next_place(world, log)?;
    match world.deliver_parsed(log.seat, lane, parsed) {
        Ok(reply) => {
            log.note(place, Event::Deliver(lane), reply);
            Ok(Some(reply))
        }
        Err((fault, _parsed)) => {
            log.seen = place;
            turn_ended(fault)
        }
    }
}

// Claims a job under the lock.
#[tactic(auto, using(crate::proofs::DoingLemmas::refused))]
fn claim<J: Origin>(
    world: &mut Held<J>,
    log: &mut SeatLog,
    worker: Worker,
) -> Result<Option<(Ticket, Shape, u16)>, ShareFault>
    requires room { vec_len log.old.calls + 1 ≤ vec_capacity log.old.calls }
    ensures legal { IsLegal world.old }
    ensures goes_on { GoesOn J.given world.old }
    ensures one { DoesOne (Event.Claim worker) world.old world.new log.old log.new result }
    ensures ticket { IfOk result (λ r. IfSome r (λ t. job_given world.old.config (history world.old) ≡ Some t.0)) }
    ensures shape { IfOk result (λ r. IfSome r (λ t. t.1 ≡ sizes_of world.old.first)) }
    ensures apid { IfOk result (λ r. IfSome r (λ t. t.2 ≡ world.old.config.apid)) }
{
    let place = next_place(world, log)?;
    let Ok(shape) = world.shape() else {
        return Err(ShareFault::Memory);
    };
    match world.claim_out(log.seat, worker) {
        Ok((reply, ticket)) => {
            log.note(place, Event::Claim(worker), reply);
            Ok(Some((ticket, shape, world.config().apid)))
        }
        Err(refused) => {
            log.seen = place;
            turn_ended(refused.fault)
        }
    }
}

// Commits a job under the lock. If it is refused, the preparation is given up.
#[tactic(auto, using(crate::proofs::DoingLemmas::refused))]
fn commit<J: Origin>(
    world: &mut Held<J>,
    log: &mut SeatLog,
    worker: Worker,
    prepared: Prepared,
) -> Result<Option<Reply>, ShareFault>
    requires room { vec_len log.old.calls + 1 ≤ vec_capacity log.old.calls }
    ensures legal { IsLegal world.old }
    ensures goes_on { GoesOn J.given world.old }
    ensures one { DoesOne (Event.Commit worker) world.old world.new log.old log.new result }
{
    let place = match next_place(world, log) {
        Ok(place) => place,
        Err(fault) => {
            prepared.abandon();
            return Err(fault);
        }
    };
    match world.commit_with(log.seat, worker, prepared) {
        Ok(reply) => {
            log.note(place, Event::Commit(worker), reply);
            Ok(Some(reply))
        }
        Err((fault, prepared)) => {
            prepared.abandon();
            log.seen = place;
            turn_ended(fault)
        }
    }
}

//! The turns of the seats: a few calls each, with the reading of packets and requests between them
//! while the lock is free.

ghost use Rattle.std.specs.Prelude.{◌≡◌, ◌+◌, [], ◌∷◌, None, vec_len, IfOk, IfErr};
ghost use Rattle.lpt_events.specs.Lanes.{lane_direction};
ghost use Rattle.lpt_events.specs.Sides.{receiver_side};
ghost use Rattle.lpt_share.specs.Turns.{Adds, Begin, Follow, IsAsked, IsTurnFault, again_event, ended_by, failed_by, sender_event};

use crate::held::Origin;
use crate::{CallFault, ShareFault, Shared};
use lpt_events::{Event, Lane, Reply, SeatLog, Side, StepFault};
use lpt_node::Parsed;
use lpt_packet::{Direction, Name};
use std::sync::Wait;

/// What a seat has just done. The lock is free.
#[derive(Clone, Copy, Debug, PartialEq, Eq)]
pub enum Point {
    /// A lane took a packet.
    Taken,
    /// A lane delivered its packet.
    Delivered,
    /// A worker claimed a job.
    Claimed,
    /// A worker committed its job.
    Committed,
    /// A worker had the oldest job executed.
    Applied,
    /// A sender sent a part.
    Sent,
    /// A sender finished a transaction.
    Finished,
    /// A timer ticked.
    Ticked,
    /// A timer ended a reception that was due.
    Expired,
}

/// Is notified of each accepted call of a turn, while the lock is free.
pub trait Gate {
    /// The seat has done this. It may wait, as a test does that wants two seats to meet.
    fn pass(&self, seat: u8, point: Point);
}

/// What a seat asks for again and again, until it is refused.
#[derive(Clone, Copy)]
pub(crate) enum Again {
    /// The end of a reception that is due.
    Expire(Side),
    /// The execution of the oldest job.
    Apply,
}

impl Again {
    // What is asked for.
    fn event(self) -> Event
        ensures { result ≡ again_event self }
    {
        match self {
            Again::Expire(node) => Event::Expire(node),
            Again::Apply => Event::Apply,
        }
    }
}

impl<J: Origin> Shared<J> {
    /// A lane's turn: takes the packet of this number, reads it while the lock is free, and
    /// delivers it. A refusal ends the turn. The answer is how many calls were accepted.
    ///
    /// Errors: `Torn` and `Memory`; the calls that were accepted before stay in the log and in the
    /// journal.
    pub fn lane_turn<R: Wait, G: Gate>(
        &self,
        rt: &R,
        log: &mut SeatLog,
        lane: Lane,
        n: u64,
        gate: &G,
    ) -> Result<u64, ShareFault>
        ensures added { Adds J.given (Begin (Event.Take lane n ∷ Event.Deliver lane ∷ [])) log.old log.new }
        ensures count { IfOk result (λ k. vec_len log.new.calls ≡ vec_len log.old.calls + k) }
        ensures fault { IfErr result (λ f. IsTurnFault J.given log.new.seen f) }
    {
        let Some((octets, config)) = self.packet_taken(rt, log, lane, n)? else {
            return Ok(0);
        };
        gate.pass(log.seat, Point::Taken);
        let parsed = Parsed::read(octets, receiver(lane), config.apid, config.part_size);
        let Some(_reply) = self.packet_delivered(rt, log, lane, parsed)? else {
            return Ok(1);
        };
        gate.pass(log.seat, Point::Delivered);
        Ok(2)
    }

    /// A timer's turn: one tick of the node's clock, and then the end of each reception that is
    /// due. A refusal ends the turn. The answer is how many calls were accepted.
    ///
    /// Errors: `Torn` and `Memory`; the calls that were accepted before stay in the log and in the
    /// journal.
    pub fn timer_turn<R: Wait, G: Gate>(
        &self,
        rt: &R,
        log: &mut SeatLog,
        node: Side,
        gate: &G,
    ) -> Result<u64, ShareFault>
        ensures added { Adds J.given (Follow (Event.Tick node ∷ []) (Event.Expire node)) log.old log.new }
        ensures count { IfOk result (λ k. vec_len log.new.calls ≡ vec_len log.old.calls + k) }
        ensures fault { IfErr result (λ f. IsTurnFault J.given log.new.seen f) }
    {
        let Some(_reply) = self.ask(rt, log, Event::Tick(node), Point::Ticked, gate)? else {
            return Ok(0);
        };
        let expired = self.repeat(rt, log, Again::Expire(node), Point::Expired, gate)?;
        Ok(expired + 1)
    }

    /// A sender's turn: sends the part of this number of a transaction, or finishes it if no
    /// part is named. The answer is how many calls were accepted: 1, or 0 if it was refused.
    ///
    /// Errors: `Torn` and `Memory`; the log stays.
    pub fn sender_turn<R: Wait, G: Gate>(
        &self,
        rt: &R,
        log: &mut SeatLog,
        direction: Direction,
        name: Name,
        k: Option<u16>,
        gate: &G,
    ) -> Result<u64, ShareFault>
        ensures added { Adds J.given (Begin (sender_event direction name k ∷ [])) log.old log.new }
        ensures count { IfOk result (λ n. vec_len log.new.calls ≡ vec_len log.old.calls + n) }
        ensures fault { IfErr result (λ f. IsTurnFault J.given log.new.seen f) }
    {
        let (event, point) = match k {
            Some(k) => (Event::Send(direction, name, k), Point::Sent),
            None => (Event::Finish(direction, name), Point::Finished),
        };
        let Some(_reply) = self.ask(rt, log, event, point, gate)? else {
            return Ok(0);
        };
        Ok(1)
    }

    // Calls of one event until it is refused, and counts them.
    #[tactic(auto, using(crate::proofs::TurnLemmas::none))]
    pub(crate) fn repeat<R: Wait, G: Gate>(
        &self,
        rt: &R,
        log: &mut SeatLog,
        again: Again,
        point: Point,
        gate: &G,
    ) -> Result<u64, ShareFault>
        ensures added { Adds J.given (Follow [] (again_event again)) log.old log.new }
        ensures count { IfOk result (λ k. vec_len log.new.calls ≡ vec_len log.old.calls + k) }
        ensures fault { IfErr result (λ f. IsTurnFault J.given log.new.seen f) }
    {
        let mut count = 0;
        for _ in rt.forever() {
            let Some(_reply) = self.ask(rt, log, again.event(), point, gate)? else {
                return Ok(count);
            };
            count += 1;
        }
        unreachable!()
    }

    // One call of a turn, which the gate is told of if it is accepted. A refusal is none.
    #[tactic(auto, using(crate::proofs::TurnLemmas::refused))]
    pub(crate) fn ask<R: Wait, G: Gate>(
        &self,
        rt: &R,
        log: &mut SeatLog,
        event: Event,
        point: Point,
        gate: &G,
    ) -> Result<Option<Reply>, ShareFault>
        ensures { IsAsked J.given event log.old log.new result }
    {
        match self.call(rt, log, event) {
            Ok(done) => {
                gate.pass(log.seat, point);
                Ok(Some(done.reply))
            }
            Err(fault) => {
                let ends = call_failed(&fault);
                drop(fault);
                ends
            }
        }
    }
}

// How a turn ends at a call that did nothing.
fn call_failed<T>(fault: &CallFault) -> Result<Option<T>, ShareFault>
    ensures none { IfOk result (λ answer. answer ≡ None) }
    ensures exact { result ≡ failed_by fault.now }
{
    match fault {
        CallFault::Refused(refused) => turn_ended(refused.fault),
        CallFault::Torn(_length, _event) => Err(ShareFault::Torn),
        CallFault::Memory(_event) => Err(ShareFault::Memory),
    }
}

// How a turn ends at a call that was refused for this reason: with no answer, and only out of
// memory is a fault.
pub(crate) fn turn_ended<T>(fault: StepFault) -> Result<Option<T>, ShareFault>
    ensures none { IfOk result (λ answer. answer ≡ None) }
    ensures memory { IfErr result (λ f. f ≡ ShareFault.Memory) }
    ensures exact { result ≡ ended_by fault }
{
    match fault {
        StepFault::Memory => Err(ShareFault::Memory),
        _ => Ok(None),
    }
}

// The node that receives what a lane takes.
fn receiver(lane: Lane) -> Side
    ensures { result ≡ receiver_side (lane_direction lane) }
{
    match lane.direction() {
        Direction::Up => Side::Craft,
        Direction::Down => Side::Ground,
    }
}

//! What each of the ten seats does in a run.

ghost use Rattle.std.specs.Prelude.{◌≡◌, ◌≤◌, nat_le, vec_len, None};

use crate::held::Origin;
use crate::notices::Outlets;
use crate::task::{Seat, Task};
use crate::turns::Again;
use crate::{Gate, Point, ShareFault, Shared};
use crossbeam_channel::Receiver;
use lpt_events::{Event, SeatLog, Side, Turns};
use lpt_packet::{Direction, Name};
use std::alloc::Global;
use std::sync::Wait;

/// How a seat ended: with its log, and why before its time.
#[derive(Drop)]
pub(crate) struct Ended {
    pub(crate) log: SeatLog,
    pub(crate) fault: Option<ShareFault>,
}

/// What all seats of a run share.
#[derive(Drop)]
pub(crate) struct Pass<'a, J: Origin, R, G> {
    pub(crate) alloc: Global,
    pub(crate) rt: &'a R,
    pub(crate) shared: &'a Shared<J>,
    pub(crate) from: u64,
    pub(crate) turns: Turns,
    pub(crate) gate: &'a G,
}

impl<'a, J: Origin, R: Wait, G: Gate> Pass<'a, J, R, G> {
    /// Does a seat's turns until those that give it notices have ended and none is left, or its log
    /// has enough calls. Whom it notifies sees that it has ended.
    pub(crate) fn run(&self, seat: Seat) -> Ended {
        let Seat {
            seat,
            task,
            mut outlets,
        } = seat;
        let mut log = SeatLog::new(self.alloc, seat, self.from);
        let done = self.work(&mut log, &task, &mut outlets);
        drop(task);
        drop(outlets);
        Ended {
            log,
            fault: done.err(),
        }
    }

    // Goes on with what the seat had begun, and does its turns.
    fn work(
        &self,
        log: &mut SeatLog,
        task: &Task,
        outlets: &mut Outlets,
    ) -> Result<(), ShareFault> {
        self.resume(log, task)?;
        for _ in self.rt.forever() {
            outlets.tell_of(self.rt, log)?;
            if !self.turn(log, task, outlets)? {
                return Ok(());
            }
        }
        unreachable!()
    }

    // Delivers what the lane's hand has, or commits what the worker has.
    fn resume(&self, log: &mut SeatLog, task: &Task) -> Result<(), ShareFault> {
        let (rt, gate) = (self.rt, self.gate);
        match task {
            Task::Lane(lane, _) => {
                self.shared
                    .ask(rt, log, Event::Deliver(*lane), Point::Delivered, gate)?;
            }
            Task::Worker(worker, _) => {
                self.shared
                    .ask(rt, log, Event::Commit(*worker), Point::Committed, gate)?;
                self.shared
                    .repeat(rt, log, Again::Apply, Point::Applied, gate)?;
            }
            Task::Timer(_) | Task::Sender(_, _) => {}
        }
        Ok(())
    }

    // A lane's or a worker's turn, or all of a transaction, by the next notice; or all ticks.
    // Whether there may be more to do.
    fn turn(
        &self,
        log: &mut SeatLog,
        task: &Task,
        outlets: &mut Outlets,
    ) -> Result<bool, ShareFault> {
        let done = match task {
            Task::Lane(lane, notices) => match self.notice(log, notices) {
                Some(n) => self.shared.lane_turn(self.rt, log, *lane, n, self.gate),
                None => return Ok(false),
            },
            Task::Timer(node) => match self.tick(log, outlets, *node) {
                Ok(()) => return Ok(false),
                Err(fault) => Err(fault),
            },
            Task::Worker(worker, notices) => match self.notice(log, notices) {
                Some(_notice) => {
                    self.shared
                        .worker_turn(self.alloc, self.rt, log, *worker, self.gate)
                }
                None => return Ok(false),
            },
            Task::Sender(direction, notices) => match self.notice(log, notices) {
                Some(name) => self.send_all(log, outlets, *direction, name),
                None => return Ok(false),
            },
        };
        match done {
            Ok(_count) => Ok(true),
            Err(fault) => Err(fault),
        }
    }

    // Ticks so many times.
    fn tick(&self, log: &mut SeatLog, outlets: &mut Outlets, node: Side) -> Result<(), ShareFault> {
        for _ in 0..self.turns.ticks {
            if self.is_full(log) || self.shared.timer_turn(self.rt, log, node, self.gate)? == 0 {
                return Ok(());
            }
            outlets.tell_of(self.rt, log)?;
        }
        Ok(())
    }

    // Sends each part of a transaction, until there is none of that number, and finishes it. The
    // answer is that of the last turn.
    fn send_all(
        &self,
        log: &mut SeatLog,
        outlets: &mut Outlets,
        direction: Direction,
        name: Name,
    ) -> Result<u64, ShareFault> {
        for k in 1..=u16::MAX {
            if self.is_full(log) {
                return Ok(0);
            }
            let sent = self
                .shared
                .sender_turn(self.rt, log, direction, name, Some(k), self.gate)?;
            if sent == 0 {
                break;
            }
            outlets.tell_of(self.rt, log)?;
        }
        if self.is_full(log) {
            return Ok(0);
        }
        self.shared
            .sender_turn(self.rt, log, direction, name, None, self.gate)
    }

    // The next notice; none if those that give it have ended, or the log has enough calls.
    fn notice<T: Drop>(&self, log: &SeatLog, notices: &Receiver<T>) -> Option<T>
        ensures full { self.now.turns.per_seat ≤ vec_len log.now.calls → result ≡ None }
    {
        if self.is_full(log) {
            return None;
        }
        notices.recv(self.rt).ok()
    }

    // Whether the log has enough calls.
    fn is_full(&self, log: &SeatLog) -> bool
        ensures { result ≡ nat_le self.now.turns.per_seat (vec_len log.now.calls) }
    {
        log.calls.len() as u64 >= u64::from(self.turns.per_seat)
    }
}

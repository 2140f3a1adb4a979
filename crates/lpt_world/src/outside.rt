//! What is done in a world for work outside it: a packet is copied as it is taken, a job's message as
//! it is claimed, and what was read of them outside is delivered and committed.

ghost use Rattle.std.specs.Prelude.{◌≡◌, length, Some, None, IfOk, IfErr, IsTrue, ◌↔◌};
ghost use Rattle.lpt_journal.specs.Jobs.{job_given};
ghost use Rattle.lpt_journal.specs.Events.{reply};
ghost use Rattle.lpt_world.specs.Outside.{octets_of, IsOfHand, ReadRefusedBy};
ghost use Rattle.lpt_world.specs.Workers.{IsOfWorker};
ghost use Rattle.lpt_world.specs.Worlds.{Promised, history, refusal_at, RefusedBy, with_entry};

use crate::World;
use lpt_events::{Entry, Event, Lane, Refused, Reply, StepFault, Worker};
use lpt_memory::{Prepared, Ticket};
use lpt_node::Parsed;
use lpt_packet::Octets;
use std::alloc::AllocError;

impl World {
    /// Takes the held packet of this number into the lane's empty hand, as the event `Take` does,
    /// with a copy of its octets.
    ///
    /// Errors: those of the event. The copy is made before any change; out of memory is last, and
    /// nothing has changed.
    pub fn take_out(&mut self, seat: u8, lane: Lane, n: u64) -> Result<(Reply, Octets), Refused>
        ensures enabled { IfOk result (λ r. refusal_at self.old seat (Event.Take lane n) ≡ None) }
        ensures reply { IfOk result (λ r. r.0 ≡ reply self.old.config self.old.first (history self.old) (Event.Take lane n)) }
        ensures entered { IfOk result (λ r. self.new ≡ with_entry self.old seat (Event.Take lane n) r.0) }
        ensures octets { IfOk result (λ r. octets_of self.old n ≡ Some r.1) }

        // Whatever was asked, the promise holds of the journal.
        ensures promised { Promised self.new }

        ensures refused { IfErr result (λ e. RefusedBy (refusal_at self.old seat (Event.Take lane n)) e.fault) }
        ensures back { IfErr result (λ e. e.event ≡ Event.Take lane n) }
        ensures at { IfErr result (λ e. e.at ≡ length self.old.journal) }
        ensures unchanged { IfErr result (λ e. self.new ≡ self.old) }
    {
        let event = Event::Take(lane, n);
        let at = self.journal.len() as u64;
        let taken = self.try_take(seat, lane, n);
        self.promise_is_kept();
        match taken {
            Ok(taken) => Ok(taken),
            Err(fault) => Err(Refused { fault, at, event }),
        }
    }

    // The same, with the fault alone if it is refused.
    fn try_take(&mut self, seat: u8, lane: Lane, n: u64) -> Result<(Reply, Octets), StepFault>
        ensures enabled { IfOk result (λ r. refusal_at self.old seat (Event.Take lane n) ≡ None) }
        ensures reply { IfOk result (λ r. r.0 ≡ reply self.old.config self.old.first (history self.old) (Event.Take lane n)) }
        ensures entered { IfOk result (λ r. self.new ≡ with_entry self.old seat (Event.Take lane n) r.0) }
        ensures octets { IfOk result (λ r. octets_of self.old n ≡ Some r.1) }
        ensures refused { IfErr result (λ f. RefusedBy (refusal_at self.old seat (Event.Take lane n)) f) }
        ensures unchanged { IfErr result (λ f. self.new ≡ self.old) }
    {
        let event = Event::Take(lane, n);
        if let Some(fault) = self.refusal(seat, &event) {
            return Err(fault);
        }
        match self.packet_copy(seat, lane, n) {
            Ok(octets) => match self.enter(seat, event) {
                Ok(reply) => Ok((reply, octets)),
                Err(_) => Err(StepFault::Memory),
            },
            Err(_) => Err(StepFault::Memory),
        }
    }

    /// Delivers the packet in the lane's hand, as the event `Deliver` does, if it was read before.
    ///
    /// Errors, each with what was read: those of the event; then `NotYours`, it isn't what the lane
    /// has in its hand, or was read for another receiver, APID or part size; out of memory is last.
    /// Nothing has changed.
    pub fn deliver_parsed(
        &mut self,
        seat: u8,
        lane: Lane,
        parsed: Parsed,
    ) -> Result<Reply, (StepFault, Parsed)>
        ensures enabled { IfOk result (λ r. refusal_at self.old seat (Event.Deliver lane) ≡ None) }
        ensures read { IfOk result (λ r. IsOfHand self.old lane parsed) }
        ensures reply { IfOk result (λ r. r ≡ reply self.old.config self.old.first (history self.old) (Event.Deliver lane)) }
        ensures entered { IfOk result (λ r. self.new ≡ with_entry self.old seat (Event.Deliver lane) r) }

        // Whatever was asked, the promise holds of the journal.
        ensures promised { Promised self.new }

        ensures refused { IfErr result (λ e. ReadRefusedBy (IsOfHand self.old lane parsed) (refusal_at self.old seat (Event.Deliver lane)) e.0) }
        ensures back { IfErr result (λ e. e.1 ≡ parsed) }
        ensures unchanged { IfErr result (λ e. self.new ≡ self.old) }
    {
        let done = self.try_deliver(seat, lane, parsed);
        self.promise_is_kept();
        done
    }

    // The same without the promise.
    fn try_deliver(
        &mut self,
        seat: u8,
        lane: Lane,
        parsed: Parsed,
    ) -> Result<Reply, (StepFault, Parsed)>
        ensures enabled { IfOk result (λ r. refusal_at self.old seat (Event.Deliver lane) ≡ None) }
        ensures read { IfOk result (λ r. IsOfHand self.old lane parsed) }
        ensures reply { IfOk result (λ r. r ≡ reply self.old.config self.old.first (history self.old) (Event.Deliver lane)) }
        ensures entered { IfOk result (λ r. self.new ≡ with_entry self.old seat (Event.Deliver lane) r) }
        ensures refused { IfErr result (λ e. ReadRefusedBy (IsOfHand self.old lane parsed) (refusal_at self.old seat (Event.Deliver lane)) e.0) }
        ensures back { IfErr result (λ e. e.1 ≡ parsed) }
        ensures unchanged { IfErr result (λ e. self.new ≡ self.old) }
    {
        let event = Event::Deliver(lane);
        match self.refusal(seat, &event) {
            Some(fault) => return Err((fault, parsed)),
            None => {}
        }
        if !self.is_of_hand(seat, lane, &parsed) {
            return Err((StepFault::NotYours, parsed));
        }
        if self.journal.reserve(1).is_err() {
            return Err((StepFault::Memory, parsed));
        }
        let place = self.journal.len() as u64;
        match self.system.deliver_read(place, lane, parsed) {
            Err(parsed) => Err((StepFault::Memory, parsed)),
            Ok(reply) => {
                self.journal.push_reserved(Entry { seat, event, reply });
                Ok(reply)
            }
        }
    }

    /// Gives the worker the oldest job that waits, as the event `Claim` does, and its ticket: boot,
    /// number and message.
    ///
    /// Errors: those of the event. The message is copied before any change; out of memory is last,
    /// and nothing has changed.
    pub fn claim_out(&mut self, seat: u8, worker: Worker) -> Result<(Reply, Ticket), Refused>
        ensures enabled { IfOk result (λ r. refusal_at self.old seat (Event.Claim worker) ≡ None) }
        ensures reply { IfOk result (λ r. r.0 ≡ reply self.old.config self.old.first (history self.old) (Event.Claim worker)) }
        ensures entered { IfOk result (λ r. self.new ≡ with_entry self.old seat (Event.Claim worker) r.0) }
        ensures ticket { IfOk result (λ r. job_given self.old.config (history self.old) ≡ Some r.1) }

        // Whatever was asked, the promise holds of the journal.
        ensures promised { Promised self.new }

        ensures refused { IfErr result (λ e. RefusedBy (refusal_at self.old seat (Event.Claim worker)) e.fault) }
        ensures back { IfErr result (λ e. e.event ≡ Event.Claim worker) }
        ensures at { IfErr result (λ e. e.at ≡ length self.old.journal) }
        ensures unchanged { IfErr result (λ e. self.new ≡ self.old) }
    {
        let event = Event::Claim(worker);
        let at = self.journal.len() as u64;
        let claimed = self.try_claim(seat, worker);
        self.promise_is_kept();
        match claimed {
            Ok(claimed) => Ok(claimed),
            Err(fault) => Err(Refused { fault, at, event }),
        }
    }

    // The same, with the fault alone if it is refused.
    fn try_claim(&mut self, seat: u8, worker: Worker) -> Result<(Reply, Ticket), StepFault>
        ensures enabled { IfOk result (λ r. refusal_at self.old seat (Event.Claim worker) ≡ None) }
        ensures reply { IfOk result (λ r. r.0 ≡ reply self.old.config self.old.first (history self.old) (Event.Claim worker)) }
        ensures entered { IfOk result (λ r. self.new ≡ with_entry self.old seat (Event.Claim worker) r.0) }
        ensures ticket { IfOk result (λ r. job_given self.old.config (history self.old) ≡ Some r.1) }
        ensures refused { IfErr result (λ f. RefusedBy (refusal_at self.old seat (Event.Claim worker)) f) }
        ensures unchanged { IfErr result (λ f. self.new ≡ self.old) }
    {
        let event = Event::Claim(worker);
        if let Some(fault) = self.refusal(seat, &event) {
            return Err(fault);
        }
        match self.next_ticket(seat, worker) {
            Ok(ticket) => match self.enter(seat, event) {
                Ok(reply) => Ok((reply, ticket)),
                Err(_) => {
                    ticket.abandon();
                    Err(StepFault::Memory)
                }
            },
            Err(_) => Err(StepFault::Memory),
        }
    }

    /// Hands in the reading of the worker's job, as the event `Commit` does, if it was prepared
    /// before. The message isn't read again.
    ///
    /// Errors, each with what was prepared: those of the event; then `NotYours`, it isn't of the
    /// boot, the number and the message that the worker has, or was read for another APID or
    /// memories of another shape; out of memory is last. Nothing has changed.
    pub fn commit_with(
        &mut self,
        seat: u8,
        worker: Worker,
        prepared: Prepared,
    ) -> Result<Reply, (StepFault, Prepared)>
        ensures enabled { IfOk result (λ r. refusal_at self.old seat (Event.Commit worker) ≡ None) }
        ensures read { IfOk result (λ r. IsOfWorker self.old worker prepared) }
        ensures reply { IfOk result (λ r. r ≡ reply self.old.config self.old.first (history self.old) (Event.Commit worker)) }
        ensures entered { IfOk result (λ r. self.new ≡ with_entry self.old seat (Event.Commit worker) r) }

        // Whatever was asked, the promise holds of the journal.
        ensures promised { Promised self.new }

        ensures refused { IfErr result (λ e. ReadRefusedBy (IsOfWorker self.old worker prepared) (refusal_at self.old seat (Event.Commit worker)) e.0) }
        ensures back { IfErr result (λ e. e.1 ≡ prepared) }
        ensures unchanged { IfErr result (λ e. self.new ≡ self.old) }
    {
        let done = self.try_commit(seat, worker, prepared);
        self.promise_is_kept();
        done
    }

    // The same without the promise.
    fn try_commit(
        &mut self,
        seat: u8,
        worker: Worker,
        prepared: Prepared,
    ) -> Result<Reply, (StepFault, Prepared)>
        ensures enabled { IfOk result (λ r. refusal_at self.old seat (Event.Commit worker) ≡ None) }
        ensures read { IfOk result (λ r. IsOfWorker self.old worker prepared) }
        ensures reply { IfOk result (λ r. r ≡ reply self.old.config self.old.first (history self.old) (Event.Commit worker)) }
        ensures entered { IfOk result (λ r. self.new ≡ with_entry self.old seat (Event.Commit worker) r) }
        ensures refused { IfErr result (λ e. ReadRefusedBy (IsOfWorker self.old worker prepared) (refusal_at self.old seat (Event.Commit worker)) e.0) }
        ensures back { IfErr result (λ e. e.1 ≡ prepared) }
        ensures unchanged { IfErr result (λ e. self.new ≡ self.old) }
    {
        let event = Event::Commit(worker);
        match self.refusal(seat, &event) {
            Some(fault) => return Err((fault, prepared)),
            None => {}
        }
        if !self.is_of_worker(worker, &prepared) {
            return Err((StepFault::NotYours, prepared));
        }
        if self.journal.reserve(1).is_err() {
            return Err((StepFault::Memory, prepared));
        }
        let reply = self.system.commit_read(worker, prepared);
        self.journal.push_reserved(Entry { seat, event, reply });
        Ok(reply)
    }

    // The ticket of the job that waits longest.
    fn next_ticket(&self, seat: u8, worker: Worker) -> Result<Ticket, AllocError>
        requires { refusal_at self.now seat (Event.Claim worker) ≡ None }
        ensures { IfOk result (λ t. job_given self.now.config (history self.now) ≡ Some t) }
    {
        let Some((job, message)) = self.system.on_craft.oldest_unclaimed() else {
            unreachable!()
        };
        Ok(Ticket::new(self.system.on_craft.boot(), job, message.copy()?))
    }

    // Whether this is the reading of the worker's job.
    fn is_of_worker(&self, worker: Worker, prepared: &Prepared) -> bool
        ensures { IsTrue result ↔ IsOfWorker self.now worker prepared.now }
    {
        match self.system.tickets.get(worker) {
            Some(held) => {
                let message = held.message.as_slice();
                prepared.is_of(
                    held.boot,
                    held.job,
                    message,
                    self.system.config.apid,
                    &self.first,
                )
            }
            None => false,
        }
    }

    // Whether this was read of what the lane has in its hand.
    fn is_of_hand(&self, seat: u8, lane: Lane, parsed: &Parsed) -> bool
        requires { refusal_at self.now seat (Event.Deliver lane) ≡ None }
        ensures { IsTrue result ↔ IsOfHand self.now lane parsed.now }
    {
        self.system.is_read_of(lane, parsed)
    }

    // A copy of the octets of a packet that the lane can take.
    fn packet_copy(&self, seat: u8, lane: Lane, n: u64) -> Result<Octets, AllocError>
        requires { refusal_at self.now seat (Event.Take lane n) ≡ None }
        ensures { IfOk result (λ o. octets_of self.now n ≡ Some o) }
    {
        let Some(octets) = self.packet(n) else {
            unreachable!()
        };
        Ok(Octets::from_vec(Vec::from_slice(self.system.alloc, octets)?))
    }
}

//! The workers, and the execution of requests.

ghost use Rattle.std.specs.Prelude.{◌≡◌, ◌≤◌, Some, None, IfOk, OnErr, IsTrue, length, vec_len};
ghost use Rattle.std.specs.Option.{option_map};
ghost use Rattle.lpt_packet.specs.declared.direction.Direction.TheVariants.{Down};
ghost use Rattle.lpt_jobs.specs.Jobs.{is_claimed};
ghost use Rattle.lpt_node.specs.Jobs.{job_committed};
ghost use Rattle.lpt_model.specs.Events.{after, refusal_of, IsReady};
ghost use Rattle.lpt_model.specs.State.{put_all, put_some, commit_told, quiet as quiet_reply};
ghost use Rattle.lpt_model.specs.Tickets.{ticket_of};
ghost use Rattle.lpt_system.specs.Outside.{reading_for};

use crate::system::{System, put_reserved, quiet};
use crate::tickets::HeldJob;
use lpt_events::{Answer, Event, Opening, Puts, Reply, Side, StepFault, Worker};
use lpt_link::Link;
use lpt_memory::{Prepared, Ticket, prepare};
use lpt_node::{Ask, Executed};
use lpt_packet::{Direction, Octets};
use std::alloc::AllocError;

/// The most packets that one execution puts on the link.
const REPORTS: u64 = 4;

impl System {
    ghost use Rattle.lpt_system.specs.SystemInside.{state_of};

    /// Why a worker would get no job now.
    pub(crate) fn refusal_claim(&self, worker: Worker) -> Option<StepFault>
        ensures { result ≡ refusal_of self.now.config (state_of self.now) (Event.Claim worker) }
    {
        if self.tickets.has(worker) {
            return Some(StepFault::HandFull);
        }
        self.ask(Side::Craft, Ask::Claim)
    }

    /// Why a worker would hand no reading in now.
    pub(crate) fn refusal_commit(&self, worker: Worker) -> Option<StepFault>
        ensures { result ≡ refusal_of self.now.config (state_of self.now) (Event.Commit worker) }
    {
        if self.tickets.has(worker) {
            None
        } else {
            Some(StepFault::HandEmpty)
        }
    }

    /// Gives a worker the oldest job that waits. It takes no memory.
    pub(crate) fn claim(&mut self, worker: Worker) -> Reply
        requires { refusal_of self.old.config (state_of self.old) (Event.Claim worker) ≡ None }
        ensures ok { (state_of self.new, result)
            ≡ after self.old.config 0 (state_of self.old) (Event.Claim worker) }
        ensures config { self.new.config ≡ self.old.config }
    {
        let ticket = match self.on_craft.claim() {
            Ok(ticket) => ticket,
            Err(_) => unreachable!(),
        };
        let (boot, job) = (ticket.boot(), ticket.job());
        let held = HeldJob {
            boot,
            job,
            message: ticket.into_message(),
        };
        self.tickets.set(worker, Some(held));
        quiet(Answer::Claimed(boot, job))
    }

    /// Reads a worker's job and hands the reading in. The only error is out of memory, and then
    /// nothing has changed.
    pub(crate) fn commit(&mut self, worker: Worker) -> Result<Reply, AllocError>
        requires free { refusal_of self.old.config (state_of self.old) (Event.Commit worker) ≡ None }
        requires ready { IsReady self.old.config (state_of self.old) (Event.Commit worker) }
        ensures ok { IfOk result (λ r. (state_of self.new, r)
            ≡ after self.old.config 0 (state_of self.old) (Event.Commit worker)) }
        ensures err { OnErr result (state_of self.new ≡ state_of self.old) }
        ensures config { self.new.config ≡ self.old.config }
    {
        let shape = self.memories.shape()?;
        let Some(HeldJob { boot, job, message }) = self.tickets.take(worker) else {
            unreachable!()
        };
        let ticket = Ticket::new(boot, job, message);
        match prepare(self.alloc, &shape, self.config.apid, ticket) {
            Ok(prepared) => Ok(self.hand_in(prepared)),
            Err(ticket) => {
                let message = ticket.into_message();
                self.tickets
                    .set(worker, Some(HeldJob { boot, job, message }));
                Err(AllocError)
            }
        }
    }

    /// Hands in the reading of a worker's job, which was prepared before.
    pub fn commit_read(&mut self, worker: Worker, prepared: Prepared) -> Reply
        requires free { refusal_of self.old.config (state_of self.old) (Event.Commit worker) ≡ None }
        requires ready { IsReady self.old.config (state_of self.old) (Event.Commit worker) }
        requires read { option_map (reading_for self.old.config self.old.memories)
            (ticket_of (state_of self.old).tickets worker) ≡ Some prepared }
        ensures ok { (state_of self.new, result)
            ≡ after self.old.config 0 (state_of self.old) (Event.Commit worker) }
        ensures config { self.new.config ≡ self.old.config }
    {
        self.tickets.set(worker, None);
        self.hand_in(prepared)
    }

    // Hands a reading in, and answers.
    fn hand_in(&mut self, prepared: Prepared) -> Reply
        requires { prepared.boot ≡ self.old.on_craft.at.boot
            → IsTrue (is_claimed self.old.on_craft.at.jobs prepared.job) }
        ensures state { state_of self.new ≡ record (state_of self.old) {
          on_craft =
              (job_committed self.old.on_craft.at prepared.boot prepared.job prepared.read).0;
        } }
        ensures reply { result ≡ quiet_reply (commit_told
            (job_committed self.old.on_craft.at prepared.boot prepared.job prepared.read).1
            (record { boot = prepared.boot; job = prepared.job; message = prepared.read.message })) }
        ensures config { self.new.config ≡ self.old.config }
    {
        let (boot, job) = (prepared.boot(), prepared.job());
        if self.on_craft.commit(boot, job, prepared.reading()) {
            quiet(Answer::Committed(boot, job))
        } else {
            quiet(Answer::Stale(boot, job))
        }
    }

    /// Executes the oldest job, puts its reports on the link, and notes what was opened. The only
    /// error is out of memory, and then nothing has changed.
    pub(crate) fn execute(&mut self, place: u64) -> Result<Reply, AllocError>
        requires free { refusal_of self.old.config (state_of self.old) Event.Apply ≡ None }
        requires ready { IsReady self.old.config (state_of self.old) Event.Apply }
        ensures ok { IfOk result (λ r. (state_of self.new, r)
            ≡ after self.old.config place (state_of self.old) Event.Apply) }
        ensures err { OnErr result (state_of self.new ≡ state_of self.old) }
        ensures config { self.new.config ≡ self.old.config }
    {
        self.opened.reserve(1)?;
        self.link.reserve(REPORTS, None)?;
        let Ok(executed) = self.on_craft.apply_front(&mut self.memories) else {
            return Err(AllocError);
        };
        let Executed {
            applied,
            packets,
            opened,
        } = executed;
        if let Some((name, message)) = opened {
            self.opened.push_reserved(Opening {
                place,
                direction: Direction::Down,
                name,
                message,
            });
        }
        Ok(put_reports(&mut self.link, Answer::Applied(applied), packets))
    }
}

// Puts reports on the link, for which there is room, and answers.
fn put_reports(link: &mut Link, answer: Answer, packets: Vec<Octets>) -> Reply
    requires { vec_len packets ≤ link.old.spare }
    ensures link { link.new.at ≡ put_all link.old.at Down None packets.items }
    ensures reply { result ≡ put_some (length link.old.at.packets) answer packets.items }
{
    let first = link.packets();
    let count = packets.len() as u64;
    for octets in packets {
        let _ = put_reserved(link, Direction::Down, None, octets);
    }
    if count == 0 {
        return quiet(answer);
    }
    Reply {
        answer,
        puts: Some(Puts { first, count }),
    }
}

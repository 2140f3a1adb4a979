//! What stands under the lock: a world, of which the type says which world it began as.

ghost use Rattle.std.specs.Prelude.{◌≡◌, ◌<◌, ◌+◌, ◌^◌, None, length, Some, IfOk, IfErr};
ghost use Rattle.lpt_events.specs.Configs.{IsConfig};
ghost use Rattle.lpt_journal.specs.Jobs.{job_given};
ghost use Rattle.lpt_memory.specs.Memories.{sizes_of};
ghost use Rattle.lpt_world.specs.Outside.{octets_of, IsOfHand, ReadRefusedBy};
ghost use Rattle.lpt_world.specs.Workers.{IsOfWorker};
ghost use Rattle.lpt_world.specs.Worlds.{history, refusal_at};
ghost use Rattle.lpt_share.specs.Entering.{Enters, Refuses, IsLegal};
ghost use Rattle.lpt_share.specs.Origins.{GoesOn};

use lpt_events::{Config, Event, Lane, Refused, Reply, StepFault, Worker};
use lpt_memory::{Prepared, Shape, Ticket};
use lpt_node::Parsed;
use lpt_packet::Octets;
use lpt_world::World;
use std::alloc::AllocError;
use std::marker::{Brand, Model, PhantomData};

/// The world that a lock was opened with, if one was named: a function that is generic in it may
/// require that the given world is its own, and knows then that what comes out of the lock goes on
/// from that one.
pub trait Origin {
    ghost use Rattle.std.specs.Prelude.{Option};
    ghost use Rattle.lpt_world.specs.Worlds.{Shown};

    ghost given: { Option Shown };
}

impl Origin for Brand {
    ghost use Rattle.std.specs.Prelude.{None};

    ghost given = { None };
}

/// A world that goes on from the one that its lock was opened with.
#[derive(Drop)]
pub struct Held<J: Origin> {
    world: World,
    of: PhantomData<J>,
}

impl<J: Origin> Model for Held<J> {
    ghost use Rattle.lpt_world.specs.Worlds.{Shown};

    ghost Value = { Shown };

    ghost use Rattle.lpt_share.specs.Origins.{GoesOn};

    ghost view = { λ h. h.world };

    ghost invariant = { λ h. GoesOn J.given h.world };
}

impl<J: Origin> Held<J> {
    /// A world that goes on from the named one.
    pub fn new(world: World) -> Held<J>
        requires { GoesOn J.given world }
        ensures { result ≡ world }
    {
        Held {
            world,
            of: PhantomData,
        }
    }

    /// The world.
    pub fn into_world(self) -> World
        ensures same { result ≡ self }
        ensures goes_on { GoesOn J.given result }
    {
        let Held { world, of: _ } = self;
        world
    }

    /// How long the journal is, which is legal.
    pub fn len(&self) -> u64
        ensures length { result ≡ length self.now.journal }
        ensures small { result + 1 < 2 ^ 64 }
        ensures legal { IsLegal self.now }
        ensures goes_on { GoesOn J.given self.now }
    {
        self.world.journal().len() as u64
    }

    /// The configuration.
    pub fn config(&self) -> Config
        ensures value { result ≡ self.now.config }
        ensures ranges { IsConfig result }
    {
        self.world.config()
    }

    /// The shape of the memories, for which requests are prepared. The only error is out of memory.
    pub fn shape(&self) -> Result<Shape, AllocError>
        ensures { IfOk result (λ s. s ≡ sizes_of self.now.first) }
    {
        self.world.shape()
    }

    /// Does one event, or refuses it.
    #[tactic(auto, using(crate::proofs::Going::goes_on_entered))]
    pub fn step(&mut self, seat: u8, event: Event) -> Result<Reply, Refused>
        ensures ok { IfOk result (λ r. Enters self.old self.new seat event r) }
        ensures err { IfErr result (λ e. Refuses self.old self.new seat event e) }
    {
        match self.world.step(seat, event) {
            Ok(reply) => Ok(reply),
            Err(refused) => Err(refused),
        }
    }

    /// The event `Take`, with a copy of the packet.
    #[tactic(auto, using(crate::proofs::Going::goes_on_entered))]
    pub fn take_out(&mut self, seat: u8, lane: Lane, n: u64) -> Result<(Reply, Octets), Refused>
        ensures ok { IfOk result (λ r. Enters self.old self.new seat (Event.Take lane n) r.0) }
        ensures octets { IfOk result (λ r. octets_of self.old n ≡ Some r.1) }
        ensures err { IfErr result (λ e. Refuses self.old self.new seat (Event.Take lane n) e) }
    {
        match self.world.take_out(seat, lane, n) {
            Ok(taken) => Ok(taken),
            Err(refused) => Err(refused),
        }
    }

    /// The event `Deliver` of a packet that was read before.
    #[tactic(auto, using(crate::proofs::Going::goes_on_entered))]
    pub fn deliver_parsed(
        &mut self,
        seat: u8,
        lane: Lane,
        parsed: Parsed,
    ) -> Result<Reply, (StepFault, Parsed)>
        ensures ok { IfOk result (λ r. Enters self.old self.new seat (Event.Deliver lane) r) }
        ensures read { IfOk result (λ r. IsOfHand self.old lane parsed) }
        ensures err { IfErr result (λ e. self.new ≡ self.old) }
        ensures refused { IfErr result (λ e. ReadRefusedBy (IsOfHand self.old lane parsed) (refusal_at self.old seat (Event.Deliver lane)) e.0) }
        ensures back { IfErr result (λ e. e.1 ≡ parsed) }
    {
        match self.world.deliver_parsed(seat, lane, parsed) {
            Ok(reply) => Ok(reply),
            Err(refused) => Err(refused),
        }
    }

    /// The event `Claim`, with the job's ticket.
    #[tactic(auto, using(crate::proofs::Going::goes_on_entered))]
    pub fn claim_out(&mut self, seat: u8, worker: Worker) -> Result<(Reply, Ticket), Refused>
        ensures ok { IfOk result (λ r. Enters self.old self.new seat (Event.Claim worker) r.0) }
        ensures ticket { IfOk result (λ r. job_given self.old.config (history self.old) ≡ Some r.1) }
        ensures err { IfErr result (λ e. Refuses self.old self.new seat (Event.Claim worker) e) }
    {
        match self.world.claim_out(seat, worker) {
            Ok(claimed) => Ok(claimed),
            Err(refused) => Err(refused),
        }
    }

    /// The event `Commit` of a job that was prepared before.
    #[tactic(auto, using(crate::proofs::Going::goes_on_entered))]
    pub fn commit_with(
        &mut self,
        seat: u8,
        worker: Worker,
        prepared: Prepared,
    ) -> Result<Reply, (StepFault, Prepared)>
        ensures ok { IfOk result (λ r. Enters self.old self.new seat (Event.Commit worker) r) }
        ensures read { IfOk result (λ r. IsOfWorker self.old worker prepared) }
        ensures err { IfErr result (λ e. self.new ≡ self.old) }
        ensures refused { IfErr result (λ e. ReadRefusedBy (IsOfWorker self.old worker prepared) (refusal_at self.old seat (Event.Commit worker)) e.0) }
        ensures back { IfErr result (λ e. e.1 ≡ prepared) }
    {
        match self.world.commit_with(seat, worker, prepared) {
            Ok(reply) => Ok(reply),
            Err(refused) => Err(refused),
        }
    }
}

//! The lock round a world, and calls through it.

ghost use Rattle.std.specs.Prelude.{◌≡◌, ◌+◌, ◌≤◌, length, vec_len, vec_capacity, IfOk, IfErr};
ghost use Rattle.lpt_world.specs.Worlds.{Promised};
ghost use Rattle.lpt_share.specs.Calls.{IsDone, IsCallFault};
ghost use Rattle.lpt_share.specs.Entering.{Enters, IsLegal};
ghost use Rattle.lpt_share.specs.Origins.{GoesOn};

use crate::held::{Held, Origin};
use lpt_events::{Event, Refused, Reply, SeatLog};
use lpt_world::World;
use std::marker::Brand;
use std::sync::{Mutex, Wait};

/// A call that was accepted.
#[derive(Clone, Copy, Debug, PartialEq, Eq)]
pub struct Done {
    /// The place of its entry in the journal.
    pub place: u64,
    /// What it gave.
    pub reply: Reply,
}

/// Why a call did nothing. The event comes back.
#[derive(Debug, Drop)]
pub enum CallFault {
    /// The world refused the event.
    Refused(Refused),
    /// The journal has this length, and is shorter than the seat had seen it.
    Torn(u64, Event),
    /// Out of memory for the seat's log or for a copy of the event. It is looked at first.
    Memory(Event),
}

/// A world that threads share. Each holding of the lock does one event.
#[derive(Drop)]
pub struct Shared<J: Origin = Brand> {
    pub(crate) world: Mutex<Held<J>>,
}

impl Shared {
    /// A lock round a world that it doesn't name: of what comes out of it is known only that its
    /// journal is legal and what is promised of all such worlds. `from_origin` makes one that knows
    /// the world with which it was opened.
    pub fn new(world: World) -> Shared {
        Shared::from_origin(world)
    }
}

impl<J: Origin> Shared<J> {
    /// A lock round a world that goes on from the named one.
    pub fn from_origin(world: World) -> Shared<J>
        requires { GoesOn J.given world }
    {
        Shared {
            world: Mutex::new(Held::new(world)),
        }
    }

    /// The world. Its journal is legal, and what is promised of each world holds of it: each large
    /// message that was released is byte for byte the one last opened under its name by the other
    /// node, at most once per opening; the memories are their first content, changed by the
    /// executed requests in order of release; what expired, was broken off or was released is
    /// final; and no request is executed in another boot than that of its release. It goes on from
    /// the world that the lock was opened with, if one was named.
    pub fn into_world(self) -> World
        ensures legal { IsLegal result }
        ensures promised { Promised result }
        ensures goes_on { GoesOn J.given result }
    {
        let Shared { world } = self;
        world_shown(world.into_inner().into_world())
    }

    /// Does one event of the log's seat, and adds its place, event and reply to the log. The place
    /// is at least as great as the journal was long when the seat last saw it. If the lock names
    /// the world that it was opened with, a world that goes on from that one answers. It returns
    /// only if the lock comes free.
    ///
    /// Errors, in this order: `Memory`, there was no memory for the log or for a copy of the event;
    /// `Torn`, the journal is shorter than the seat had seen it, which never comes to a seat that
    /// has seen nothing; `Refused`, the world refused the event. No error adds to the log, and only
    /// `Refused` raises what the seat has seen.
    pub fn call<R: Wait>(&self, rt: &R, log: &mut SeatLog, event: Event) -> Result<Done, CallFault>
        ensures done { IfOk result (λ d. IsDone J.given log.old log.new event d) }
        ensures fault { IfErr result (λ f. IsCallFault J.given log.old log.new event f) }
    {
        let Ok(copy) = event.copy() else {
            return Err(CallFault::Memory(event));
        };
        if log.make_place().is_err() {
            return Err(CallFault::Memory(event));
        }
        answer(&mut self.world.lock(rt), log, event, copy)
    }
}

// Does one event of the log's seat under the lock, and notes its copy.
fn answer<J: Origin>(
    world: &mut Held<J>,
    log: &mut SeatLog,
    event: Event,
    copy: Event,
) -> Result<Done, CallFault>
    requires copied { copy ≡ event }
    requires room { vec_len log.old.calls + 1 ≤ vec_capacity log.old.calls }
    // One event was entered at the place that is noted, or the world stays as it was.
    ensures place { IfOk result (λ d. d.place ≡ length world.old.journal) }
    ensures entered { IfOk result (λ d. Enters world.old world.new log.old.seat event d.reply) }
    ensures unchanged { IfErr result (λ f. world.new ≡ world.old) }
    ensures done { IfOk result (λ d. IsDone J.given log.old log.new event d) }
    ensures fault { IfErr result (λ f. IsCallFault J.given log.old log.new event f) }
{
    let place = world.len();
    if place < log.seen {
        return Err(CallFault::Torn(place, event));
    }
    match world.step(log.seat, event) {
        Ok(reply) => {
            log.note(place, copy, reply);
            Ok(Done { place, reply })
        }
        Err(refused) => {
            log.seen = place;
            Err(CallFault::Refused(refused))
        }
    }
}

// The world, of which its journal says what holds.
fn world_shown(world: World) -> World
    ensures same { result ≡ world }
    ensures legal { IsLegal result }
    ensures promised { Promised result }
{
    let _ = world.journal();
    world
}

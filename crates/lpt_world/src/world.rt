//! The world: two nodes, the link between them, the memories, and the journal.

ghost use Rattle.std.specs.Prelude.{◌≡◌, ◌≤◌, length, take, slice_get, None, IfOk, IfErr, IfSome};
ghost use Rattle.lpt_events.specs.Configs.{config_fault, ConfigRefusedBy};
ghost use Rattle.lpt_journal.specs.Events.{reply};
ghost use Rattle.lpt_world.specs.Worlds.{Promised, new_world, history, refusal_at, RefusedBy, with_entry, events_entered, AllAccepted, IsFaultOf};

use lpt_events::{Config, ConfigFault, Entry, Event, Refused, Reply, RunEnd, StepFault};
use lpt_memory::Memories;
use lpt_system::System;
use std::alloc::Global;
use std::marker::Model;

/// The greatest seat.
const LAST_SEAT: u8 = 10;

/// Two nodes, the link between them, the spacecraft's memories, and the journal of all events that
/// were accepted.
#[derive(Drop)]
pub struct World {
    pub(crate) system: System,
    pub(crate) first: Memories,
    pub(crate) journal: Vec<Entry>,
}

impl Model for World {
    ghost use Rattle.lpt_world.specs.Worlds.{Shown};

    ghost Value = { Shown };

    ghost use Rattle.lpt_world.specs.WorldInside.{IsShown};

    ghost view = { λ w. record { config = w.system.config; first = w.first; journal = w.journal.items } };

    ghost invariant = { λ w. IsShown w.system w.first w.journal.items };
}

impl World {
    /// A world in which nothing has happened.
    ///
    /// Errors: the first value of the configuration that is out of its range; out of memory is last.
    /// The memories are dropped then.
    pub fn new(alloc: Global, config: Config, memories: Memories) -> Result<World, ConfigFault>
        ensures ok { IfOk result (λ w. w ≡ new_world config memories) }
        ensures configured { IfOk result (λ w. config_fault config ≡ None) }
        ensures promised { IfOk result (λ w. Promised w) }
        ensures refused { IfErr result (λ f. ConfigRefusedBy (config_fault config) f) }
    {
        match config.fault() {
            Some(fault) => return Err(fault),
            None => {}
        }
        let Ok(copy) = memories.copy() else {
            return Err(ConfigFault::Memory);
        };
        match System::new(alloc, config, copy) {
            Ok(system) => {
                let world = World {
                    system,
                    first: memories,
                    journal: Vec::new(alloc),
                };
                world.promise_is_kept();
                Ok(world)
            }
            Err(_) => Err(ConfigFault::Memory),
        }
    }

    /// Does one event, whole, or refuses it.
    ///
    /// Errors: `NoSuchSeat` for a seat above 10; otherwise the event's first reason; out of memory
    /// is last. The event comes back, and nothing has changed.
    #[inline(always)]
    pub fn step(&mut self, seat: u8, event: Event) -> Result<Reply, Refused>
        // Accepted exactly if it can happen, out of memory aside; the reply is the journal's.
        ensures enabled { IfOk result (λ r. refusal_at self.old seat event ≡ None) }
        ensures reply { IfOk result (λ r. r ≡ reply self.old.config self.old.first (history self.old) event) }
        ensures entered { IfOk result (λ r. self.new ≡ with_entry self.old seat event r) }

        // Whatever was asked, the promise holds of the journal.
        ensures promised { Promised self.new }

        ensures refused { IfErr result (λ e. RefusedBy (refusal_at self.old seat event) e.fault) }
        ensures back { IfErr result (λ e. e.event ≡ event) }
        ensures at { IfErr result (λ e. e.at ≡ length self.old.journal) }
        ensures unchanged { IfErr result (λ e. self.new ≡ self.old) }
    {
        let at = self.journal.len() as u64;
        let done = match self.refusal(seat, &event) {
            Some(fault) => Err(Refused { fault, at, event }),
            None => match self.enter(seat, event) {
                Ok(reply) => Ok(reply),
                Err(event) => {
                    let fault = StepFault::Memory;
                    Err(Refused { fault, at, event })
                }
            },
        };
        self.promise_is_kept();
        done
    }

    // Does an event that can happen, and enters it. The only error is out of memory: the event
    // comes back, and nothing has changed.
    #[inline(always)]
    pub(crate) fn enter(&mut self, seat: u8, event: Event) -> Result<Reply, Event>
        requires { refusal_at self.old seat event ≡ None }
        ensures reply { IfOk result (λ r. r ≡ reply self.old.config self.old.first (history self.old) event) }
        ensures entered { IfOk result (λ r. self.new ≡ with_entry self.old seat event r) }
        ensures back { IfErr result (λ e. e ≡ event) }
        ensures unchanged { IfErr result (λ e. self.new ≡ self.old) }
    {
        if self.journal.reserve(1).is_err() {
            return Err(event);
        }
        event.numbers_are_in_range();
        let place = self.journal.len() as u64;
        match self.system.apply(place, &event) {
            Err(_) => Err(event),
            Ok(reply) => {
                self.journal.push_reserved(Entry { seat, event, reply });
                Ok(reply)
            }
        }
    }

    /// Steps seat 0 through the events, up to the first that is refused.
    pub fn run(&mut self, events: &[Event]) -> RunEnd
        ensures done { result.done ≤ length events.now }
        ensures accepted { AllAccepted self.old 0 (take result.done events.now) }
        ensures entered { self.new ≡ events_entered self.old 0 (take result.done events.now) }
        ensures all { result.refused ≡ None → result.done ≡ length events.now }
        ensures refused { IfSome result.refused (λ f. IsFaultOf self.new 0 (slice_get events.now result.done) f) }
        ensures promised { Promised self.new }
    {
        for (done, event) in events.iter().enumerate() {
            if let Some(fault) = self.step_copy(event) {
                self.promise_is_kept();
                return RunEnd {
                    done: done as u64,
                    refused: Some(fault),
                };
            }
        }
        self.promise_is_kept();
        RunEnd {
            done: events.len() as u64,
            refused: None,
        }
    }

    // Steps seat 0 through a copy of the event, and gives the fault if it is refused.
    fn step_copy(&mut self, event: &Event) -> Option<StepFault>
        ensures accepted { result ≡ None → refusal_at self.old 0 event.now ≡ None }
        ensures entered { result ≡ None → self.new ≡ with_entry self.old 0 event.now (reply self.old.config self.old.first (history self.old) event.now) }
        ensures refused { IfSome result (λ f. RefusedBy (refusal_at self.old 0 event.now) f) }
        ensures unchanged { IfSome result (λ f. self.new ≡ self.old) }
    {
        if let Some(fault) = self.refusal(0, event) {
            return Some(fault);
        }
        match event.copy() {
            Err(_) => Some(StepFault::Memory),
            Ok(event) => match self.enter(0, event) {
                Ok(_) => None,
                Err(_) => Some(StepFault::Memory),
            },
        }
    }

    // Why a seat's event would be refused now, out of memory aside.
    #[inline(always)]
    pub(crate) fn refusal(&self, seat: u8, event: &Event) -> Option<StepFault>
        ensures { result ≡ refusal_at self.now seat event.now }
    {
        if seat > LAST_SEAT {
            return Some(StepFault::NoSuchSeat);
        }
        self.system.refusal(event)
    }
}

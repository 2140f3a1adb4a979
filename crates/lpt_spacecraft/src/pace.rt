//! When ticks come, when a name that was used is free again, and how a stream is cut.

ghost use Rattle.std.specs.Prelude.{◌≡◌, ◌<◌, ◌+◌, ◌^◌, ◌∷◌, [], ◌++◌, IfErr, OnOk, Some};
ghost use Rattle.lpt_spacecraft.specs.Changes.{ticks_with};
ghost use Rattle.lpt_spacecraft.specs.Flights.{names_cleared, due_now, name_freed, state_of, told_freed, use_of, uses_of};
ghost use Rattle.lpt_spacecraft.specs.Telling.{all_noted, name_used, took, used_up};

use crate::told::{Taken, Told};
use crate::{Passing, Spacecraft};
use lpt_packet::{Direction, Name};
use lpt_text::StreamFault;
use std::alloc::Global;
use std::collections::VecDeque;

/// When ticks come, when a name that was used is free again, and how a stream is cut.
#[derive(Clone, Copy)]
pub struct Pace {
    /// Behind how many packets a tick comes; at 0 never.
    pub every: u64,
    /// Whether the clock is asked before each packet how many ticks are due.
    pub clocked: bool,
    /// How many ticks after its use a name is free again; at 0 never.
    pub reuse: u32,
    /// What of the stream is taken, and what isn't.
    pub passing: Passing,
}

/// A name that was used: its reception ended, or its report was sent.
#[derive(Clone, Copy)]
pub(crate) struct Use {
    pub(crate) direction: Direction,
    pub(crate) name: Name,
    /// The clock then.
    pub(crate) since: u32,
}

/// How far a run has come.
#[derive(Drop)]
pub(crate) struct PaceCourse {
    pub(crate) pace: Pace,
    /// How many packets came since the last tick.
    pub(crate) since: u64,
    /// The names that were used and aren't free yet, the oldest use first; none if none is
    /// freed.
    pub(crate) uses: VecDeque<Use>,
}

impl PaceCourse {
    // A run in which nothing has come.
    pub(crate) fn new(alloc: Global, pace: Pace) -> PaceCourse
        ensures pace { result.pace ≡ pace }
        ensures since { result.since ≡ 0 }
        ensures uses { result.uses.items ≡ [] }
    {
        PaceCourse {
            pace,
            since: 0,
            uses: VecDeque::new(alloc),
        }
    }

    // Whether a tick comes with the next packet, before which so many are due by the clock.
    pub(crate) fn ticks_with(&self, due: u64) -> bool
        requires { self.now.since + 1 < 2 ^ 64 }
        ensures { result ≡ ticks_with due self.now.pace.every self.now.since }
    {
        due > 0 || self.since + 1 == self.pace.every
    }

    // Adds what has become of a packet at this end, and the names that this has used. The only
    // error is out of memory.
    pub(crate) fn note_taken(
        &mut self,
        craft: &Spacecraft,
        taken: Taken,
        told: &mut Vec<Told>,
    ) -> Result<(), StreamFault>
        ensures told { OnOk result (told.new.items
            ≡ told.old.items ++ all_noted craft.now.node.at (took taken)) }
        ensures uses { OnOk result (self.new.uses.items ≡ self.old.uses.items
            ++ uses_of self.old.pace.reuse craft.now.node.at.clock (took taken)) }
        ensures pace { self.new.pace ≡ self.old.pace }
        ensures since { self.new.since ≡ self.old.since }
        ensures fault { IfErr result (λ e. e ≡ StreamFault.Memory) }
    {
        match taken.done {
            None => self.note_all(craft, &[Told::Took(taken.outcome)], told),
            Some(done) => {
                let what = [Told::Took(taken.outcome), Told::Did(done)];
                self.note_all(craft, &what, told)
            }
        }
    }

    // Adds what has happened at this end, and the names that this has used. The only error is out
    // of memory.
    pub(crate) fn note_all(
        &mut self,
        craft: &Spacecraft,
        what: &[Told],
        told: &mut Vec<Told>,
    ) -> Result<(), StreamFault>
        ensures told { OnOk result (told.new.items
            ≡ told.old.items ++ all_noted craft.now.node.at what.now) }
        ensures uses { OnOk result (self.new.uses.items ≡ self.old.uses.items
            ++ uses_of self.old.pace.reuse craft.now.node.at.clock what.now) }
        ensures pace { self.new.pace ≡ self.old.pace }
        ensures since { self.new.since ≡ self.old.since }
        ensures fault { IfErr result (λ e. e ≡ StreamFault.Memory) }
    {
        for one in what {
            match self.note(craft, *one, told) {
                Ok(()) => {}
                Err(fault) => return Err(fault),
            }
        }
        Ok(())
    }

    // Adds what has happened at this end, whether that leaves a source without a free name, and the
    // name that it has used. The only error is out of memory.
    fn note(
        &mut self,
        craft: &Spacecraft,
        what: Told,
        told: &mut Vec<Told>,
    ) -> Result<(), StreamFault>
        ensures told { OnOk result (told.new.items
            ≡ told.old.items ++ what ∷ used_up craft.now.node.at (name_used what)) }
        ensures uses { OnOk result (self.new.uses.items ≡ self.old.uses.items
            ++ use_of self.old.pace.reuse craft.now.node.at.clock (name_used what)) }
        ensures pace { self.new.pace ≡ self.old.pace }
        ensures since { self.new.since ≡ self.old.since }
        ensures fault { IfErr result (λ e. e ≡ StreamFault.Memory) }
    {
        add(told, what)?;
        let Some((direction, name)) = what.name_used() else {
            return Ok(());
        };
        if craft.is_used_up(direction, name.source) {
            add(told, Told::UsedUp(direction, name.source))?;
        }
        self.use_name(direction, name, craft.clock())
    }

    // Remembers that a name was used at this clock, if names are freed.
    fn use_name(&mut self, direction: Direction, name: Name, clock: u32) -> Result<(), StreamFault>
        ensures uses { OnOk result (self.new.uses.items ≡ self.old.uses.items
            ++ use_of self.old.pace.reuse clock (Some (direction, name))) }
        ensures pace { self.new.pace ≡ self.old.pace }
        ensures since { self.new.since ≡ self.old.since }
        ensures fault { IfErr result (λ e. e ≡ StreamFault.Memory) }
    {
        if self.pace.reuse == 0 {
            return Ok(());
        }
        let used = Use {
            direction,
            name,
            since: clock,
        };
        match self.uses.push_back(used) {
            Ok(()) => Ok(()),
            Err(_) => Err(StreamFault::Memory),
        }
    }

    // Frees the names in front that were used so many ticks ago as is asked for. The only error is
    // out of memory.
    pub(crate) fn clear(
        &mut self,
        craft: &mut Spacecraft,
        told: &mut Vec<Told>,
    ) -> Result<(), StreamFault>
        ensures node { OnOk result (craft.new.node.at
            ≡ (names_cleared self.old.pace.reuse craft.old.node.at self.old.uses.items).0) }
        ensures uses { OnOk result (self.new.uses.items
            ≡ (names_cleared self.old.pace.reuse craft.old.node.at self.old.uses.items).1) }
        ensures told { OnOk result (told.new.items ≡ told.old.items
            ++ (names_cleared self.old.pace.reuse craft.old.node.at self.old.uses.items).2) }

        ensures pace { self.new.pace ≡ self.old.pace }
        ensures since { self.new.since ≡ self.old.since }
        ensures memories { craft.new.memories ≡ craft.old.memories }
        ensures config { craft.new.config ≡ craft.old.config }
        ensures jobs { craft.new.node.at.jobs ≡ craft.old.node.at.jobs }
        ensures fault { IfErr result (λ e. e ≡ StreamFault.Memory) }
    {
        while let Some(used) = self.due(craft.clock()) {
            let _ = self.uses.pop_front();
            free(craft, used, told)?;
        }
        Ok(())
    }

    // The name that was used first, if that is so many ticks before this clock as is asked for.
    fn due(&self, clock: u32) -> Option<Use>
        ensures { result ≡ due_now self.now.pace.reuse clock self.now.uses.items }
    {
        match self.uses.front() {
            None => None,
            Some(used) => {
                if used.since as u64 + self.pace.reuse as u64 <= clock as u64 {
                    Some(*used)
                } else {
                    None
                }
            }
        }
    }
}

// Frees a name that was used, if it is closed, and adds that. The only error is out of memory.
fn free(craft: &mut Spacecraft, used: Use, told: &mut Vec<Told>) -> Result<(), StreamFault>
    ensures node { craft.new.node.at ≡ name_freed craft.old.node.at used }
    ensures told { OnOk result (told.new.items
        ≡ told.old.items ++ told_freed (state_of craft.old.node.at used) used) }
    ensures memories { craft.new.memories ≡ craft.old.memories }
    ensures config { craft.new.config ≡ craft.old.config }
    ensures jobs { craft.new.node.at.jobs ≡ craft.old.node.at.jobs }
    ensures fault { IfErr result (λ e. e ≡ StreamFault.Memory) }
{
    if craft.free(used.direction, used.name) {
        return add(told, Told::Freed(used.direction, used.name));
    }
    Ok(())
}

// Adds what is told. The only error is out of memory.
fn add(told: &mut Vec<Told>, what: Told) -> Result<(), StreamFault>
    ensures told { OnOk result (told.new.items ≡ told.old.items ++ what ∷ []) }
    ensures fault { IfErr result (λ e. e ≡ StreamFault.Memory) }
{
    if told.push(what).is_err() {
        return Err(StreamFault::Memory);
    }
    Ok(())
}

//! The clock, names that are freed, and a restart.

ghost use Rattle.std.specs.Prelude.{◌≡◌, ◌+◌, ◌<◌, ◌^◌};
ghost use Rattle.lpt_node.specs.Restarts.{may_retire};
ghost use Rattle.lpt_c_end.specs.Calls.{IfBoth, state_of, state_told};
ghost use Rattle.lpt_c_end.specs.Changes.{IsRebased, IsRestarted, IsRetired, IsSame, IsTicked, IsTickedBy, ticked_by};
ghost use Rattle.lpt_c_end.specs.Codes.{answer};
ghost use Rattle.lpt_c_end.specs.Refusals.{name_refusal, rebase_refusal, refusal_by, restart_refusal, retire_refusal, tick_refusal, ticks_refusal};
ghost use Rattle.lpt_c_end.specs.Words.{name_from, state_word};

use crate::codes::{CLOCK_END, CLOCK_START, DONE, EMPTY, NO_NUMBER, RANGE, STILL_OPEN};
use crate::end::End;
use crate::handle::{LptEnd, put, take};
use crate::words::{LptName, direction_of, name_of};
use lpt_ledger::State;
use lpt_node::Node;
use lpt_packet::{Direction, Name};
use std::alloc::Global;

/// Sets the clock one tick on.
///
/// It answers 0; 106 if the handle is empty; 56 if the clock is at its greatest value: nothing has
/// changed then.
pub fn lpt_end_tick(alloc: Global, end: &mut LptEnd) -> u32
    ensures code { result ≡ answer (refusal_by tick_refusal end.old.held.value) }
    ensures done { result ≡ 0 → IfBoth IsTicked end.old.held.value end.new.held.value }
    ensures refused { ¬ (result ≡ 0) → IfBoth IsSame end.old.held.value end.new.held.value }
{
    let Some(mut held) = take(alloc, end) else {
        return EMPTY;
    };
    let code = held.tick();
    put(end, held);
    code
}

/// Sets the clock as many ticks on at once: what as many calls of `lpt_end_tick` do that answer 0.
/// No reception expires meanwhile.
///
/// It answers 0; 106 if the handle is empty; 56 if the clock would go past its greatest value:
/// nothing has changed then, and `lpt_end_view` says how many ticks are left.
pub fn lpt_end_tick_many(alloc: Global, end: &mut LptEnd, ticks: u32) -> u32
    ensures code { result ≡ answer (refusal_by (ticks_refusal ticks) end.old.held.value) }
    ensures done { result ≡ 0 → IfBoth (IsTickedBy ticks) end.old.held.value end.new.held.value }
    ensures refused { ¬ (result ≡ 0) → IfBoth IsSame end.old.held.value end.new.held.value }
{
    let Some(mut held) = take(alloc, end) else {
        return EMPTY;
    };
    let code = held.tick_many(ticks);
    put(end, held);
    code
}

/// Sets the clock back by as many ticks, and with it the tick from which on each reception is due:
/// how long it is until then stays the same, and so does all else. So a clock doesn't come to its
/// end.
///
/// It answers 0; 106 if the handle is empty; 125 if the clock is below that, or an open reception
/// last took a part at a tick below that: nothing has changed then.
pub fn lpt_end_rebase(alloc: Global, end: &mut LptEnd, ticks: u32) -> u32
    ensures code { result ≡ answer (refusal_by (rebase_refusal ticks) end.old.held.value) }
    ensures done { result ≡ 0 → IfBoth (IsRebased ticks) end.old.held.value end.new.held.value }
    ensures refused { ¬ (result ≡ 0) → IfBoth IsSame end.old.held.value end.new.held.value }
{
    let Some(mut held) = take(alloc, end) else {
        return EMPTY;
    };
    let code = held.rebase(ticks);
    put(end, held);
    code
}

/// Makes the name of a transaction free at this end, so that it can be used again: up if
/// `direction` is 0, down if it is 1. A name that is free stays so.
///
/// It answers 0; 106 if the handle is empty; 102 if the direction is above 1; 55 if the end sends
/// in this direction and a message of this name is open, or receives in it and a reception of this
/// name is: nothing has changed then.
pub fn lpt_end_retire(alloc: Global, end: &mut LptEnd, direction: u32, name: &LptName) -> u32
    ensures code { result ≡ answer (refusal_by (retire_refusal direction (name_from name.now)) end.old.held.value) }
    ensures done { result ≡ 0
        → IfBoth (IsRetired direction (name_from name.now)) end.old.held.value end.new.held.value }
    ensures refused { ¬ (result ≡ 0) → IfBoth IsSame end.old.held.value end.new.held.value }
{
    let Some(mut held) = take(alloc, end) else {
        return EMPTY;
    };
    let code = held.retire(direction, name_of(name));
    put(end, held);
    code
}

/// Tells the state of a transaction's name at this end: 0 free, 1 open, 2 closed; up if
/// `direction` is 0, down if it is 1. In the direction in which the end sends that is its
/// message's; in the other its reception's, which is closed once it has ended.
///
/// It answers 0; 106 if the handle is empty; 102 if the direction is above 1. The end stays as it
/// is.
pub fn lpt_end_name(
    alloc: Global,
    end: &mut LptEnd,
    direction: u32,
    name: &LptName,
    state: &mut u32,
) -> u32
    ensures code { result ≡ answer (refusal_by (name_refusal direction) end.old.held.value) }
    ensures state { state.new
        ≡ state_told direction (name_from name.now) end.old.held.value state.old }
    ensures same { IfBoth IsSame end.old.held.value end.new.held.value }
{
    let Some(held) = take(alloc, end) else {
        return EMPTY;
    };
    let told = held.name_state(direction, name_of(name));
    put(end, held);
    match told {
        None => RANGE,
        Some(word) => {
            *state = word;
            DONE
        }
    }
}

/// Restarts the end: its open messages are closed and let go, its open receptions and its jobs
/// dropped, and it counts from 0 again. It knows the names and the clock as before. What was
/// released last, and the packets that are to be sent, stay.
///
/// It answers 0; 106 if the handle is empty; 108 if no number is left for a start: nothing has
/// changed then.
pub fn lpt_end_restart(alloc: Global, end: &mut LptEnd) -> u32
    ensures code { result ≡ answer (refusal_by restart_refusal end.old.held.value) }
    ensures done { result ≡ 0 → IfBoth IsRestarted end.old.held.value end.new.held.value }
    ensures refused { ¬ (result ≡ 0) → IfBoth IsSame end.old.held.value end.new.held.value }
{
    let Some(mut held) = take(alloc, end) else {
        return EMPTY;
    };
    let code = held.restart();
    put(end, held);
    code
}

impl End {
    // Sets the clock one tick on.
    fn tick(&mut self) -> u32
        ensures code { result ≡ answer (tick_refusal self.old) }
        ensures done { result ≡ 0 → IsTicked self.old self.new }
        ensures refused { ¬ (result ≡ 0) → IsSame self.old self.new }
    {
        match self.node.tick() {
            Ok(()) => DONE,
            Err(fault) => u32::from(fault.code()),
        }
    }

    // Sets the clock as many ticks on.
    fn tick_many(&mut self, ticks: u32) -> u32
        ensures code { result ≡ answer (ticks_refusal ticks self.old) }
        ensures done { result ≡ 0 → IsTickedBy ticks self.old self.new }
        ensures refused { ¬ (result ≡ 0) → IsSame self.old self.new }
    {
        if ticks > u32::MAX - self.node.clock() {
            return CLOCK_END;
        }
        set_on(&mut self.node, ticks);
        DONE
    }

    // Sets the clock as many ticks back.
    #[tactic(auto, using(crate::proofs::ReadyLemmas::ready_rebased))]
    fn rebase(&mut self, ticks: u32) -> u32
        ensures code { result ≡ answer (rebase_refusal ticks self.old) }
        ensures done { result ≡ 0 → IsRebased ticks self.old self.new }
        ensures refused { ¬ (result ≡ 0) → IsSame self.old self.new }
    {
        if !self.node.can_set_back(ticks) {
            return CLOCK_START;
        }
        self.node.set_back(ticks);
        DONE
    }

    // Makes a name free at this end.
    fn retire(&mut self, direction: u32, name: Name) -> u32
        ensures code { result ≡ answer (retire_refusal direction name self.old) }
        ensures done { result ≡ 0 → IsRetired direction name self.old self.new }
        ensures refused { ¬ (result ≡ 0) → IsSame self.old self.new }
    {
        if direction > 1 {
            return RANGE;
        }
        let direction = direction_of(direction);
        if !self.may_retire(direction, name) {
            return STILL_OPEN;
        }
        self.node.retire(direction, name);
        DONE
    }

    // The state of a name, by its number, in this direction, if that is one.
    fn name_state(&self, direction: u32, name: Name) -> Option<u32>
        ensures { result ≡ state_of direction name self.now }
    {
        if direction > 1 {
            return None;
        }
        Some(state_word(self.node.state(direction_of(direction), name)))
    }

    // Whether a name may be freed at this end.
    fn may_retire(&self, direction: Direction, name: Name) -> bool
        ensures { result ≡ may_retire self.now.side self.now.node.at direction name }
    {
        if self.is_sender(direction) {
            self.node.sender(name) != State::Open
        } else {
            !self.node.is_open_reception(name)
        }
    }

    // Restarts the end.
    #[tactic(auto, using(crate::proofs::ReadyLemmas::ready_restarted))]
    fn restart(&mut self) -> u32
        ensures code { result ≡ answer (restart_refusal self.old) }
        ensures done { result ≡ 0 → IsRestarted self.old self.new }
        ensures refused { ¬ (result ≡ 0) → IsSame self.old self.new }
    {
        if self.node.boot() == u64::MAX {
            return NO_NUMBER;
        }
        self.node.restart();
        DONE
    }
}

// Sets a clock as many ticks on. As it is compiled, no loop is left of this.
fn set_on(node: &mut Node, ticks: u32)
    requires { node.old.at.clock + ticks < 2 ^ 32 }
    ensures ticked { node.new.at ≡ ticked_by ticks node.old.at }
    ensures side { node.new.side ≡ node.old.side }
    ensures config { node.new.config ≡ node.old.config }
{
    for _ in 0..ticks {
        let Ok(()) = node.tick() else { unreachable!() };
    }
}

// The number of a state.
fn state_word(state: State) -> u32
    ensures { result ≡ state_word state }
{
    match state {
        State::Free => 0,
        State::Open => 1,
        State::Closed => 2,
    }
}

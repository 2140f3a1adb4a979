//! The names that are closed at an end, one by one.

ghost use Rattle.std.specs.Prelude.{◌≡◌, ◌≤◌, ◌<◌, ℕ, Some, true, false};
ghost use Rattle.std.specs.List.{find};
ghost use Rattle.lpt_events.specs.Lanes.{same_direction};
ghost use Rattle.lpt_ledger.specs.Runs.{names_of};
ghost use Rattle.lpt_node.specs.Nodes.{direction_from};
ghost use Rattle.lpt_packet.specs.Names.{named_by};
ghost use Rattle.lpt_c_end.specs.Closed.{closed_refusal, closed_told, first_closed, is_closed_at, is_from, is_sought, names_at};
ghost use Rattle.lpt_c_end.specs.Codes.{answer};
ghost use Rattle.lpt_c_end.specs.Refusals.{refusal_by};
ghost use Rattle.lpt_c_end.specs.Words.{name_from};

use crate::codes::{DONE, EMPTY, NOTHING, RANGE};
use crate::end::End;
use crate::handle::{LptEnd, put, take};
use crate::words::{LptName, direction_of, name_of, name_word_of};
use lpt_events::Side;
use lpt_ledger::{Ledger, NameRun, State};
use lpt_packet::{Direction, Name};
use std::alloc::Global;

// How many identifiers there are.
const IDS: u32 = 65_536;

/// Tells the first closed name from `from` on, in the order of names: of sources, and of one source
/// of identifiers; up if `direction` is 0, down if it is 1. It looks at no free name.
///
/// It answers 0; 106 if the handle is empty; 102 if the direction is above 1; 109 if no name is
/// closed from there on: nothing is written then. The end stays as it is.
pub fn lpt_end_closed(
    alloc: Global,
    end: &mut LptEnd,
    direction: u32,
    from: &LptName,
    name: &mut LptName,
) -> u32
    ensures code { result ≡ answer
        (refusal_by (closed_refusal direction (name_from from.now)) end.old.held.value) }
    ensures told { name.new
        ≡ closed_told direction (name_from from.now) end.old.held.value name.old }
    ensures same { end.new.held.value ≡ end.old.held.value }
{
    let Some(held) = take(alloc, end) else {
        return EMPTY;
    };
    let code = held.tell_closed(direction, name_of(from), name);
    put(end, held);
    code
}

impl End {
    // Tells the first closed name from one on.
    fn tell_closed(&self, direction: u32, from: Name, name: &mut LptName) -> u32
        ensures code { result ≡ answer (closed_refusal direction from self.now) }
        ensures told { name.new ≡ closed_told direction from (Some self.now) name.old }
    {
        if direction > 1 {
            return RANGE;
        }
        match self.first_closed(direction_of(direction), from) {
            None => NOTHING,
            Some(found) => {
                *name = name_word_of(found);
                DONE
            }
        }
    }

    // The first closed name from one on.
    fn first_closed(&self, direction: Direction, from: Name) -> Option<Name>
        ensures { result ≡ first_closed direction from self.now }
    {
        for run in self.names(direction).runs() {
            if let Some(name) = self.closed_in(run, direction, from) {
                return Some(name);
            }
        }
        None
    }

    // The names in use in a direction.
    fn names(&self, direction: Direction) -> &Ledger
        ensures { result.now ≡ names_at direction self.now }
    {
        if self.is_sender(direction) {
            self.node.senders()
        } else {
            self.node.receivers()
        }
    }

    // Whether the end sends in this direction.
    pub(crate) fn is_sender(&self, direction: Direction) -> bool
        ensures { result ≡ same_direction direction (direction_from self.now.side) }
    {
        match self.side {
            Side::Ground => direction == Direction::Up,
            Side::Craft => direction == Direction::Down,
        }
    }

    // Whether a name is closed.
    fn is_closed(&self, direction: Direction, name: Name) -> bool
        ensures { result ≡ is_closed_at direction self.now name }
    {
        match self.node.state(direction, name) {
            State::Free | State::Open => false,
            State::Closed => true,
        }
    }

    // The first of a run's names that is closed, from one on.
    fn closed_in(&self, run: NameRun, direction: Direction, from: Name) -> Option<Name>
        ensures { result ≡ find (is_sought direction from self.now) (names_of run) }
    {
        let start = start_in(run, from);
        for id in start..u32::from(run.last) + 1 {
            let name = Name {
                source: run.source,
                id: id as u16,
            };
            if self.is_closed(direction, name) {
                return Some(name);
            }
        }
        None
    }
}

// The identifier from which on the names of a run aren't before this one.
fn start_in(run: NameRun, from: Name) -> u32
    ensures begins { run.first ≤ result }
    ensures before { (i : ℕ) → run.first ≤ i → i < result → i ≤ run.last
        → is_from from (named_by run.source i) ≡ false }
    ensures behind { (i : ℕ) → result ≤ i → i ≤ run.last
        → is_from from (named_by run.source i) ≡ true }
{
    if run.source < from.source {
        return IDS;
    }
    if run.source == from.source {
        return u32::from(run.first.max(from.id));
    }
    u32::from(run.first)
}

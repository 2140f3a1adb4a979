//! The state of a transaction's name, its retirement, and a restart of the node.

ghost use Rattle.std.specs.Prelude.{◌≡◌, ◌≢◌, ◌+◌, ◌<◌, ◌^◌, IsTrue};
ghost use Rattle.std.specs.FinMap as map;
ghost use Rattle.lpt_ledger.specs.Marks.{all_closed};
ghost use Rattle.lpt_ledger.specs.States.{state_at};
ghost use Rattle.lpt_events.specs.Lanes.{same_direction};
ghost use Rattle.lpt_node.specs.Restarts.{may_retire, name_state, name_retired, node_restarted};
ghost use Rattle.lpt_node.specs.NodeInside.{AreKept};
ghost use Rattle.lpt_node.specs.Nodes.{direction_from};

use crate::Node;
use crate::counts::Counts;
use crate::outgoing::Outgoing;
use lpt_events::Side;
use lpt_ledger::laws::closes_each;
use lpt_ledger::{Ledger, LedgerFault, State};
use lpt_packet::{Direction, Name};

impl Node {
    /// The state of a transaction's name at this end: in the direction in which the node sends, its
    /// sender's; in the other, its receiver's, which is open while a reception is.
    pub fn state(&self, direction: Direction, name: Name) -> State
        ensures { result ≡ name_state self.now.side self.now.at direction name }
    {
        if is_sender(self.side, direction) {
            self.senders.state(name)
        } else {
            self.receiver.state(name)
        }
    }

    /// Makes the name of a transaction free at this end, so that it can be used again: in the
    /// direction in which the node sends, its sender's, which must not be open; in the other, its
    /// receiver's, of which no reception may be open. A name that is free stays so.
    pub fn retire(&mut self, direction: Direction, name: Name)
        requires { IsTrue (may_retire self.old.side self.old.at direction name) }
        ensures at { self.new.at ≡ name_retired self.old.side self.old.at direction name }
        ensures side { self.new.side ≡ self.old.side }
        ensures config { self.new.config ≡ self.old.config }
    {
        if is_sender(self.side, direction) {
            free(&mut self.senders, name);
        } else {
            self.receiver.retire(name);
        }
    }

    /// Restarts the node. Its open outgoing transactions are closed and their messages dropped, and
    /// so are its open receptions and its jobs. Sequence counts, message type counters and numbers
    /// of jobs begin at 0 again, and it has one boot more. What it knows of other names stays, and
    /// so does the clock. It takes no memory.
    pub fn restart(&mut self)
        requires { self.old.at.boot + 1 < 2 ^ 64 }
        ensures at { self.new.at ≡ node_restarted self.old.at }
        ensures side { self.new.side ≡ self.old.side }
        ensures config { self.new.config ≡ self.old.config }
    {
        close_open(&mut self.senders, &mut self.outgoing);
        self.receiver.clear();
        self.counts = Counts::new();
        self.jobs.clear();
        self.boot += 1;
    }
}

// Whether a side sends in a direction.
fn is_sender(side: Side, direction: Direction) -> bool
    ensures { result ≡ same_direction direction (direction_from side) }
{
    match side {
        Side::Ground => direction == Direction::Up,
        Side::Craft => direction == Direction::Down,
    }
}

// Makes a name free that isn't open.
pub(crate) fn free(ledger: &mut Ledger, name: Name)
    requires { state_at ledger.old name ≢ State.Open }
    ensures { ledger.new ≡ map.remove ledger.old name }
{
    match ledger.retire(name) {
        Ok(()) => {}
        Err(LedgerFault::NotOpen) => {}
        Err(_) => unreachable!(),
    }
}

// Closes each open sender and lets its message go. It looks at the open ones alone.
fn close_open(senders: &mut Ledger, outgoing: &mut Outgoing)
    requires { AreKept senders.old outgoing.old.messages }
    ensures closed { senders.new ≡ all_closed senders.old }
    ensures empty { outgoing.new ≡ record outgoing.old { messages = map.empty } }
    ensures kept { AreKept senders.new outgoing.new.messages }
{
    closes_each();
    while let Some(name) = outgoing.pop_first() {
        match senders.close(name) {
            Ok(()) => {}
            Err(_) => unreachable!(),
        }
    }
}

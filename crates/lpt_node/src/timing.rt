//! The clock, and receptions that end without their message: they took no part for too long, or a
//! caller gives them up.

ghost use Rattle.std.specs.FinMap as map;
ghost use Rattle.std.specs.Prelude.{◌≡◌, None, Some, IfOk, IfErr, IsTrue, OnOk, OnErr, is_some, true};
ghost use Rattle.lpt_node.specs.Sending.{RefusedBy};
ghost use Rattle.lpt_node.specs.Times.{can_set_back, clock_back, due, reception_expired, given_up, refusal_expire, refusal_give_up, refusal_tick, clock_ticked};

use crate::{Expired, Node, NodeFault};
use lpt_events::TelemetryKind;
use lpt_packet::Name;
use lpt_table::laws::set_back_keeps_times;

impl Node {
    /// Sets the clock one tick on.
    ///
    /// Errors: `ClockEnd` if it is at its greatest value. Nothing has changed then.
    pub fn tick(&mut self) -> Result<(), NodeFault>
        ensures enabled { OnOk result (refusal_tick self.old.at ≡ None) }
        ensures ok { OnOk result (self.new.at ≡ clock_ticked self.old.at) }

        ensures side { self.new.side ≡ self.old.side }
        ensures config { self.new.config ≡ self.old.config }

        ensures refused { IfErr result (λ e. refusal_tick self.old.at ≡ Some e) }
        ensures err { OnErr result (self.new.at ≡ self.old.at) }
    {
        if let Some(fault) = self.refusal_tick() {
            return Err(fault);
        }
        self.clock += 1;
        Ok(())
    }

    /// Whether the clock can be set back by so many ticks: neither it nor the tick at which an open
    /// reception last took a part is below that.
    pub fn can_set_back(&self, ticks: u32) -> bool
        ensures { result ≡ can_set_back ticks self.now.at }
    {
        ticks <= self.clock && self.receiver.reaches_back(ticks)
    }

    /// Sets the clock back by so many ticks, so that it doesn't come to its end. What is due, and
    /// how long it is until each open reception is, stays the same.
    pub fn set_back(&mut self, ticks: u32)
        requires { IsTrue (can_set_back ticks self.old.at) }
        ensures at { self.new.at ≡ clock_back ticks self.old.at }
        ensures due { due self.new.config self.new.at ≡ due self.old.config self.old.at }
        ensures side { self.new.side ≡ self.old.side }
        ensures config { self.new.config ≡ self.old.config }
    {
        set_back_keeps_times();
        self.receiver.set_back(ticks);
        self.clock -= ticks;
    }

    /// Ends the reception that is due: of those that took no part for as long as the timeout, the
    /// one that has waited longest, and of equal ones the one with the least name. The spacecraft
    /// makes a report of it.
    ///
    /// Errors, with nothing changed, the first that applies: `NothingDue`, no reception is overdue;
    /// `Memory`.
    pub fn expire(&mut self) -> Result<Expired, NodeFault>
        ensures enabled { OnOk result (refusal_expire self.old.config self.old.at ≡ None) }
        ensures ok { IfOk result
            (λ r. (self.new.at, r) ≡ reception_expired self.old.side self.old.config self.old.at) }

        ensures side { self.new.side ≡ self.old.side }
        ensures config { self.new.config ≡ self.old.config }

        ensures refused { IfErr result (λ e. RefusedBy (refusal_expire self.old.config self.old.at) e) }
        ensures err { OnErr result (self.new.at ≡ self.old.at) }
    {
        let Some(name) = self.receiver.due(self.clock) else {
            return Err(NodeFault::NothingDue);
        };
        self.end_reception(name)
    }

    /// Gives the open reception of this name up before its time, as `expire` ends one that is due.
    /// The spacecraft makes a report of it.
    ///
    /// Errors, with nothing changed, the first that applies: `NotOpen`, no reception of the name is
    /// open; `Memory`.
    pub fn give_up(&mut self, name: Name) -> Result<Expired, NodeFault>
        ensures enabled { OnOk result (refusal_give_up self.old.at name ≡ None) }
        ensures ok { IfOk result (λ r. (self.new.at, r)
            ≡ given_up self.old.side self.old.config self.old.at name) }

        ensures side { self.new.side ≡ self.old.side }
        ensures config { self.new.config ≡ self.old.config }

        ensures refused { IfErr result (λ e. RefusedBy (refusal_give_up self.old.at name) e) }
        ensures err { OnErr result (self.new.at ≡ self.old.at) }
    {
        if !self.receiver.is_open(name) {
            return Err(NodeFault::NotOpen);
        }
        self.end_reception(name)
    }

    // Ends the open reception of this name, with a report of it if the node makes one.
    fn end_reception(&mut self, name: Name) -> Result<Expired, NodeFault>
        requires { is_some (map.get self.old.at.receiving.entries name) ≡ true }
        ensures ok { IfOk result (λ r. (self.new.at, r)
            ≡ given_up self.old.side self.old.config self.old.at name) }

        ensures side { self.new.side ≡ self.old.side }
        ensures config { self.new.config ≡ self.old.config }

        ensures refused { IfErr result (λ e. e ≡ NodeFault.Memory) }
        ensures err { OnErr result (self.new.at ≡ self.old.at) }
    {
        let mut counts = self.counts;
        let head = self.abort_head(&counts, name.source);
        let Ok(packet) = self.receiver.expire(head, name) else {
            return Err(NodeFault::Memory);
        };
        if packet.is_some() {
            counts.step_kind(TelemetryKind::Abort);
        }
        self.counts = counts;
        Ok(Expired { name, packet })
    }
}

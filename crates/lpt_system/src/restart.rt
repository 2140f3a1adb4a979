//! Transactions that are retired, and nodes that are restarted.

ghost use Rattle.std.specs.Prelude.{◌≡◌, ◌+◌, ◌<◌, ◌^◌, None, is_some};
ghost use Rattle.std.specs.FinMap as map;
ghost use Rattle.lpt_events.specs.Sides.{sender_side, receiver_side};
ghost use Rattle.lpt_ledger.specs.States.{state_at};
ghost use Rattle.lpt_model.specs.Events.{after, refusal_of};
ghost use Rattle.lpt_model.specs.State.{end_of, is_gone};

use crate::system::{System, quiet};
use lpt_events::{Answer, Event, Reply, Side, StepFault};
use lpt_ledger::State;
use lpt_packet::{Direction, Name};

impl System {
    ghost use Rattle.lpt_system.specs.SystemInside.{state_of};

    /// Why a transaction wouldn't be retired now.
    pub(crate) fn refusal_retire(&self, direction: Direction, name: Name) -> Option<StepFault>
        ensures { result ≡ refusal_of self.now.config (state_of self.now) (Event.Retire direction name) }
    {
        match self.sender(direction, name) {
            State::Free => Some(StepFault::NotOpen),
            State::Open => Some(StepFault::StillOpen),
            State::Closed => {
                if self.is_gone(direction, name) {
                    None
                } else {
                    Some(StepFault::NotClear)
                }
            }
        }
    }

    /// The state of a transaction at its sender.
    pub fn sender(&self, direction: Direction, name: Name) -> State
        ensures { result ≡ state_at (end_of (state_of self.now) (sender_side direction)).sending.ledger name }
    {
        match direction {
            Direction::Up => self.on_ground.sender(name),
            Direction::Down => self.on_craft.sender(name),
        }
    }

    // Whether no packet that is held or in a hand is a part of it, and no reception of it is open.
    fn is_gone(&self, direction: Direction, name: Name) -> bool
        ensures { result ≡ is_gone (state_of self.now) direction name }
    {
        !self.link.holds(direction, name) && !self.is_receiving(direction, name)
    }

    /// Whether a reception of a transaction is open.
    pub fn is_receiving(&self, direction: Direction, name: Name) -> bool
        ensures { result ≡ is_some (map.get (end_of (state_of self.now) (receiver_side direction)).receiving.entries name) }
    {
        match direction {
            Direction::Up => self.on_craft.is_open_reception(name),
            Direction::Down => self.on_ground.is_open_reception(name),
        }
    }

    /// Frees a transaction at both ends. It takes no memory.
    pub(crate) fn retire(&mut self, direction: Direction, name: Name) -> Reply
        requires { refusal_of self.old.config (state_of self.old) (Event.Retire direction name) ≡ None }
        ensures ok { (state_of self.new, result)
            ≡ after self.old.config 0 (state_of self.old) (Event.Retire direction name) }
        ensures config { self.new.config ≡ self.old.config }
    {
        self.on_ground.retire(direction, name);
        self.on_craft.retire(direction, name);
        quiet(Answer::Retired)
    }

    /// Restarts a node. It takes no memory.
    pub(crate) fn restart(&mut self, side: Side) -> Reply
        requires { (end_of (state_of self.old) side).boot + 1 < 2 ^ 64 }
        ensures ok { (state_of self.new, result)
            ≡ after self.old.config 0 (state_of self.old) (Event.Restart side) }
        ensures config { self.new.config ≡ self.old.config }
    {
        let boot = match side {
            Side::Ground => {
                self.on_ground.restart();
                self.on_ground.boot()
            }
            Side::Craft => {
                self.on_craft.restart();
                self.on_craft.boot()
            }
        };
        quiet(Answer::Restarted(boot))
    }
}

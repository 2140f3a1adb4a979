//! The nodes' clocks, and receptions that end for their age.

ghost use Rattle.std.specs.Prelude.{◌≡◌, None, IfOk, OnErr};
ghost use Rattle.lpt_model.specs.Events.{refusal_of, after};
ghost use Rattle.lpt_model.specs.State.{end_of};

use crate::system::{System, quiet};
use lpt_events::{Answer, Event, Reply, Side};
use lpt_node::Expired;
use std::alloc::AllocError;

impl System {
    ghost use Rattle.lpt_system.specs.SystemInside.{state_of};

    /// Sets a node's clock one tick on.
    pub(crate) fn tick(&mut self, side: Side) -> Reply
        requires { refusal_of self.old.config (state_of self.old) (Event.Tick side) ≡ None }
        ensures ok { (state_of self.new, result)
            ≡ after self.old.config 0 (state_of self.old) (Event.Tick side) }
        ensures config { self.new.config ≡ self.old.config }
    {
        let ticked = match side {
            Side::Ground => self.on_ground.tick(),
            Side::Craft => self.on_craft.tick(),
        };
        match ticked {
            Ok(()) => quiet(Answer::Clock(self.clock(side))),
            Err(_) => unreachable!(),
        }
    }

    /// Ends the reception that is due at a node, and puts its report on the link. The only error is
    /// out of memory, and then nothing has changed.
    pub(crate) fn expire(&mut self, side: Side) -> Result<Reply, AllocError>
        requires { refusal_of self.old.config (state_of self.old) (Event.Expire side) ≡ None }
        ensures ok { IfOk result (λ r. (state_of self.new, r)
            ≡ after self.old.config 0 (state_of self.old) (Event.Expire side)) }
        ensures err { OnErr result (state_of self.new ≡ state_of self.old) }
        ensures config { self.new.config ≡ self.old.config }
    {
        self.link.reserve(1, None)?;
        let expired = match side {
            Side::Ground => self.on_ground.expire(),
            Side::Craft => self.on_craft.expire(),
        };
        match expired {
            Ok(Expired { name, packet }) => {
                Ok(self.report(Answer::Expired(side.receives(), name), packet))
            }
            Err(_) => Err(AllocError),
        }
    }

    // A node's clock.
    pub fn clock(&self, side: Side) -> u32
        ensures { result ≡ (end_of (state_of self.now) side).clock }
    {
        match side {
            Side::Ground => self.on_ground.clock(),
            Side::Craft => self.on_craft.clock(),
        }
    }
}

//! Why a node would refuse a call.

ghost use Rattle.std.specs.Prelude.{◌≡◌, IfNone};
ghost use Rattle.lpt_ledger.specs.States.{state_at};
ghost use Rattle.lpt_node.specs.Asking.{refusal_of};
ghost use Rattle.lpt_node.specs.Jobs.{refusal_claim, refusal_apply};
ghost use Rattle.lpt_node.specs.Nodes.{MessageFits};
ghost use Rattle.lpt_node.specs.Sending.{refusal_open, refusal_send, refusal_finish};
ghost use Rattle.lpt_node.specs.Times.{refusal_tick, refusal_expire};

use crate::{Ask, Node, NodeFault};
use lpt_jobs::Front;
use lpt_ledger::State;
use lpt_packet::{LONGEST_PACKET, Name};
use lpt_part::count;

impl Node {
    /// The first reason why this call would be refused now, or `None` if only an allocation
    /// failure can stop it.
    pub fn refusal(&self, ask: &Ask) -> Option<NodeFault>
        ensures { result ≡ refusal_of self.now.config self.now.at ask.now }
    {
        match *ask {
            Ask::Open(name, length) => self.refusal_open(name, length),
            Ask::Send(name, k) => self.refusal_send(name, k),
            Ask::Plain(service, subtype, length) => self.refusal_plain(service, subtype, length),
            Ask::Finish(name) => self.refusal_finish(name),
            Ask::Tick => self.refusal_tick(),
            Ask::Expire => self.refusal_expire(),
            Ask::Claim => self.refusal_claim(),
            Ask::Apply => self.refusal_apply(),
        }
    }

    // Why a message of this length isn't opened under this name.
    pub(crate) fn refusal_open(&self, name: Name, length: usize) -> Option<NodeFault>
        ensures value { result ≡ refusal_open self.now.config self.now.at name length }
        ensures fits { IfNone result (MessageFits self.now.config.part_size length) }
        ensures free { IfNone result (state_at self.now.at.sending.ledger name ≡ State.Free) }
    {
        match self.senders.state(name) {
            State::Free => {}
            State::Open => return Some(NodeFault::InUse),
            State::Closed => return Some(NodeFault::InUse),
        }
        if length <= self.config.part_size as usize {
            return Some(NodeFault::Short);
        }
        if length > LONGEST_PACKET {
            return Some(NodeFault::Long);
        }
        if self.outgoing.len() >= self.config.outgoing as usize {
            return Some(NodeFault::TooMany);
        }
        None
    }

    // Why part k of the message of this name isn't sent.
    pub(crate) fn refusal_send(&self, name: Name, k: u16) -> Option<NodeFault>
        ensures { result ≡ refusal_send self.now.config self.now.at name k }
    {
        let p = self.config.part_size;
        match self.outgoing.get(name) {
            None => Some(NodeFault::NotOpen),
            Some(message) => {
                if k == 0 || u32::from(k) > count(message.len() as u32, p) {
                    Some(NodeFault::NoSuchPart)
                } else {
                    None
                }
            }
        }
    }

    // Why the outgoing transaction of this name isn't finished.
    pub(crate) fn refusal_finish(&self, name: Name) -> Option<NodeFault>
        ensures { result ≡ refusal_finish self.now.at name }
    {
        match self.senders.state(name) {
            State::Open => None,
            State::Free => Some(NodeFault::NotOpen),
            State::Closed => Some(NodeFault::NotOpen),
        }
    }

    // Why the clock doesn't tick.
    pub(crate) fn refusal_tick(&self) -> Option<NodeFault>
        ensures { result ≡ refusal_tick self.now.at }
    {
        if self.clock == u32::MAX {
            Some(NodeFault::ClockEnd)
        } else {
            None
        }
    }

    // Why no reception ends for its age.
    fn refusal_expire(&self) -> Option<NodeFault>
        ensures { result ≡ refusal_expire self.now.config self.now.at }
    {
        match self.receiver.due(self.clock) {
            None => Some(NodeFault::NothingDue),
            Some(_) => None,
        }
    }

    // Why no job is claimed.
    pub(crate) fn refusal_claim(&self) -> Option<NodeFault>
        ensures { result ≡ refusal_claim self.now.at }
    {
        match self.jobs.oldest_unclaimed() {
            None => Some(NodeFault::NoJob),
            Some(_) => None,
        }
    }

    // Why no job is executed.
    pub(crate) fn refusal_apply(&self) -> Option<NodeFault>
        ensures { result ≡ refusal_apply self.now.at }
    {
        match self.jobs.front() {
            Front::Empty => Some(NodeFault::NoJob),
            Front::NotReady => Some(NodeFault::NotReady),
            Front::Ready(_) => None,
        }
    }
}

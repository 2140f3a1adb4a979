//! The messages that are being sent.

ghost use Rattle.std.specs.Prelude.{◌≡◌, ◌+◌, true, if◌then◌else◌, length, None, Some, is_some, IfSome, IfNone, IfErr, OnOk, OnErr};
ghost use Rattle.std.specs.Option.{option_map};
ghost use Rattle.std.specs.FinMap as map;
ghost use Rattle.lpt_node.specs.Nodes.{MessageFits};
ghost use Rattle.lpt_table.specs.Walking.{IsNext};

use lpt_packet::{Name, Octets};
use std::alloc::Global;
use std::collections::BTreeMap;
use std::marker::Model;
use std::ops::Bound;

/// The messages of the open outgoing transactions, by their names.
#[derive(Drop)]
pub(crate) struct Outgoing {
    // The part size in octets.
    p: u32,
    messages: BTreeMap<Name, Octets>,
}

impl Model for Outgoing {
    ghost use Rattle.lpt_node.specs.NodeInside.{OpenMessages, coded_open_messages};

    ghost Value = { OpenMessages };

    ghost coded = { coded_open_messages };

    ghost use Rattle.lpt_node.specs.OutgoingInside.{messages_of, IsOutgoing};

    ghost view = { λ a. record { p = a.p; messages = messages_of a.messages.entries } };

    ghost invariant = { λ a. IsOutgoing a.p a.messages.entries };
}

impl Outgoing {
    /// No messages, for parts of `p` octets.
    pub(crate) fn new(alloc: Global, p: u32) -> Outgoing
        ensures { result ≡ record { p = p; messages = map.empty } }
    {
        Outgoing {
            p,
            messages: BTreeMap::new(alloc),
        }
    }

    /// How many messages are open.
    pub(crate) fn len(&self) -> usize
        ensures { result ≡ map.len self.now.messages }
    {
        self.messages.len()
    }

    /// The message of a name, whose length is one that a message may have.
    pub(crate) fn get(&self, name: Name) -> Option<&[u8]>
        ensures message { option_map (λ m. m.now) result ≡ map.get self.now.messages name }
        ensures fits { IfSome result (λ m. MessageFits self.now.p (length m.now)) }
    {
        match self.messages.get(&name) {
            None => None,
            Some(message) => Some(message.as_slice()),
        }
    }

    /// The least name behind another that has a message.
    pub(crate) fn behind(&self, after: Option<Name>) -> Option<Name>
        ensures { IsNext (λ name. is_some (map.get self.now.messages name)) after result }
    {
        match after {
            None => self.first(),
            Some(after) => self.next_behind(after),
        }
    }

    // The least name that has a message.
    fn first(&self) -> Option<Name>
        ensures { IsNext (λ name. is_some (map.get self.now.messages name)) None result }
    {
        let (name, _) = self.messages.first_key_value()?;
        Some(*name)
    }

    // The least name behind this one that has a message.
    fn next_behind(&self, after: Name) -> Option<Name>
        ensures { IsNext (λ name. is_some (map.get self.now.messages name)) (Some after) result }
    {
        let behind = (Bound::Excluded(after), Bound::Unbounded);
        let (name, _) = self.messages.range(behind).next()?;
        Some(*name)
    }

    /// Adds a message of a name that has none. If there is no memory for it, it is handed back.
    pub(crate) fn insert(&mut self, name: Name, message: Octets) -> Result<(), Octets>
        requires fits { MessageFits self.old.p (length message) }
        requires absent { map.get self.old.messages name ≡ None }
        ensures ok { OnOk result (self.new ≡ record self.old {
          messages = map.insert self.old.messages name message;
        }) }

        ensures back { IfErr result (λ m. m ≡ message) }
        ensures err { OnErr result (self.new ≡ self.old) }
    {
        match self.messages.insert(name, message) {
            Ok(_) => Ok(()),
            Err(refused) => {
                let (_, message) = refused.value;
                Err(message)
            }
        }
    }

    /// Lets the message of a name go.
    pub(crate) fn remove(&mut self, name: Name)
        ensures { self.new ≡ record self.old { messages = map.remove self.old.messages name } }
    {
        let _ = self.messages.remove(&name);
    }

    /// Takes the message of a name out, which has one.
    pub(crate) fn take(&mut self, name: Name) -> Octets
        requires { is_some (map.get self.old.messages name) ≡ true }
        ensures message { map.get self.old.messages name ≡ Some result }
        ensures rest { self.new ≡ record self.old { messages = map.remove self.old.messages name } }
    {
        match self.messages.remove(&name) {
            Some(message) => message,
            None => unreachable!(),
        }
    }

    /// Lets the message of the least name go, and answers that name. `None` if there is no
    /// message.
    pub(crate) fn pop_first(&mut self) -> Option<Name>
        ensures rest { IfSome result (λ name.
            self.new ≡ record self.old { messages = map.remove self.old.messages name }) }
        ensures had { IfSome result (λ name. is_some (map.get self.old.messages name) ≡ true) }
        ensures empty { IfNone result (self.old.messages ≡ map.empty) }
        ensures unchanged { IfNone result (self.new ≡ self.old) }
        ensures len { map.len self.new.messages + (if is_some result then 1 else 0)
            ≡ map.len self.old.messages }
    {
        let (name, _) = self.messages.pop_first()?;
        Some(name)
    }
}

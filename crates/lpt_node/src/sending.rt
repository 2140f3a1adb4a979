//! Sending messages in parts.

ghost use Rattle.std.specs.Prelude.{◌≡◌, length, false, None, Some, IfOk, IfErr, IsTrue, OnOk, OnErr};
ghost use Rattle.std.specs.FinMap as map;
ghost use Rattle.lpt_ledger.specs.Marks.{Opened};
ghost use Rattle.lpt_ledger.specs.States.{state_at};
ghost use Rattle.lpt_node.specs.Nodes.{MessageFits};
ghost use Rattle.lpt_node.specs.Sending.{refusal_open, message_opened, refusal_send, part_sent, refusal_finish, sender_closed, RefusedBy};

use crate::outgoing::Outgoing;
use crate::{Node, NodeFault};
use lpt_ledger::{Ledger, State};
use lpt_packet::{Name, Octets};
use lpt_part::part_at;

impl Node {
    /// Takes a message to be sent under a free name.
    ///
    /// Errors, with the message handed back and nothing changed, the first that applies: `InUse`,
    /// the name isn't free; `Short`, the message isn't longer than a part; `Long`, it has more than
    /// 65,542 octets; `TooMany`, as many messages are open as the limit; `Memory`.
    pub fn open(&mut self, name: Name, message: Octets) -> Result<(), (NodeFault, Octets)>
        ensures enabled { OnOk result (refusal_open self.old.config self.old.at name (length message) ≡ None) }
        ensures ok { OnOk result (self.new.at ≡ message_opened self.old.at name message) }
        ensures fits { OnOk result (MessageFits self.old.config.part_size (length message)) }

        ensures side { self.new.side ≡ self.old.side }
        ensures config { self.new.config ≡ self.old.config }

        ensures refused { IfErr result (λ e. RefusedBy (refusal_open self.old.config self.old.at name (length message)) e.0) }
        ensures back { IfErr result (λ e. e.1 ≡ message) }
        ensures err { OnErr result (self.new.at ≡ self.old.at) }
    {
        if let Some(fault) = self.refusal_open(name, message.as_slice().len()) {
            return Err((fault, message));
        }
        match begin(&mut self.senders, &mut self.outgoing, name, message) {
            Ok(()) => Ok(()),
            Err(message) => Err((NodeFault::Memory, message)),
        }
    }

    /// Makes the packet that carries part `k` of an open message; parts are counted from 1.
    ///
    /// Errors, with nothing changed, the first that applies: `NotOpen`, no message of this name is
    /// open; `NoSuchPart`, `k` is 0 or greater than the number of parts; `Memory`.
    pub fn send_part(&mut self, name: Name, k: u16) -> Result<Octets, NodeFault>
        ensures enabled { OnOk result (refusal_send self.old.config self.old.at name k ≡ None) }
        ensures ok { IfOk result
            (λ o. (self.new.at, o) ≡ part_sent self.old.side self.old.config self.old.at name k) }

        ensures side { self.new.side ≡ self.old.side }
        ensures config { self.new.config ≡ self.old.config }

        ensures refused { IfErr result (λ e. RefusedBy (refusal_send self.old.config self.old.at name k) e) }
        ensures err { OnErr result (self.new.at ≡ self.old.at) }
    {
        if let Some(fault) = self.refusal_send(name, k) {
            return Err(fault);
        }
        let Some(message) = self.outgoing.get(name) else {
            unreachable!()
        };
        let part = part_at(message, self.config.part_size, name.id, k);
        let mut counts = self.counts;
        let Ok(packet) = self.part_packet(&mut counts, name.source, &part) else {
            return Err(NodeFault::Memory);
        };
        self.counts = counts;
        Ok(packet)
    }

    /// Closes an open outgoing transaction and lets its message go.
    ///
    /// Errors: `NotOpen` if none of this name is open. Nothing has changed then.
    pub fn finish(&mut self, name: Name) -> Result<(), NodeFault>
        ensures enabled { OnOk result (refusal_finish self.old.at name ≡ None) }
        ensures ok { OnOk result (self.new.at ≡ sender_closed self.old.at name) }

        ensures side { self.new.side ≡ self.old.side }
        ensures config { self.new.config ≡ self.old.config }

        ensures refused { IfErr result (λ e. refusal_finish self.old.at name ≡ Some e) }
        ensures err { OnErr result (self.new.at ≡ self.old.at) }
    {
        if self.close(name) {
            Ok(())
        } else {
            Err(NodeFault::NotOpen)
        }
    }

    // Closes an outgoing transaction if it is open, and says whether it was.
    pub(crate) fn close(&mut self, name: Name) -> bool
        ensures at { self.new.at ≡ sender_closed self.old.at name }
        ensures open { IsTrue result → refusal_finish self.old.at name ≡ None }
        ensures not_open { result ≡ false
            → refusal_finish self.old.at name ≡ Some NodeFault.NotOpen }
        ensures unchanged { result ≡ false → self.new.at ≡ self.old.at }
        ensures side { self.new.side ≡ self.old.side }
        ensures config { self.new.config ≡ self.old.config }
    {
        match self.senders.close(name) {
            Ok(()) => {
                self.outgoing.remove(name);
                true
            }
            Err(_) => false,
        }
    }
}

// Opens a free name with its message. If memory runs out the message is handed back, and nothing
// has changed.
pub(crate) fn begin(
    senders: &mut Ledger,
    outgoing: &mut Outgoing,
    name: Name,
    message: Octets,
) -> Result<(), Octets>
    requires free { state_at senders.old name ≡ State.Free }
    requires fits { MessageFits outgoing.old.p (length message) }
    requires absent { map.get outgoing.old.messages name ≡ None }
    ensures opened { OnOk result (senders.new ≡ map.insert senders.old name Opened) }
    ensures kept { OnOk result (outgoing.new ≡ record outgoing.old {
      messages = map.insert outgoing.old.messages name message;
    }) }

    ensures back { IfErr result (λ m. m ≡ message) }
    ensures unopened { OnErr result (senders.new ≡ senders.old) }
    ensures unkept { OnErr result (outgoing.new ≡ outgoing.old) }
{
    outgoing.insert(name, message)?;
    match senders.open(name) {
        Ok(()) => Ok(()),
        Err(_) => Err(outgoing.take(name)),
    }
}

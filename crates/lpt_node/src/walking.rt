//! What is open at an end, one by one.

ghost use Rattle.std.specs.Prelude.{◌≡◌, length, is_some, IfSome};
ghost use Rattle.std.specs.Option.{option_map};
ghost use Rattle.lpt_node.specs.Nodes.{MessageFits, message_at};
ghost use Rattle.lpt_node.specs.Receivers.{table_in};
ghost use Rattle.lpt_node.specs.Receiving.{receiver_of};
ghost use Rattle.lpt_table.specs.Walking.{IsNext};

use crate::Node;
use lpt_packet::Name;
use lpt_table::Table;

impl Node {
    /// The open receptions.
    pub fn receptions(&self) -> &Table
        ensures { result.now ≡ table_in (receiver_of self.now.config self.now.at.receiving) }
    {
        self.receiver.table()
    }

    /// The least name behind another under which a message is open to be sent. From `None` on, by
    /// the name that it answered last, it goes through all of them.
    pub fn sender_behind(&self, after: Option<Name>) -> Option<Name>
        ensures { IsNext (λ name. is_some (message_at self.now.at name)) after result }
    {
        self.outgoing.behind(after)
    }

    /// The message that is open to be sent under a name.
    pub fn message(&self, name: Name) -> Option<&[u8]>
        ensures message { option_map (λ m. m.now) result ≡ message_at self.now.at name }
        ensures fits { IfSome result (λ m. MessageFits self.now.config.part_size (length m.now)) }
    {
        self.outgoing.get(name)
    }
}

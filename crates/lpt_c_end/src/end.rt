//! What a handle holds.

ghost use Rattle.std.specs.Prelude.{◌≡◌};
ghost use Rattle.lpt_events.specs.Configs.{IsConfig};
ghost use Rattle.lpt_c_end.specs.Kept.{sizes_in};
ghost use Rattle.lpt_c_end.specs.Ready.{IsReady};

use crate::kept::Kept;
use lpt_events::{Config, Side};
use lpt_node::Node;
use lpt_packet::Octets;
use std::collections::VecDeque;

/// One end of the link: a node, the spacecraft's memories, the message that the last packet released,
/// and the packets that are to be sent.
#[derive(Drop)]
pub struct End {
    pub(crate) side: Side,
    pub(crate) config: Config,
    pub(crate) node: Node,
    pub(crate) memories: Kept,
    pub(crate) released: Option<Octets>,
    // In the order in which they were made.
    pub(crate) outbox: VecDeque<Octets>,
    ghost in_range: { IsConfig config },
    ghost same_side: { node.side ≡ side },
    ghost same_config: { node.config ≡ config },
    ghost ready: { IsReady node (sizes_in memories) },
}

//! The spacecraft's end.

ghost use Rattle.std.specs.Prelude.{◌≡◌};
ghost use Rattle.lpt_events.specs.Configs.{IsConfig};
ghost use Rattle.lpt_events.specs.declared.side.Side.TheVariants.{Craft};

use lpt_events::Config;
use lpt_memory::Memories;
use lpt_node::Node;
use std::alloc::Global;

/// The spacecraft's end: a node, and the memories over which it executes requests.
#[derive(Drop)]
pub struct Spacecraft {
    pub(crate) alloc: Global,
    pub(crate) config: Config,
    pub(crate) node: Node,
    pub(crate) memories: Memories,
    ghost in_range: { IsConfig config },
    ghost same_side: { node.side ≡ Craft },
    ghost same_config: { node.config ≡ config },
}

//! Making an end, and letting it go.

ghost use Rattle.std.specs.Prelude.{◌≡◌, None, IfOk, IfErr, OnOk};
ghost use Rattle.lpt_events.specs.Configs.{IsConfig};
ghost use Rattle.lpt_c_end.specs.Addresses.{end_at, NullIfNone};
ghost use Rattle.lpt_c_end.specs.Calls.{IfHeld};
ghost use Rattle.lpt_c_end.specs.Changes.{IsMadeOf, IsNew};
ghost use Rattle.lpt_c_end.specs.Codes.{memory, IsAnswer};
ghost use Rattle.lpt_c_end.specs.Kept.{sizes_in};
ghost use Rattle.lpt_c_end.specs.Ready.{IsReady};
ghost use Rattle.lpt_c_end.specs.Refusals.{memory_refusal, new_refusal};
ghost use Rattle.lpt_c_end.specs.Words.{config_from, side_from};

use crate::address::{LptAddress, hand_out};
use crate::codes::{MEMORY, RANGE};
use crate::end::End;
use crate::handle::take;
use crate::kept::Kept;
use crate::memories::{LptMemory, memories_for};
use crate::words::{LptConfig, config_of, side_of};
use lpt_events::{Config, Side};
use lpt_node::Node;
use std::alloc::Global;
use std::collections::VecDeque;

/// Makes an end, and writes its address: of ground if `side` is 0, of the spacecraft if it is
/// 1, then with these memories, which begin with octets of the content. Those are copied.
///
/// It answers 0; 102 if the side or the mode is above 1; 71 to 75, the first value of the
/// configuration that is out of its range; 25 if the memories of a spacecraft aren't 1 to 16 with
/// distinct identifiers, of 1 to 1,048,576 octets each, all of the content; 58 when out of memory.
/// The address is written only at 0.
pub fn lpt_end_new(
    alloc: Global,
    end: &mut LptAddress,
    side: u32,
    config: &LptConfig,
    memories: &[LptMemory],
    content: &[u8],
) -> u32
    ensures code { IsAnswer (new_refusal side config.now memories.now content.now) result }
    ensures done { result ≡ 0
        → IfHeld (IsNew (side_from side) (config_from config.now) memories.now content.now)
        (end_at end.new.value) }
    ensures refused { ¬ (result ≡ 0) → end.new ≡ end.old }
{
    if side > 1 || config.mode > 1 {
        return RANGE;
    }
    let config = config_of(config);
    if let Some(fault) = config.fault() {
        return u32::from(fault.code());
    }
    match End::new(alloc, side_of(side), &config, memories, content) {
        Ok(made) => hand_out(alloc, made, end),
        Err(code) => code,
    }
}

/// Lets an end go, with all that it has, and its address. Of a null address nothing happens.
pub fn lpt_end_free(alloc: Global, end: LptAddress)
    requires { NullIfNone end.at end.value }
{
    if let Some(fields) = end.into_fields() {
        let mut handle = fields.into_box();
        let _ = take(alloc, &mut *handle);
    }
}

impl End {
    /// The end that has this node and these memories, or the number of out of memory.
    pub(crate) fn of(alloc: Global, node: Node, memories: Kept) -> Result<Box<End, Global>, u32>
        requires { IsReady node (sizes_in memories) }
        ensures ok { IfOk result (λ b. IsMadeOf node memories b.value) }
        ensures err { IfErr result (λ code. code ≡ memory) }
    {
        let end = End {
            side: node.side(),
            config: *node.config(),
            node,
            memories,
            released: None,
            outbox: VecDeque::new(alloc),
        };
        match Box::new(alloc, end) {
            Ok(made) => Ok(made),
            Err(_) => Err(MEMORY),
        }
    }

    /// An end at which nothing has happened, or the number of the fault: that of its memories,
    /// or out of memory.
    fn new(
        alloc: Global,
        side: Side,
        config: &Config,
        memories: &[LptMemory],
        content: &[u8],
    ) -> Result<Box<End, Global>, u32>
        requires { IsConfig config.now }
        ensures ok { IfOk result (λ b. IsNew side config.now memories.now content.now b.value) }
        ensures enabled { OnOk result (memory_refusal side memories.now content.now ≡ None) }
        ensures err { IfErr result (λ code. ¬ (code ≡ 0)
            × IsAnswer (memory_refusal side memories.now content.now) code) }
    {
        let memories = memories_for(alloc, side, memories, content)?;
        let Ok(node) = Node::new(alloc, side, config) else {
            return Err(MEMORY);
        };
        End::of(alloc, node, memories)
    }
}

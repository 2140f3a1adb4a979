//! The memories of a node.

ghost use Rattle.std.specs.Prelude.{◌≡◌};

use crate::request::Plan;
use crate::{Effect, MemoryFault, Reading, ReplyKind, Shape, contents};
use lpt_packet::Octets;
use std::alloc::{AllocError, Global};
use std::marker::Model;

/// The memories of a node: 1 to 16 with distinct identifiers, of 1 to 1,048,576 octets each, in the
/// order in which they were given. They keep the allocator of the vector that they were made of.
#[derive(Drop)]
pub struct Memories {
    items: Vec<(u8, Octets)>,
}

impl Model for Memories {
    ghost use Rattle.std.specs.Prelude.{ℕ, List, IsTrue};

    ghost Value = { List (ℕ × List ℕ) };

    ghost use Rattle.lpt_memory.specs.Memories.{are_memories};

    ghost view = { λ a. a.items.items };

    ghost invariant = { λ a. IsTrue (are_memories a.items.items) };
}

impl Memories {
    ghost use Rattle.std.specs.Prelude.{◌↔◌, IsTrue, IsOk, IfOk, IfErr, OnOk, OnErr, option_map};
    ghost use Rattle.lpt_memory.specs.declared.fault.MemoryFault.TheVariants.{BadMemories};
    ghost use Rattle.lpt_memory.specs.Memories.{are_memories, sizes_of, content_of, effect};
    ghost use Rattle.lpt_memory.specs.Effects.{answer, HasNoReply, AnswerFits};
    ghost use Rattle.lpt_memory.specs.Readings.{source_meaning};

    /// Memories of these identifiers and octets, which are not copied. It takes no memory.
    ///
    /// Errors: `BadMemories` if they aren't 1 to 16 with distinct identifiers, of 1 to 1,048,576
    /// octets each; they are dropped then.
    pub fn new(memories: Vec<(u8, Octets)>) -> Result<Memories, MemoryFault>
        ensures ok { IsOk result ↔ IsTrue (are_memories memories.items) }
        ensures value { IfOk result (λ m. m ≡ memories.items) }
        ensures err { IfErr result (λ e. e ≡ BadMemories) }
    {
        if !contents::are_memories(&memories) {
            return Err(MemoryFault::BadMemories);
        }
        Ok(Memories { items: memories })
    }

    /// A copy. The only error is out of memory.
    pub fn copy(&self) -> Result<Memories, AllocError>
        ensures { IfOk result (λ m. m ≡ self.now) }
    {
        Ok(Memories {
            items: contents::copy(self.alloc(), &self.items)?,
        })
    }

    /// The identifiers and sizes. The only error is out of memory.
    pub fn shape(&self) -> Result<Shape, AllocError>
        ensures { IfOk result (λ s. s ≡ sizes_of self.now) }
    {
        Ok(Shape::of(contents::sizes_of(self.alloc(), &self.items)?))
    }

    /// The octets of a memory, or `None` if there is no such memory.
    pub fn content(&self, id: u8) -> Option<&[u8]>
        ensures { option_map (λ x. x.now) result ≡ content_of id self.now }
    {
        contents::content_in(&self.items, id)
    }

    // The allocator, that of the vector that they were made of.
    fn alloc(&self) -> Global {
        *self.items.allocator()
    }

    // Whether they have this shape.
    pub(crate) fn has_shape(&self, shape: &Shape) -> bool
        ensures { IsTrue result ↔ (sizes_of self.now ≡ shape.now) }
    {
        contents::have_sizes(&self.items, shape.sizes())
    }

    /// The answer to a message. Nothing changes: a load isn't done by this.
    ///
    /// The only error is out of memory, for the answer to a dump or a check.
    pub fn answer(&self, reading: &Reading) -> Result<Effect, AllocError>
        requires { reading.now.sizes ≡ sizes_of self.now }
        ensures answer { IfOk result (λ e. e ≡ answer (source_meaning reading.now) self.now) }
        ensures fits { IfOk result (λ e. AnswerFits e) }

        // It fails only if there is a reply to be made.
        ensures no_reply { HasNoReply (source_meaning reading.now) → IsOk result }
    {
        match reading.plan() {
            Plan::Silent => Ok(Effect::Silent),
            Plan::Code(code) => Ok(Effect::Code(*code)),
            Plan::Load(_, _) => Ok(Effect::Done),
            Plan::Dump(id, ranges) => {
                let body = contents::dump(self.alloc(), &self.items, *id, ranges)?;
                Ok(Effect::Reply(ReplyKind::Dump, body))
            }
            Plan::Check(id, ranges) => {
                let body = contents::check(self.alloc(), &self.items, *id, ranges)?;
                Ok(Effect::Reply(ReplyKind::Check, body))
            }
        }
    }

    /// Does what a message means: a load is done, each of its octets copied once, and any other
    /// message changes nothing. It takes no memory.
    pub fn load(&mut self, reading: &Reading)
        requires { reading.now.sizes ≡ sizes_of self.old }
        ensures ok { self.new ≡ effect (source_meaning reading.now) self.old }
        ensures shape { sizes_of self.new ≡ sizes_of self.old }
    {
        match reading.plan() {
            Plan::Silent => {}
            Plan::Code(_) => {}
            Plan::Load(id, areas) => {
                contents::load(&mut self.items, *id, reading.body(), areas);
            }
            Plan::Dump(_, _) => {}
            Plan::Check(_, _) => {}
        }
    }

    /// Does what a message means, and says what it came to.
    ///
    /// The only error is out of memory, for the answer to a dump or a check. It leaves the
    /// memories as they were.
    pub fn apply(&mut self, reading: &Reading) -> Result<Effect, AllocError>
        requires { reading.now.sizes ≡ sizes_of self.old }
        // What it answers, and what it makes of the memories.
        ensures answer { IfOk result (λ e. e ≡ answer (source_meaning reading.now) self.old) }
        ensures ok { OnOk result (self.new ≡ effect (source_meaning reading.now) self.old) }

        // What holds of the memories' sizes, and of each answer.
        ensures shape { sizes_of self.new ≡ sizes_of self.old }
        ensures fits { IfOk result (λ e. AnswerFits e) }

        // It fails only if there is a reply to be made, and then changes nothing.
        ensures no_reply { HasNoReply (source_meaning reading.now) → IsOk result }
        ensures err { OnErr result (self.new ≡ self.old) }
    {
        let effect = self.answer(reading)?;
        self.load(reading);
        Ok(effect)
    }
}

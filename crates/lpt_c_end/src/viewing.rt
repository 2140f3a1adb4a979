//! What can be seen of an end, in numbers.

ghost use Rattle.std.specs.Prelude.{◌≡◌, None};
ghost use Rattle.lpt_c_end.specs.Codes.{answer};
ghost use Rattle.lpt_c_end.specs.Refusals.{refusal_by};
ghost use Rattle.lpt_c_end.specs.Views.{view_of, view_told};

use crate::codes::{DONE, EMPTY};
use crate::end::End;
use crate::handle::{LptEnd, put, take};
use lpt_node::Ask;
use std::alloc::Global;

/// What an end has to do, in numbers.
#[repr(C)]
#[derive(Clone, Copy)]
pub struct LptView {
    /// The clock, in ticks.
    pub clock: u32,
    /// 1 if a reception is due, otherwise 0.
    pub due: u32,
    /// The value of the clock from which on one is due; 0 if no reception is open.
    pub next_due: u64,
    /// How many packets are to be sent.
    pub outgoing: usize,
    /// How many requests weren't read.
    pub unread: usize,
    /// How many requests weren't executed, whether read or not.
    pub requests: usize,
}

/// Tells the clock, whether a reception is due and when the next one is, and how many packets and
/// requests wait.
///
/// It answers 0; 106 if the handle is empty. The end stays as it is.
pub fn lpt_end_view(alloc: Global, end: &mut LptEnd, view: &mut LptView) -> u32
    ensures code { result ≡ answer (refusal_by (λ e. None) end.old.held.value) }
    ensures view { view.new ≡ view_told end.old.held.value view.old }
    ensures same { end.new.held.value ≡ end.old.held.value }
{
    let Some(held) = take(alloc, end) else {
        return EMPTY;
    };
    *view = held.view();
    put(end, held);
    DONE
}

impl End {
    // What it has to do.
    fn view(&self) -> LptView
        ensures { result ≡ view_of self.now }
    {
        let is_due = self.node.refusal(&Ask::Expire).is_none();
        LptView {
            clock: self.node.clock(),
            due: u32::from(is_due),
            next_due: self.node.receptions().next_due().unwrap_or(0),
            outgoing: self.outbox.len(),
            unread: self.node.waiting() as usize,
            requests: self.node.jobs_queued() as usize,
        }
    }
}

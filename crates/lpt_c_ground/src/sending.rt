//! What a pass does next, and the packets that it sends.

ghost use Rattle.std.specs.Prelude.{◌≡◌, None};
ghost use Rattle.lpt_ground.specs.Carrying.{Nothing};
ghost use Rattle.lpt_c_ground.specs.Calls.{end_word, outgoing_of, put_by, sent_refusal, step_of, step_told, step_word, Goes, IfBoth};
ghost use Rattle.lpt_c_ground.specs.Codes.{answer, refusal_by};
ghost use Rattle.lpt_c_ground.specs.Copies.{code_for, left_by, needed_by};

use crate::codes::{DONE, EMPTY, NOTHING};
use crate::copying::copy_out;
use crate::grounds::Ground;
use crate::handle::{LptGround, put, take};
use lpt_ground::{End, Step};
use std::alloc::Global;

/// Says what the pass does next: 1, it sends a packet; 2, it listens; otherwise it is at its end:
/// 3, each request was carried out, and if something was asked, answered; 4, each is settled, and
/// some failed; 5, some are open, and too many waits in a row settled nothing; 6, some are open,
/// and nothing more will come.
///
/// It answers 0; 106 if the handle is empty. The pass stays as it is.
pub fn lpt_ground_next(alloc: Global, pass: &mut LptGround, step: &mut u32) -> u32
    ensures code { result ≡ answer (refusal_by (λ g. None) pass.old.held.value) }
    ensures step { step.new ≡ step_told pass.old.held.value step.old }
    ensures same { pass.new.held.value ≡ pass.old.held.value }
{
    let Some(held) = take(alloc, pass) else {
        return EMPTY;
    };
    *step = step_word_of(held.pass.next());
    put(pass, held);
    DONE
}

/// Copies the packet that is to be sent next to the front of a buffer. It stays to be sent.
///
/// It answers 0; 106 if the handle is empty; 109 if none is to be sent now; 103 if the buffer is
/// too short. At 0 and at 103 `needed` says how many octets the packet has.
pub fn lpt_ground_outgoing(
    alloc: Global,
    pass: &mut LptGround,
    out: &mut [u8],
    needed: &mut usize,
) -> u32
    ensures code { result ≡ code_for (outgoing_of pass.old.held.value) out.old }
    ensures buffer { out.new ≡ left_by (outgoing_of pass.old.held.value) out.old }
    ensures needed { needed.new ≡ needed_by (outgoing_of pass.old.held.value) needed.old }
    ensures same { pass.new.held.value ≡ pass.old.held.value }
{
    let Some(held) = take(alloc, pass) else {
        return EMPTY;
    };
    let code = held.copy_next(out, needed);
    put(pass, held);
    code
}

/// Takes it that the packet that was to be sent next was sent, or was lost on its way.
///
/// It answers 0; 106 if the handle is empty; 109 if none was to be sent: nothing has changed then.
pub fn lpt_ground_sent(alloc: Global, pass: &mut LptGround) -> u32
    ensures code { result ≡ answer (refusal_by sent_refusal pass.old.held.value) }
    ensures done { result ≡ 0 → IfBoth (Goes Nothing) pass.old.held.value pass.new.held.value }
    ensures refused { ¬ (result ≡ 0) → pass.new.held.value ≡ pass.old.held.value }
{
    let Some(mut held) = take(alloc, pass) else {
        return EMPTY;
    };
    let code = held.note_sent();
    put(pass, held);
    code
}

impl Ground {
    // Copies the packet that is to be sent next.
    fn copy_next(&self, out: &mut [u8], needed: &mut usize) -> u32
        ensures code { result ≡ code_for (put_by (step_of self.now) self.now) out.old }
        ensures buffer { out.new ≡ left_by (put_by (step_of self.now) self.now) out.old }
        ensures needed { needed.new ≡ needed_by (put_by (step_of self.now) self.now) needed.old }
    {
        match self.pass.next() {
            Step::Put(k) => copy_out(self.pass.octets(k), out, needed),
            Step::Listen => NOTHING,
            Step::Stop(_) => NOTHING,
        }
    }

    // Notes that the packet that was to be sent next was.
    fn note_sent(&mut self) -> u32
        ensures code { result ≡ answer (sent_refusal self.old) }
        ensures done { result ≡ 0 → Goes Nothing self.old self.new }
        ensures refused { ¬ (result ≡ 0) → self.new ≡ self.old }
    {
        match self.pass.next() {
            Step::Put(k) => {
                self.pass.request_sent(k);
                DONE
            }
            Step::Listen => NOTHING,
            Step::Stop(_) => NOTHING,
        }
    }
}

// What a pass does next, as C is told it.
fn step_word_of(step: Step) -> u32
    ensures { result ≡ step_word step }
{
    match step {
        Step::Put(_) => 1,
        Step::Listen => 2,
        Step::Stop(end) => end_word_of(end),
    }
}

// How a pass ended, as C is told it.
fn end_word_of(end: End) -> u32
    ensures { result ≡ end_word end }
{
    match end {
        End::Done => 3,
        End::Failed => 4,
        End::Given => 5,
        End::Ended => 6,
    }
}

//! A request that the spacecraft's end released and that can't be carried out: its failure is
//! reported.

ghost use Rattle.std.specs.Prelude.{◌≡◌};
ghost use Rattle.lpt_c_end.specs.Calls.{IfBoth};
ghost use Rattle.lpt_c_end.specs.Changes.{IsSame};
ghost use Rattle.lpt_c_end.specs.Codes.{IsAnswer};
ghost use Rattle.lpt_c_end.specs.Refusals.{refusal_by};
ghost use Rattle.lpt_c_end.specs.Refusing.{IsRefused, IsRefusedAs, refuse_as_refusal, refuse_refusal, refused_word};
ghost use Rattle.lpt_pus.specs.Codes.{number_of};

use crate::codes::{DONE, EMPTY, MEMORY, NO_JOB, RANGE, UNSENT};
use crate::end::End;
use crate::handle::{LptEnd, put, take};
use crate::kept::Kept;
use crate::words::{LptApplied, applied_words_of};
use lpt_node::{Ask, Executed};
use lpt_pus::FailureCode;
use std::alloc::Global;
use std::collections::VecDeque;

/// Refuses the oldest request, which has been read, in place of executing it: it is never executed,
/// and its source is told that it failed, with the failure code of this number. Says so, as an
/// execution that is refused does. What is no telecommand with the end's APID has no report.
///
/// It answers 0; 106 if the handle is empty; 102 if no failure code has the number, which is 1 to
/// 8; 51 if there is no request, as always on ground; 52 if the oldest wasn't read; 110 if packets
/// are to be sent first; 58 when out of memory. Unless it answers 0, nothing has changed.
pub fn lpt_end_refuse(alloc: Global, end: &mut LptEnd, number: u16, applied: &mut LptApplied) -> u32
    ensures code { IsAnswer (refusal_by (refuse_refusal number) end.old.held.value) result }
    ensures done { result ≡ 0 → IfBoth (IsRefused number) end.old.held.value end.new.held.value }
    ensures told { result ≡ 0 → applied.new ≡ refused_word number }
    ensures refused { ¬ (result ≡ 0) → IfBoth IsSame end.old.held.value end.new.held.value }
    ensures untold { ¬ (result ≡ 0) → applied.new ≡ applied.old }
{
    let Some(mut held) = take(alloc, end) else {
        return EMPTY;
    };
    let code = held.refuse(number, applied);
    put(end, held);
    code
}

impl End {
    // Refuses the oldest request with the failure code of this number, and says so.
    fn refuse(&mut self, number: u16, applied: &mut LptApplied) -> u32
        ensures code { IsAnswer (refuse_refusal number self.old) result }
        ensures done { result ≡ 0 → IsRefused number self.old self.new }
        ensures told { result ≡ 0 → applied.new ≡ refused_word number }
        ensures refused { ¬ (result ≡ 0) → IsSame self.old self.new }
        ensures untold { ¬ (result ≡ 0) → applied.new ≡ applied.old }
    {
        let Some(code) = FailureCode::from_number(number) else {
            return RANGE;
        };
        self.refuse_as(code, applied)
    }

    // Refuses the oldest request with this failure code, and says so.
    #[tactic(auto, using(crate::proofs::RefusingLemmas::refused_is_told))]
    fn refuse_as(&mut self, code: FailureCode, applied: &mut LptApplied) -> u32
        ensures code { IsAnswer (refuse_as_refusal self.old) result }
        ensures done { result ≡ 0 → IsRefusedAs code self.old self.new }
        ensures told { result ≡ 0 → applied.new ≡ refused_word (number_of code) }
        ensures refused { ¬ (result ≡ 0) → IsSame self.old self.new }
        ensures untold { ¬ (result ≡ 0) → applied.new ≡ applied.old }
    {
        if matches!(self.memories, Kept::Nowhere) {
            return NO_JOB;
        }
        if let Some(fault) = self.node.refusal(&Ask::Apply) {
            return u32::from(fault.code());
        }
        if !self.outbox.is_empty() {
            return UNSENT;
        }
        match self.node.refuse_front(code) {
            Ok(executed) => {
                let Executed {
                    applied: became,
                    packets,
                    opened: _,
                } = executed;
                self.outbox = VecDeque::from_vec(packets);
                *applied = applied_words_of(became);
                DONE
            }
            Err(_) => MEMORY,
        }
    }
}

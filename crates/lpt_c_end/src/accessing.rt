//! Requests to memories that are with the caller: what the oldest does to them, access by access,
//! and its execution by the octets that it reads.

ghost use Rattle.std.specs.Prelude.{◌≡◌, Some};
ghost use Rattle.lpt_c_end.specs.Accesses.{access_refusal, access_word, drop_read_refusal, given_refusal, unready, written_by, IsAccess, IsAppliedGiven, IsExecutedGiven};
ghost use Rattle.lpt_c_end.specs.Calls.{IfBoth, IfHeld};
ghost use Rattle.lpt_c_end.specs.Changes.{IsDropped, IsSame};
ghost use Rattle.lpt_c_end.specs.Codes.{answer, IsAnswer};
ghost use Rattle.lpt_c_end.specs.Copies.{code_for, left_by, needed_by};
ghost use Rattle.lpt_c_end.specs.Refusals.{refusal_by};

use crate::codes::{DONE, ELSEWHERE, EMPTY, MEMORY, NO_JOB, NOTHING, READ_LENGTH, UNSENT};
use crate::copying::copy_out;
use crate::end::End;
use crate::handle::{LptEnd, put, take};
use crate::kept::Kept;
use crate::words::{LptApplied, applied_words_of};
use lpt_memory::Access;
use lpt_node::{Ask, Executed};
use std::alloc::Global;
use std::collections::VecDeque;

/// Octets of a memory that a request writes or reads.
#[repr(C)]
#[derive(Clone, Copy)]
pub struct LptAccess {
    /// The identifier of the memory.
    pub memory: u8,
    /// 1 if they are written, 0 if they are read.
    pub write: u8,
    /// The address of the first octet.
    pub address: u32,
    /// How many octets.
    pub len: usize,
}

/// Says what the oldest request, which has been read, does to a memory, by a number from 0: what is
/// written, or what is read, in this order. A request that isn't right does nothing.
///
/// It answers 0; 106 if the handle is empty; 51 if there is no request, as always on ground; 52 if
/// the oldest wasn't read; 109 if it does no more. The end stays as it is.
pub fn lpt_end_access(alloc: Global, end: &mut LptEnd, number: usize, access: &mut LptAccess) -> u32
    ensures code { result ≡ answer (refusal_by (access_refusal number) end.old.held.value) }
    ensures told { result ≡ 0 → IfHeld (IsAccess number access.new) end.old.held.value }
    ensures untold { ¬ (result ≡ 0) → access.new ≡ access.old }
    ensures same { end.new.held.value ≡ end.old.held.value }
{
    let Some(held) = take(alloc, end) else {
        return EMPTY;
    };
    let code = held.tell_access(number, access);
    put(end, held);
    code
}

/// Copies the octets that the oldest request, which has been read, writes by an access to the front
/// of a buffer.
///
/// It answers 0; 106 if the handle is empty; 51 if there is no request, as always on ground; 52 if
/// the oldest wasn't read; 109 if it writes nothing so; 103 if the buffer is too short. At 0 and at
/// 103 `needed` says how many octets there are.
pub fn lpt_end_access_octets(
    alloc: Global,
    end: &mut LptEnd,
    number: usize,
    out: &mut [u8],
    needed: &mut usize,
) -> u32
    ensures code { result ≡ code_for (written_by number end.old.held.value) out.old }
    ensures buffer { out.new ≡ left_by (written_by number end.old.held.value) out.old }
    ensures needed { needed.new ≡ needed_by (written_by number end.old.held.value) needed.old }
    ensures same { end.new.held.value ≡ end.old.held.value }
{
    let Some(held) = take(alloc, end) else {
        return EMPTY;
    };
    let code = held.copy_written(number, out, needed);
    put(end, held);
    code
}

/// Executes the oldest request, which has been read, if the memories are with the caller: by the
/// octets that they have in what it reads, those of one access behind those of the other, and none
/// if it reads nothing. Says what became of it. Its reports are to be sent.
///
/// It answers 0; 106 if the handle is empty; 119 if the memories are in the end; 51 if there is no
/// request, as always on ground; 52 if the oldest wasn't read; 120 if it reads more octets, or
/// fewer; 110 if packets are to be sent first; 58 when out of memory. Unless it answers 0, nothing
/// has changed.
pub fn lpt_end_execute_given(
    alloc: Global,
    end: &mut LptEnd,
    octets: &[u8],
    applied: &mut LptApplied,
) -> u32
    ensures code { IsAnswer (refusal_by (given_refusal octets.now) end.old.held.value) result }
    ensures done { result ≡ 0
        → IfBoth (IsExecutedGiven octets.now) end.old.held.value end.new.held.value }
    ensures told { result ≡ 0
        → IfHeld (IsAppliedGiven octets.now applied.new) end.old.held.value }
    ensures refused { ¬ (result ≡ 0) → IfBoth IsSame end.old.held.value end.new.held.value }
    ensures untold { ¬ (result ≡ 0) → applied.new ≡ applied.old }
{
    let Some(mut held) = take(alloc, end) else {
        return EMPTY;
    };
    let code = held.execute_given(octets, applied);
    put(end, held);
    code
}

/// Drops the oldest request, which has been read, in place of executing it: it is never executed,
/// and nothing is reported of it.
///
/// It answers 0; 106 if the handle is empty; 51 if there is no request, as always on ground; 52 if
/// the oldest wasn't read. Unless it answers 0, nothing has changed. It takes no memory.
pub fn lpt_end_drop_read(alloc: Global, end: &mut LptEnd) -> u32
    ensures code { result ≡ answer (refusal_by drop_read_refusal end.old.held.value) }
    ensures done { result ≡ 0 → IfBoth IsDropped end.old.held.value end.new.held.value }
    ensures refused { ¬ (result ≡ 0) → IfBoth IsSame end.old.held.value end.new.held.value }
{
    let Some(mut held) = take(alloc, end) else {
        return EMPTY;
    };
    let code = held.drop_read();
    put(end, held);
    code
}

impl End {
    // Drops the oldest request, which has been read.
    fn drop_read(&mut self) -> u32
        ensures code { result ≡ answer (drop_read_refusal self.old) }
        ensures done { result ≡ 0 → IsDropped self.old self.new }
        ensures refused { ¬ (result ≡ 0) → IsSame self.old self.new }
    {
        if matches!(self.memories, Kept::Nowhere) {
            return NO_JOB;
        }
        match self.node.drop_front() {
            Ok(()) => DONE,
            Err(fault) => u32::from(fault.code()),
        }
    }

    // Says what the oldest request does to a memory.
    #[tactic(auto, using(lpt_node::proofs::GivenLemmas::front_was_read))]
    fn tell_access(&self, number: usize, access: &mut LptAccess) -> u32
        ensures code { result ≡ answer (access_refusal number self.now) }
        ensures told { result ≡ 0 → IsAccess number access.new self.now }
        ensures untold { ¬ (result ≡ 0) → access.new ≡ access.old }
    {
        if let Some(fault) = self.node.refusal(&Ask::Apply) {
            return u32::from(fault.code());
        }
        let Some(reading) = self.node.front() else {
            unreachable!()
        };
        let Some(found) = reading.access(number) else {
            return NOTHING;
        };
        *access = access_word_of(found);
        DONE
    }

    // Copies the octets that the oldest request writes by an access.
    #[tactic(auto, using(lpt_node::proofs::GivenLemmas::front_was_read))]
    fn copy_written(&self, number: usize, out: &mut [u8], needed: &mut usize) -> u32
        ensures code { result ≡ code_for (written_by number (Some self.now)) out.old }
        ensures buffer { out.new ≡ left_by (written_by number (Some self.now)) out.old }
        ensures needed { needed.new ≡ needed_by (written_by number (Some self.now)) needed.old }
    {
        if let Some(fault) = self.node.refusal(&Ask::Apply) {
            return u32::from(fault.code());
        }
        let Some(reading) = self.node.front() else {
            unreachable!()
        };
        let Some(octets) = reading.octets_written(number) else {
            return NOTHING;
        };
        copy_out(octets, out, needed)
    }

    // Executes the oldest request by the octets that it reads, and says what became of it.
    #[tactic(auto, using(lpt_node::proofs::GivenLemmas::front_was_read))]
    fn execute_given(&mut self, octets: &[u8], applied: &mut LptApplied) -> u32
        ensures code { IsAnswer (given_refusal octets.now self.old) result }
        ensures done { result ≡ 0 → IsExecutedGiven octets.now self.old self.new }
        ensures told { result ≡ 0 → IsAppliedGiven octets.now applied.new self.old }
        ensures refused { ¬ (result ≡ 0) → IsSame self.old self.new }
        ensures untold { ¬ (result ≡ 0) → applied.new ≡ applied.old }
    {
        match &self.memories {
            Kept::Nowhere => return NO_JOB,
            Kept::Here(_) => return ELSEWHERE,
            Kept::Elsewhere(_) => {}
        }
        if let Some(fault) = self.node.refusal(&Ask::Apply) {
            return u32::from(fault.code());
        }
        let Some(reading) = self.node.front() else {
            unreachable!()
        };
        if octets.len() != reading.read_len() {
            return READ_LENGTH;
        }
        if !self.outbox.is_empty() {
            return UNSENT;
        }
        match self.node.apply_given(octets) {
            Ok(executed) => {
                let Executed {
                    applied: became,
                    packets,
                    opened: _,
                } = executed;
                self.outbox = VecDeque::from_vec(packets);
                *applied = applied_words_of(became);
                DONE
            }
            Err(_) => MEMORY,
        }
    }
}

// An access as C is told it.
fn access_word_of(access: Access) -> LptAccess
    ensures { result ≡ access_word access }
{
    LptAccess {
        memory: access.memory,
        write: u8::from(access.is_write),
        address: access.address,
        len: usize::from(access.len),
    }
}

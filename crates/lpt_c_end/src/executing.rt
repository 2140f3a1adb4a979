//! The requests that the spacecraft's end released: their reading, their execution, and the
//! memories over which they are executed.

ghost use Rattle.std.specs.Prelude.{◌≡◌, Ok, Err, MatchResult};
ghost use Rattle.lpt_c_end.specs.Calls.{IfBoth, IfHeld, IsApplied, memory_in};
ghost use Rattle.lpt_c_end.specs.Changes.{Becomes, IsExecuted, IsRead, IsSame, read_as_by};
ghost use Rattle.lpt_c_end.specs.Codes.{IsAnswer};
ghost use Rattle.lpt_c_end.specs.Copies.{code_for, left_by, needed_by};
ghost use Rattle.lpt_c_end.specs.Kept.{content_by, sizes_in};
ghost use Rattle.lpt_c_end.specs.Refusals.{execute_refusal, read_refusal, refusal_by};

use crate::codes::{DONE, ELSEWHERE, EMPTY, MEMORY, NO_JOB, NOTHING, UNSENT};
use crate::copying::copy_out;
use crate::end::End;
use crate::handle::{LptEnd, put, take};
use crate::kept::Kept;
use crate::words::{LptApplied, applied_words_of};
use lpt_memory::{Ticket, prepare};
use lpt_node::{Ask, Executed};
use lpt_packet::Octets;
use std::alloc::Global;
use std::collections::VecDeque;

/// Reads the oldest request that was released and not read yet.
///
/// It answers 0; 106 if the handle is empty; 51 if there is none, as always on ground; 58 when out
/// of memory. Unless it answers 0, nothing has changed.
pub fn lpt_end_read(alloc: Global, end: &mut LptEnd) -> u32
    ensures code { IsAnswer (refusal_by read_refusal end.old.held.value) result }
    ensures done { result ≡ 0 → IfBoth IsRead end.old.held.value end.new.held.value }
    ensures refused { ¬ (result ≡ 0) → IfBoth IsSame end.old.held.value end.new.held.value }
{
    let Some(mut held) = take(alloc, end) else {
        return EMPTY;
    };
    let code = held.read(alloc);
    put(end, held);
    code
}

/// Executes the oldest request, which has been read: does what it asks of a memory, and says what
/// became of it. Its reports are to be sent.
///
/// It answers 0; 106 if the handle is empty; 119 if the memories are with the caller; 51 if there
/// is no request, as always on ground; 52 if the oldest wasn't read; 110 if packets are to be sent
/// first; 58 when out of memory. Unless it answers 0, nothing has changed.
pub fn lpt_end_execute(alloc: Global, end: &mut LptEnd, applied: &mut LptApplied) -> u32
    ensures code { IsAnswer (refusal_by execute_refusal end.old.held.value) result }
    ensures done { result ≡ 0 → IfBoth IsExecuted end.old.held.value end.new.held.value }
    ensures told { result ≡ 0 → IfHeld (IsApplied applied.new) end.old.held.value }
    ensures refused { ¬ (result ≡ 0) → IfBoth IsSame end.old.held.value end.new.held.value }
    ensures untold { ¬ (result ≡ 0) → applied.new ≡ applied.old }
{
    let Some(mut held) = take(alloc, end) else {
        return EMPTY;
    };
    let code = held.execute(applied);
    put(end, held);
    code
}

/// Copies a memory to the front of a buffer.
///
/// It answers 0; 106 if the handle is empty; 119 if the memories are with the caller; 109 if the
/// end has no memory of this identifier; 103 if the buffer is too short. At 0 and at 103 `needed`
/// says how many octets the memory has.
pub fn lpt_end_memory(
    alloc: Global,
    end: &mut LptEnd,
    id: u8,
    out: &mut [u8],
    needed: &mut usize,
) -> u32
    ensures code { result ≡ code_for (memory_in id end.old.held.value) out.old }
    ensures buffer { out.new ≡ left_by (memory_in id end.old.held.value) out.old }
    ensures needed { needed.new ≡ needed_by (memory_in id end.old.held.value) needed.old }
    ensures same { end.new.held.value ≡ end.old.held.value }
{
    let Some(held) = take(alloc, end) else {
        return EMPTY;
    };
    let code = match held.content(id) {
        Ok(content) => copy_out(content, out, needed),
        Err(code) => code,
    };
    put(end, held);
    code
}

impl End {
    // The octets of a memory, or the number of the fault.
    pub(crate) fn content(&self, id: u8) -> Result<&[u8], u32>
        ensures { MatchResult result (λ x. content_by id self.now.memories ≡ Ok x.now)
            (λ code. content_by id self.now.memories ≡ Err code) }
    {
        match &self.memories {
            Kept::Nowhere => Err(NOTHING),
            Kept::Here(memories) => match memories.content(id) {
                Some(content) => Ok(content),
                None => Err(NOTHING),
            },
            Kept::Elsewhere(_) => Err(ELSEWHERE),
        }
    }

    // Reads the oldest request that was released and not read yet.
    fn read(&mut self, alloc: Global) -> u32
        ensures code { IsAnswer (read_refusal self.old) result }
        ensures done { result ≡ 0 → IsRead self.old self.new }
        ensures refused { ¬ (result ≡ 0) → IsSame self.old self.new }
    {
        if matches!(self.memories, Kept::Nowhere) {
            return NO_JOB;
        }
        let Some((_, message)) = self.node.oldest_unclaimed() else {
            return NO_JOB;
        };
        match message.copy() {
            Ok(message) => self.hand_in(alloc, message),
            Err(_) => MEMORY,
        }
    }

    // Reads a message in place of the oldest request that was released and not read yet.
    pub(crate) fn hand_in(&mut self, alloc: Global, message: Octets) -> u32
        ensures code { IsAnswer (read_refusal self.old) result }
        ensures done { result ≡ 0
            → Becomes
            (read_as_by message self.old.config (sizes_in self.old.memories) self.old.node.at)
            self.old self.new }
        ensures refused { ¬ (result ≡ 0) → IsSame self.old self.new }
    {
        let Some((number, _)) = self.node.oldest_unclaimed() else {
            return NO_JOB;
        };
        let shape = match self.memories.shape() {
            Ok(shape) => shape,
            Err(code) => return code,
        };
        let ticket = Ticket::new(self.node.boot(), number, message);
        match prepare(alloc, &shape, self.config.apid, ticket) {
            Ok(prepared) => {
                let Ok(ticket) = self.node.claim() else {
                    unreachable!()
                };
                let (boot, job) = (ticket.boot(), ticket.job());
                ticket.abandon();
                self.node.commit(boot, job, prepared.reading());
                DONE
            }
            Err(ticket) => {
                ticket.abandon();
                MEMORY
            }
        }
    }

    // Executes the oldest request, and says what became of it.
    fn execute(&mut self, applied: &mut LptApplied) -> u32
        ensures code { IsAnswer (execute_refusal self.old) result }
        ensures done { result ≡ 0 → IsExecuted self.old self.new }
        ensures told { result ≡ 0 → IsApplied applied.new self.old }
        ensures refused { ¬ (result ≡ 0) → IsSame self.old self.new }
        ensures untold { ¬ (result ≡ 0) → applied.new ≡ applied.old }
    {
        let memories = match &mut self.memories {
            Kept::Nowhere => return NO_JOB,
            Kept::Here(memories) => memories,
            Kept::Elsewhere(_) => return ELSEWHERE,
        };
        if let Some(fault) = self.node.refusal(&Ask::Apply) {
            return u32::from(fault.code());
        }
        if !self.outbox.is_empty() {
            return UNSENT;
        }
        match self.node.apply_front(memories) {
            Ok(executed) => {
                let Executed {
                    applied: became,
                    packets,
                    opened: _,
                } = executed;
                self.outbox = VecDeque::from_vec(packets);
                *applied = applied_words_of(became);
                DONE
            }
            Err(_) => MEMORY,
        }
    }
}

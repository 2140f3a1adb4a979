//! What an end sends: messages in parts, and the packets that wait to be sent.

ghost use Rattle.std.specs.Prelude.{◌≡◌};
ghost use Rattle.lpt_c_end.specs.Calls.{IfBoth, outgoing_of};
ghost use Rattle.lpt_c_end.specs.Changes.{IsFinished, IsLetGo, IsOpened, IsPartMade, IsSame};
ghost use Rattle.lpt_c_end.specs.Codes.{IsAnswer, answer};
ghost use Rattle.lpt_c_end.specs.Copies.{code_for, left_by, needed_by};
ghost use Rattle.lpt_c_end.specs.Refusals.{finish_refusal, open_refusal, part_refusal, refusal_by, sent_refusal};
ghost use Rattle.lpt_c_end.specs.Words.{name_from};

use crate::codes::{DONE, EMPTY, MEMORY, NOTHING};
use crate::copying::copy_out;
use crate::end::End;
use crate::handle::{LptEnd, put, take};
use crate::outbox::put_last;
use crate::words::{LptName, name_of};
use lpt_node::Ask;
use lpt_packet::{Name, Octets};
use std::alloc::Global;

/// Takes a message to be sent under a free name. It is copied.
///
/// It answers 0; 106 if the handle is empty; 41 to 44, the first fault that applies; 58 when out of
/// memory. Unless it answers 0, nothing has changed.
pub fn lpt_end_open(alloc: Global, end: &mut LptEnd, name: &LptName, message: &[u8]) -> u32
    ensures code { IsAnswer (refusal_by (open_refusal (name_from name.now) message.now) end.old.held.value)
        result }
    ensures done { result ≡ 0
        → IfBoth (IsOpened (name_from name.now) message.now) end.old.held.value end.new.held.value }
    ensures refused { ¬ (result ≡ 0) → IfBoth IsSame end.old.held.value end.new.held.value }
{
    let Some(mut held) = take(alloc, end) else {
        return EMPTY;
    };
    let code = held.open(alloc, name_of(name), message);
    put(end, held);
    code
}

/// Makes the packet of the part of a number, from 1, of an open message: it is to be sent.
///
/// It answers 0; 106 if the handle is empty; 45 if no message of this name is open; 46 if it has no
/// such part; 58 when out of memory. Unless it answers 0, nothing has changed.
pub fn lpt_end_part(alloc: Global, end: &mut LptEnd, name: &LptName, number: u16) -> u32
    ensures code { IsAnswer (refusal_by (part_refusal (name_from name.now) number) end.old.held.value) result }
    ensures done { result ≡ 0
        → IfBoth (IsPartMade (name_from name.now) number) end.old.held.value end.new.held.value }
    ensures refused { ¬ (result ≡ 0) → IfBoth IsSame end.old.held.value end.new.held.value }
{
    let Some(mut held) = take(alloc, end) else {
        return EMPTY;
    };
    let code = held.part(name_of(name), number);
    put(end, held);
    code
}

/// Closes an open message, and frees its memory.
///
/// It answers 0; 106 if the handle is empty; 45 if no message of this name is open: nothing has
/// changed then.
pub fn lpt_end_finish(alloc: Global, end: &mut LptEnd, name: &LptName) -> u32
    ensures code { result
        ≡ answer (refusal_by (finish_refusal (name_from name.now)) end.old.held.value) }
    ensures done { result ≡ 0
        → IfBoth (IsFinished (name_from name.now)) end.old.held.value end.new.held.value }
    ensures refused { ¬ (result ≡ 0) → IfBoth IsSame end.old.held.value end.new.held.value }
{
    let Some(mut held) = take(alloc, end) else {
        return EMPTY;
    };
    let code = held.finish(name_of(name));
    put(end, held);
    code
}

/// Copies the packet that is to be sent first to the front of a buffer. It stays to be sent.
///
/// It answers 0; 106 if the handle is empty; 109 if none is to be sent; 103 if the buffer is too
/// short. At 0 and at 103 `needed` says how many octets the packet has.
pub fn lpt_end_outgoing(alloc: Global, end: &mut LptEnd, out: &mut [u8], needed: &mut usize) -> u32
    ensures code { result ≡ code_for (outgoing_of end.old.held.value) out.old }
    ensures buffer { out.new ≡ left_by (outgoing_of end.old.held.value) out.old }
    ensures needed { needed.new ≡ needed_by (outgoing_of end.old.held.value) needed.old }
    ensures same { end.new.held.value ≡ end.old.held.value }
{
    let Some(held) = take(alloc, end) else {
        return EMPTY;
    };
    let code = match held.outbox.front() {
        Some(packet) => copy_out(packet.as_slice(), out, needed),
        None => NOTHING,
    };
    put(end, held);
    code
}

/// Lets the packet go that is to be sent first.
///
/// It answers 0; 106 if the handle is empty; 109 if none is to be sent: nothing has changed then.
pub fn lpt_end_sent(alloc: Global, end: &mut LptEnd) -> u32
    ensures code { result ≡ answer (refusal_by sent_refusal end.old.held.value) }
    ensures done { result ≡ 0 → IfBoth IsLetGo end.old.held.value end.new.held.value }
    ensures refused { ¬ (result ≡ 0) → IfBoth IsSame end.old.held.value end.new.held.value }
{
    let Some(mut held) = take(alloc, end) else {
        return EMPTY;
    };
    let code = held.let_go();
    put(end, held);
    code
}

impl End {
    // Takes a message to be sent.
    fn open(&mut self, alloc: Global, name: Name, message: &[u8]) -> u32
        ensures code { IsAnswer (open_refusal name message.now self.old) result }
        ensures done { result ≡ 0 → IsOpened name message.now self.old self.new }
        ensures refused { ¬ (result ≡ 0) → IsSame self.old self.new }
    {
        if let Some(fault) = self.node.refusal(&Ask::Open(name, message.len())) {
            return u32::from(fault.code());
        }
        let Ok(copy) = Vec::from_slice(alloc, message) else {
            return MEMORY;
        };
        match self.node.open(name, Octets::from_vec(copy)) {
            Ok(()) => DONE,
            Err(_) => MEMORY,
        }
    }

    // Makes the packet of a part.
    fn part(&mut self, name: Name, k: u16) -> u32
        ensures code { IsAnswer (part_refusal name k self.old) result }
        ensures done { result ≡ 0 → IsPartMade name k self.old self.new }
        ensures refused { ¬ (result ≡ 0) → IsSame self.old self.new }
    {
        if let Some(fault) = self.node.refusal(&Ask::Send(name, k)) {
            return u32::from(fault.code());
        }
        if self.make_place().is_err() {
            return MEMORY;
        }
        match self.node.send_part(name, k) {
            Ok(packet) => {
                put_last(&mut self.outbox, Some(packet));
                DONE
            }
            Err(_) => MEMORY,
        }
    }

    // Closes an open message.
    fn finish(&mut self, name: Name) -> u32
        ensures code { result ≡ answer (finish_refusal name self.old) }
        ensures done { result ≡ 0 → IsFinished name self.old self.new }
        ensures refused { ¬ (result ≡ 0) → IsSame self.old self.new }
    {
        match self.node.finish(name) {
            Ok(()) => DONE,
            Err(fault) => u32::from(fault.code()),
        }
    }
}

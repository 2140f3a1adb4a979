//! What comes to an end: packets, and the age of its receptions.

ghost use Rattle.std.specs.Prelude.{◌≡◌, ◌+◌, ◌<◌, ◌^◌, IfOk, OnOk, OnErr};
ghost use Rattle.lpt_jobs.specs.Jobs.{jobs_numbered};
ghost use Rattle.lpt_c_end.specs.Calls.{IfBoth, IfHeld, IsTold, released_of};
ghost use Rattle.lpt_c_end.specs.Changes.{IsDelivered, IsExpired, IsGivenUp, IsSame, delivery, expiry};
ghost use Rattle.lpt_c_end.specs.Codes.{IsAnswer};
ghost use Rattle.lpt_c_end.specs.Copies.{code_for, left_by, needed_by};
ghost use Rattle.lpt_c_end.specs.Refusals.{expire_refusal, give_up_refusal, packet_refusal, refusal_by};
ghost use Rattle.lpt_c_end.specs.Words.{name_from, name_word};

use crate::codes::{DONE, EMPTY, MEMORY, NO_NUMBER, NOT_OPEN, NOTHING};
use crate::copying::copy_out;
use crate::end::End;
use crate::handle::{LptEnd, put, take};
use crate::outbox::put_last;
use crate::words::{LptName, LptOutcome, name_of, name_word_of, words_of};
use lpt_events::Outcome;
use lpt_node::{Accepted, Ask, Expired};
use lpt_packet::Name;
use std::alloc::{AllocError, Global};

/// Takes the octets of a packet that was delivered to this end, and says what became of them.
///
/// It answers 0; 106 if the handle is empty; 108 if no number is left for a job; 58 when out of
/// memory. Unless it answers 0, nothing has changed.
pub fn lpt_end_packet(
    alloc: Global,
    end: &mut LptEnd,
    octets: &[u8],
    outcome: &mut LptOutcome,
) -> u32
    ensures code { IsAnswer (refusal_by packet_refusal end.old.held.value) result }
    ensures done { result ≡ 0 → IfBoth (IsDelivered octets.now) end.old.held.value end.new.held.value }
    ensures told { result ≡ 0 → IfHeld (IsTold octets.now outcome.new) end.old.held.value }
    ensures refused { ¬ (result ≡ 0) → IfBoth IsSame end.old.held.value end.new.held.value }
    ensures untold { ¬ (result ≡ 0) → outcome.new ≡ outcome.old }
{
    let Some(mut held) = take(alloc, end) else {
        return EMPTY;
    };
    let code = held.take_packet(octets, outcome);
    put(end, held);
    code
}

/// Copies the message that the last packet released to the front of a buffer.
///
/// It answers 0; 106 if the handle is empty; 109 if the last packet released none; 103 if the
/// buffer is too short. At 0 and at 103 `needed` says how many octets the message has.
pub fn lpt_end_released(alloc: Global, end: &mut LptEnd, out: &mut [u8], needed: &mut usize) -> u32
    ensures code { result ≡ code_for (released_of end.old.held.value) out.old }
    ensures buffer { out.new ≡ left_by (released_of end.old.held.value) out.old }
    ensures needed { needed.new ≡ needed_by (released_of end.old.held.value) needed.old }
    ensures same { end.new.held.value ≡ end.old.held.value }
{
    let Some(held) = take(alloc, end) else {
        return EMPTY;
    };
    let code = match &held.released {
        Some(message) => copy_out(message.as_slice(), out, needed),
        None => NOTHING,
    };
    put(end, held);
    code
}

/// Ends the reception that is due, and writes its name; at the spacecraft a report of it is to be
/// sent.
///
/// It answers 0; 106 if the handle is empty; 50 if none is due; 58 when out of memory. Unless it
/// answers 0, nothing has changed.
pub fn lpt_end_expire(alloc: Global, end: &mut LptEnd, name: &mut LptName) -> u32
    ensures code { IsAnswer (refusal_by expire_refusal end.old.held.value) result }
    ensures done { result ≡ 0 → IfBoth IsExpired end.old.held.value end.new.held.value }
    ensures told { result ≡ 0 → IfHeld (λ e. name.new ≡ name_word (expiry e).1.name) end.old.held.value }
    ensures refused { ¬ (result ≡ 0) → IfBoth IsSame end.old.held.value end.new.held.value }
    ensures untold { ¬ (result ≡ 0) → name.new ≡ name.old }
{
    let Some(mut held) = take(alloc, end) else {
        return EMPTY;
    };
    let code = held.expire(name);
    put(end, held);
    code
}

/// Gives the open reception of a name up before its time, as `lpt_end_expire` ends one that is due;
/// at the spacecraft a report of it is to be sent.
///
/// It answers 0; 106 if the handle is empty; 45 if no reception of the name is open; 58 when out of
/// memory. Unless it answers 0, nothing has changed.
pub fn lpt_end_give_up(alloc: Global, end: &mut LptEnd, name: &LptName) -> u32
    ensures code { IsAnswer (refusal_by (give_up_refusal (name_from name.now)) end.old.held.value) result }
    ensures done { result ≡ 0
        → IfBoth (IsGivenUp (name_from name.now)) end.old.held.value end.new.held.value }
    ensures refused { ¬ (result ≡ 0) → IfBoth IsSame end.old.held.value end.new.held.value }
{
    let Some(mut held) = take(alloc, end) else {
        return EMPTY;
    };
    let code = held.give_up(name_of(name));
    put(end, held);
    code
}

impl End {
    // Takes the octets of a packet, and says what became of them.
    fn take_packet(&mut self, octets: &[u8], outcome: &mut LptOutcome) -> u32
        ensures code { IsAnswer (packet_refusal self.old) result }
        ensures done { result ≡ 0 → IsDelivered octets.now self.old self.new }
        ensures told { result ≡ 0 → IsTold octets.now outcome.new self.old }
        ensures refused { ¬ (result ≡ 0) → IsSame self.old self.new }
        ensures untold { ¬ (result ≡ 0) → outcome.new ≡ outcome.old }
    {
        if self.node.jobs() == u64::MAX {
            return NO_NUMBER;
        }
        match self.deliver(octets) {
            Ok(became) => {
                *outcome = words_of(became);
                DONE
            }
            Err(AllocError) => MEMORY,
        }
    }

    // Takes the octets of a packet. The only error is out of memory; then nothing has changed.
    fn deliver(&mut self, octets: &[u8]) -> Result<Outcome, AllocError>
        requires { jobs_numbered self.old.node.at.jobs + 1 < 2 ^ 64 }
        ensures ok { OnOk result (IsDelivered octets.now self.old self.new) }
        ensures outcome { IfOk result (λ o. o ≡ (delivery self.old octets.now).1.outcome) }
        ensures err { OnErr result (IsSame self.old self.new) }
    {
        self.make_place()?;
        let Ok(accepted) = self.node.accept_octets(octets) else {
            return Err(AllocError);
        };
        let Accepted {
            outcome,
            packet,
            released,
        } = accepted;
        self.released = released;
        put_last(&mut self.outbox, packet);
        Ok(outcome)
    }

    // Ends the reception that is due, and writes its name.
    fn expire(&mut self, name: &mut LptName) -> u32
        ensures code { IsAnswer (expire_refusal self.old) result }
        ensures done { result ≡ 0 → IsExpired self.old self.new }
        ensures told { result ≡ 0 → name.new ≡ name_word (expiry self.old).1.name }
        ensures refused { ¬ (result ≡ 0) → IsSame self.old self.new }
        ensures untold { ¬ (result ≡ 0) → name.new ≡ name.old }
    {
        if let Some(fault) = self.node.refusal(&Ask::Expire) {
            return u32::from(fault.code());
        }
        if self.make_place().is_err() {
            return MEMORY;
        }
        match self.node.expire() {
            Ok(expired) => {
                let Expired {
                    name: ended,
                    packet,
                } = expired;
                put_last(&mut self.outbox, packet);
                *name = name_word_of(ended);
                DONE
            }
            Err(_) => MEMORY,
        }
    }

    // Gives the open reception of a name up before its time.
    fn give_up(&mut self, name: Name) -> u32
        ensures code { IsAnswer (give_up_refusal name self.old) result }
        ensures done { result ≡ 0 → IsGivenUp name self.old self.new }
        ensures refused { ¬ (result ≡ 0) → IsSame self.old self.new }
    {
        if !self.node.is_open_reception(name) {
            return NOT_OPEN;
        }
        if self.make_place().is_err() {
            return MEMORY;
        }
        match self.node.give_up(name) {
            Ok(Expired { packet, .. }) => {
                put_last(&mut self.outbox, packet);
                DONE
            }
            Err(_) => MEMORY,
        }
    }
}

//! The requests that the spacecraft's end released and that aren't executed here: what the oldest
//! asks, and that it is dropped.

ghost use Rattle.std.specs.Prelude.{◌≡◌, option_map};
ghost use Rattle.lpt_packet.specs.Numbers.{IsOctets};
ghost use Rattle.lpt_pus.specs.Commands.{command_in};
ghost use Rattle.lpt_c_end.specs.Calls.{IfBoth, IfHeld, IsAsked, asked_refusal};
ghost use Rattle.lpt_c_end.specs.Changes.{IsDropped, IsSame};
ghost use Rattle.lpt_c_end.specs.Codes.{answer, IsAnswer};
ghost use Rattle.lpt_c_end.specs.Refusals.{drop_refusal, refusal_by};

use crate::codes::{ALREADY_READ, DONE, EMPTY, NO_JOB, NOTHING};
use crate::end::End;
use crate::handle::{LptEnd, put, take};
use lpt_packet::laws::seen_is_read;
use lpt_packet::{Octets, Seen, read_packet};
use lpt_pus::read_tc;
use std::alloc::Global;

/// Says which service type and message subtype the oldest request has that was released and not
/// read yet, if it is a telecommand of the end's APID.
///
/// It answers 0; 106 if the handle is empty; 51 if there is none, as always on ground; 109 if it is
/// no such telecommand. The end stays as it is.
pub fn lpt_end_asked(alloc: Global, end: &mut LptEnd, service: &mut u8, subtype: &mut u8) -> u32
    ensures code { result ≡ answer (refusal_by asked_refusal end.old.held.value) }
    ensures told { result ≡ 0 → IfHeld (IsAsked service.new subtype.new) end.old.held.value }
    ensures untold { ¬ (result ≡ 0)
        → (service.new ≡ service.old) × (subtype.new ≡ subtype.old) }
    ensures same { end.new.held.value ≡ end.old.held.value }
{
    let Some(held) = take(alloc, end) else {
        return EMPTY;
    };
    let code = held.tell_asked(service, subtype);
    put(end, held);
    code
}

/// Drops the oldest request of all, which wasn't read yet, in place of `lpt_end_read`: it is never
/// executed, and nothing is reported of it.
///
/// It answers 0; 106 if the handle is empty; 126 if the oldest was read; 51 if there is none, as
/// always on ground; 58 when out of memory. Unless it answers 0, nothing has changed.
pub fn lpt_end_drop(alloc: Global, end: &mut LptEnd) -> u32
    ensures code { IsAnswer (refusal_by drop_refusal end.old.held.value) result }
    ensures done { result ≡ 0 → IfBoth IsDropped end.old.held.value end.new.held.value }
    ensures refused { ¬ (result ≡ 0) → IfBoth IsSame end.old.held.value end.new.held.value }
{
    let Some(mut held) = take(alloc, end) else {
        return EMPTY;
    };
    let code = held.drop_unread(alloc);
    put(end, held);
    code
}

impl End {
    // Drops the oldest request of all, which wasn't read yet.
    fn drop_unread(&mut self, alloc: Global) -> u32
        ensures code { IsAnswer (drop_refusal self.old) result }
        ensures done { result ≡ 0 → IsDropped self.old self.new }
        ensures refused { ¬ (result ≡ 0) → IsSame self.old self.new }
    {
        if self.node.jobs_queued() != self.node.waiting() {
            return ALREADY_READ;
        }
        let code = self.hand_in(alloc, Octets::from_vec(Vec::new(alloc)));
        if code != DONE {
            return code;
        }
        let Ok(()) = self.node.drop_front() else {
            unreachable!()
        };
        DONE
    }

    // Says which types the oldest request has that wasn't read.
    fn tell_asked(&self, service: &mut u8, subtype: &mut u8) -> u32
        ensures code { result ≡ answer (asked_refusal self.now) }
        ensures told { result ≡ 0 → IsAsked service.new subtype.new self.now }
        ensures untold { ¬ (result ≡ 0)
            → (service.new ≡ service.old) × (subtype.new ≡ subtype.old) }
    {
        let Some((_, message)) = self.node.oldest_unclaimed() else {
            return NO_JOB;
        };
        let Some((asked, kind)) = types_in(self.config.apid, message.as_slice()) else {
            return NOTHING;
        };
        *service = asked;
        *subtype = kind;
        DONE
    }
}

// The service type and the message subtype of the telecommand that octets are, if they are the
// packet of one with this APID.
#[tactic(auto, unfolding(lpt_pus::specs::Commands::command_in))]
fn types_in(apid: u16, octets: &[u8]) -> Option<(u8, u8)>
    requires { IsOctets octets.now }
    ensures { result ≡ option_map (λ c. (c.service, c.subtype)) (command_in apid octets.now) }
{
    seen_is_read();
    let Ok(Seen::Packet(packet)) = read_packet(octets) else {
        return None;
    };
    let Ok((head, _)) = read_tc(&packet) else {
        return None;
    };
    if head.apid != apid {
        return None;
    }
    Some((head.service, head.subtype))
}

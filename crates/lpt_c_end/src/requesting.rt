//! Plain requests: telecommands that carry no part, of which each fits a packet.

ghost use Rattle.std.specs.Prelude.{◌≡◌};
ghost use Rattle.lpt_c_end.specs.Calls.{IfBoth};
ghost use Rattle.lpt_c_end.specs.Changes.{IsPlainMade, IsSame};
ghost use Rattle.lpt_c_end.specs.Codes.{IsAnswer};
ghost use Rattle.lpt_c_end.specs.Refusals.{plain_refusal, refusal_by};

use crate::codes::{DONE, EMPTY, MEMORY, RANGE};
use crate::end::End;
use crate::handle::{LptEnd, put, take};
use crate::outbox::put_last;
use lpt_events::Side;
use lpt_node::Ask;
use lpt_pus::AckFlags;
use std::alloc::Global;

/// Makes the packet of a plain request, of this source, these acknowledgement flags, service type,
/// message subtype and body: it is to be sent. Ground alone makes them.
///
/// It answers 0; 106 if the handle is empty; 102 if the flags are above 15, and at the spacecraft;
/// 60 if the types are those of a part; 43 if the packet would have more octets than the part size
/// and 23; 58 when out of memory. Unless it answers 0, nothing has changed.
pub fn lpt_end_plain(
    alloc: Global,
    end: &mut LptEnd,
    source: u16,
    flags: u8,
    service: u8,
    subtype: u8,
    body: &[u8],
) -> u32
    ensures code { IsAnswer (refusal_by (plain_refusal flags service subtype body.now) end.old.held.value) result }
    ensures done { result ≡ 0
        → IfBoth (IsPlainMade source flags service subtype body.now) end.old.held.value end.new.held.value }
    ensures refused { ¬ (result ≡ 0) → IfBoth IsSame end.old.held.value end.new.held.value }
{
    let Some(mut held) = take(alloc, end) else {
        return EMPTY;
    };
    let code = held.plain(source, flags, service, subtype, body);
    put(end, held);
    code
}

impl End {
    // Makes the packet of a plain request.
    fn plain(&mut self, source: u16, flags: u8, service: u8, subtype: u8, body: &[u8]) -> u32
        ensures code { IsAnswer (plain_refusal flags service subtype body.now self.old) result }
        ensures done { result ≡ 0 → IsPlainMade source flags service subtype body.now self.old self.new }
        ensures refused { ¬ (result ≡ 0) → IsSame self.old self.new }
    {
        let Some(flags) = AckFlags::new(flags) else {
            return RANGE;
        };
        if self.side != Side::Ground {
            return RANGE;
        }
        if let Some(fault) = self.node.refusal(&Ask::Plain(service, subtype, body.len())) {
            return u32::from(fault.code());
        }
        if self.make_place().is_err() {
            return MEMORY;
        }
        match self.node.plain(source, flags, service, subtype, body) {
            Ok(packet) => {
                put_last(&mut self.outbox, Some(packet));
                DONE
            }
            Err(_) => MEMORY,
        }
    }
}

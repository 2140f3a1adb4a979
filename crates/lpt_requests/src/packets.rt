//! Requests written as telecommands, one behind the other.

ghost use Rattle.std.specs.Prelude.{◌≡◌, ◌≤◌, ◌⊎◌, None, Some, IfErr, IfOk, IsOk, map};
ghost use Rattle.lpt_memory.specs.declared.fault.MemoryFault.TheVariants.{Memory};
ghost use Rattle.lpt_requests.specs.Packets.{AllMean, first_fault, next_count, request_packets};
ghost use Rattle.lpt_requests.specs.Cuts.{view};

use crate::{Request, write_request};
use lpt_memory::MemoryFault;
use lpt_packet::Octets;
use lpt_pus::AckFlags;
use std::alloc::Global;

/// The packets of requests, as `write_request` makes them, in their order. The sequence counts go
/// on from the first one, and from 16,383 to 0.
///
/// Errors: the first fault of a request, as `write_request` gives it; if there is none, `Memory`.
pub fn write_requests(
    alloc: Global,
    apid: u16,
    source: u16,
    count: u16,
    flags: AckFlags,
    requests: &[Request],
) -> Result<Vec<Octets>, MemoryFault>
    requires apid { apid ≤ 2046 }
    requires count { count ≤ 16383 }
    ensures written { IfOk result (λ v.
        v.items ≡ request_packets apid source count flags requests.now) }

    // What is written means those requests, in memories where they fit.
    ensures means { IfOk result (λ v. AllMean apid v.items (map view requests.now)) }

    // The fault is the first, if memory doesn't run out before.
    ensures none { IsOk result → first_fault requests.now ≡ None }
    ensures fault { IfErr result (λ e. (e ≡ Memory) ⊎ (first_fault requests.now ≡ Some e)) }
{
    let mut packets = Vec::new(alloc);
    let mut count = count;
    for request in requests {
        let packet = write_request(alloc, apid, source, count, flags, request)?;
        if packets.push(packet).is_err() {
            return Err(MemoryFault::Memory);
        }
        count = next_count(count);
    }
    Ok(packets)
}

// The sequence count behind this one.
fn next_count(count: u16) -> u16
    requires { count ≤ 16383 }
    ensures next { result ≡ next_count count }
    ensures fits { result ≤ 16383 }
{
    if count == 16383 { 0 } else { count + 1 }
}

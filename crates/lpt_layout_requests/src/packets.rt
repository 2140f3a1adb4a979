//! Requests written as telecommands of a layout, one behind the other.

ghost use Rattle.std.specs.Prelude.{◌≡◌, ◌≤◌, ◌⊎◌, IfErr, IfOk, OnOk};
ghost use Rattle.std.specs.List.{AllByRecursion};
ghost use Rattle.lpt_memory.specs.declared.fault.MemoryFault.TheVariants.{Memory};
ghost use Rattle.lpt_requests.specs.Packets.{next_count};
ghost use Rattle.lpt_layout_requests.specs.declared.fault.RequestFault.TheVariants.{OfRequest};
ghost use Rattle.lpt_layout_requests.specs.Meanings.{BodyMeans};
ghost use Rattle.lpt_layout_requests.specs.Packets.{AreMade, FirstFault, packets_as};

use crate::{RequestFault, write_request_as};
use lpt_layout::Layout;
use lpt_memory::MemoryFault;
use lpt_packet::Octets;
use lpt_pus::AckFlags;
use lpt_requests::Request;
use std::alloc::Global;

/// The packets of requests, as `write_request_as` makes them, in their order. The sequence counts
/// go on from the first one, and from 16,383 to 0.
///
/// Errors: that of the first request that can't be written, as `write_request_as` gives it;
/// `Memory`.
pub fn write_requests_as(
    alloc: Global,
    layout: &Layout,
    apid: u16,
    source: u32,
    count: u16,
    flags: AckFlags,
    requests: &[Request],
) -> Result<Vec<Octets>, RequestFault>
    requires apid { apid ≤ 2046 }
    requires count { count ≤ 16383 }
    ensures written { IfOk result (λ v.
        v.items ≡ packets_as layout.now apid source count flags requests.now) }
    ensures made { OnOk result (AreMade layout.now apid source count flags requests.now) }

    // What stands in their bodies means those requests, in memories where they fit.
    ensures means { OnOk result (AllByRecursion BodyMeans requests.now) }

    // The fault is the first, if memory doesn't run out before.
    ensures fault { IfErr result (λ e. (e ≡ OfRequest Memory)
        ⊎ FirstFault layout.now apid source count flags requests.now e) }
{
    let mut packets = Vec::new(alloc);
    let mut count = count;
    for request in requests {
        let packet = write_request_as(alloc, layout, apid, source, count, flags, request)?;
        if packets.push(packet).is_err() {
            return Err(RequestFault::OfRequest(MemoryFault::Memory));
        }
        count = next_count(count);
    }
    Ok(packets)
}

// The sequence count behind this one.
fn next_count(count: u16) -> u16
    requires { count ≤ 16383 }
    ensures next { result ≡ next_count count }
    ensures fits { result ≤ 16383 }
{
    if count == 16383 { 0 } else { count + 1 }
}

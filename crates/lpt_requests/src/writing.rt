//! A request written as a telecommand.

ghost use Rattle.std.specs.Prelude.{◌≡◌, ◌≤◌, Err, IfErr, IfNone, IfOk, IfSome, map};
ghost use Rattle.lpt_packet.specs.Packets.{spelling};
ghost use Rattle.lpt_pus.specs.Commands.{command, packet_of};
ghost use Rattle.lpt_memory.specs.Spellings.{body_text, range_text};
ghost use Rattle.lpt_memory.specs.declared.fault.MemoryFault.TheVariants.{Memory};
ghost use Rattle.lpt_requests.specs.Requests.{as_range, range_fault, request_fault, request_packet, Means, MeansCheck, MeansDump};

use crate::ranges::{ranges_fault, ranges_packet};
use crate::{Range, Request};
use lpt_memory::{MemoryFault, write_load};
use lpt_packet::Octets;
use lpt_pus::{AckFlags, TcHead};
use std::alloc::Global;

/// The packet of a request to a memory: a telecommand of this APID (0 to 2046), source, sequence
/// count (0 to 16,383) and acknowledgement flags, with the areas in their order, and for each area
/// of a load its checksum.
///
/// Errors: `TooLong` if the packet would have more than 65,542 octets; `BadArea` for no area,
/// more than 255, or an empty one; if there is no such fault, `Memory`.
pub fn write_request(
    alloc: Global,
    apid: u16,
    source: u16,
    count: u16,
    flags: AckFlags,
    request: &Request,
) -> Result<Octets, MemoryFault>
    requires apid { apid ≤ 2046 }
    requires count { count ≤ 16383 }
    ensures written { IfOk result (λ o.
        o ≡ request_packet apid source count flags request.now) }

    // What is written means that request, in memories where it fits.
    ensures means { IfOk result (λ o. Means apid o request.now) }

    // The fault is the first; memory can run out only if there is none.
    ensures fault { IfSome (request_fault request.now) (λ e. result ≡ Err e) }
    ensures memory { IfNone (request_fault request.now) (IfErr result (λ e. e ≡ Memory)) }
{
    let head = TcHead {
        apid,
        count,
        flags: flags.bits(),
        service: 6,
        subtype: request.subtype(),
        source,
    };
    match request {
        Request::Load(memory, areas) => write_load(alloc, &head, *memory, areas),
        Request::Dump(memory, ranges) => write_ranges(alloc, &head, *memory, ranges),
        Request::Check(memory, ranges) => write_ranges(alloc, &head, *memory, ranges),
    }
}

// The packet of a dump or a check. Its faults are those of `write_request`.
fn write_ranges(
    alloc: Global,
    head: &TcHead,
    memory: u8,
    ranges: &[Range],
) -> Result<Octets, MemoryFault>
    requires { head.now.service ≡ 6 }
    ensures written { IfOk result (λ o. o ≡ spelling (packet_of (command head.now
        (body_text range_text memory (map as_range ranges.now))))) }
    ensures dump { head.now.subtype ≡ 5
        → IfOk result (λ o. MeansDump head.now.apid o memory (map as_range ranges.now)) }
    ensures check { head.now.subtype ≡ 9
        → IfOk result (λ o. MeansCheck head.now.apid o memory (map as_range ranges.now)) }
    ensures fault { IfSome (range_fault ranges.now) (λ e. result ≡ Err e) }
    ensures memory { IfNone (range_fault ranges.now) (IfErr result (λ e. e ≡ Memory)) }
{
    if let Some(fault) = ranges_fault(ranges) {
        return Err(fault);
    }
    ranges_packet(alloc, head, memory, ranges).map_err(|_| MemoryFault::Memory)
}

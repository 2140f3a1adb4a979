//! The packet of a request that reads a memory.

ghost use Rattle.std.specs.Prelude.{◌≡◌, ◌≤◌, ◌++◌, length, map, None, IfOk, OnOk};
ghost use Rattle.std.specs.List.{AllByRecursion};
ghost use Rattle.lpt_packet.specs.Packets.{spelling};
ghost use Rattle.lpt_pus.specs.Commands.{command, packet_of};
ghost use Rattle.lpt_memory.specs.Spellings.{body_text, range_text};
ghost use Rattle.lpt_requests.specs.Requests.{any_empty, as_range, range_fault, IsInRange, MeansCheck, MeansDump};

use crate::Range;
use lpt_memory::{AREA_LIMIT, MemoryFault};
use lpt_packet::Octets;
use lpt_pus::{TcHead, tc_octets};
use std::alloc::{AllocError, Global};

/// The octets of the body of a request, besides its areas, and of each of these.
const BODY_HEAD: usize = 2;

const RANGE: usize = 6;

// The fault of a dump or a check of these places, if there is one.
pub(crate) fn ranges_fault(ranges: &[Range]) -> Option<MemoryFault>
    ensures { result ≡ range_fault ranges.now }
{
    if ranges.is_empty() || ranges.len() > AREA_LIMIT || any_empty(ranges) {
        return Some(MemoryFault::BadArea);
    }
    None
}

// Whether one of the places has no octets.
fn any_empty(ranges: &[Range]) -> bool
    ensures { result ≡ any_empty ranges.now }
{
    for range in ranges {
        if range.len == 0 {
            return true;
        }
    }
    false
}

// The packet of a dump or a check of places that have no fault. The only error is out of memory.
pub(crate) fn ranges_packet(
    alloc: Global,
    head: &TcHead,
    memory: u8,
    ranges: &[Range],
) -> Result<Octets, AllocError>
    requires service { head.now.service ≡ 6 }
    requires ranges { range_fault ranges.now ≡ None }
    ensures written { IfOk result (λ o. o ≡ spelling (packet_of (command head.now
        (body_text range_text memory (map as_range ranges.now))))) }
    ensures dump { head.now.subtype ≡ 5
        → IfOk result (λ o. MeansDump head.now.apid o memory (map as_range ranges.now)) }
    ensures check { head.now.subtype ≡ 9
        → IfOk result (λ o. MeansCheck head.now.apid o memory (map as_range ranges.now)) }
{
    // A field behind a reference is known to be in its range once it is read.
    let _source = head.source;
    let body = ranges_body(alloc, memory, ranges)?;
    tc_octets(alloc, head, &body)
}

// The body of a dump or a check. The only error is out of memory.
fn ranges_body(alloc: Global, memory: u8, ranges: &[Range]) -> Result<Vec<u8>, AllocError>
    requires { length ranges.now ≤ 255 }
    ensures body { IfOk result (λ v.
        v.items ≡ body_text range_text memory (map as_range ranges.now)) }
    ensures fits { OnOk result (AllByRecursion IsInRange ranges.now) }
{
    let mut body = Vec::with_capacity(alloc, BODY_HEAD + RANGE * ranges.len())?;
    body.push(memory)?;
    body.push(ranges.len() as u8)?;
    for range in ranges {
        push_range(&mut body, *range)?;
    }
    Ok(body)
}

// Adds a place. The only error is out of memory.
fn push_range(body: &mut Vec<u8>, range: Range) -> Result<(), AllocError>
    ensures pushed { OnOk result
        (body.new.items ≡ body.old.items ++ range_text (as_range range)) }
    ensures fits { OnOk result (IsInRange range) }
{
    body.extend_from_slice(&range.address.to_be_bytes())?;
    body.extend_from_slice(&range.len.to_be_bytes())?;
    Ok(())
}

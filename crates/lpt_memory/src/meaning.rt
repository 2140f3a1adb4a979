//! What a message means for memories of known identifiers and sizes.

ghost use Rattle.std.specs.Prelude.{◌≡◌, length, map, option_map, IfOk};
ghost use Rattle.lpt_packet.specs.Numbers.{IsOctets};
ghost use Rattle.lpt_pus.specs.Commands.{command, command_in};
ghost use Rattle.lpt_memory.specs.Requests.{front_load_area, front_range, request_in};
ghost use Rattle.lpt_memory.specs.Seen.{body_of, load_area, AreWithin, plan_meaning, IsWithin, IsCounted};
ghost use Rattle.lpt_memory.specs.Meanings.{size_of, load_fault, range_fault, load_meaning, dump_meaning, check_meaning, if_formed, body_meaning, command_meaning};

use crate::reading::{load_request, range_request};
use crate::reply::dump_len;
use crate::request::{AreaRange, Plan, StoredArea};
use lpt_packet::laws::seen_is_read;
use lpt_packet::{ERROR_CONTROL, PRIMARY_HEADER, Seen, crc16, read_packet};
use lpt_pus::{FailureCode, LONGEST_TM_BODY, TC_HEADER, TcHead, read_tc};
use std::alloc::{AllocError, Global};

/// The octets of a telecommand's packet before its body.
const HEADERS: usize = PRIMARY_HEADER + TC_HEADER;

/// The service type of memory management.
const MEMORY: u8 = 6;

/// The message subtype of a load of raw memory.
const LOAD: u8 = 2;

/// The message subtype of a dump of raw memory.
const DUMP: u8 = 5;

/// The message subtype of a check of raw memory.
const CHECK: u8 = 9;

// The size of a memory.
fn size_in(sizes: &[(u8, u32)], id: u8) -> Option<u32>
    ensures { result ≡ size_of id sizes.now }
{
    for (known, size) in sizes {
        if *known == id {
            return Some(*size);
        }
    }
    None
}

// The first fault of the areas of a load.
fn load_fault_in(size: u32, body: &[u8], areas: &[StoredArea]) -> Option<FailureCode>
    requires { AreWithin (length body.now) areas.now }
    ensures { result ≡ load_fault size (map (load_area body.now) areas.now) }
{
    for area in areas {
        let octets = area.octets(body);
        if area.address as usize + octets.len() > size as usize {
            return Some(FailureCode::OutOfRange);
        }
        if crc16(octets) != area.checksum {
            return Some(FailureCode::WrongChecksum);
        }
    }
    None
}

// The first fault of ranges.
fn range_fault_in(size: u32, ranges: &[AreaRange]) -> Option<FailureCode>
    ensures { result ≡ range_fault size ranges.now }
{
    for AreaRange { address, len } in ranges {
        if *address as usize + usize::from(*len) > size as usize {
            return Some(FailureCode::OutOfRange);
        }
    }
    None
}

// What the body of a load means. The only error is out of memory.
fn load(alloc: Global, sizes: &[(u8, u32)], body: &[u8]) -> Result<Plan, AllocError>
    ensures seen { IfOk result (λ x.
        plan_meaning body.now x ≡ if_formed sizes.now load_meaning
        (request_in front_load_area body.now)) }
    ensures within { IfOk result (λ x. IsWithin body.now x) }
    ensures counted { IfOk result (λ x. IsCounted x) }
{
    let Some((memory, areas)) = load_request(alloc, body)? else {
        return Ok(Plan::Code(FailureCode::MalformedBody));
    };
    let Some(size) = size_in(sizes, memory) else {
        return Ok(Plan::Code(FailureCode::UnknownMemory));
    };
    if let Some(code) = load_fault_in(size, body, &areas) {
        return Ok(Plan::Code(code));
    }
    Ok(Plan::Load(memory, areas))
}

// What the body of a dump means. The only error is out of memory.
fn dump(alloc: Global, sizes: &[(u8, u32)], body: &[u8]) -> Result<Plan, AllocError>
    ensures seen { IfOk result (λ x.
        plan_meaning body.now x ≡ if_formed sizes.now dump_meaning
        (request_in front_range body.now)) }
    ensures within { IfOk result (λ x. IsWithin body.now x) }
    ensures counted { IfOk result (λ x. IsCounted x) }
{
    let Some((memory, ranges)) = range_request(alloc, body)? else {
        return Ok(Plan::Code(FailureCode::MalformedBody));
    };
    let Some(size) = size_in(sizes, memory) else {
        return Ok(Plan::Code(FailureCode::UnknownMemory));
    };
    if let Some(code) = range_fault_in(size, &ranges) {
        return Ok(Plan::Code(code));
    }
    if dump_len(&ranges) > LONGEST_TM_BODY {
        return Ok(Plan::Code(FailureCode::ReplyTooLong));
    }
    Ok(Plan::Dump(memory, ranges))
}

// What the body of a check means. The only error is out of memory.
fn check(alloc: Global, sizes: &[(u8, u32)], body: &[u8]) -> Result<Plan, AllocError>
    ensures seen { IfOk result (λ x.
        plan_meaning body.now x ≡ if_formed sizes.now check_meaning
        (request_in front_range body.now)) }
    ensures within { IfOk result (λ x. IsWithin body.now x) }
    ensures counted { IfOk result (λ x. IsCounted x) }
{
    let Some((memory, ranges)) = range_request(alloc, body)? else {
        return Ok(Plan::Code(FailureCode::MalformedBody));
    };
    let Some(size) = size_in(sizes, memory) else {
        return Ok(Plan::Code(FailureCode::UnknownMemory));
    };
    if let Some(code) = range_fault_in(size, &ranges) {
        return Ok(Plan::Code(code));
    }
    Ok(Plan::Check(memory, ranges))
}

// What the body of a telecommand of this service and subtype means. The only error is out of
// memory.
#[tactic(auto, unfolding(crate::specs::Meanings::body_meaning))]
fn body_plan(
    alloc: Global,
    sizes: &[(u8, u32)],
    service: u8,
    subtype: u8,
    body: &[u8],
) -> Result<Plan, AllocError>
    ensures seen { IfOk result (λ x.
        plan_meaning body.now x ≡ body_meaning sizes.now service subtype body.now) }
    ensures within { IfOk result (λ x. IsWithin body.now x) }
    ensures counted { IfOk result (λ x. IsCounted x) }
{
    if service != MEMORY {
        return Ok(Plan::Code(FailureCode::UnknownRequest));
    }
    match subtype {
        LOAD => load(alloc, sizes, body),
        DUMP => dump(alloc, sizes, body),
        CHECK => check(alloc, sizes, body),
        _ => Ok(Plan::Code(FailureCode::UnknownRequest)),
    }
}

// What stands where a telecommand has its body: behind its headers, before its packet's checksum.
pub(crate) fn body_of(message: &[u8]) -> &[u8]
    ensures { result.now ≡ body_of message.now }
{
    let end = message.len().saturating_sub(ERROR_CONTROL);
    message[..end].get(HEADERS..).unwrap_or(&[])
}

// The head of the telecommand that octets are, if they are the packet of one with this APID.
#[tactic(auto, unfolding(lpt_pus::specs::Commands::command_in))]
pub(crate) fn head_in(apid: u16, octets: &[u8]) -> Option<TcHead>
    requires { IsOctets octets.now }
    ensures { option_map (λ h. command h (body_of octets.now)) result ≡ command_in apid octets.now }
{
    seen_is_read();
    let Ok(Seen::Packet(packet)) = read_packet(octets) else {
        return None;
    };
    let Ok((head, _)) = read_tc(&packet) else {
        return None;
    };
    if head.apid != apid {
        return None;
    }
    Some(head)
}

// What the telecommand that a message is means, or nothing if it is none. The only error is
// out of memory.
pub(crate) fn plan(
    alloc: Global,
    sizes: &[(u8, u32)],
    head: Option<TcHead>,
    body: &[u8],
) -> Result<Plan, AllocError>
    ensures seen { IfOk result (λ x. plan_meaning body.now x
        ≡ command_meaning sizes.now (option_map (λ h. command h body.now) head)) }
    ensures within { IfOk result (λ x. IsWithin body.now x) }
    ensures counted { IfOk result (λ x. IsCounted x) }
{
    let Some(head) = head else {
        return Ok(Plan::Silent);
    };
    body_plan(alloc, sizes, head.service, head.subtype, body)
}

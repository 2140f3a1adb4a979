//! Requests made into those of a pass.

ghost use Rattle.std.specs.Prelude.{◌≡◌, ◌≤◌, IfOk, length};
ghost use Rattle.lpt_pus.specs.Numbers.{long_at};
ghost use Rattle.lpt_requests.specs.Packets.{next_count};
ghost use Rattle.lpt_ground.specs.Plans.{asked_of, awaits_of, requests_planned};

use crate::{Asked, Awaits, Fate, Place};
use lpt_memory::MemoryFault;
use lpt_packet::Octets;
use lpt_pus::AckFlags;
use lpt_requests::{Request, write_request};
use std::alloc::Global;

/// How many requests a pass has at most: as many as there are sequence counts, so that each has a
/// request ID of its own.
pub const MOST: usize = 16_384;

/// The requests of a pass: their packets as `lpt_requests::write_requests` makes them, and what
/// settles each.
///
/// A dump or a check of one place awaits its octets or their checksum; all else awaits the report
/// that its execution was completed. Errors: as of `write_requests`.
pub fn plan_requests(
    alloc: Global,
    apid: u16,
    source: u16,
    count: u16,
    flags: AckFlags,
    requests: &[Request],
) -> Result<Vec<Asked>, MemoryFault>
    requires apid { apid ≤ 2046 }
    requires count { count ≤ 16383 }
    requires most { length requests.now ≤ 16384 }
    ensures planned { IfOk result (λ v. v.items
        ≡ requests_planned apid source count flags requests.now) }
{
    let mut asked = Vec::new(alloc);
    let mut count = count;
    for request in requests {
        let octets = write_request(alloc, apid, source, count, flags, request)?;
        if asked.push(asked_of(octets, request)).is_err() {
            return Err(MemoryFault::Memory);
        }
        count = next_count(count);
    }
    Ok(asked)
}

// The sequence count behind this one.
fn next_count(count: u16) -> u16
    requires { count ≤ 16383 }
    ensures next { result ≡ next_count count }
    ensures fits { result ≤ 16383 }
{
    if count == 16383 { 0 } else { count + 1 }
}

// A request that waits, of this packet.
fn asked_of(octets: Octets, request: &Request) -> Asked
    ensures { result ≡ asked_of octets request.now }
{
    Asked {
        id: id_of(octets.as_slice()),
        octets,
        awaits: awaits_of(request),
        fate: Fate::Waiting,
    }
}

// The request ID of a packet.
fn id_of(octets: &[u8]) -> u32
    ensures { result ≡ long_at octets.now 0 }
{
    let at = |place: usize| octets.get(place).copied().unwrap_or(0);
    u32::from_be_bytes([at(0), at(1), at(2), at(3)])
}

// What settles a request.
fn awaits_of(request: &Request) -> Awaits
    ensures { result ≡ awaits_of request.now }
{
    match request {
        Request::Load(_, _) => Awaits::Completion,
        Request::Dump(memory, ranges) => match ranges.as_slice() {
            [range] => Awaits::Dumped(Place {
                memory: *memory,
                address: range.address,
                len: range.len,
            }),
            _ => Awaits::Completion,
        },
        Request::Check(memory, ranges) => match ranges.as_slice() {
            [range] => Awaits::Checked(Place {
                memory: *memory,
                address: range.address,
                len: range.len,
            }),
            _ => Awaits::Completion,
        },
    }
}

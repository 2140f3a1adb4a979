//! Where a load goes: the areas that the oldest request asks to be written, and octets of a memory.

ghost use Rattle.std.specs.Prelude.{◌≡◌, length};
ghost use Rattle.lpt_packet.specs.Numbers.{IsOctets};
ghost use Rattle.lpt_c.specs.Dumps.{area_dumped};
ghost use Rattle.lpt_c_end.specs.Areas.{area_in, area_refusal, area_told, octets_of, range_in, IsAreaAsked};
ghost use Rattle.lpt_c_end.specs.Calls.{IfHeld};
ghost use Rattle.lpt_c_end.specs.Codes.{answer};
ghost use Rattle.lpt_c_end.specs.Copies.{code_of, filled_by};
ghost use Rattle.lpt_c_end.specs.Refusals.{refusal_by};

use crate::codes::{DONE, EMPTY, NO_JOB, NOTHING, RANGE};
use crate::end::End;
use crate::handle::{LptEnd, put, take};
use lpt_c::{LptDumped, lpt_read_dump};
use lpt_packet::laws::seen_is_read;
use lpt_packet::{Seen, read_packet};
use lpt_pus::read_tc;
use std::alloc::Global;

/// An area of a memory.
#[repr(C)]
#[derive(Clone, Copy)]
pub struct LptArea {
    /// The identifier of the memory.
    pub memory: u8,
    /// The address of the area's first octet.
    pub address: u32,
    /// How many octets the area has.
    pub len: usize,
}

/// The service type of memory management, and the message subtype of its load.
const MEMORY_SERVICE: u8 = 6;

const LOAD: u8 = 2;

/// Says where an area goes, by its number from 0, of the load that the oldest request asks for that
/// was released and not read yet. If the load is carried out, its areas are written just there, in
/// their order, and nothing else is; if it is refused, nothing is.
///
/// It answers 0; 106 if the handle is empty; 51 if there is no such request, as always on ground;
/// 109 if it is no load, or has no such area with the checksum of its octets. The end stays as it
/// is.
pub fn lpt_end_asked_area(alloc: Global, end: &mut LptEnd, number: usize, area: &mut LptArea) -> u32
    ensures code { result ≡ answer (refusal_by (area_refusal number) end.old.held.value) }
    ensures told { result ≡ 0 → IfHeld (IsAreaAsked number area.new) end.old.held.value }
    ensures untold { ¬ (result ≡ 0) → area.new ≡ area.old }
    ensures same { end.new.held.value ≡ end.old.held.value }
{
    let Some(held) = take(alloc, end) else {
        return EMPTY;
    };
    let code = held.tell_area(number, area);
    put(end, held);
    code
}

/// Fills a buffer with the octets of a memory from an address on.
///
/// It answers 0; 106 if the handle is empty; 119 if the memories are with the caller; 109 if the
/// end has no memory of this identifier; 102 if the memory has fewer octets there than the buffer.
pub fn lpt_end_memory_range(
    alloc: Global,
    end: &mut LptEnd,
    id: u8,
    address: u32,
    out: &mut [u8],
) -> u32
    ensures code { result ≡ code_of (octets_of id address (length out.old) end.old.held.value) }
    ensures buffer { out.new
        ≡ filled_by (octets_of id address (length out.old) end.old.held.value) out.old }
    ensures same { end.new.held.value ≡ end.old.held.value }
{
    let Some(held) = take(alloc, end) else {
        return EMPTY;
    };
    let code = match held.content(id) {
        Ok(content) => fill(content, address as usize, out),
        Err(code) => code,
    };
    put(end, held);
    code
}

impl End {
    // Says where an area of the oldest request goes that wasn't read.
    fn tell_area(&self, number: usize, area: &mut LptArea) -> u32
        ensures code { result ≡ answer (area_refusal number self.now) }
        ensures told { result ≡ 0 → IsAreaAsked number area.new self.now }
        ensures untold { ¬ (result ≡ 0) → area.new ≡ area.old }
    {
        let Some((_, message)) = self.node.oldest_unclaimed() else {
            return NO_JOB;
        };
        let Some(found) = area_in(self.config.apid, message.as_slice(), number) else {
            return NOTHING;
        };
        *area = found;
        DONE
    }
}

// An area of the load that octets are, if they are the packet of one with this APID.
#[tactic(auto, unfolding(lpt_pus::specs::Commands::command_in))]
fn area_in(apid: u16, octets: &[u8], number: usize) -> Option<LptArea>
    requires { IsOctets octets.now }
    ensures { result ≡ area_in apid number octets.now }
{
    seen_is_read();
    let Ok(Seen::Packet(packet)) = read_packet(octets) else {
        return None;
    };
    let Ok((head, body)) = read_tc(&packet) else {
        return None;
    };
    if head.apid != apid || head.service != MEMORY_SERVICE || head.subtype != LOAD {
        return None;
    }
    area_of_load(body, number)
}

// An area of a load's body.
fn area_of_load(body: &[u8], number: usize) -> Option<LptArea>
    ensures { result ≡ area_told (area_dumped body.now number) }
{
    let mut found = LptDumped {
        memory: 0,
        areas: 0,
        address: 0,
        at: 0,
        len: 0,
    };
    if lpt_read_dump(body, number, &mut found) != DONE {
        return None;
    }
    Some(LptArea {
        memory: found.memory,
        address: found.address,
        len: found.len,
    })
}

// Fills a buffer with octets from a place on.
fn fill(octets: &[u8], from: usize, out: &mut [u8]) -> u32
    ensures code { result ≡ code_of (range_in from (length out.old) octets.now) }
    ensures buffer { out.new ≡ filled_by (range_in from (length out.old) octets.now) out.old }
{
    if from > octets.len() || out.len() > octets.len() - from {
        return RANGE;
    }
    let behind = &octets[from..];
    out.copy_from_slice(&behind[..out.len()]);
    DONE
}

//! Writing a load as a packet, and what can't be written.

ghost use Rattle.std.specs.Prelude.{◌≡◌, ◌+◌, ◌<◌, ◌^◌, ◌++◌, length, nat_lt, None, Err, IfOk, IfErr, IfSome, IfNone, OnOk};
ghost use Rattle.std.specs.List.{AllByRecursion};
ghost use Rattle.lpt_packet.specs.Packets.{spelling};
ghost use Rattle.lpt_packet.specs.Sizes.{longest_packet};
ghost use Rattle.lpt_pus.specs.Commands.{command, packet_of};
ghost use Rattle.lpt_memory.specs.declared.fault.MemoryFault.TheVariants.{Memory};
ghost use Rattle.lpt_memory.specs.Ranges.{MeansLoad};
ghost use Rattle.lpt_memory.specs.Spellings.{load_area_text, area_stored, load_text, load_length, any_empty, write_fault};

use crate::limits::{AREA_HEADER, AREA_LIMIT, LOAD_HEAD};
use crate::{Area, MemoryFault};
use lpt_packet::{LONGEST_PACKET, Octets, crc16};
use lpt_pus::laws::octets_are_read_again;
use lpt_pus::{TcHead, tc_octets};
use std::alloc::{AllocError, Global};

/// The octets of a load's body, besides its areas.
const BODY_HEAD: usize = 2;

// Whether the packet of a load would be too long.
fn is_long(areas: &[Area]) -> bool
    ensures { result ≡ nat_lt longest_packet (load_length areas.now) }
{
    let mut total = LOAD_HEAD;
    for area in areas {
        total += AREA_HEADER + area.octets.as_slice().len();
        if total > LONGEST_PACKET {
            return true;
        }
    }
    false
}

// Whether one of the areas has no octets.
fn any_empty(areas: &[Area]) -> bool
    ensures { result ≡ any_empty areas.now }
{
    for area in areas {
        if area.octets.as_slice().is_empty() {
            return true;
        }
    }
    false
}

// Adds an area of a load. The only error is out of memory.
fn push_area(body: &mut Vec<u8>, area: &Area) -> Result<(), AllocError>
    requires { length area.now.octets < 65536 }
    ensures pushed { OnOk result
        (body.new.items ≡ body.old.items ++ load_area_text (area_stored area.now)) }
    ensures address { OnOk result (area.now.address < 2 ^ 32) }
{
    let octets = area.octets.as_slice();
    let checksum = crc16(octets);
    body.extend_from_slice(&area.address.to_be_bytes())?;
    body.extend_from_slice(&(octets.len() as u16).to_be_bytes())?;
    body.extend_from_slice(octets)?;
    body.extend_from_slice(&checksum.to_be_bytes())?;
    Ok(())
}

// How many octets the body of a load has. Its packet has 13 more.
fn body_len(areas: &[Area]) -> usize
    requires { write_fault areas.now ≡ None }
    ensures { result + 13 ≡ load_length areas.now }
{
    let mut len = BODY_HEAD;
    for area in areas {
        len += AREA_HEADER + area.octets.as_slice().len();
    }
    len
}

// The body of a load. The only error is out of memory.
fn load_body(alloc: Global, memory: u8, areas: &[Area]) -> Result<Vec<u8>, AllocError>
    requires { write_fault areas.now ≡ None }
    ensures body { IfOk result (λ v. v.items ≡ load_text memory areas.now) }
    ensures addresses { OnOk result (AllByRecursion (λ a. a.address < 2 ^ 32) areas.now) }
{
    let mut body = Vec::with_capacity(alloc, body_len(areas))?;
    body.push(memory)?;
    body.push(areas.len() as u8)?;
    for area in areas {
        push_area(&mut body, area)?;
    }
    Ok(body)
}

// The packet of a load that has no fault. The only error is out of memory.
fn load_packet(
    alloc: Global,
    head: &TcHead,
    memory: u8,
    areas: &[Area],
) -> Result<Octets, AllocError>
    requires service { head.now.service ≡ 6 }
    requires subtype { head.now.subtype ≡ 2 }
    requires areas { write_fault areas.now ≡ None }
    ensures written { IfOk result (λ o.
        o ≡ spelling (packet_of (command head.now (load_text memory areas.now)))) }
    ensures means { IfOk result (λ o. MeansLoad head.now.apid o memory areas.now) }
{
    octets_are_read_again();
    // A field behind a reference is known to be in its range once it is read.
    let _source = head.source;
    let body = load_body(alloc, memory, areas)?;
    tc_octets(alloc, head, &body)
}

/// The fault for which a load of these areas can't be written, if there is one. It takes no memory.
///
/// It is the first that applies: `TooLong` if the packet would have more than 65,542 octets;
/// `BadArea` for no area, more than 255, or an empty one.
pub fn load_fault(areas: &[Area]) -> Option<MemoryFault>
    ensures { result ≡ write_fault areas.now }
{
    if is_long(areas) {
        return Some(MemoryFault::TooLong);
    }
    if areas.is_empty() || areas.len() > AREA_LIMIT || any_empty(areas) {
        return Some(MemoryFault::BadArea);
    }
    None
}

/// The packet of a load: a telecommand of this head, with the areas in their order and a checksum
/// for each. An area's own checksum is over its octets alone.
///
/// Errors: the fault that `load_fault` gives for the areas, `TooLong` or `BadArea`; if there is
/// none, `Memory` if memory runs out.
pub fn write_load(
    alloc: Global,
    head: &TcHead,
    memory: u8,
    areas: &[Area],
) -> Result<Octets, MemoryFault>
    requires service { head.now.service ≡ 6 }
    requires subtype { head.now.subtype ≡ 2 }
    ensures written { IfOk result (λ o.
        o ≡ spelling (packet_of (command head.now (load_text memory areas.now)))) }

    // What is written means that load, in memories where it fits.
    ensures means { IfOk result (λ o. MeansLoad head.now.apid o memory areas.now) }

    // The fault is the first; memory can run out only if there is none.
    ensures fault { IfSome (write_fault areas.now) (λ e. result ≡ Err e) }
    ensures memory { IfNone (write_fault areas.now) (IfErr result (λ e. e ≡ Memory)) }
{
    if let Some(fault) = load_fault(areas) {
        return Err(fault);
    }
    load_packet(alloc, head, memory, areas).map_err(|_| MemoryFault::Memory)
}

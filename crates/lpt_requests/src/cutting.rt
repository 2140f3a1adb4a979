//! What is asked of a memory, cut into as many requests as it needs.

ghost use Rattle.std.specs.Prelude.{◌≡◌, ◌+◌, ◌^◌, ◌<◌, ◌≤◌, ◌++◌, List, None, Err, IfErr, IfNone, IfOk, IfSome, OnOk, map, length};
ghost use Rattle.lpt_memory.specs.declared.request.Area.{Area};
ghost use Rattle.lpt_requests.specs.declared.cut_fault.CutFault.TheVariants.{Memory};
ghost use Rattle.lpt_requests.specs.Cuts.{AreCut, AreasCut, areas_fault, as_load, place_fault, view};

use crate::{CutFault, Request};
use lpt_memory::Area;
use lpt_packet::Octets;
use std::alloc::{AllocError, Global};

/// How many octets of an area one load holds at most: so many that its packet isn't too long.
pub const LOAD_LIMIT: u16 = 65_519;

/// How many addresses there are.
pub(crate) const ADDRESSES: u64 = 1 << 32;

/// The loads of areas of any length: of each area one load of one area for as many octets, from its
/// first to its last, area by area. One load holds 65,519 octets at most.
///
/// Errors, the first in the order of the areas: `Empty` for none, or one without octets; `PastEnd`
/// for one that ends behind the last address; if there is no such fault, `Memory`.
pub fn load_requests(
    alloc: Global,
    memory: u8,
    areas: &[Area],
    each: u16,
) -> Result<Vec<Request>, CutFault>
    requires { 0 < each }
    ensures cut { IfOk result (λ v. (pieces : List Area) × AreasCut each areas.now pieces
        × (map view v.items ≡ map (as_load memory) pieces)) }

    // The fault is the first; memory can run out only if there is none.
    ensures fault { IfSome (areas_fault areas.now) (λ e. result ≡ Err e) }
    ensures memory { IfNone (areas_fault areas.now) (IfErr result (λ e. e ≡ Memory)) }
{
    if let Some(fault) = areas_fault(areas) {
        return Err(fault);
    }
    Ok(cut_areas(alloc, memory, areas, each)?)
}

/// The first fault of areas that are to be loaded, if there is one: `Empty` for none, or one
/// without octets; `PastEnd` for one that ends behind the last address.
pub fn areas_fault(areas: &[Area]) -> Option<CutFault>
    ensures { result ≡ areas_fault areas.now }
{
    if areas.is_empty() {
        return Some(CutFault::Empty);
    }
    for area in areas {
        let fault = place_fault(area.address, area.octets.as_slice().len() as u64);
        if fault.is_some() {
            return fault;
        }
    }
    None
}

// The fault of a place of so many octets, if there is one.
pub(crate) fn place_fault(address: u32, len: u64) -> Option<CutFault>
    ensures { result ≡ place_fault address len }
{
    if len == 0 {
        return Some(CutFault::Empty);
    }
    if len > ADDRESSES - u64::from(address) {
        return Some(CutFault::PastEnd);
    }
    None
}

// The loads of areas that have no fault. The only error is out of memory.
fn cut_areas(
    alloc: Global,
    memory: u8,
    areas: &[Area],
    each: u16,
) -> Result<Vec<Request>, AllocError>
    requires each { 0 < each }
    requires fit { areas_fault areas.now ≡ None }
    ensures { IfOk result (λ v. (pieces : List Area) × AreasCut each areas.now pieces
        × (map view v.items ≡ map (as_load memory) pieces)) }
{
    let mut requests = Vec::new(alloc);
    for area in areas {
        cut_area(alloc, memory, area, each, &mut requests)?;
    }
    Ok(requests)
}

// Adds the loads of one area. The only error is out of memory.
fn cut_area(
    alloc: Global,
    memory: u8,
    area: &Area,
    each: u16,
    requests: &mut Vec<Request>,
) -> Result<(), AllocError>
    requires each { 0 < each }
    requires fit { area.now.address + length area.now.octets ≤ 2 ^ 32 }
    ensures { OnOk result ((pieces : List Area) × AreCut each area.now.address area.now.octets
        pieces
        × (map view requests.new.items ≡ map view requests.old.items ++ map (as_load memory)
        pieces)) }
{
    let mut rest = area.octets.as_slice();
    let mut address = u64::from(area.address);
    while !rest.is_empty() {
        let (front, behind) = rest.split_at(rest.len().min(usize::from(each)));
        let request = load_of(alloc, memory, address as u32, front)?;
        requests.push(request)?;
        address += u64::from(each);
        rest = behind;
    }
    Ok(())
}

// The load of these octets. The only error is out of memory.
fn load_of(alloc: Global, memory: u8, address: u32, octets: &[u8]) -> Result<Request, AllocError>
    ensures { IfOk result (λ r. view r
        ≡ as_load memory (record { address = address; octets = octets.now })) }
{
    let octets = Octets::from_vec(Vec::from_slice(alloc, octets)?);
    let mut areas = Vec::new(alloc);
    areas.push(Area { address, octets })?;
    Ok(Request::Load(memory, areas))
}

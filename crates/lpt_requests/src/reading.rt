//! Places of any length that are read, cut into as many requests as they need.

ghost use Rattle.std.specs.Prelude.{◌≡◌, ◌+◌, ◌^◌, ◌<◌, ◌≤◌, ◌++◌, List, None, Err, IfErr, IfNone, IfOk, IfSome, OnOk, map};
ghost use Rattle.lpt_memory.specs.declared.request.AreaRange.{AreaRange};
ghost use Rattle.lpt_requests.specs.declared.cut_fault.CutFault.TheVariants.{Memory};
ghost use Rattle.lpt_requests.specs.Cuts.{IsRangeCut, ArePlacesCut, as_read, places_fault, view};

use crate::cutting::place_fault;
use crate::{CutFault, Range, Request};
use std::alloc::{AllocError, Global};

/// How many octets of a place one dump holds at most: so many that its report isn't too long.
pub const DUMP_LIMIT: u16 = 65_513;

/// How many octets of a place one check holds at most.
pub const CHECK_LIMIT: u16 = 65_535;

/// Octets of a memory, by their place, however many.
#[derive(Clone, Copy, Debug, PartialEq, Eq)]
pub struct AreaPlace {
    /// The address of the first octet, from 0.
    pub address: u32,
    /// How many octets, at least one.
    pub len: u32,
}

/// What is asked of a memory that isn't changed.
#[derive(Clone, Copy, Debug, PartialEq, Eq)]
pub enum Read {
    /// Its octets.
    Dump,
    /// Their checksums.
    Check,
}

/// The dumps or the checks of places of any length: of each place one request of one place for as
/// many octets, from its first to its last, place by place. One dump holds 65,513 octets at most.
///
/// Errors, the first in the order of the places: `Empty` for none, or one without octets; `PastEnd`
/// for one that ends behind the last address; if there is no such fault, `Memory`.
pub fn read_requests(
    alloc: Global,
    what: Read,
    memory: u8,
    places: &[AreaPlace],
    each: u16,
) -> Result<Vec<Request>, CutFault>
    requires { 0 < each }
    ensures cut { IfOk result (λ v. (ranges : List AreaRange) × ArePlacesCut each places.now ranges
        × (map view v.items ≡ map (as_read what memory) ranges)) }

    // The fault is the first; memory can run out only if there is none.
    ensures fault { IfSome (places_fault places.now) (λ e. result ≡ Err e) }
    ensures memory { IfNone (places_fault places.now) (IfErr result (λ e. e ≡ Memory)) }
{
    if let Some(fault) = places_fault(places) {
        return Err(fault);
    }
    Ok(cut_places(alloc, what, memory, places, each)?)
}

/// The first fault of places that are to be read, if there is one: `Empty` for none, or one
/// without octets; `PastEnd` for one that ends behind the last address.
pub fn places_fault(places: &[AreaPlace]) -> Option<CutFault>
    ensures { result ≡ places_fault places.now }
{
    if places.is_empty() {
        return Some(CutFault::Empty);
    }
    for place in places {
        let fault = place_fault(place.address, u64::from(place.len));
        if fault.is_some() {
            return fault;
        }
    }
    None
}

// The requests of places that have no fault. The only error is out of memory.
fn cut_places(
    alloc: Global,
    what: Read,
    memory: u8,
    places: &[AreaPlace],
    each: u16,
) -> Result<Vec<Request>, AllocError>
    requires each { 0 < each }
    requires fit { places_fault places.now ≡ None }
    ensures { IfOk result (λ v. (ranges : List AreaRange) × ArePlacesCut each places.now ranges
        × (map view v.items ≡ map (as_read what memory) ranges)) }
{
    let mut requests = Vec::new(alloc);
    for place in places {
        cut_place(alloc, what, memory, *place, each, &mut requests)?;
    }
    Ok(requests)
}

// Adds the requests of one place. The only error is out of memory.
fn cut_place(
    alloc: Global,
    what: Read,
    memory: u8,
    place: AreaPlace,
    each: u16,
    requests: &mut Vec<Request>,
) -> Result<(), AllocError>
    requires each { 0 < each }
    requires fit { place.address + place.len ≤ 2 ^ 32 }
    ensures { OnOk result ((ranges : List AreaRange)
        × IsRangeCut each place.address place.len ranges
        × (map view requests.new.items ≡ map view requests.old.items ++ map (as_read what memory)
        ranges)) }
{
    let mut rest = place.len;
    let mut address = u64::from(place.address);
    while rest > 0 {
        let range = Range {
            address: address as u32,
            len: rest.min(u32::from(each)) as u16,
        };
        let request = read_of(alloc, what, memory, range)?;
        requests.push(request)?;
        address += u64::from(each);
        rest = rest.saturating_sub(u32::from(each));
    }
    Ok(())
}

// The request of one place. The only error is out of memory.
fn read_of(alloc: Global, what: Read, memory: u8, range: Range) -> Result<Request, AllocError>
    ensures { IfOk result (λ r. view r
        ≡ as_read what memory (record { address = range.address; len = range.len })) }
{
    let mut ranges = Vec::new(alloc);
    ranges.push(range)?;
    match what {
        Read::Dump => Ok(Request::Dump(memory, ranges)),
        Read::Check => Ok(Request::Check(memory, ranges)),
    }
}

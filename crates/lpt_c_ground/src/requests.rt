//! The requests of a job.

ghost use Rattle.std.specs.Prelude.{◌≡◌, ◌<◌, ◌≤◌, IfOk, IsTrue, length, map, None};
ghost use Rattle.lpt_requests.specs.Cuts.{areas_fault, places_fault};
ghost use Rattle.lpt_c_ground.specs.Plans.{areas_of, content_refusal, have_together, how_many, most, place_of, AreLoads, AreOf, AreReads};

use crate::jobs::{JobKind, LptPlace};
use lpt_packet::Octets;
use lpt_requests::{Area, AreaPlace, Read, Request, load_requests, read_requests};
use std::alloc::{AllocError, Global};

// The requests of a job of this kind, of so many octets each at most. The only error is out of
// memory.
pub(crate) fn requests_of(
    alloc: Global,
    kind: JobKind,
    each: u16,
    memory: u8,
    places: &[LptPlace],
    content: &[u8],
) -> Result<Vec<Request>, AllocError>
    requires each { 0 < each }
    requires places { places_fault (map place_of places.now) ≡ None }
    requires content { content_refusal kind places.now content.now ≡ None }
    requires few { how_many each places.now ≤ most }
    ensures are { IfOk result (λ v. AreOf kind each memory places.now content.now v.items) }
    ensures few { IfOk result (λ v. length v.items ≤ most) }
{
    match kind {
        JobKind::Load => loads_of(alloc, each, memory, places, content),
        JobKind::Dump => reads_of(alloc, Read::Dump, each, memory, places),
        JobKind::Check => reads_of(alloc, Read::Check, each, memory, places),
    }
}

// The loads of places, of a content.
fn loads_of(
    alloc: Global,
    each: u16,
    memory: u8,
    places: &[LptPlace],
    content: &[u8],
) -> Result<Vec<Request>, AllocError>
    requires each { 0 < each }
    requires places { places_fault (map place_of places.now) ≡ None }
    requires content { IsTrue (have_together places.now (length content.now)) }
    requires few { how_many each places.now ≤ most }
    ensures are { IfOk result (λ v.
        AreLoads each memory (areas_of places.now content.now) v.items) }
    ensures few { IfOk result (λ v. length v.items ≤ most) }
{
    let areas = areas_of(alloc, places, content)?;
    match load_requests(alloc, memory, &areas, each) {
        Ok(requests) => Ok(requests),
        Err(_) => Err(AllocError),
    }
}

// The dumps or the checks of places.
fn reads_of(
    alloc: Global,
    what: Read,
    each: u16,
    memory: u8,
    places: &[LptPlace],
) -> Result<Vec<Request>, AllocError>
    requires each { 0 < each }
    requires places { places_fault (map place_of places.now) ≡ None }
    requires few { how_many each places.now ≤ most }
    ensures are { IfOk result (λ v.
        AreReads what each memory (map place_of places.now) v.items) }
    ensures few { IfOk result (λ v. length v.items ≤ most) }
{
    let places = places_of(alloc, places)?;
    match read_requests(alloc, what, memory, &places, each) {
        Ok(requests) => Ok(requests),
        Err(_) => Err(AllocError),
    }
}

// The areas of places, whose octets stand in a content one behind the other. The only error is out
// of memory.
fn areas_of(alloc: Global, places: &[LptPlace], content: &[u8]) -> Result<Vec<Area>, AllocError>
    requires { IsTrue (have_together places.now (length content.now)) }
    ensures { IfOk result (λ v. v.items ≡ areas_of places.now content.now) }
{
    let mut areas = Vec::with_capacity(alloc, places.len())?;
    let mut rest = content;
    for place in places {
        let (front, behind) = rest.split_at(place.len as usize);
        let octets = Octets::from_vec(Vec::from_slice(alloc, front)?);
        areas.push(Area {
            address: place.address,
            octets,
        })?;
        rest = behind;
    }
    Ok(areas)
}

// The places as requests have them. The only error is out of memory.
fn places_of(alloc: Global, places: &[LptPlace]) -> Result<Vec<AreaPlace>, AllocError>
    ensures { IfOk result (λ v. v.items ≡ map place_of places.now) }
{
    let mut all = Vec::with_capacity(alloc, places.len())?;
    for place in places {
        all.push(place.area())?;
    }
    Ok(all)
}

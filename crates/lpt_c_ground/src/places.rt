//! The places of a job: whether they can be, and how many requests they take.

ghost use Rattle.std.specs.Prelude.{◌≡◌, ◌<◌, nat_lt, map};
ghost use Rattle.lpt_requests.specs.Cuts.{place_fault, places_fault};
ghost use Rattle.lpt_c_ground.specs.Plans.{have_together, how_many, most, overlaps_one, place_of, some_overlap};

use crate::jobs::LptPlace;
use lpt_ground::{MOST, overlap};
use lpt_requests::CutFault;

/// How many addresses there are.
const ADDRESSES: u64 = 1 << 32;

// The first fault of places, if there is one.
pub(crate) fn places_fault(places: &[LptPlace]) -> Option<CutFault>
    ensures { result ≡ places_fault (map place_of places.now) }
{
    if places.is_empty() {
        return Some(CutFault::Empty);
    }
    for place in places {
        let fault = place_fault(place.address, place.len);
        if fault.is_some() {
            return fault;
        }
    }
    None
}

// The fault of a place of so many octets, if there is one.
fn place_fault(address: u32, len: u32) -> Option<CutFault>
    ensures { result ≡ place_fault address len }
{
    if len == 0 {
        return Some(CutFault::Empty);
    }
    if u64::from(len) > ADDRESSES - u64::from(address) {
        return Some(CutFault::PastEnd);
    }
    None
}

// Whether places have so many octets together.
pub(crate) fn have_together(places: &[LptPlace], len: usize) -> bool
    ensures { result ≡ have_together places.now len }
{
    let mut rest = len;
    for place in places {
        if rest < place.len as usize {
            return false;
        }
        rest -= place.len as usize;
    }
    rest == 0
}

// Whether two of these places share an address.
pub(crate) fn some_overlap(places: &[LptPlace]) -> bool
    ensures { result ≡ some_overlap places.now }
{
    let mut rest = places;
    while let Some((place, behind)) = rest.split_first() {
        if overlaps_one(place, behind) {
            return true;
        }
        rest = behind;
    }
    false
}

// Whether a place shares an address with one of these.
fn overlaps_one(place: &LptPlace, others: &[LptPlace]) -> bool
    ensures { result ≡ overlaps_one place.now others.now }
{
    let mut rest = others;
    while let Some((other, behind)) = rest.split_first() {
        if overlap(place.area(), other.area()) {
            return true;
        }
        rest = behind;
    }
    false
}

// Whether they take more requests of so many octets at most than a pass has.
pub(crate) fn are_too_many(places: &[LptPlace], each: u16) -> bool
    requires { 0 < each }
    ensures { result ≡ nat_lt most (how_many each places.now) }
{
    let mut many: usize = 0;
    for place in places {
        many += place.len.div_ceil(u32::from(each)) as usize;
        if MOST < many {
            return true;
        }
    }
    false
}

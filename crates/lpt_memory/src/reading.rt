//! Reading requests: the bodies of loads, dumps and checks, and what they mean.

ghost use Rattle.std.specs.Prelude.{◌≡◌, ◌+◌, ◌<◌, ◌≤◌, length, drop, map, option_map, IfOk, IfSome};
ghost use Rattle.lpt_memory.specs.Requests.{front_load_area, front_range, request_in};
ghost use Rattle.lpt_memory.specs.Fields.{all_areas};
ghost use Rattle.lpt_memory.specs.Seen.{load_area, AreWithin};

use crate::fields::{head, long, octets, word};
use crate::request::{AreaRange, StoredArea};
use std::alloc::{AllocError, Global};

/// The octets of a body before its areas: the memory, and their number.
const BODY_HEAD: usize = 2;

/// The octets of an area of a load before its own: the address, and their number.
const AREA_HEAD: usize = 6;

/// The octets of its checksum.
const CHECKSUM: usize = 2;

// The area of a load that stands at a place of the body, and the place behind it.
#[tactic(auto, unfolding(crate::specs::Requests::front_load_area))]
fn stored_area(body: &[u8], at: usize) -> Option<(StoredArea, usize)>
    requires { at ≤ length body.now }
    ensures value { option_map (λ x. (load_area body.now x.0, drop x.1 body.now)) result
        ≡ front_load_area (drop at body.now) }
    ensures within { IfSome result (λ x. x.0.from + x.0.len ≤ length body.now) }
    ensures behind { IfSome result (λ x. x.1 ≤ length body.now) }
{
    let (address, rest) = long(&body[at..])?;
    let (len, rest) = word(rest)?;
    let (_, rest) = octets(rest, len)?;
    let (checksum, _) = word(rest)?;
    let from = at + AREA_HEAD;
    let area = StoredArea {
        address,
        from,
        len,
        checksum,
    };
    Some((area, from + usize::from(len) + CHECKSUM))
}

// The range that stands first, and what is behind it.
#[tactic(auto, unfolding(crate::specs::Requests::front_range))]
fn range(bytes: &[u8]) -> Option<(AreaRange, &[u8])>
    ensures { option_map (λ x. (x.0, x.1.now)) result ≡ front_range bytes.now }
{
    let (address, rest) = long(bytes)?;
    let (len, rest) = word(rest)?;
    if len == 0 {
        return None;
    }
    Some((AreaRange { address, len }, rest))
}

// So many areas of a load, from a place of the body on, with nothing behind them. The only error
// is out of memory.
fn stored_areas(
    alloc: Global,
    count: u8,
    body: &[u8],
    from: usize,
) -> Result<Option<Vec<StoredArea>>, AllocError>
    requires { from ≤ length body.now }
    ensures value { IfOk result (λ r. option_map (λ v. map (load_area body.now) v.items) r
        ≡ all_areas front_load_area count (drop from body.now)) }
    ensures within { IfOk result (λ r. IfSome r (λ v. AreWithin (length body.now) v.items)) }
{
    let mut areas = Vec::with_capacity(alloc, usize::from(count))?;
    let mut at = from;
    for _ in 0..count {
        let Some((area, behind)) = stored_area(body, at) else {
            return Ok(None);
        };
        areas.push(area)?;
        at = behind;
    }
    if !body[at..].is_empty() {
        return Ok(None);
    }
    Ok(Some(areas))
}

// So many ranges, with nothing behind them. The only error is out of memory.
fn ranges(alloc: Global, count: u8, bytes: &[u8]) -> Result<Option<Vec<AreaRange>>, AllocError>
    ensures value { IfOk result (λ r. option_map (λ v. v.items) r
        ≡ all_areas front_range count bytes.now) }
    ensures counted { IfOk result (λ r. IfSome r (λ v. length v.items < 256)) }
{
    let mut ranges = Vec::with_capacity(alloc, usize::from(count))?;
    let mut rest = bytes;
    for _ in 0..count {
        let Some((range, behind)) = range(rest) else {
            return Ok(None);
        };
        ranges.push(range)?;
        rest = behind;
    }
    if !rest.is_empty() {
        return Ok(None);
    }
    Ok(Some(ranges))
}

// The request that a load's body is, its octets by their places. The only error is out of memory.
#[tactic(auto, unfolding(crate::specs::Requests::request_in))]
pub(crate) fn load_request(
    alloc: Global,
    body: &[u8],
) -> Result<Option<(u8, Vec<StoredArea>)>, AllocError>
    ensures value { IfOk result (λ r.
        option_map (λ x. record { memory = x.0; areas = map (load_area body.now) x.1.items }) r
        ≡ request_in front_load_area body.now) }
    ensures within { IfOk result (λ r. IfSome r (λ x. AreWithin (length body.now) x.1.items)) }
{
    let Some((memory, count, _)) = head(body) else {
        return Ok(None);
    };
    let Some(areas) = stored_areas(alloc, count, body, BODY_HEAD)? else {
        return Ok(None);
    };
    Ok(Some((memory, areas)))
}

// The request that the body of a dump or a check is. The only error is out of memory.
#[tactic(auto, unfolding(crate::specs::Requests::request_in))]
pub(crate) fn range_request(
    alloc: Global,
    body: &[u8],
) -> Result<Option<(u8, Vec<AreaRange>)>, AllocError>
    ensures value { IfOk result (λ r.
        option_map (λ x. record { memory = x.0; areas = x.1.items }) r
        ≡ request_in front_range body.now) }
    ensures counted { IfOk result (λ r. IfSome r (λ x. length x.1.items < 256)) }
{
    let Some((memory, count, rest)) = head(body) else {
        return Ok(None);
    };
    let Some(ranges) = ranges(alloc, count, rest)? else {
        return Ok(None);
    };
    Ok(Some((memory, ranges)))
}

//! The bodies that answer dumps and checks, and how long they are.

ghost use Rattle.std.specs.Prelude.{◌≡◌, ℕ, List, ◌+◌, ◌*◌, ◌<◌, ◌≤◌, ◌∷◌, ◌++◌, length, IfOk, OnOk};
ghost use Rattle.std.specs.List.{flat_map};
ghost use Rattle.lpt_memory.specs.Effects.{octets_in, dump_area, check_area, dumped_area, checked_area, reply_length};
ghost use Rattle.lpt_memory.specs.Meanings.{dump_length};
ghost use Rattle.lpt_memory.specs.Ranges.{RangesFit};
ghost use Rattle.lpt_memory.specs.Seen.{plan_meaning, IsCounted};

use crate::limits::AREA_HEADER;
use crate::request::{AreaRange, Plan};
use lpt_packet::{Octets, crc16};
use std::alloc::{AllocError, Global};

/// The octets of an answer's body, besides its areas.
const BODY_HEAD: usize = 2;

// How many octets the body that answers a dump has. Its packet has 19 more.
pub(crate) fn dump_len(ranges: &[AreaRange]) -> usize
    requires { length ranges.now < 256 }
    ensures { result + 19 ≡ dump_length ranges.now }
{
    let mut len = BODY_HEAD;
    for range in ranges {
        len += AREA_HEADER + usize::from(range.len);
    }
    len
}

// How many octets the body that answers a check has.
pub(crate) fn check_len(ranges: &[AreaRange]) -> usize
    requires { length ranges.now < 256 }
    ensures { result ≡ 2 + 8 * length ranges.now }
{
    BODY_HEAD + AREA_HEADER * ranges.len()
}

// How many octets the body of the reply has, if there is one, whatever the message's body is.
pub(crate) fn reply_len(plan: &Plan) -> Option<usize>
    requires { IsCounted plan.now }
    ensures { (body : List ℕ) → result ≡ reply_length (plan_meaning body plan.now) }
{
    match plan {
        Plan::Silent => None,
        Plan::Code(_) => None,
        Plan::Load(_, _) => None,
        Plan::Dump(_, ranges) => Some(dump_len(ranges)),
        Plan::Check(_, ranges) => Some(check_len(ranges)),
    }
}

// The octets of a memory in a range.
fn octets_in<'a>(content: &'a [u8], range: &AreaRange) -> &'a [u8]
    requires { range.now.address + range.now.len ≤ length content.now }
    ensures { result.now ≡ octets_in content.now range.now }
{
    let start = range.address as usize;
    &content[start..start + usize::from(range.len)]
}

// Adds an area of the answer to a dump. The only error is out of memory.
pub(crate) fn push_dump_area(
    body: &mut Vec<u8>,
    range: &AreaRange,
    octets: &[u8],
) -> Result<(), AllocError>
    ensures { OnOk result (body.new.items ≡ body.old.items ++ dumped_area range.now octets.now) }
{
    body.extend_from_slice(&range.address.to_be_bytes())?;
    body.extend_from_slice(&range.len.to_be_bytes())?;
    body.extend_from_slice(octets)?;
    body.extend_from_slice(&crc16(octets).to_be_bytes())?;
    Ok(())
}

// Adds an area of the answer to a check. The only error is out of memory.
pub(crate) fn push_check_area(
    body: &mut Vec<u8>,
    range: &AreaRange,
    octets: &[u8],
) -> Result<(), AllocError>
    ensures { OnOk result (body.new.items ≡ body.old.items ++ checked_area range.now octets.now) }
{
    body.extend_from_slice(&range.address.to_be_bytes())?;
    body.extend_from_slice(&range.len.to_be_bytes())?;
    body.extend_from_slice(&crc16(octets).to_be_bytes())?;
    Ok(())
}

// The body that answers a dump. The only error is out of memory.
pub(crate) fn dump(
    alloc: Global,
    id: u8,
    ranges: &[AreaRange],
    content: &[u8],
) -> Result<Octets, AllocError>
    requires counted { length ranges.now < 256 }
    requires fit { RangesFit (length content.now) ranges.now }
    ensures { IfOk result (λ o.
        o ≡ id ∷ length ranges.now ∷ flat_map (dump_area content.now) ranges.now) }
{
    let mut body = Vec::with_capacity(alloc, dump_len(ranges))?;
    body.push(id)?;
    body.push(ranges.len() as u8)?;
    for range in ranges {
        push_dump_area(&mut body, range, octets_in(content, range))?;
    }
    Ok(Octets::from_vec(body))
}

// The body that answers a check. The only error is out of memory.
pub(crate) fn check(
    alloc: Global,
    id: u8,
    ranges: &[AreaRange],
    content: &[u8],
) -> Result<Octets, AllocError>
    requires counted { length ranges.now < 256 }
    requires fit { RangesFit (length content.now) ranges.now }
    ensures { IfOk result (λ o.
        o ≡ id ∷ length ranges.now ∷ flat_map (check_area content.now) ranges.now) }
{
    let mut body = Vec::with_capacity(alloc, check_len(ranges))?;
    body.push(id)?;
    body.push(ranges.len() as u8)?;
    for range in ranges {
        push_check_area(&mut body, range, octets_in(content, range))?;
    }
    Ok(Octets::from_vec(body))
}

//! The contents of memories, as lists of identifiers and octets.

ghost use Rattle.std.specs.Prelude.{◌≡◌, ◌<◌, length, option_map, is_some, IfOk, IsTrue};
ghost use Rattle.lpt_memory.specs.Meanings.{size_of};
ghost use Rattle.lpt_memory.specs.Memories.{content_of, sizes_of, are_distinct, are_memories, put_all, memories_loaded};
ghost use Rattle.lpt_memory.specs.Effects.{octets_of, dump_body, check_body};
ghost use Rattle.lpt_memory.specs.Ranges.{AreasFit, LoadFits, ReadFits};
ghost use Rattle.lpt_memory.specs.MemoriesInside.{same_sizes};
ghost use Rattle.lpt_memory.specs.Seen.{areas_in, AreWithin};

use crate::limits::{MEMORY_LIMIT, SIZE_LIMIT};
use crate::reply;
use crate::request::{AreaRange, StoredArea};
use lpt_packet::Octets;
use std::alloc::{AllocError, Global};

// Whether these can be memories.
pub(crate) fn are_memories(memories: &[(u8, Octets)]) -> bool
    ensures { result ≡ are_memories memories.now }
{
    !memories.is_empty() && memories.len() <= MEMORY_LIMIT && are_distinct(memories)
}

// Whether each is in its range, and no identifier comes twice.
fn are_distinct(memories: &[(u8, Octets)]) -> bool
    ensures { result ≡ are_distinct (sizes_of memories.now) }
{
    for i in 0..memories.len() {
        let len = memories[i].1.as_slice().len();
        if len == 0 || len > SIZE_LIMIT || is_known(&memories[i + 1..], memories[i].0) {
            return false;
        }
    }
    true
}

// Whether there is a memory of this identifier.
fn is_known(memories: &[(u8, Octets)], id: u8) -> bool
    ensures { result ≡ is_some (size_of id (sizes_of memories.now)) }
{
    for (known, _) in memories {
        if *known == id {
            return true;
        }
    }
    false
}

// The octets of a memory.
pub(crate) fn content_in(memories: &[(u8, Octets)], id: u8) -> Option<&[u8]>
    ensures { option_map (λ x. x.now) result ≡ content_of id memories.now }
{
    for (known, octets) in memories {
        if *known == id {
            return Some(octets.as_slice());
        }
    }
    None
}

// A copy. The only error is out of memory.
pub(crate) fn copy(
    alloc: Global,
    memories: &[(u8, Octets)],
) -> Result<Vec<(u8, Octets)>, AllocError>
    ensures { IfOk result (λ v. v.items ≡ memories.now) }
{
    let mut copies = Vec::with_capacity(alloc, memories.len())?;
    for (id, octets) in memories {
        copies.push((*id, octets.copy()?))?;
    }
    Ok(copies)
}

// The identifiers and sizes. The only error is out of memory.
pub(crate) fn sizes_of(
    alloc: Global,
    memories: &[(u8, Octets)],
) -> Result<Vec<(u8, u32)>, AllocError>
    requires { IsTrue (are_distinct (sizes_of memories.now)) }
    ensures { IfOk result (λ v. v.items ≡ sizes_of memories.now) }
{
    let mut sizes = Vec::with_capacity(alloc, memories.len())?;
    for (id, octets) in memories {
        sizes.push((*id, octets.as_slice().len() as u32))?;
    }
    Ok(sizes)
}

// Whether these are the identifiers and sizes.
pub(crate) fn have_sizes(memories: &[(u8, Octets)], sizes: &[(u8, u32)]) -> bool
    ensures { result ≡ same_sizes (sizes_of memories.now) sizes.now }
{
    if memories.len() != sizes.len() {
        return false;
    }
    for i in 0..memories.len() {
        if memories[i].0 != sizes[i].0 || memories[i].1.as_slice().len() != sizes[i].1 as usize {
            return false;
        }
    }
    true
}

// Puts areas over a memory, one after the other.
fn put_all(content: &mut Octets, body: &[u8], areas: &[StoredArea])
    requires within { AreWithin (length body.now) areas.now }
    requires fit { AreasFit (length content.old) (areas_in body.now areas.now) }
    ensures put { content.new ≡ put_all content.old (areas_in body.now areas.now) }
    ensures size { length content.new ≡ length content.old }
{
    for area in areas {
        content.overwrite(area.address as usize, area.octets(body));
    }
}

// Loads areas of a body into a memory.
pub(crate) fn load(memories: &mut [(u8, Octets)], id: u8, body: &[u8], areas: &[StoredArea])
    requires within { AreWithin (length body.now) areas.now }
    requires fit { LoadFits (sizes_of memories.old) id (areas_in body.now areas.now) }
    ensures loaded { memories.new ≡ memories_loaded id (areas_in body.now areas.now) memories.old }
    ensures sizes { sizes_of memories.new ≡ sizes_of memories.old }
{
    for (known, octets) in memories {
        if *known == id {
            put_all(octets, body, areas);
            return;
        }
    }
}

// The octets of a memory, or none if there is no such memory.
fn octets_of(memories: &[(u8, Octets)], id: u8) -> &[u8]
    ensures { result.now ≡ octets_of id memories.now }
{
    content_in(memories, id).unwrap_or(&[])
}

// The body that answers a dump. The only error is out of memory.
pub(crate) fn dump(
    alloc: Global,
    memories: &[(u8, Octets)],
    id: u8,
    ranges: &[AreaRange],
) -> Result<Octets, AllocError>
    requires counted { length ranges.now < 256 }
    requires fit { ReadFits (sizes_of memories.now) id ranges.now }
    ensures { IfOk result (λ o. o ≡ dump_body id ranges.now memories.now) }
{
    reply::dump(alloc, id, ranges, octets_of(memories, id))
}

// The body that answers a check. The only error is out of memory.
pub(crate) fn check(
    alloc: Global,
    memories: &[(u8, Octets)],
    id: u8,
    ranges: &[AreaRange],
) -> Result<Octets, AllocError>
    requires counted { length ranges.now < 256 }
    requires fit { ReadFits (sizes_of memories.now) id ranges.now }
    ensures { IfOk result (λ o. o ≡ check_body id ranges.now memories.now) }
{
    reply::check(alloc, id, ranges, octets_of(memories, id))
}

//! Which octets requests are of, and these requests.

ghost use Rattle.std.specs.Prelude.{◌≡◌, IfOk, max};
ghost use Rattle.lpt_ground_run.specs.Errands.{range_of, AreAsked, IsAskedOf, IsAt};

use crate::{Heads, PlanFault, plan_loads, plan_reads};
use lpt_ground::{Asked, MOST, overlap};
use lpt_requests::{Area, AreaPlace, Read};
use std::alloc::Global;

/// What a request is.
#[derive(Clone, Copy, PartialEq, Eq)]
pub enum ErrandKind {
    /// A load.
    Load,
    /// A dump.
    Dump,
    /// A check.
    Check,
}

/// Which octets requests are of, one behind the other.
#[derive(Clone, Copy)]
pub struct Places {
    /// The number of the area, from 0 on.
    pub area: usize,
    /// What each of the requests is.
    pub kind: ErrandKind,
    /// The memory's identifier.
    pub memory: u8,
    /// The address of the first octet.
    pub address: u32,
    /// How many octets they are.
    pub len: u32,
    /// How many octets each of them is of at most.
    pub each: u16,
}

impl Places {
    /// The requests that are of these octets, of those that begin with them; and those behind.
    pub fn split<'a>(&self, asked: &'a [Asked]) -> (&'a [Asked], &'a [Asked]) {
        let many = usize::try_from(self.many()).unwrap_or(usize::MAX);
        asked.split_at(many.min(asked.len()))
    }

    /// How many requests are of these octets.
    pub fn many(&self) -> u64 {
        u64::from(self.len).div_ceil(u64::from(self.each.max(1)))
    }

    /// Whether some octet is one of these and of others.
    pub fn overlaps(&self, other: &Places) -> bool {
        self.memory == other.memory && overlap(self.range(), other.range())
    }

    /// The same octets of their memory.
    pub fn range(&self) -> AreaPlace
        ensures { result ≡ range_of self.now }
    {
        AreaPlace {
            address: self.address,
            len: self.len,
        }
    }
}

/// The requests that are of these octets, one behind the other, under these heads, of areas with
/// these contents.
///
/// Errors: `TooMany`; as of `plan_loads`.
pub fn plan_places(
    alloc: Global,
    heads: &Heads,
    places: &[Places],
    areas: &[Area],
) -> Result<Vec<Asked>, PlanFault>
    ensures planned { IfOk result (λ v. AreAsked heads.now 0 places.now areas.now v.items) }
{
    let total = many_of(places);
    // Before any is made: so many may take more memory than there is.
    if total > MOST as u64 {
        return Err(PlanFault::TooMany(total));
    }
    let mut asked = Vec::new(alloc);
    for one in places {
        let next = heads_at(heads, asked.len());
        let mut planned = plan_place(alloc, &next, one, areas)?;
        if asked.append(&mut planned).is_err() {
            return Err(PlanFault::Memory);
        }
    }
    Ok(asked)
}

// How many requests are of these octets, 2^64 - 1 for more.
fn many_of(places: &[Places]) -> u64 {
    let mut total: u64 = 0;
    for one in places {
        total = total.saturating_add(one.many());
    }
    total
}

// The heads of requests behind so many of these, with the same flags.
fn heads_at(heads: &Heads, many: usize) -> Heads
    ensures { IsAt heads.now many result }
{
    let Heads { count, .. } = heads.behind(many as u64);
    Heads {
        apid: heads.apid,
        source: heads.source,
        count,
        flags: heads.flags,
    }
}

// The requests that are of these octets, of areas with these contents.
fn plan_place(
    alloc: Global,
    heads: &Heads,
    places: &Places,
    areas: &[Area],
) -> Result<Vec<Asked>, PlanFault>
    ensures { IfOk result (λ v. IsAskedOf heads.now places.now areas.now v.items) }
{
    let range = places.range();
    let each = places.each.max(1);
    let memory = places.memory;
    match places.kind {
        ErrandKind::Load => {
            let (_, areas) = areas.split_at(places.area.min(areas.len()));
            let (areas, _) = areas.split_at(areas.len().min(1));
            plan_loads(alloc, heads, memory, areas, each)
        }
        ErrandKind::Dump => plan_reads(alloc, heads, Read::Dump, memory, &[range], each),
        ErrandKind::Check => plan_reads(alloc, heads, Read::Check, memory, &[range], each),
    }
}

//! The requests of a pass, of whatever length what is asked is.

ghost use Rattle.std.specs.Prelude.{◌≡◌, ◌<◌, ◌≤◌, List, Err, IfOk, IfSome, length, map};
ghost use Rattle.lpt_memory.specs.declared.request.Area.{Area};
ghost use Rattle.lpt_memory.specs.declared.request.AreaRange.{AreaRange};
ghost use Rattle.lpt_requests.specs.Cuts.{AreasCut, ArePlacesCut, areas_fault, as_load, as_read, places_fault, view};
ghost use Rattle.lpt_ground_run.specs.Planning.{check_each, dump_each, fault_of, ArePlanned, IsBehind};

use crate::Heads;
use lpt_ground::{Asked, MOST, MemoryFault, Request, plan_requests};
use lpt_pus::AckFlags;
use lpt_requests::{Area, AreaPlace, CutFault, Read, load_requests, read_requests};
use std::alloc::Global;
use thiserror::Error;

/// How many octets more a dump's report has than the load of the same octets. A check's report is
/// as long as the load of so many octets.
const LESS: u16 = 6;

/// How many octets a check is of at most: of so many a checksum shows any three wrong bits.
const CHECK_EACH: u16 = 4_000;

/// How many sequence counts there are.
const COUNTS: u64 = 16_384;

/// Why there is no pass for what is asked.
#[derive(Clone, Copy, Debug, PartialEq, Eq, Error)]
pub enum PlanFault {
    /// Nothing is asked, or an area has no octets.
    #[error("an area has at least one octet")]
    Empty,
    /// An area doesn't end within the addresses that there are.
    #[error("an area ends after the last address, 4294967295")]
    PastEnd,
    /// It takes so many requests, more than a pass has.
    #[error("{0} requests are more than a pass has, 16384: parts of more octets are fewer")]
    TooMany(u64),
    /// A dump's report would be longer than a packet of parts of so few octets.
    #[error("a dump's report has more octets than a packet of these parts: give more to a part")]
    Narrow,
    /// A check's report would be longer than a packet of parts of so few octets.
    #[error("a check's report has more octets than a packet of these parts: a part needs 6 octets")]
    NarrowCheck,
    /// A request's packet would be too long.
    #[error("a packet has no more than 65542 octets")]
    TooLong,
    /// Out of memory.
    #[error("out of memory")]
    Memory,
}

/// How many octets a dump is of at most, so that its report is as long at most as the load of a
/// part of so many octets.
///
/// Errors: `Narrow`.
pub fn dump_each(part_size: u16) -> Result<u16, PlanFault>
    ensures value { result ≡ dump_each part_size }
    ensures some { IfOk result (λ n. 0 < n) }
{
    if part_size <= LESS {
        return Err(PlanFault::Narrow);
    }
    Ok(part_size - LESS)
}

/// How many octets a check is of at most. Its report is as long at most as the load of a part of so
/// many octets.
///
/// Errors: `NarrowCheck`.
pub fn check_each(part_size: u16) -> Result<u16, PlanFault>
    ensures value { result ≡ check_each part_size }
    ensures some { IfOk result (λ n. 0 < n) }
{
    if part_size < LESS {
        return Err(PlanFault::NarrowCheck);
    }
    Ok(CHECK_EACH)
}

impl Heads {
    /// The heads of requests behind so many of these, which ask for no report of success.
    pub fn behind(&self, many: u64) -> Heads
        ensures { IsBehind self.now many result }
    {
        let count = (u64::from(self.count) + many % COUNTS) % COUNTS;
        Heads {
            apid: self.apid,
            source: self.source,
            count: count as u16,
            flags: no_flags(),
        }
    }
}

// That no report of success is asked for.
fn no_flags() -> AckFlags
    ensures { result ≡ 0 }
{
    match AckFlags::new(0) {
        Some(flags) => flags,
        None => unreachable!(),
    }
}

/// The loads of areas, of one area with so many octets each.
///
/// Errors: `Empty`, `PastEnd`, `TooMany`, `TooLong`, `Memory`.
pub fn plan_loads(
    alloc: Global,
    heads: &Heads,
    memory: u8,
    areas: &[Area],
    each: u16,
) -> Result<Vec<Asked>, PlanFault>
    requires { 0 < each }
    ensures planned { IfOk result (λ v. (pieces : List Area) × AreasCut each areas.now pieces
        × ArePlanned heads.now (map (as_load memory) pieces) v.items) }
    ensures fault { IfSome (areas_fault areas.now) (λ e. result ≡ Err (fault_of e)) }
{
    let requests = load_requests(alloc, memory, areas, each)?;
    plan_of(alloc, heads, &requests)
}

/// The dumps or the checks of places, of one place with so many octets each.
///
/// Errors: as of `plan_loads`.
pub fn plan_reads(
    alloc: Global,
    heads: &Heads,
    what: Read,
    memory: u8,
    places: &[AreaPlace],
    each: u16,
) -> Result<Vec<Asked>, PlanFault>
    requires { 0 < each }
    ensures planned { IfOk result (λ v. (ranges : List AreaRange)
        × ArePlacesCut each places.now ranges
        × ArePlanned heads.now (map (as_read what memory) ranges) v.items) }
    ensures fault { IfSome (places_fault places.now) (λ e. result ≡ Err (fault_of e)) }
{
    let requests = read_requests(alloc, what, memory, places, each)?;
    plan_of(alloc, heads, &requests)
}

// The pass of these requests.
fn plan_of(alloc: Global, heads: &Heads, requests: &[Request]) -> Result<Vec<Asked>, PlanFault>
    ensures planned { IfOk result (λ v. ArePlanned heads.now (map view requests.now) v.items) }
    ensures many { 16384 < length requests.now
        → result ≡ Err (PlanFault.TooMany (length requests.now)) }
{
    let count = requests.len();
    if count > MOST {
        return Err(PlanFault::TooMany(count as u64));
    }
    let Heads {
        apid,
        source,
        count,
        flags,
    } = *heads;
    match plan_requests(alloc, apid, source, count, flags, requests) {
        Ok(asked) => Ok(asked),
        Err(MemoryFault::Memory) => Err(PlanFault::Memory),
        Err(MemoryFault::TooLong) => Err(PlanFault::TooLong),
        Err(_) => Err(PlanFault::Empty),
    }
}

impl From<CutFault> for PlanFault {
    ghost use Rattle.std.specs.Prelude.{◌≡◌};
    ghost use Rattle.lpt_ground_run.specs.Planning.{fault_of};

    ghost from_gives = { λ fault made. made ≡ fault_of fault };

    fn from(fault: CutFault) -> PlanFault {
        match fault {
            CutFault::Empty => PlanFault::Empty,
            CutFault::PastEnd => PlanFault::PastEnd,
            CutFault::Memory => PlanFault::Memory,
        }
    }
}

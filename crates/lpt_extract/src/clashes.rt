//! Where areas contradict one another.

ghost use Rattle.std.specs.Prelude.{◌≡◌, ◌<◌};
ghost use Rattle.lpt_extract.specs.ClashesInside.{is_in, is_other};
ghost use Rattle.lpt_extract.specs.CoversInside.{Ascend};
ghost use Rattle.lpt_extract.specs.Gaps.{gaps_in};

use crate::cover::Cover;
use std::alloc::{AllocError, Global};
use std::collections::BTreeMap;

/// The addresses for which areas gave different octets: those before `end` that don't lie in a run
/// of `alike`.
///
/// There are no more runs than such addresses.
#[derive(Drop)]
pub struct Clashes {
    cover: Cover,
}

impl Clashes {
    ghost use Rattle.std.specs.Prelude.{◌≡◌, ◌≤◌, ◌==◌, ◌++◌, List, ℕ, [], length, not, OnOk};
    ghost use Rattle.lpt_memory.specs.declared.request.Area.{Area};
    ghost use Rattle.lpt_extract.specs.Clashes.{cover_of};
    ghost use Rattle.lpt_extract.specs.ClashesInside.{is_unlike};
    ghost use Rattle.lpt_extract.specs.CoversInside.{end_of_cover, gaps_of, Ascend, Covers};
    ghost use Rattle.lpt_extract.specs.Gaps.{gaps_in, is_given};

    // None.
    pub(crate) fn new(alloc: Global) -> Clashes
        ensures { Covers 0 [] (cover_of result) }
    {
        Clashes {
            cover: Cover::new(alloc),
        }
    }

    /// Whether there is none.
    pub fn is_empty(&self) -> bool
        ensures { result ≡ (end_of_cover (cover_of self.now) == 0) }
    {
        self.cover.end() == 0
    }

    /// Behind the last such address; 0 if there is none.
    pub fn end(&self) -> u64
        ensures { result ≡ end_of_cover (cover_of self.now) }
    {
        self.cover.end()
    }

    /// The runs of other addresses before it: of each, its first address and its last.
    pub fn alike(&self) -> &BTreeMap<u64, u64>
        ensures { gaps_in result.now ≡ gaps_of (cover_of self.now) }
    {
        self.cover.gaps()
    }

    // Notes where an area differs from octets that stand from an address on and that areas gave: in
    // gaps none did. The only error is out of memory.
    pub(crate) fn note(
        &mut self,
        from: u32,
        standing: &[u8],
        gaps: &BTreeMap<u64, u64>,
        address: u32,
        area: &[u8],
    ) -> Result<(), AllocError>
        requires short { length area.now ≤ 65535 }

        // Those addresses are told, besides, at which it does, and no others.
        ensures { (told : List Area) → Ascend (gaps_in gaps.now)
            → Covers 0 told (cover_of self.old) → OnOk result ((more : List Area)
            × Covers 0 (told ++ more) (cover_of self.new)
            × ((n : ℕ) → is_given more n
            ≡ is_unlike from standing.now (gaps_in gaps.now)
            (record { address = address; octets = area.now }) n)) }
    {
        let mut at = 0;
        while at < area.len() {
            let place = u64::from(address) + at as u64;
            if is_other(from, standing, gaps, place, area[at]) {
                self.cover.add(0, place, place + 1)?;
            }
            at += 1;
        }
        Ok(())
    }
}

// Whether an octet differs from the one that stands at its address, if one came for that.
fn is_other(from: u32, standing: &[u8], gaps: &BTreeMap<u64, u64>, place: u64, octet: u8) -> bool
    requires low { place < 8589934592 }
    ensures { Ascend (gaps_in gaps.now)
        → result ≡ is_other from standing.now (gaps_in gaps.now) place octet }
{
    if place < u64::from(from) {
        return false;
    }
    let at = (place - u64::from(from)) as usize;
    at < standing.len() && standing[at] != octet && !has_gap(gaps, place)
}

// Whether an address is in a gap.
fn has_gap(gaps: &BTreeMap<u64, u64>, place: u64) -> bool
    requires low { place < 8589934592 }
    ensures { Ascend (gaps_in gaps.now) → result ≡ is_in (gaps_in gaps.now) place }
{
    let Some((_, last)) = gaps.range(..place + 1).next_back() else {
        return false;
    };
    place <= *last
}

//! Which addresses areas gave.

use std::alloc::{AllocError, Global};
use std::collections::BTreeMap;

/// Where the area ends that ends last, and the gaps in front of that: of each, its first address
/// and its last.
///
/// There are no more gaps than areas. An area costs a few searches in the map, and one for each gap
/// that it takes away.
#[derive(Drop)]
pub(crate) struct Cover {
    end: u64,
    gaps: BTreeMap<u64, u64>,
}

impl Cover {
    ghost use Rattle.std.specs.Prelude.{◌≡◌, ◌==◌, ◌<◌, ◌++◌, ◌∷◌, List, [], length, max, not, flat_map, OnOk};
    ghost use Rattle.lpt_memory.specs.declared.request.Area.{Area};
    ghost use Rattle.lpt_extract.specs.Areas.{end_of};
    ghost use Rattle.std.specs.List.{filter};
    ghost use Rattle.lpt_extract.specs.CoversInside.{cut, end_of_cover, gaps_of, is_apart, Ascend, Covers};
    ghost use Rattle.lpt_extract.specs.Gaps.{gaps_in};

    // The cover of no areas.
    pub(crate) fn new(alloc: Global) -> Cover
        ensures end { end_of_cover result ≡ 0 }
        ensures gaps { gaps_of result ≡ [] }
    {
        Cover {
            end: 0,
            gaps: BTreeMap::new(alloc),
        }
    }

    // Where the area ends that ends last.
    pub(crate) fn end(&self) -> u64
        ensures { result ≡ end_of_cover self.now }
    {
        self.end
    }

    // Whether there are gaps.
    pub(crate) fn has_gaps(&self) -> bool
        ensures { result ≡ not (length (gaps_of self.now) == 0) }
    {
        !self.gaps.is_empty()
    }

    // The gaps.
    pub(crate) fn into_gaps(self) -> BTreeMap<u64, u64>
        ensures { gaps_in result ≡ gaps_of self }
    {
        let Cover { end: _, gaps } = self;
        gaps
    }

    // The gaps so far.
    pub(crate) fn gaps(&self) -> &BTreeMap<u64, u64>
        ensures { gaps_in result.now ≡ gaps_of self.now }
    {
        &self.gaps
    }

    // Notes where an area ends, and no gaps.
    pub(crate) fn reach(&mut self, end: u64)
        ensures end { end_of_cover self.new ≡ max (end_of_cover self.old) end }
        ensures gaps { gaps_of self.new ≡ gaps_of self.old }
    {
        self.end = self.end.max(end);
    }

    // Notes an area, for the gaps from an address on. The only error is out of memory.
    pub(crate) fn add(&mut self, from: u64, first: u64, end: u64) -> Result<(), AllocError>
        requires { first < end }
        ensures end { OnOk result (end_of_cover self.new ≡ max (end_of_cover self.old) end) }
        ensures gaps { (areas : List Area) (a : Area) → a.address ≡ first → end_of a ≡ end
            → Covers from areas self.old → OnOk result (Covers from (areas ++ a ∷ []) self.new) }
    {
        let reach = self.end.max(from);
        if reach < first {
            self.gaps.insert(reach, first - 1)?;
        } else {
            self.cut(first, end)?;
        }
        self.end = self.end.max(end);
        Ok(())
    }

    // Leaves of each gap what isn't within an area. The only error is out of memory.
    fn cut(&mut self, first: u64, end: u64) -> Result<(), AllocError>
        requires { first < end }
        ensures gaps { Ascend (gaps_of self.old) → OnOk result
            (gaps_of self.new ≡ flat_map (cut first end) (gaps_of self.old)) }
        ensures end { end_of_cover self.new ≡ end_of_cover self.old }
    {
        self.part(end)?;
        self.part(first)?;
        self.fill(first, end);
        Ok(())
    }

    // Parts the gap that has an address and the one in front of it. The only error is out of
    // memory.
    fn part(&mut self, at: u64) -> Result<(), AllocError>
        ensures gaps { Ascend (gaps_of self.old) → OnOk result
            (gaps_of self.new ≡ flat_map (cut at at) (gaps_of self.old)) }
        ensures end { end_of_cover self.new ≡ end_of_cover self.old }
    {
        let Some((first, last)) = self.gaps.range(..at).next_back() else {
            return Ok(());
        };
        let (first, last) = (*first, *last);
        if last < at {
            return Ok(());
        }
        self.gaps.insert(first, at - 1)?;
        self.gaps.insert(at, last)?;
        Ok(())
    }

    // Takes away the gaps that begin within an area.
    fn fill(&mut self, first: u64, end: u64)
        requires { first < end }
        ensures gaps { gaps_of self.new ≡ filter (is_apart first end) (gaps_of self.old) }
        ensures end { end_of_cover self.new ≡ end_of_cover self.old }
    {
        while let Some((gap, _)) = self.gaps.range(first..end).next() {
            let gap = *gap;
            self.gaps.remove(&gap);
        }
    }
}

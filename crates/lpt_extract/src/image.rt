//! The octets of areas at their places.

ghost use Rattle.std.specs.Prelude.{◌<◌, ◌≤◌, length};

use crate::ImagePlace;
use crate::clashes::Clashes;
use crate::cover::Cover;
use std::alloc::{AllocError, Global};
use std::collections::BTreeMap;

/// The most octets of an image.
const IMAGE_LIMIT: u64 = 268_435_456;

/// An image of a memory, as far as areas give it.
#[derive(Drop)]
pub(crate) struct Image {
    octets: Vec<u8>,
    cover: Cover,
    clashes: Clashes,
}

impl Image {
    ghost use Rattle.std.specs.Prelude.{◌≡◌, ◌==◌, ◌+◌, ◌-◌, ◌++◌, ◌∷◌, ℕ, List, [], drop, replicate, max, not, OnOk};
    ghost use Rattle.lpt_memory.specs.declared.request.Area.{Area};
    ghost use Rattle.lpt_memory.specs.Memories.{put_at};
    ghost use Rattle.lpt_extract.specs.ClashesInside.{Tells};
    ghost use Rattle.lpt_extract.specs.CoversInside.{gaps_of};
    ghost use Rattle.lpt_extract.specs.Gaps.{gaps_in};
    ghost use Rattle.lpt_extract.specs.ImagesInside.{end_of_image, octets_of_image, Imaged, IsSize};

    // The image of no areas.
    pub(crate) fn new(alloc: Global) -> Image
        ensures octets { octets_of_image result ≡ [] }
        ensures end { end_of_image result ≡ 0 }
        ensures gaps { gaps_of result.cover ≡ [] }
        ensures clashes { (from : ℕ) → Tells from [] result.clashes }
    {
        Image {
            octets: Vec::new(alloc),
            cover: Cover::new(alloc),
            clashes: Clashes::new(alloc),
        }
    }

    // Where the area ends that ends last.
    pub(crate) fn end(&self) -> u64
        ensures { result ≡ end_of_image self.now }
    {
        self.cover.end()
    }

    // Whether there are gaps.
    pub(crate) fn has_gaps(&self) -> bool
        ensures { result ≡ not (length (gaps_of self.now.cover) == 0) }
    {
        self.cover.has_gaps()
    }

    // The gaps, and where areas contradict one another.
    pub(crate) fn into_gaps(self) -> (BTreeMap<u64, u64>, Clashes)
        ensures gaps { gaps_in result.0 ≡ gaps_of self.cover }
        ensures clashes { result.1 ≡ self.clashes }
    {
        let Image {
            octets: _,
            cover,
            clashes,
        } = self;
        (cover.into_gaps(), clashes)
    }

    // The octets.
    pub(crate) fn octets(&self) -> &[u8]
        ensures { result.now ≡ octets_of_image self.now }
    {
        self.octets.as_slice()
    }

    // Notes where an area ends.
    pub(crate) fn reach(&mut self, address: u32, len: usize)
        requires { len ≤ 65535 }
        ensures end { end_of_image self.new ≡ max (end_of_image self.old) (address + len) }
        ensures gaps { gaps_of self.new.cover ≡ gaps_of self.old.cover }
        ensures clashes { self.new.clashes ≡ self.old.clashes }
    {
        self.cover.reach(u64::from(address) + len as u64);
    }

    // How many octets it has from an address on, if they aren't too many.
    pub(crate) fn size(&self, from: u32) -> Option<usize>
        ensures { IsSize (end_of_image self.now - from) result }
    {
        let size = self.end().saturating_sub(u64::from(from));
        if size > IMAGE_LIMIT {
            return None;
        }
        Some(size as usize)
    }

    // Puts an area over the octets, and notes where it contradicts them. The only error is out of
    // memory.
    pub(crate) fn put(
        &mut self,
        place: &ImagePlace,
        address: u32,
        octets: &[u8],
    ) -> Result<(), AllocError>
        requires some { 0 < length octets.now }
        requires short { length octets.now ≤ 65535 }
        ensures { (areas : List Area) → Imaged place.now areas self.old
            → OnOk result (Imaged place.now
            (areas ++ record { address = address; octets = octets.now } ∷ []) self.new) }
    {
        let first = u64::from(address);
        self.clashes.note(place.from, &self.octets, self.cover.gaps(), address, octets)?;
        self.cover
            .add(u64::from(place.from), first, first + octets.len() as u64)?;
        let Some(size) = self.size(place.from) else {
            return Ok(());
        };
        self.grow(size, place.fill)?;
        self.lay(place.from, address, octets);
        Ok(())
    }

    // Makes it so long, if it is shorter. The only error is out of memory.
    fn grow(&mut self, size: usize, fill: u8) -> Result<(), AllocError>
        ensures octets { OnOk result (octets_of_image self.new ≡ octets_of_image self.old
            ++ replicate (size - length (octets_of_image self.old)) fill) }
        ensures cover { self.new.cover ≡ self.old.cover }
        ensures clashes { self.new.clashes ≡ self.old.clashes }
    {
        if self.octets.len() < size {
            self.octets.resize(size, fill)?;
        }
        Ok(())
    }

    // Lays octets over others, as far as they stand at or behind an address.
    fn lay(&mut self, from: u32, address: u32, octets: &[u8])
        requires { address + length octets.now - from ≤ length (octets_of_image self.old) }
        ensures octets { octets_of_image self.new ≡ put_at (octets_of_image self.old)
            (address - from) (drop (from - address) octets.now) }
        ensures cover { self.new.cover ≡ self.old.cover }
        ensures clashes { self.new.clashes ≡ self.old.clashes }
    {
        let skipped = from.saturating_sub(address) as usize;
        let at = address.saturating_sub(from) as usize;
        let rest = &octets[skipped.min(octets.len())..];
        self.octets[at..at + rest.len()].copy_from_slice(rest);
    }
}

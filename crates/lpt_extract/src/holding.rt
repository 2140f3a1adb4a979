//! What is kept of a stream while it is read.

use crate::image::Image;
use crate::{ExtractEnd, Extracted, Listener, Notice, Tally};
use std::alloc::Global;

/// The image, as far as areas give it, and how much wasn't taken.
#[derive(Drop)]
pub struct Holding {
    pub(crate) image: Image,
    pub(crate) tally: Tally,
}

impl Holding {
    ghost use Rattle.std.specs.Prelude.{◌≡◌, ◌++◌, ◌∷◌, List, [], Option};
    ghost use Rattle.lpt_memory.specs.declared.request.Area.{Area};
    ghost use Rattle.lpt_extract.specs.declared.notice.Notice.{Notice};
    ghost use Rattle.lpt_extract.specs.declared.wanted.ImagePlace.{ImagePlace};
    ghost use Rattle.lpt_extract.specs.CoversInside.{gaps_of};
    ghost use Rattle.lpt_extract.specs.ExtractsInside.{is_unbroken_so_far, HeldAreas};
    ghost use Rattle.lpt_extract.specs.Gaps.{gaps_in};
    ghost use Rattle.lpt_extract.specs.Notices.{Hears};

    /// What is kept before anything was read.
    pub fn new(alloc: Global) -> Holding
        ensures { (at : Option ImagePlace) → HeldAreas at [] [] result }
    {
        Holding {
            image: Image::new(alloc),
            tally: Tally::new(),
        }
    }

    // Whether there is no gap and nothing was passed over.
    pub(crate) fn is_unbroken(&self) -> bool
        ensures { result ≡ is_unbroken_so_far self.now }
    {
        !self.image.has_gaps() && self.tally.passed == 0
    }

    /// Tells something, and counts it.
    pub fn tell<L: Listener>(&mut self, listener: &mut L, notice: Notice)
        ensures held { (at : Option ImagePlace) (areas : List Area) (ns : List Notice)
            → HeldAreas at areas ns self.old → HeldAreas at areas (ns ++ notice ∷ []) self.new }
        ensures heard { Hears (L.heard listener.old) (L.heard listener.new) (notice ∷ []) }
    {
        self.tally.count(notice);
        listener.tell(notice);
    }

    // What an extraction gave that ended so.
    pub(crate) fn into_extracted(self, end: ExtractEnd) -> Extracted
        ensures end { result.end ≡ end }
        ensures gaps { gaps_in result.gaps ≡ gaps_of self.image.cover }
        ensures clashes { result.clashes ≡ self.image.clashes }
        ensures tally { result.tally ≡ self.tally }
    {
        let Holding { image, tally } = self;
        let (gaps, clashes) = image.into_gaps();
        Extracted {
            end,
            gaps,
            clashes,
            tally,
        }
    }
}

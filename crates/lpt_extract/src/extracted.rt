//! What an extraction gave.

use crate::{Clashes, Tally};
use std::collections::BTreeMap;

/// How the extraction of a stream ends that was read to its end.
#[derive(Clone, Copy)]
pub enum ExtractEnd {
    /// What is wanted was written.
    Written,
    /// No area gave an octet that is wanted.
    Nothing,
    /// The image would have so many octets, which is too many.
    TooLarge(u64),
    /// The image was wanted whole, and it isn't.
    NotWhole,
}

/// What an extraction gave.
#[derive(Drop)]
pub struct Extracted {
    /// How it ended.
    pub end: ExtractEnd,
    /// The addresses of the image that no area gave: of each run of them the first, and the last.
    pub gaps: BTreeMap<u64, u64>,
    /// The addresses of the image for which areas gave different octets, of which the last ones
    /// stand there.
    pub clashes: Clashes,
    /// What wasn't taken.
    pub tally: Tally,
}

impl Extracted {
    ghost use Rattle.std.specs.Prelude.{◌≡◌, ◌==◌, length};
    ghost use Rattle.lpt_extract.specs.Extracts.{is_clean};
    ghost use Rattle.lpt_extract.specs.Gaps.{gaps_in};

    /// Whether what is wanted was written, no address of the image is missing, nothing was passed
    /// over, all octets were packets, and none of these carried a part of a message that wasn't
    /// read.
    pub fn is_clean(&self) -> bool
        ensures { result ≡ is_clean self.now }
    {
        let tally = self.tally;
        matches!(self.end, ExtractEnd::Written)
            && self.has_none_missing()
            && tally.passed == 0
            && tally.damaged == 0
            && tally.stray == 0
            && tally.parts.count == 0
    }

    // Whether there are no gaps.
    fn has_none_missing(&self) -> bool
        ensures { result ≡ (length (gaps_in self.now.gaps) == 0) }
    {
        self.gaps.is_empty()
    }
}

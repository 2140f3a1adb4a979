//! What is kept of a stretch of octets to judge the frames that end where it ends.

ghost use Rattle.std.specs.Prelude.{◌≡◌, ◌≤◌};

use crate::register::{octet_in, octets_in, power};
use crate::search::may_be_zero;

// The checksum's registers before a place of a stretch, and behind its last octet.
#[derive(Drop)]
pub(crate) struct Ends {
    // The register before the place.
    before: u16,
    // The one behind the last octet.
    behind: u16,
}

impl Ends {
    ghost use Rattle.std.specs.Prelude.{◌≡◌, ◌≢◌, ◌≤◌, ◌<◌, ◌+◌, List, ℕ, drop, get_or, false, length};
    ghost use Rattle.lpt_packet.specs.Checksums.{checksum};
    ghost use Rattle.lpt_packet.specs.Sizes.{longest_packet};
    ghost use Rattle.lpt_stream.specs.Ending.{EndsAt};

    // Those of these octets; the place is their front.
    pub(crate) fn new(octets: &[u8]) -> Self
        ensures { EndsAt 0 result octets.now }
    {
        Ends {
            before: 0,
            behind: octets_in(0, octets),
        }
    }

    // Passes over the octet at the place.
    pub(crate) fn pass(&mut self, octet: u8)
        ensures { (at : ℕ) (octets : List ℕ) → EndsAt at self.old octets
            → at < length octets → octet ≡ get_or octets at 0
            → EndsAt (at + 1) self.new octets }
    {
        self.before = octet_in(self.before, octet);
    }

    // Whether the checksum of the octets from the place on, of which there are `len`, may be 0, as
    // that of each packet is, with its packet error control. If it may not, it isn't. However
    // many they are, this takes a bounded time.
    pub(crate) fn may_fit(&self, len: usize) -> bool
        requires { len ≤ longest_packet }
        ensures { (at : ℕ) (octets : List ℕ) → EndsAt at self.now octets
            → at + len ≡ length octets → result ≡ false → checksum (drop at octets) ≢ 0 }
    {
        may_be_zero(self.before, power(len), self.behind)
    }
}

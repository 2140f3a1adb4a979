//! What is kept of a stretch of octets in room that the caller gives.

ghost use Rattle.std.specs.Prelude.{◌≡◌, ◌≢◌, ◌≤◌, ◌<◌, ◌+◌, ◌*◌, List, ℕ, length};
ghost use Rattle.lpt_stream.specs.Registers.{AreMarks};

use crate::register::{octet_in, octets_in, power};
use crate::search::may_be_zero;

/// So many octets lie from one kept register to the next.
const STEP: usize = 64;

/// The checksum's registers before each 64th octet of a stretch, as far as they were asked for, in
/// room that the caller holds; and the one before the place that is judged.
#[derive(Drop)]
pub struct Marks {
    // So many of the numbers in the room, from its front on, are registers.
    marked: usize,
    // The register before the place.
    before: u16,
}

impl Marks {
    ghost use Rattle.std.specs.Prelude.{◌≡◌, ◌≢◌, ◌≤◌, ◌<◌, ◌+◌, List, ℕ, drop, take, get_or, false, length};
    ghost use Rattle.lpt_packet.specs.Checksums.{checksum};
    ghost use Rattle.lpt_packet.specs.Sizes.{longest_packet};
    ghost use Rattle.lpt_stream.specs.Marked.{Marked};

    /// Marks of which none is kept yet; the place is the front.
    pub fn new() -> Self
        ensures { (room octets : List ℕ) → Marked 0 result room octets }
    {
        Marks {
            marked: 0,
            before: 0,
        }
    }

    /// Passes over the octet at the place.
    pub fn pass(&mut self, octet: u8)
        ensures { (at : ℕ) (room octets : List ℕ) → Marked at self.old room octets
            → at < length octets → octet ≡ get_or octets at 0
            → Marked (at + 1) self.new room octets }
    {
        self.before = octet_in(self.before, octet);
    }

    /// Whether the checksum of the `len` octets at the place may be 0, as that of each packet is,
    /// with its packet error control. If it may not, it isn't. If the room ends before the
    /// octets do, the answer is that it may: 2,049 numbers are enough for two of the longest
    /// packets.
    pub fn may_fit(&mut self, room: &mut [u16], octets: &[u8], at: usize, len: usize) -> bool
        requires marked { Marked at self.old room.old octets.now }
        requires within { at + len ≤ length octets.now }
        requires short { len ≤ longest_packet }
        ensures marked { Marked at self.new room.new octets.now }
        ensures never { result ≡ false → checksum (take len (drop at octets.now)) ≢ 0 }
    {
        let end = at + len;
        let last = end / STEP;
        if last >= room.len() {
            return true;
        }
        self.marked = extend_marks(room, self.marked, octets, last);
        let behind = octets_in(room[last], &octets[last * STEP..end]);
        may_be_zero(self.before, power(len), behind)
    }
}

// Goes on with the marks up to this one; so many there are then.
fn extend_marks(room: &mut [u16], marked: usize, octets: &[u8], last: usize) -> usize
    requires are { AreMarks marked room.old octets.now }
    requires room { last < length room.old }
    requires within { last * 64 ≤ length octets.now }
    ensures are { AreMarks result room.new octets.now }
    ensures far { last < result }
{
    let mut count = begin_marks(room, marked);
    while count <= last {
        let from = (count - 1) * STEP;
        room[count] = octets_in(room[count - 1], &octets[from..from + STEP]);
        count += 1;
    }
    count
}

// Begins with the first, if there is none.
fn begin_marks(room: &mut [u16], marked: usize) -> usize
    requires room { 0 < length room.old }
    ensures are { (octets : List ℕ) → AreMarks marked room.old octets
        → AreMarks result room.new octets }
    ensures some { 0 < result }
    ensures size { length room.new ≡ length room.old }
{
    if marked > 0 {
        return marked;
    }
    room[0] = 0;
    1
}

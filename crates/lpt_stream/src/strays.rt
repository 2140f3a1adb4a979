//! The octets at the front of a stream that are none of a packet.

ghost use Rattle.std.specs.Prelude.{◌≡◌, ◌≤◌, length, drop, min, take, true, false};
ghost use Rattle.lpt_packet.specs.Sizes.{longest_packet};
ghost use Rattle.lpt_stream.specs.Marked.{Marked};
ghost use Rattle.lpt_stream.specs.Pieces.{begins, lookahead};
ghost use Rattle.lpt_stream.specs.Strays.{is_octet_of_none, is_stray, strays_in};

use crate::found::length_announced;
use crate::front::{LOOKAHEAD, piece_unless};
use crate::{Marks, PieceKind};
use lpt_packet::LONGEST_PACKET;

/// How many octets at the front are none of a packet, out of step: so many times, one behind the
/// other, `piece_in_front` finds one stray octet. At most 65,542.
///
/// In `room` the checksum's registers are kept: with 2,049 numbers an octet takes a bounded time,
/// however long the packets are that headers announce. With fewer the answer is the same.
pub fn strays_in_front(octets: &[u8], is_end: bool, room: &mut [u16]) -> usize
    ensures { result ≡ min longest_packet (strays_in is_end octets.now) }
{
    let most = LONGEST_PACKET.min(octets.len());
    let mut marks = Marks::new();
    let mut count = 0;
    while count < most {
        if !is_stray(&mut marks, room, octets, count, is_end) {
            return count;
        }
        marks.pass(octets[count]);
        count += 1;
    }
    most
}

// Whether the octet at this place is one of none.
fn is_stray(marks: &mut Marks, room: &mut [u16], octets: &[u8], at: usize, is_end: bool) -> bool
    requires marked { Marked at marks.old room.old octets.now }
    requires within { at ≤ length octets.now }
    ensures marked { Marked at marks.new room.new octets.now }
    ensures stray { result ≡ is_stray is_end (drop at octets.now) }
{
    let is_judged = shows_none(marks, room, octets, at);
    match piece_unless(is_judged, &octets[at..], false, is_end) {
        Some(found) => is_octet_of_none(found.kind),
        None => false,
    }
}

// Whether a piece of this kind is such an octet.
fn is_octet_of_none(kind: PieceKind) -> bool
    ensures { result ≡ is_octet_of_none kind }
{
    match kind {
        PieceKind::Whole | PieceKind::Damaged => false,
        PieceKind::Stray => true,
    }
}

// Whether it shows already that no packet begins there: the checksum of what a header announces is
// wrong.
fn shows_none(marks: &mut Marks, room: &mut [u16], octets: &[u8], at: usize) -> bool
    requires marked { Marked at marks.old room.old octets.now }
    requires within { at ≤ length octets.now }
    ensures marked { Marked at marks.new room.new octets.now }
    ensures none { result ≡ true
        → begins false (take lookahead (drop at octets.now)) ≡ false }
{
    let front = &octets[at..];
    match length_announced(&front[..LOOKAHEAD.min(front.len())]) {
        Some(len) => !marks.may_fit(room, octets, at, len),
        None => false,
    }
}

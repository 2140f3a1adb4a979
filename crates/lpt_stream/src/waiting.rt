//! Whether what stands at the front of a stream depends on octets that may still come.

ghost use Rattle.std.specs.Prelude.{◌≡◌, ◌+◌, ◌<◌, ◌==◌, ◌||◌, ◌&&◌, if◌then◌else◌, not, suc, length, true, false};
ghost use Rattle.lpt_packet.specs.Numbers.{word_at};
ghost use Rattle.lpt_packet.specs.Sizes.{longest_packet};
ghost use Rattle.lpt_stream.specs.Pieces.{begins, begins_by, first_fits, flags_fit, follow_waits, is_framed, is_open, is_version, may_begin, most_in_row, size_fits, waits, waits_by, waits_to_resume};

use crate::Cut;
use crate::cutting::whole_length;
use crate::found::has_version;
use crate::front::LOOKAHEAD;
use crate::reaching::{believed_length, follow_waits, is_awaited, reach_waits};

// Whether it does, of octets with which no packet begins as they are.
pub(crate) fn waits(cut: Cut, bytes: &[u8], in_step: bool) -> bool
    requires { begins_by cut in_step bytes.now ≡ false }
    ensures waits { result ≡ waits_by cut in_step bytes.now }
    ensures few { result ≡ true → length bytes.now < 131084 }
{
    match cut {
        Cut::Sealed => sealed_waits(bytes, in_step),
        Cut::Framed => framed_waits(bytes, in_step),
        Cut::Resumed(longest) => bytes.len() < LOOKAHEAD && resumed_waits(longest, bytes, in_step),
    }
}

// The same by lengths alone.
fn framed_waits(bytes: &[u8], in_step: bool) -> bool
    ensures waits { result
        ≡ ((length bytes.now == 0)
        || (in_step && (is_version bytes.now && not (is_framed bytes.now)))) }
    ensures few { result ≡ true → length bytes.now < 131084 }
{
    bytes.is_empty() || in_step && has_version(bytes) && whole_length(bytes).is_none()
}

// The same if lengths are believed that aren't above the longest packet's: in step where they lead,
// and out of step how far packets follow one another.
fn resumed_waits(longest: usize, bytes: &[u8], in_step: bool) -> bool
    ensures { result ≡ (if in_step then waits_to_resume longest bytes.now
        else may_begin bytes.now && follow_waits longest most_in_row (suc longest) bytes.now) }
{
    if in_step {
        waits_to_resume(longest, bytes)
    } else {
        may_begin(bytes) && follow_waits(longest, bytes)
    }
}

// Whether fewer octets have come than the header says, or it isn't known yet where lengths lead.
fn waits_to_resume(longest: usize, bytes: &[u8]) -> bool
    ensures { result ≡ waits_to_resume longest bytes.now }
{
    match believed_length(longest, bytes) {
        Some(len) => reach_waits(longest, &bytes[len..]),
        None => is_awaited(longest, bytes),
    }
}

// The same by checksums.
fn sealed_waits(bytes: &[u8], in_step: bool) -> bool
    requires { begins in_step bytes.now ≡ false }
    ensures waits { result ≡ waits in_step bytes.now }
    ensures few { result ≡ true → length bytes.now < 131084 }
{
    match whole_length(bytes) {
        Some(len) => in_step && is_open(&bytes[len..]),
        None => in_step || may_begin(bytes),
    }
}

// Whether a packet may begin with these octets, and not all of its octets have come.
fn is_open(bytes: &[u8]) -> bool
    ensures open { result ≡ is_open bytes.now }
    ensures few { result ≡ true → length bytes.now < longest_packet }
{
    may_begin(bytes) && whole_length(bytes).is_none()
}

// Whether one may begin with these octets and others behind them: none of the words of a header
// that have come is wrong.
pub(crate) fn may_begin(bytes: &[u8]) -> bool
    ensures { result ≡ may_begin bytes.now }
{
    first_fits(bytes) && flags_fit(bytes) && size_fits(bytes)
}

// Whether the first word is right: version 0, a secondary header, and no idle packet.
fn first_fits(bytes: &[u8]) -> bool
    ensures { result ≡ first_fits bytes.now }
{
    if bytes.len() < 2 {
        return bytes.is_empty() || bytes[0] >> 5 == 0;
    }
    let first = word(bytes, 0);
    first >> 13 == 0 && (first >> 11) & 1 == 1 && first & 0x07ff != 0x07ff
}

// Whether the second is: unsegmented.
fn flags_fit(bytes: &[u8]) -> bool
    ensures { result ≡ flags_fit bytes.now }
{
    bytes.len() < 4 || word(bytes, 2) >> 14 == 3
}

// Whether the third is: there is room for a checksum.
fn size_fits(bytes: &[u8]) -> bool
    ensures { result ≡ size_fits bytes.now }
{
    bytes.len() < 6 || word(bytes, 4) != 0
}

// The word at a place.
pub(crate) fn word(bytes: &[u8], at: usize) -> u16
    requires { at + 1 < length bytes.now }
    ensures { result ≡ word_at bytes.now at }
{
    u16::from_be_bytes([bytes[at], bytes[at + 1]])
}

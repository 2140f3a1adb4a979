//! Where the lengths of packets lead, and how far packets follow one another.

ghost use Rattle.std.specs.Prelude.{◌≡◌, ◌+◌, ◌≤◌, ◌==◌, ◌&&◌, suc, length, true, false, None, IfSome};
ghost use Rattle.lpt_packet.specs.Numbers.{word_at};
ghost use Rattle.lpt_stream.specs.Pieces.{ends_in_checksum, fits, follow_waits, follows, frame, is_awaited, is_too_short, leads, most_damaged, most_in_row, reach_waits, reaches};

use crate::cutting::{packet_length, whole_length};
use crate::found::{begins_again, ends_in_checksum};
use crate::waiting::word;

// Over at most so many packets in a row is looked on, if only their lengths are believed.
const MOST_DAMAGED: usize = 256;

// So many packets with a checksum have more octets than the longest.
const MOST_IN_ROW: usize = 8193;

// Whether lengths lead from here to a packet with a right checksum, or, if that counts, to the end.
pub(crate) fn reaches(end_counts: bool, longest: usize, bytes: &[u8]) -> bool
    ensures { result ≡ reaches end_counts longest most_damaged bytes.now }
{
    let mut at = 0;
    for count in 0..MOST_DAMAGED {
        let rest = &bytes[at..];
        let Some(len) = leading_length(longest, rest) else {
            return ends_within(end_counts, longest, rest);
        };
        if begins_again(rest) {
            return true;
        }
        at += len;
    }
    false
}

// Whether the end is here, or cuts off what stands here, if that counts.
fn ends_within(counts: bool, longest: usize, bytes: &[u8]) -> bool
    ensures { result ≡ (counts && is_awaited longest bytes.now) }
{
    counts && is_awaited(longest, bytes)
}

// Whether it depends on octets that may still come where they lead.
pub(crate) fn reach_waits(longest: usize, bytes: &[u8]) -> bool
    ensures { result ≡ reach_waits longest most_damaged bytes.now }
{
    let mut at = 0;
    for count in 0..MOST_DAMAGED {
        let rest = &bytes[at..];
        let Some(len) = leading_length(longest, rest) else {
            return is_awaited(longest, rest);
        };
        if begins_again(rest) {
            return false;
        }
        at += len;
    }
    false
}

// Whether packets with right checksums follow one another for more octets than the longest has, or,
// if that counts, up to the end.
pub(crate) fn follows(end_counts: bool, longest: usize, bytes: &[u8]) -> bool
    ensures { result ≡ follows end_counts longest most_in_row (suc longest) bytes.now }
{
    let mut at = 0;
    for count in 0..MOST_IN_ROW {
        if at > longest {
            return true;
        }
        let rest = &bytes[at..];
        if is_end(end_counts, rest) {
            return true;
        }
        let Some(len) = right_length(longest, rest) else {
            return false;
        };
        at += len;
    }
    false
}

// Whether nothing comes any more, if that counts.
fn is_end(counts: bool, bytes: &[u8]) -> bool
    ensures { result ≡ (counts && (length bytes.now == 0)) }
{
    counts && bytes.is_empty()
}

// Whether it depends on octets that may still come how far they follow.
pub(crate) fn follow_waits(longest: usize, bytes: &[u8]) -> bool
    ensures { result ≡ follow_waits longest most_in_row (suc longest) bytes.now }
{
    let mut at = 0;
    for count in 0..MOST_IN_ROW {
        if at > longest {
            return false;
        }
        let rest = &bytes[at..];
        let Some(len) = believed_length(longest, rest) else {
            return is_awaited(longest, rest);
        };
        if !ends_in_checksum(&rest[..len]) {
            return false;
        }
        at += len;
    }
    false
}

// How many octets the packet here has, if as many have come as its header says, and that is
// believed.
pub(crate) fn believed_length(longest: usize, bytes: &[u8]) -> Option<usize>
    ensures some { IfSome result (λ n. (fits longest bytes.now ≡ true)
        × (n ≡ 7 + word_at bytes.now 4)
        × (n ≤ length bytes.now)) }
    ensures none { result ≡ None → fits longest bytes.now ≡ false }
{
    let len = whole_length(bytes)?;
    if len <= longest { Some(len) } else { None }
}

// The same, if it leads on: seven octets do if they are an idle packet.
fn leading_length(longest: usize, bytes: &[u8]) -> Option<usize>
    ensures some { IfSome result (λ n. (leads longest bytes.now ≡ true)
        × (n ≡ 7 + word_at bytes.now 4)
        × (n ≤ length bytes.now)) }
    ensures none { result ≡ None → leads longest bytes.now ≡ false }
{
    let len = believed_length(longest, bytes)?;
    if is_too_short(bytes) { None } else { Some(len) }
}

// Whether a header says seven octets, and not that they are an idle packet.
fn is_too_short(bytes: &[u8]) -> bool
    requires { 6 ≤ length bytes.now }
    ensures { result ≡ is_too_short bytes.now }
{
    word(bytes, 4) == 0 && word(bytes, 0) & 0x07ff != 0x07ff
}

// How many octets a packet that is believed has, if its checksum is right too.
fn right_length(longest: usize, bytes: &[u8]) -> Option<usize>
    ensures some { IfSome result (λ n.
        ((fits longest bytes.now && ends_in_checksum (frame bytes.now)) ≡ true)
        × (n ≡ 7 + word_at bytes.now 4)
        × (n ≤ length bytes.now)) }
    ensures none { result ≡ None
        → (fits longest bytes.now && ends_in_checksum (frame bytes.now)) ≡ false }
{
    let len = believed_length(longest, bytes)?;
    if ends_in_checksum(&bytes[..len]) {
        Some(len)
    } else {
        None
    }
}

/// Whether more octets are awaited here, on a link whose longest packet has so many: those of a
/// header, or as many as it says, if these aren't more.
pub fn is_awaited(longest: usize, bytes: &[u8]) -> bool
    ensures { result ≡ is_awaited longest bytes.now }
{
    match packet_length(bytes) {
        Some(len) => bytes.len() < len && len <= longest,
        None => true,
    }
}

//! The piece at the front of a stream (CCSDS 133.0-B), if not all octets are packets.

ghost use Rattle.std.specs.Prelude.{◌≡◌, ◌≢◌, ◌+◌, ◌<◌, ◌≤◌, ◌==◌, ◌||◌, ◌&&◌, if◌then◌else◌, true, false, length, take, None, IfSome};
ghost use Rattle.lpt_packet.specs.Checksums.{checksum};
ghost use Rattle.lpt_packet.specs.Numbers.{word_at};
ghost use Rattle.lpt_packet.specs.Sizes.{longest_packet};
ghost use Rattle.lpt_stream.specs.Pieces.{begins, begins_by, ends_in_checksum, frame, is_all, is_cut_off, is_found, is_framed, is_of_flags, is_version, kind_by, len_by, other_by, passes_by};
ghost use Rattle.lpt_stream.specs.declared.cut.Cut.TheVariants.{Resumed};
ghost use Rattle.lpt_stream.specs.declared.piece_kind.PieceKind.TheVariants.{Whole, Stray};

use crate::cutting::whole_length;
use crate::ending::ends_in_packet;
use crate::front::LOOKAHEAD;
use crate::reaching::{follows, is_awaited, reaches};
use crate::waiting::may_begin;
use crate::{Cut, PieceKind};
use lpt_packet::{ERROR_CONTROL, PRIMARY_HEADER, PacketFault, Seen, crc16, read_packet};

/// The piece at the front of octets.
#[derive(Clone, Copy, Debug)]
pub struct Found {
    /// What it is.
    pub kind: PieceKind,
    /// How many octets it has.
    pub len: usize,
}

// How many octets the packet at the front has, if one has come whole.
pub(crate) fn packet_in_front(cut: Cut, bytes: &[u8], in_step: bool) -> Option<usize>
    ensures some { IfSome result (λ n. (begins_by cut in_step bytes.now ≡ true)
        × (n ≡ 7 + word_at bytes.now 4)
        × (n ≤ length bytes.now)) }
    ensures least { IfSome result (λ n. 0 < n) }
    ensures none { result ≡ None → begins_by cut in_step bytes.now ≡ false }
{
    match cut {
        Cut::Sealed => sealed_in_front(bytes, in_step),
        Cut::Framed => framed_in_front(bytes, in_step),
        Cut::Resumed(longest) => resumed_in_front(longest, bytes, in_step),
    }
}

// The same by lengths alone, which are looked at in step alone.
fn framed_in_front(bytes: &[u8], in_step: bool) -> Option<usize>
    ensures some { IfSome result (λ n.
        ((in_step && (is_version bytes.now && is_framed bytes.now)) ≡ true)
        × (n ≡ 7 + word_at bytes.now 4)
        × (n ≤ length bytes.now)) }
    ensures least { IfSome result (λ n. 0 < n) }
    ensures none { result ≡ None
        → (in_step && (is_version bytes.now && is_framed bytes.now)) ≡ false }
{
    if !in_step || !has_version(bytes) {
        return None;
    }
    whole_length(bytes)
}

// The same by checksums, if the packet isn't longer than the longest, and, out of step, if packets
// follow one another from there for more octets.
fn resumed_in_front(longest: usize, bytes: &[u8], in_step: bool) -> Option<usize>
    ensures some { IfSome result (λ n. (begins_by (Resumed longest) in_step bytes.now ≡ true)
        × (n ≡ 7 + word_at bytes.now 4)
        × (n ≤ length bytes.now)) }
    ensures least { IfSome result (λ n. 0 < n) }
    ensures none { result ≡ None → begins_by (Resumed longest) in_step bytes.now ≡ false }
{
    let len = sealed_in_front(bytes, in_step)?;
    let is_one = if in_step {
        len <= longest
    } else {
        follows(false, longest, bytes)
    };
    if is_one { Some(len) } else { None }
}

// Whether the version of what begins here is 0, as far as it has come.
pub(crate) fn has_version(bytes: &[u8]) -> bool
    ensures { result ≡ is_version bytes.now }
{
    bytes.is_empty() || bytes[0] >> 5 == 0
}

// The same by checksums; an idle packet counts in step alone, and so does one without a secondary
// header, or a segment.
fn sealed_in_front(bytes: &[u8], in_step: bool) -> Option<usize>
    ensures some { IfSome result (λ n. (begins in_step bytes.now ≡ true)
        × (n ≡ 7 + word_at bytes.now 4)
        × (n ≤ length bytes.now)) }
    ensures least { IfSome result (λ n. 0 < n) }
    ensures none { result ≡ None → begins in_step bytes.now ≡ false }
{
    let len = whole_length(bytes)?;
    if is_found(&bytes[..len], in_step) {
        Some(len)
    } else {
        None
    }
}

// Whether these octets are taken as a packet.
fn is_found(octets: &[u8], in_step: bool) -> bool
    ensures { result ≡ is_found in_step octets.now }
{
    match read_packet(octets) {
        Ok(Seen::Packet(_)) => true,
        Ok(Seen::Idle) => in_step,
        Err(fault) => is_of_flags(fault) && in_step && ends_in_checksum(octets),
    }
}

// Whether it is a test of the header's flags alone.
fn is_of_flags(fault: PacketFault) -> bool
    ensures { result ≡ is_of_flags fault }
{
    matches!(fault, PacketFault::Segmented | PacketFault::NoSecondary)
}

/// Whether the last two octets, behind a primary header, are the checksum of those before.
pub fn ends_in_checksum(octets: &[u8]) -> bool
    ensures value { result ≡ ends_in_checksum octets.now }
    ensures long { result ≡ true → 8 ≤ length octets.now }
{
    if octets.len() < PRIMARY_HEADER + ERROR_CONTROL {
        return false;
    }
    let end = octets.len() - ERROR_CONTROL;
    crc16(&octets[..end]) == u16::from_be_bytes([octets[end], octets[end + 1]])
}

// The same, if it isn't judged already that none is there.
pub(crate) fn packet_unless(is_judged: bool, cut: Cut, bytes: &[u8], in_step: bool) -> Option<usize>
    requires { is_judged ≡ true → begins_by cut in_step bytes.now ≡ false }
    ensures some { IfSome result (λ n. (begins_by cut in_step bytes.now ≡ true)
        × (n ≡ 7 + word_at bytes.now 4)
        × (n ≤ length bytes.now)) }
    ensures least { IfSome result (λ n. 0 < n) }
    ensures none { result ≡ None → begins_by cut in_step bytes.now ≡ false }
{
    if is_judged {
        return None;
    }
    packet_in_front(cut, bytes, in_step)
}

// How many octets the packet has that the header in front announces, if they have all come. If
// their checksum isn't 0, no packet begins there, behind octets that are none; nor if there is no
// such header.
pub(crate) fn length_announced(bytes: &[u8]) -> Option<usize>
    ensures within { IfSome result (λ n. n ≤ length bytes.now) }
    ensures short { IfSome result (λ n. n ≤ longest_packet) }
    ensures none { IfSome result (λ n. checksum (take n bytes.now) ≢ 0
        → begins false bytes.now ≡ false) }
    ensures len { IfSome result (λ n. n ≡ 7 + word_at bytes.now 4) }
    ensures missed { result ≡ None → begins false bytes.now ≡ false }
    ensures wrong { IfSome result (λ n. checksum (take n bytes.now) ≢ 0
        → ends_in_checksum (frame bytes.now) ≡ false) }
{
    let len = whole_length(bytes)?;
    if may_begin(bytes) { Some(len) } else { None }
}

// What stands at the front of octets with which no packet begins.
pub(crate) fn other_in_front(cut: Cut, bytes: &[u8], in_step: bool) -> Found
    requires some { 0 < length bytes.now }
    requires none { begins_by cut in_step bytes.now ≡ false }
    ensures kind { result.kind ≡ kind_by cut in_step bytes.now }
    ensures len { result.len ≡ len_by cut in_step bytes.now }
    ensures least { 0 < result.len }
    ensures within { result.len ≤ length bytes.now }
{
    match whole_length(bytes) {
        Some(len) => {
            let kind = other_framed(cut, bytes, in_step, len);
            let len = if kind == PieceKind::Stray { 1 } else { len };
            Found { kind, len }
        }
        None => unfinished_in_front(cut, bytes, in_step),
    }
}

// The same where fewer octets stand than the header says.
fn unfinished_in_front(cut: Cut, bytes: &[u8], in_step: bool) -> Found
    requires some { 0 < length bytes.now }
    requires unfinished { is_framed bytes.now ≡ false }
    ensures kind { result.kind ≡ kind_by cut in_step bytes.now }
    ensures len { result.len ≡ len_by cut in_step bytes.now }
    ensures least { 0 < result.len }
    ensures within { result.len ≤ length bytes.now }
{
    if is_cut_off(cut, bytes, in_step) {
        Found {
            kind: PieceKind::Damaged,
            len: bytes.len(),
        }
    } else {
        Found {
            kind: PieceKind::Stray,
            len: 1,
        }
    }
}

// Whether the stream ends within what stands here in step, if its length is believed.
fn is_cut_off(cut: Cut, bytes: &[u8], in_step: bool) -> bool
    ensures { result ≡ is_cut_off cut in_step bytes.now }
{
    match cut {
        Cut::Sealed | Cut::Framed => false,
        Cut::Resumed(longest) => in_step && is_all(bytes) && is_awaited(longest, bytes),
    }
}

// Whether what is looked at is all that stands before the stream's end.
fn is_all(bytes: &[u8]) -> bool
    ensures { result ≡ is_all bytes.now }
{
    bytes.len() < LOOKAHEAD
}

// The same where as many octets have come as the header says.
fn other_framed(cut: Cut, bytes: &[u8], in_step: bool, len: usize) -> PieceKind
    requires within { len ≤ length bytes.now }
    requires len { len ≡ 7 + word_at bytes.now 4 }
    requires short { len ≤ longest_packet }
    requires none { begins_by cut in_step bytes.now ≡ false }
    ensures { result ≡ kind_by cut in_step bytes.now }
{
    if in_step {
        if passes_over(cut, bytes, len) {
            return PieceKind::Damaged;
        }
    } else if is_last(cut, bytes) {
        return PieceKind::Whole;
    }
    PieceKind::Stray
}

// Whether so many octets in front, as many as their header says, are passed over as one.
fn passes_over(cut: Cut, bytes: &[u8], len: usize) -> bool
    requires within { len ≤ length bytes.now }
    requires len { len ≡ 7 + word_at bytes.now 4 }
    requires short { len ≤ longest_packet }
    ensures { result ≡ passes_by cut bytes.now }
{
    match cut {
        Cut::Sealed => ends_or_goes_on(&bytes[len..]) && !ends_in_packet(&bytes[..len]),
        Cut::Framed => false,
        Cut::Resumed(longest) => {
            len <= longest && reaches(is_all(bytes), longest, &bytes[len..])
        }
    }
}

// Whether packets follow one another from there to the stream's end, behind octets astray.
fn is_last(cut: Cut, bytes: &[u8]) -> bool
    ensures { other_by cut false bytes.now ≡ (if result then Whole else Stray) }
{
    match cut {
        Cut::Sealed | Cut::Framed => false,
        Cut::Resumed(longest) => begins_again(bytes) && follows(true, longest, bytes),
    }
}

// Whether there are no octets, or a packet begins with them.
pub(crate) fn ends_or_goes_on(bytes: &[u8]) -> bool
    ensures { result ≡ ((length bytes.now == 0) || begins false bytes.now) }
{
    bytes.is_empty() || begins_again(bytes)
}

// Whether a packet begins with them, by its checksum.
pub(crate) fn begins_again(bytes: &[u8]) -> bool
    ensures { result ≡ begins false bytes.now }
{
    sealed_in_front(bytes, false).is_some()
}

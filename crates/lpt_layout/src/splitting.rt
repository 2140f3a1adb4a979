//! How a message is split into parts of any part size, and what a part tells of the part size.

ghost use Rattle.std.specs.Prelude.{◌≡◌, ◌↔◌, ◌<◌, ◌≤◌, length, IsSome, IfSome};
ghost use Rattle.lpt_packet.specs.Sizes.{longest_packet};
ghost use Rattle.lpt_part.specs.Parts.{nth_part};
ghost use Rattle.lpt_part.specs.Splitting.{part_count, part_of};
ghost use Rattle.lpt_layout.specs.Parts.{IsPartSizeAs, piece, told_size};

use crate::laws::parts_fit_as;
use crate::{PartAs, PartLayout};
use lpt_part::Kind;

/// How many parts of `p` octets, 1 to 65,535, a message of `len` octets has. The last part may be
/// shorter.
pub fn count_as(len: u32, p: u32) -> u32
    requires { IsPartSizeAs p }
    ensures { result ≡ part_count len p }
{
    len.div_ceil(p)
}

/// Part `k` of a message that has as many, for parts of `p` octets, 1 to 65,535; parts are counted
/// from 1.
pub fn part_at_as(message: &[u8], p: u32, id: u32, k: u32) -> PartAs<'_>
    requires part_size { IsPartSizeAs p }
    requires long { p < length message.now }
    requires short { length message.now ≤ longest_packet }
    requires some { 1 ≤ k }
    requires within { k ≤ part_count (length message.now) p }
    ensures { piece result ≡ nth_part p id message.now k }
{
    let total = count_as(message.len() as u32, p);
    let kind = if k == 1 {
        Kind::First
    } else if k == total {
        Kind::Last
    } else {
        Kind::Middle
    };
    parts_fit_as();
    let Some(octets) = slice_as(message, p, k) else {
        unreachable!();
    };
    PartAs {
        id,
        number: k,
        kind,
        octets,
    }
}

// The octets of part `k` of a message, `None` if it has fewer.
fn slice_as(message: &[u8], p: u32, k: u32) -> Option<&[u8]>
    requires { IsPartSizeAs p }
    ensures some { IsSome result ↔ ((1 ≤ k) × (k ≤ part_count (length message.now) p)) }
    ensures part { IfSome result (λ s. s.now ≡ part_of message.now p k) }
{
    let size = p as usize;
    let start = k.checked_sub(1)? as usize * size;
    if start >= message.len() {
        return None;
    }
    let end = message.len().min(start + size);
    Some(&message[start..end])
}

/// The part size that the body of a part of this kind tells: how many octets it has behind its
/// identifier and its number. All parts of a message but its last have as many.
///
/// `None` for a last part, and for one of no octets or of more than 65,535.
pub fn told_size(layout: &PartLayout, kind: Kind, body: &[u8]) -> Option<u32>
    ensures { result ≡ told_size layout.now kind body.now }
{
    let len = body.len().checked_sub(layout.header())?;
    match kind {
        Kind::First | Kind::Middle if 1 <= len && len <= 65535 => Some(len as u32),
        _ => None,
    }
}

//! How a message is split into parts.

ghost use Rattle.std.specs.Prelude.{◌≡◌, ◌↔◌, ◌<◌, ◌≤◌, length, IsSome, IfSome};
ghost use Rattle.lpt_packet.specs.Sizes.{longest_packet};
ghost use Rattle.lpt_part.specs.Parts.{nth_part, piece};
ghost use Rattle.lpt_part.specs.Splitting.{part_count, part_of, IsPartSize};

use crate::laws::parts_fit;
use crate::{Kind, Part, TransactionId};

/// How many parts of `p` octets a message of `len` octets has. The last part may be shorter.
pub fn count(len: u32, p: u32) -> u32
    requires { IsPartSize p }
    ensures { result ≡ part_count len p }
{
    len.div_ceil(p)
}

/// The octets of part `k` of a message that is split into parts of `p` octets; parts are counted
/// from 1. `None` if `k` is 0 or greater than the number of parts.
pub fn slice(message: &[u8], p: u32, k: u32) -> Option<&[u8]>
    requires { IsPartSize p }
    ensures some { IsSome result ↔ ((1 ≤ k) × (k ≤ part_count (length message.now) p)) }
    ensures part { IfSome result (λ s. s.now ≡ part_of message.now p k) }
{
    let size = p as usize;
    let start = k.checked_sub(1)? as usize * size;
    if start >= message.len() {
        return None;
    }
    let end = message.len().min(start + size);
    Some(&message[start..end])
}

/// Part `k` of a message that has as many, for parts of `p` octets; parts are counted from 1.
pub fn part_at(message: &[u8], p: u32, id: TransactionId, k: u16) -> Part<'_>
    requires part_size { IsPartSize p }
    requires long { p < length message.now }
    requires short { length message.now ≤ longest_packet }
    requires some { 1 ≤ k }
    requires within { k ≤ part_count (length message.now) p }
    ensures part { piece result ≡ nth_part p id message.now k }
    ensures size { result.p ≡ p }
{
    parts_fit();
    let total = count(message.len() as u32, p);
    let kind = if k == 1 {
        Kind::First
    } else if u32::from(k) == total {
        Kind::Last
    } else {
        Kind::Middle
    };
    let Some(octets) = slice(message, p, u32::from(k)) else {
        unreachable!();
    };
    Part {
        id,
        number: k,
        kind,
        octets,
        p,
    }
}

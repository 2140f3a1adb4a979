//! What a word of a generator says.

ghost use Rattle.std.specs.Prelude.{◌≡◌, ◌≤◌, ◌<◌, true, false};

use crate::Burst;

/// All of it, in millionths.
pub(crate) const ALWAYS: u64 = 1_000_000;

// Whether what happens as often as this happens.
pub(crate) fn befalls(odds: u32, word: u64) -> bool
    ensures { result ≡ true → 0 < odds }
{
    word % ALWAYS < u64::from(odds)
}

// A number up to this one.
pub(crate) fn up_to(most: u16, word: u64) -> u16 {
    (word % (u64::from(most) + 1)) as u16
}

// Bits to change, in a packet of so many octets: not in its first octet and its length field.
pub(crate) fn burst_of(len: usize, word: u64) -> Burst
    requires { 7 ≤ len }
    ensures { result.in_header ≡ false }
{
    let bits = word % 65_535 + 1;
    let place = (word / 65_536 % (len as u64 - 5)) as usize;
    Burst {
        at: if place < 2 { place + 1 } else { place + 4 },
        first: (bits / 256) as u8,
        second: (bits % 256) as u8,
        in_header: false,
    }
}

// Bits to change of a primary header.
pub(crate) fn burst_of_header(word: u64) -> Burst
    ensures { result.in_header ≡ true }
{
    let bits = word % 65_535 + 1;
    Burst {
        at: (word / 65_536 % 5) as usize,
        first: (bits / 256) as u8,
        second: (bits % 256) as u8,
        in_header: true,
    }
}

//! The first place of an octet, and the first line end.

ghost use Rattle.std.specs.Prelude.{◌≡◌, ◌==◌, ◌<◌, length, position, IfSome};
ghost use Rattle.lpt_text.specs.Lines.{line_end};

use memchr::memchr;

/// The place of the first octet of this value. Many octets are looked at at a time.
pub fn first_place(text: &[u8], octet: u8) -> Option<usize>
    ensures at { result ≡ position (λ b. b == octet) text.now }
    ensures bound { IfSome result (λ n. n < length text.now) }
{
    memchr(octet, text)
}

/// The place of the first line end.
pub(crate) fn first_line_end(octets: &[u8]) -> Option<usize>
    ensures at { result ≡ line_end octets.now }
    ensures bound { IfSome result (λ n. n < length octets.now) }
{
    first_place(octets, b'\n')
}

//! Numbers of up to 4 octets.

ghost use Rattle.std.specs.Prelude.{◌≡◌, ◌<◌, ◌≤◌, ◌^◌, length};
ghost use Rattle.lpt_carried.specs.Times.{number_of};

// The number that octets are, the greatest octet first.
pub(crate) fn number_of(octets: &[u8]) -> u32
    requires { length octets.now ≤ 4 }
    ensures value { result ≡ number_of octets.now }
    ensures fits { result < 256 ^ length octets.now }
{
    match octets {
        [] => 0,
        [a] => u32::from(*a),
        [a, b] => u32::from_be_bytes([0, 0, *a, *b]),
        [a, b, c] => u32::from_be_bytes([0, *a, *b, *c]),
        [a, b, c, d, ..] => u32::from_be_bytes([*a, *b, *c, *d]),
    }
}

//! The numbers of a capture.

ghost use Rattle.std.specs.Prelude.{◌≡◌, ◌+◌, ◌<◌, length, slice_index};
ghost use Rattle.lpt_capture.specs.Captured.{begins_so, is_pcapng, number_at, order_of};

/// The number of 32 bits at a place, its last octet first if the order is turned.
pub(crate) fn number_in(octets: &[u8], turned: bool, at: usize) -> u32
    requires { at + 3 < length octets.now }
    ensures { result ≡ number_at turned octets.now at }
{
    let [a, b, c, d] = [octets[at], octets[at + 1], octets[at + 2], octets[at + 3]];
    if turned {
        u32::from_be_bytes([d, c, b, a])
    } else {
        u32::from_be_bytes([a, b, c, d])
    }
}

/// Whether the numbers of a capture that begins so are turned; none if it is no capture.
pub(crate) fn order_in(octets: &[u8]) -> Option<bool>
    ensures { result ≡ order_of octets.now }
{
    if begins_so(octets, 0xa1, 0xb2, 0xc3, 0xd4) || begins_so(octets, 0xa1, 0xb2, 0x3c, 0x4d) {
        return Some(false);
    }
    if begins_so(octets, 0xd4, 0xc3, 0xb2, 0xa1) || begins_so(octets, 0x4d, 0x3c, 0xb2, 0xa1) {
        return Some(true);
    }
    None
}

/// Whether a file that begins so is of the form pcapng.
pub(crate) fn is_pcapng(octets: &[u8]) -> bool
    ensures { result ≡ is_pcapng octets.now }
{
    begins_so(octets, 0x0a, 0x0d, 0x0d, 0x0a)
}

// Whether octets begin with these four.
fn begins_so(octets: &[u8], w: u8, x: u8, y: u8, z: u8) -> bool
    ensures { result ≡ begins_so w x y z octets.now }
{
    octets.len() >= 4 && octets[0] == w && octets[1] == x && octets[2] == y && octets[3] == z
}

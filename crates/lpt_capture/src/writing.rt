//! Packets as a capture: a file of classic pcap, version 2.4, as network analysers read it.
//!
//! Numbers stand with the greatest octet first. The link type is 147, the first of those whose
//! meaning a user chooses.

ghost use Rattle.std.specs.Prelude.{◌≡◌};
ghost use Rattle.lpt_capture.specs.Captures.{capture_header, record_header};

/// What stands at the front of a capture.
#[tactic(auto, unfolding(crate::specs::Captures::capture_header))]
pub fn capture_header() -> [u8; 24]
    ensures { result ≡ capture_header }
{
    [
        0xa1, 0xb2, 0xc3, 0xd4, 0, 2, 0, 4, 0, 0, 0, 0, 0, 0, 0, 0, 0, 1, 0, 6, 0, 0, 0, 147,
    ]
}

/// What stands in front of a packet of so many octets and of this time, in seconds.
#[tactic(auto, unfolding(crate::specs::Captures::record_header))]
pub fn record_header(time: u32, size: u32) -> [u8; 16]
    ensures { result ≡ record_header time size }
{
    let [t, i, m, e] = time.to_be_bytes();
    let [s, z, k, n] = size.to_be_bytes();
    [t, i, m, e, 0, 0, 0, 0, s, z, k, n, s, z, k, n]
}

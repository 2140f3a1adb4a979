//! The length of the packet at the front of a stream (CCSDS 133.0-B).
//!
//! The last field of the primary header carries the number of octets behind the header less one.

ghost use Rattle.std.specs.Prelude.{◌≡◌, ◌<◌, ◌≤◌, ◌↔◌, length, take, None, IfSome};
ghost use Rattle.std.specs.Option.{option_map};
ghost use Rattle.lpt_packet.specs.Sizes.{longest_packet};
ghost use Rattle.lpt_stream.specs.Streams.{length_at, front_of, cut_at, IsFramed, IsUnfinished};

use lpt_packet::PRIMARY_HEADER;

/// How many octets the packet at the front has, 7 to 65,542, as its header says. None if the header
/// hasn't come whole: fewer than 6 octets. What else the header says isn't looked at.
pub fn packet_length(bytes: &[u8]) -> Option<usize>
    ensures value { result ≡ length_at bytes.now }
    ensures least { IfSome result (λ n. 7 ≤ n) }
    ensures most { IfSome result (λ n. n ≤ longest_packet) }
{
    if bytes.len() < PRIMARY_HEADER {
        return None;
    }
    Some(7 + usize::from(u16::from_be_bytes([bytes[4], bytes[5]])))
}

/// How many octets the packet at the front has, if all of them have come; none if more are
/// wanted.
#[tactic(auto, unfolding(crate::specs::Streams::front_of))]
pub fn whole_length(bytes: &[u8]) -> Option<usize>
    ensures cut { option_map (λ n. cut_at n bytes.now) result ≡ front_of bytes.now }
    ensures framed { IfSome result (λ n. IsFramed (take n bytes.now)) }
    ensures within { IfSome result (λ n. n ≤ length bytes.now) }
    ensures most { IfSome result (λ n. n ≤ longest_packet) }

    // Fewer octets than the longest packet's are missing.
    ensures none { (result ≡ None) ↔ IsUnfinished bytes.now }
    ensures short { result ≡ None → length bytes.now < longest_packet }
{
    let len = packet_length(bytes)?;
    if len > bytes.len() {
        return None;
    }
    Some(len)
}

//! How long the packet is that begins a stream.

ghost use Rattle.std.specs.Prelude.{◌≡◌, ◌+◌, ◌<◌, length};
ghost use Rattle.lpt_packet.specs.Numbers.{word_at};
ghost use Rattle.lpt_c.specs.Streams.{stream_code, stream_length};

use crate::codes::{DONE, IDLE, MORE};
use lpt_packet::PRIMARY_HEADER;

// The fault of octets that begin with another version than 000.
const VERSION: u32 = 2;

/// Says how many octets the packet has that begins a stream.
///
/// It answers 0 for a packet and 101 for an idle one, and then `length` is written, 7 to 65,542;
/// 104 if there are too few octets yet to know; 2 if no packet begins so.
pub fn lpt_packet_length(octets: &[u8], length: &mut usize) -> u32
    ensures code { result ≡ stream_code octets.now }
    ensures told { length.new ≡ stream_length octets.now length.old }
{
    if octets.is_empty() {
        return MORE;
    }
    if octets[0] >> 5 != 0 {
        return VERSION;
    }
    if octets.len() < PRIMARY_HEADER {
        return MORE;
    }
    *length = 7 + usize::from(word(octets, 4));
    if word(octets, 0) % 2048 == 2047 {
        IDLE
    } else {
        DONE
    }
}

// The 16-bit number at a place.
fn word(octets: &[u8], at: usize) -> u16
    requires { at + 1 < length octets.now }
    ensures { result ≡ word_at octets.now at }
{
    u16::from_be_bytes([octets[at], octets[at + 1]])
}

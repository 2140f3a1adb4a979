//! Whether octets end in a packet.

ghost use Rattle.std.specs.Prelude.{◌≡◌, ◌≤◌, drop, length};
ghost use Rattle.lpt_packet.specs.Sizes.{longest_packet};
ghost use Rattle.lpt_stream.specs.Ending.{EndsAt};
ghost use Rattle.lpt_stream.specs.Pieces.{ends_in_packet, fills};

use crate::ends::Ends;
use crate::found::{begins_again, length_announced};

// Whether a packet stands behind some of these octets, and ends where they end. However many
// headers among them announce one, they are gone through twice, and a packet's octets once more.
pub(crate) fn ends_in_packet(octets: &[u8]) -> bool
    requires { length octets.now ≤ longest_packet }
    ensures { result ≡ ends_in_packet octets.now }
{
    let mut ends = Ends::new(octets);
    let mut at = 0;
    while at < octets.len() {
        ends.pass(octets[at]);
        at += 1;
        if fills(&ends, octets, at) {
            return true;
        }
    }
    false
}

// Whether a packet begins at this place, and ends where these octets end.
fn fills(ends: &Ends, octets: &[u8], at: usize) -> bool
    requires kept { EndsAt at ends.now octets.now }
    requires within { at ≤ length octets.now }
    requires short { length octets.now ≤ longest_packet }
    ensures { result ≡ fills (drop at octets.now) }
{
    let rest = &octets[at..];
    let Some(len) = length_announced(rest) else {
        return false;
    };
    if len != rest.len() {
        return false;
    }
    if !ends.may_fit(len) {
        return false;
    }
    begins_again(rest)
}

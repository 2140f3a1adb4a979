//! Which numbers and lengths a part of a kind may have.

ghost use Rattle.std.specs.Prelude.{◌≡◌};
ghost use Rattle.lpt_part.specs.Splitting.{IsPartSize};
ghost use Rattle.lpt_part.specs.Parts.{number_test, length_test};

use crate::Kind;
use lpt_packet::LONGEST_PACKET;

/// Whether a part of this kind may have this number.
pub fn number_fits(kind: Kind, number: u16) -> bool
    ensures { result ≡ number_test kind number }
{
    match kind {
        Kind::First => number == 1,
        Kind::Middle | Kind::Last => number >= 2,
    }
}

/// Whether a part of this kind and number may have so many octets, for parts of `p` octets.
pub fn length_fits(kind: Kind, number: u16, len: usize, p: u32) -> bool
    requires { IsPartSize p }
    ensures { result ≡ length_test kind number len p }
{
    let p = p as usize;
    let least = match kind {
        Kind::First | Kind::Middle => p,
        Kind::Last => 1,
    };
    let before = usize::from(number).saturating_sub(1) * p;
    least <= len && len <= p && before + len <= LONGEST_PACKET
}

//! Which layout octets are read by.

ghost use Rattle.std.specs.Prelude.{◌≡◌};
ghost use Rattle.lpt_packet.specs.Packets.{kind_of};
ghost use Rattle.lpt_packet.specs.Numbers.{word_at};
ghost use Rattle.lpt_list.specs.Said.{direction_of};

use lpt_packet::{Direction, PacketKind};

// The packet type that the octets of a header say, as far as they have come.
pub(crate) fn kind_in(octets: &[u8]) -> PacketKind
    ensures { result ≡ kind_of (word_at octets.now 0) }
{
    if (first_word(octets) >> 12) & 1 == 1 {
        PacketKind::Tc
    } else {
        PacketKind::Tm
    }
}

// Their first word, with 0 for what hasn't come.
fn first_word(octets: &[u8]) -> u16
    ensures { result ≡ word_at octets.now 0 }
{
    match octets {
        [] => 0,
        [first] => u16::from_be_bytes([*first, 0]),
        [first, second, ..] => u16::from_be_bytes([*first, *second]),
    }
}

// The direction in which packets of a type go.
pub(crate) fn direction_of(kind: PacketKind) -> Direction
    ensures { result ≡ direction_of kind }
{
    match kind {
        PacketKind::Tc => Direction::Up,
        PacketKind::Tm => Direction::Down,
    }
}

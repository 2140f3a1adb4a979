//! Numbers that are as wide as a layout has them.

ghost use Rattle.std.specs.Prelude.{◌≡◌, ℕ, ◌+◌, ◌≤◌, ◌<◌, ◌^◌, ◌↔◌, length, IsTrue};
ghost use Rattle.lpt_packet.specs.Numbers.{be};
ghost use Rattle.lpt_layout.specs.Numbers.{octets_of, number_at};

use crate::Width;

// The number of this width at a place.
pub(crate) fn number_at(width: Width, octets: &[u8], at: usize) -> u32
    requires { at + octets_of width ≤ length octets.now }
    ensures { result ≡ number_at width octets.now at }
{
    match width {
        Width::Absent => 0,
        Width::Octet => u32::from(octets[at]),
        Width::Word => u32::from(u16::from_be_bytes([octets[at], octets[at + 1]])),
        Width::Long => u32::from_be_bytes([
            octets[at],
            octets[at + 1],
            octets[at + 2],
            octets[at + 3],
        ]),
    }
}

// Whether a number of this width may be so great.
pub(crate) fn fits(width: Width, number: u32) -> bool
    ensures { IsTrue result ↔ (number < 256 ^ octets_of width) }
{
    match width {
        Width::Absent => number == 0,
        Width::Octet => number < 0x100,
        Width::Word => number < 0x1_0000,
        Width::Long => true,
    }
}

// Of the four octets of a number, those that one of this width has.
pub(crate) fn octets_of(width: Width, four: &[u8; 4]) -> &[u8]
    ensures { (n : ℕ) → four.now ≡ be n 4 → result.now ≡ be n (octets_of width) }
{
    match width {
        Width::Absent => &four[4..],
        Width::Octet => &four[3..],
        Width::Word => &four[2..],
        Width::Long => &four[0..],
    }
}

//! How the packets of a message's parts are written.

ghost use Rattle.std.specs.Prelude.{◌≡◌, ◌+◌, ◌^◌};
ghost use Rattle.lpt_layout.specs.Numbers.{octets_of};
ghost use Rattle.lpt_layout.specs.Parts.{IsPartSizeAs};

use crate::Form;
use lpt_layout::{Layout, PartLayout, Width};
use lpt_packet::Direction;

/// How the packets of a message's parts are laid out and written.
#[derive(Clone, Copy)]
pub struct Writing<'a> {
    /// The direction in which they go.
    pub direction: Direction,
    /// The application process identifier.
    pub apid: u16,
    /// The layout of the packets.
    pub layout: Layout,
    /// The layout of their bodies.
    pub parts: PartLayout,
    /// The part size in octets, 1 to 65,535.
    pub part_size: u32,
    /// The source ID of telecommands, or the destination ID of telemetry.
    pub user: u32,
    /// The time of telemetry.
    pub time: &'a [u8],
    /// The spare octets.
    pub spare: &'a [u8],
    /// The form in which they are written.
    pub form: Form,
    /// Their time in a capture, in seconds.
    pub clock: u32,
    ghost size: { IsPartSizeAs part_size },
}

/// The greatest number of this width: 0 if a layout has none.
pub fn greatest(width: Width) -> u32
    ensures { result + 1 ≡ 256 ^ octets_of width }
{
    match width {
        Width::Absent => 0,
        Width::Octet => 255,
        Width::Word => 65_535,
        Width::Long => u32::MAX,
    }
}

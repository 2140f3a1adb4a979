//! How the parts of a direction are read.

ghost use Rattle.std.specs.Prelude.{◌≡◌, true};
ghost use Rattle.lpt_carried.specs.Sizes.{is_size};

use lpt_layout::{Layout, PartLayout};
use lpt_packet::Direction;
use lpt_stream::Cut;

/// How the parts of a direction are read.
#[derive(Clone, Copy)]
pub struct Reading {
    /// The direction of their packets.
    pub direction: Direction,
    /// The application process identifier of their packets.
    pub apid: u16,
    /// The layout of their packets.
    pub layout: Layout,
    /// The layout of their bodies.
    pub parts: PartLayout,
    /// The part size in octets, 1 to 65,535, if it is known.
    pub part_size: Option<u32>,
    ghost size: { is_size part_size ≡ true },
}

impl Reading {
    ghost use Rattle.std.specs.Prelude.{◌≡◌};
    ghost use Rattle.lpt_part.specs.Splitting.{IsPartSize};
    ghost use Rattle.lpt_carried.specs.Carried.{cut};
    ghost use Rattle.lpt_carried.specs.Own.{IsOwn};

    /// The profile's reading of what goes in a direction, of this APID, for parts of `p` octets (4
    /// to 1024).
    pub fn own(direction: Direction, apid: u16, p: u32) -> Reading
        requires { IsPartSize p }
        ensures own { IsOwn result p }
        ensures direction { result.direction ≡ direction }
        ensures apid { result.apid ≡ apid }
    {
        let layout = match direction {
            Direction::Up => Layout::own_tc(),
            Direction::Down => Layout::own_tm(),
        };
        Reading {
            direction,
            apid,
            layout,
            parts: PartLayout::own(),
            part_size: Some(p),
        }
    }

    /// How a stream of these packets is cut: by checksums, if they have one.
    pub fn cut(&self) -> Cut
        ensures { result ≡ cut self.now }
    {
        if self.layout.has_checksum {
            Cut::Sealed
        } else {
            Cut::Framed
        }
    }
}

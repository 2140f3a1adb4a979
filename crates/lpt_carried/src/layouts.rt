//! How a mission lays out what goes up and what comes down.

ghost use Rattle.std.specs.Prelude.{◌≡◌};
ghost use Rattle.lpt_carried.specs.Layouts.{own_layouts, own_layouts_of, tailored_in, SizesFit};
ghost use Rattle.lpt_part.specs.Splitting.{IsPartSize};

use crate::TimeCode;
use lpt_layout::{Layout, PartLayout};
use lpt_packet::Direction;

/// How a mission lays out packets of one type, and the parts in them.
#[derive(Clone, Copy)]
pub struct Tailored {
    /// The headers.
    pub packets: Layout,
    /// How the time of telemetry says a date, if it is known.
    pub time: Option<TimeCode>,
    /// The bodies of parts.
    pub parts: PartLayout,
    /// The octets of a part that isn't the last, 1 to 65,535, if they are known.
    pub part_size: Option<u32>,
}

/// How a mission lays out its packets.
#[derive(Clone, Copy)]
pub struct Layouts {
    /// What comes down.
    pub telemetry: Tailored,
    /// What goes up.
    pub telecommands: Tailored,
}

impl Layouts {
    /// This project's profile, with part sizes that aren't known.
    pub fn own() -> Layouts
        ensures { result ≡ own_layouts }
    {
        Layouts {
            telemetry: Tailored {
                packets: Layout::own_tm(),
                time: None,
                parts: PartLayout::own(),
                part_size: None,
            },
            telecommands: Tailored {
                packets: Layout::own_tc(),
                time: None,
                parts: PartLayout::own(),
                part_size: None,
            },
        }
    }

    /// This project's profile, with parts of `p` octets (4 to 1024).
    pub fn own_of(p: u32) -> Layouts
        requires { IsPartSize p }
        ensures own { result ≡ own_layouts_of p }
        ensures sizes { SizesFit result }
    {
        let Layouts {
            telemetry,
            telecommands,
        } = Layouts::own();
        Layouts {
            telemetry: Tailored {
                part_size: Some(p),
                ..telemetry
            },
            telecommands: Tailored {
                part_size: Some(p),
                ..telecommands
            },
        }
    }

    /// What goes in this direction.
    pub fn tailored_in(&self, direction: Direction) -> &Tailored
        ensures { result.now ≡ tailored_in direction self.now }
    {
        match direction {
            Direction::Up => &self.telecommands,
            Direction::Down => &self.telemetry,
        }
    }
}

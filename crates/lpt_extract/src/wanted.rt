//! What is wanted of dump reports.

use lpt_layout::Layout;
use lpt_stream::Cut;

/// Which octets are wanted, and as what.
#[derive(Clone, Copy)]
pub struct Wanted {
    /// The application process identifier of the reports.
    pub apid: u16,
    /// The layout of their packets.
    pub layout: Layout,
    /// The image that is wanted; without one, the octets of all areas, in the order in which they
    /// stand.
    pub at: Option<ImagePlace>,
}

/// An image of one memory.
#[derive(Clone, Copy)]
pub struct ImagePlace {
    /// The memory's identifier.
    pub memory: u8,
    /// The address of the image's first octet.
    pub from: u32,
    /// The octet that stands where no area gives one.
    pub fill: u8,
    /// Whether it is to be written only if no octet is missing and nothing was passed over.
    pub whole: bool,
}

impl Wanted {
    ghost use Rattle.std.specs.Prelude.{◌≡◌};
    ghost use Rattle.lpt_extract.specs.Extracts.{cut_of, is_of, start, suits};

    // How a stream of these packets is cut: by checksums, if they have one.
    pub(crate) fn cut(&self) -> Cut
        ensures { result ≡ cut_of self.now }
    {
        if self.layout.has_checksum {
            Cut::Sealed
        } else {
            Cut::Framed
        }
    }

    // Whether the areas of this memory are wanted.
    pub(crate) fn is_of(&self, memory: u8) -> bool
        ensures { result ≡ is_of self.now.at memory }
    {
        match self.at {
            None => true,
            Some(place) => place.memory == memory,
        }
    }

    // The address of the first octet that is wanted.
    pub(crate) fn start(&self) -> u64
        ensures { result ≡ start self.now.at }
    {
        match self.at {
            None => 0,
            Some(place) => u64::from(place.from),
        }
    }

    // Whether what is wanted may be written, by whether that is unbroken.
    pub(crate) fn suits(&self, is_unbroken: bool) -> bool
        ensures { result ≡ suits self.now.at is_unbroken }
    {
        match self.at {
            None => true,
            Some(place) => !place.whole || is_unbroken,
        }
    }
}

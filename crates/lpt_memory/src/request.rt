//! Requests and their areas.

ghost use Rattle.std.specs.Prelude.{◌≡◌, ◌+◌, ◌≤◌, length};
ghost use Rattle.lpt_memory.specs.Seen.{octets_at};

use lpt_packet::Octets;
use lpt_pus::FailureCode;

/// Octets, and the place in a memory that they go to.
#[derive(Debug, Drop, PartialEq, Eq)]
pub struct Area {
    /// The address of the first octet, from 0.
    pub address: u32,
    /// The octets.
    pub octets: Octets,
}

/// Octets of a memory, by their place: an area of a dump or of a check.
#[derive(Clone, Copy, Debug)]
pub struct AreaRange {
    /// The address of the first octet, from 0.
    pub address: u32,
    /// How many octets, from 1 in a request.
    pub len: u16,
}

/// An area of a load, its octets by their place in the body.
#[derive(Clone, Copy)]
pub(crate) struct StoredArea {
    pub address: u32,
    pub from: usize,
    pub len: u16,
    pub checksum: u16,
}

impl StoredArea {
    // The area's octets, in the body that it stands in.
    pub(crate) fn octets<'a>(&self, body: &'a [u8]) -> &'a [u8]
        requires { self.now.from + self.now.len ≤ length body.now }
        ensures { result.now ≡ octets_at body.now self.now }
    {
        &body[self.from..self.from + usize::from(self.len)]
    }
}

/// What a message means: nothing at all, a fault's code, or a memory and its areas.
#[derive(Drop)]
pub(crate) enum Plan {
    Silent,
    Code(FailureCode),
    Load(u8, Vec<StoredArea>),
    Dump(u8, Vec<AreaRange>),
    Check(u8, Vec<AreaRange>),
}

//! What is asked of a memory.

ghost use Rattle.std.specs.Prelude.{◌≡◌};
ghost use Rattle.lpt_requests.specs.Requests.{subtype_of};

use lpt_memory::Area;

/// Octets of a memory, by their place.
#[derive(Clone, Copy, Debug, PartialEq, Eq)]
pub struct Range {
    /// The address of the first octet, from 0.
    pub address: u32,
    /// How many octets, at least one.
    pub len: u16,
}

/// What is asked of the memory of an identifier: 1 to 255 areas, none of them empty.
#[derive(Debug, Drop)]
pub enum Request {
    /// That it takes these octets.
    Load(u8, Vec<Area>),
    /// The octets of these places.
    Dump(u8, Vec<Range>),
    /// The checksums of these places.
    Check(u8, Vec<Range>),
}

impl Request {
    /// The message subtype of the request, of service 6.
    pub(crate) fn subtype(&self) -> u8
        ensures { result ≡ subtype_of self.now }
    {
        match self {
            Request::Load(_, _) => 2,
            Request::Dump(_, _) => 5,
            Request::Check(_, _) => 9,
        }
    }
}

//! Whether octets of a memory are also among others.

ghost use Rattle.std.specs.Prelude.{◌≡◌};
ghost use Rattle.lpt_ground.specs.Overlaps.{end, overlap};

use lpt_requests::AreaPlace;

/// Whether two places of a memory, each of at least one octet, share an address.
pub fn overlap(one: AreaPlace, other: AreaPlace) -> bool
    ensures { result ≡ overlap one other }
{
    u64::from(one.address) < end(other) && u64::from(other.address) < end(one)
}

// The address behind the last octet of a place.
fn end(place: AreaPlace) -> u64
    ensures { result ≡ end place }
{
    u64::from(place.address) + u64::from(place.len)
}

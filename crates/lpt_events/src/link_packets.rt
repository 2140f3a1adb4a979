//! How long a packet of the link is at most.

ghost use Rattle.std.specs.Prelude.{◌≡◌};
ghost use Rattle.lpt_events.specs.LinkPackets.{longest_on_link};

/// The octets of the longest packet on a link whose parts have this size: what stands around a part
/// in its packet has no more than 23.
pub fn longest_on_link(part_size: u32) -> usize
    ensures { result ≡ longest_on_link part_size }
{
    part_size as usize + 23
}

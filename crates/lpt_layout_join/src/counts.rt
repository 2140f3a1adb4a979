//! How many sequence counts are missing among the packets of a stream.

ghost use Rattle.std.specs.Prelude.{◌≡◌, ◌+◌, ◌<◌, ◌≤◌, length, IfSome};
ghost use Rattle.lpt_packet.specs.Numbers.{word_at};
ghost use Rattle.lpt_layout_join.specs.Counts.{count_of, gap_to, is_own, Latest, type_of};

use lpt_carried::Reading;
use lpt_packet::Direction;
use std::alloc::{AllocError, Global};

/// How many sequence counts of the APID are missing among the packets that came in the direction,
/// by a layout without a checksum; by another one none are counted.
#[derive(Drop)]
pub struct Counts {
    // The last packet of the APID, and its count; no octets if none came.
    count: u16,
    octets: Vec<u8>,
    // More than 2^64 - 1 are counted as that.
    missing: u64,
    ghost small: { count ≤ 16383 },
}

impl Counts {
    ghost use Rattle.std.specs.Prelude.{◌≡◌, OnOk};
    ghost use Rattle.lpt_layout_join.specs.Counts.{packet_counted, nothing_counted};
    ghost use Rattle.lpt_layout_join.specs.CountsInside.{counts_shown};

    /// Counts of a stream of which nothing came yet.
    pub fn new(alloc: Global) -> Counts
        ensures { counts_shown result ≡ nothing_counted }
    {
        Counts {
            count: 0,
            octets: Vec::new(alloc),
            missing: 0,
        }
    }

    /// Counts what is missing before the packet that comes next. The only error is out of memory.
    pub fn take(&mut self, reading: &Reading, octets: &[u8]) -> Result<(), AllocError>
        ensures { OnOk result
            (counts_shown self.new ≡ packet_counted reading.now (counts_shown self.old) octets.now) }
    {
        match count_of(reading, octets) {
            None => Ok(()),
            Some(count) => {
                let gap = gap_to(self.count, &self.octets, count, octets);
                self.octets.clear();
                self.octets.extend_from_slice(octets)?;
                self.count = count;
                self.missing = self.missing.saturating_add(u64::from(gap));
                Ok(())
            }
        }
    }

    /// How many are missing up to the last packet that came.
    pub fn missing(&self) -> u64
        ensures { result ≡ (counts_shown self.now).missing }
    {
        self.missing
    }
}

// The sequence count of a packet of the APID that goes this way, if packets have no checksum.
#[tactic(auto, unfolding(crate::specs::Counts::count_of))]
fn count_of(reading: &Reading, octets: &[u8]) -> Option<u16>
    ensures exact { result ≡ count_of reading.now octets.now }
    ensures small { IfSome result (λ n. n ≤ 16383) }
{
    if reading.layout.has_checksum || octets.len() < 7 || !is_own(reading, octets) {
        return None;
    }
    Some(word(octets, 2) & 0x3fff)
}

// Whether a primary header is of the APID and of a packet that goes this way.
fn is_own(reading: &Reading, octets: &[u8]) -> bool
    requires { 7 ≤ length octets.now }
    ensures { result ≡ is_own reading.now octets.now }
{
    let first = word(octets, 0);
    (first >> 12) & 1 == type_of(reading.direction) && first & 0x07ff == reading.apid
}

// The packet type of what goes in a direction.
fn type_of(direction: Direction) -> u16
    ensures { result ≡ type_of direction }
{
    match direction {
        Direction::Up => 1,
        Direction::Down => 0,
    }
}

// The 16-bit number at a place.
fn word(octets: &[u8], at: usize) -> u16
    requires { at + 1 < length octets.now }
    ensures { result ≡ word_at octets.now at }
{
    u16::from_be_bytes([octets[at], octets[at + 1]])
}

// How many counts lie between the last packet, of this count, and the next.
fn gap_to(before: u16, previous: &[u8], count: u16, octets: &[u8]) -> u16
    requires before { before ≤ 16383 }
    requires count { count ≤ 16383 }
    ensures { result ≡ gap_to (record { count = before; octets = previous.now }) count octets.now }
{
    if previous.is_empty() || previous == octets {
        return 0;
    }
    (count + 16_383 - before) % 16_384
}

//! Requests that read a memory.

ghost use Rattle.std.specs.Prelude.{◌≡◌, ◌+◌, ◌*◌, ◌<◌, ◌≤◌, false, ◌++◌, length, drop, map};
ghost use Rattle.std.specs.List.{flat_map, AllByRecursion};
ghost use Rattle.lpt_memory.specs.Memories.{put_at};
ghost use Rattle.lpt_memory.specs.Spellings.{range_text, AreAreas, RangeFits};
ghost use Rattle.lpt_c.specs.Buffers.{code_for, left_by, needed_by};
ghost use Rattle.lpt_c.specs.Codes.{all_done};
ghost use Rattle.lpt_c.specs.Requests.{any_empty, are_unfit, range_of, ranges_body, ranges_text, IsInRange, MeansCheck, MeansDump};

use crate::codes::{BAD_AREA, DONE, ROOM};
use crate::filling::put;
use lpt_memory::AREA_LIMIT;

/// Octets of a memory, by their place.
#[repr(C)]
#[derive(Clone, Copy)]
pub struct LptRange {
    /// The address of the first octet, from 0.
    pub address: u32,
    /// How many octets, at least one.
    pub len: u16,
}

/// The octets of a body before its areas, and of each of these.
const BODY_HEAD: usize = 2;

const RANGE: usize = 6;

/// Writes the body of a dump to the front of a buffer: of the memory of this identifier, the octets
/// at these places, in their order.
///
/// It answers 0; 28 for no place, more than 255, or one without octets; 103 if the buffer is too
/// short. At 0 and at 103 `needed` says how many octets the body has, 2 and 6 for each place.
pub fn lpt_write_dump(memory: u8, ranges: &[LptRange], out: &mut [u8], needed: &mut usize) -> u32
    ensures code { result ≡ code_for (ranges_text memory ranges.now) out.old }
    ensures buffer { out.new ≡ left_by (ranges_text memory ranges.now) out.old }
    ensures needed { needed.new ≡ needed_by (ranges_text memory ranges.now) needed.old }

    // What is written means that dump, in memories where it fits.
    ensures means { result ≡ all_done
        → MeansDump (ranges_body memory ranges.now) memory (map range_of ranges.now) }
{
    fill_ranges(memory, ranges, out, needed)
}

/// Writes the body of a check to the front of a buffer: of the memory of this identifier, the
/// checksums of the octets at these places, in their order.
///
/// It answers 0; 28 for no place, more than 255, or one without octets; 103 if the buffer is too
/// short. At 0 and at 103 `needed` says how many octets the body has, 2 and 6 for each place.
pub fn lpt_write_check(memory: u8, ranges: &[LptRange], out: &mut [u8], needed: &mut usize) -> u32
    ensures code { result ≡ code_for (ranges_text memory ranges.now) out.old }
    ensures buffer { out.new ≡ left_by (ranges_text memory ranges.now) out.old }
    ensures needed { needed.new ≡ needed_by (ranges_text memory ranges.now) needed.old }

    // What is written means that check, in memories where it fits.
    ensures means { result ≡ all_done
        → MeansCheck (ranges_body memory ranges.now) memory (map range_of ranges.now) }
{
    fill_ranges(memory, ranges, out, needed)
}

// Writes the body of a dump or a check to the front of a buffer, if it has room.
fn fill_ranges(memory: u8, ranges: &[LptRange], out: &mut [u8], needed: &mut usize) -> u32
    ensures code { result ≡ code_for (ranges_text memory ranges.now) out.old }
    ensures buffer { out.new ≡ left_by (ranges_text memory ranges.now) out.old }
    ensures needed { needed.new ≡ needed_by (ranges_text memory ranges.now) needed.old }
    ensures fits { result ≡ all_done → AreAreas RangeFits (map range_of ranges.now) }
{
    if are_unfit(ranges) {
        return BAD_AREA;
    }
    *needed = BODY_HEAD + RANGE * ranges.len();
    if out.len() < *needed {
        return ROOM;
    }
    write_ranges(memory, ranges, out);
    DONE
}

// Whether there is no place, there are more than 255, or one has no octets.
fn are_unfit(ranges: &[LptRange]) -> bool
    ensures { result ≡ are_unfit ranges.now }
{
    ranges.is_empty() || ranges.len() > AREA_LIMIT || any_empty(ranges)
}

// Whether one of the places has no octets.
fn any_empty(ranges: &[LptRange]) -> bool
    ensures { result ≡ any_empty ranges.now }
{
    for range in ranges {
        if range.len == 0 {
            return true;
        }
    }
    false
}

// Writes the body of a dump or a check to the front of a buffer that has room for it.
fn write_ranges(memory: u8, ranges: &[LptRange], out: &mut [u8])
    requires some { 0 < length ranges.now }
    requires few { length ranges.now ≤ 255 }
    requires full { any_empty ranges.now ≡ false }
    requires room { 2 + 6 * length ranges.now ≤ length out.old }
    ensures body { out.new ≡ ranges_body memory ranges.now
        ++ drop (2 + 6 * length ranges.now) out.old }
    ensures fits { AreAreas RangeFits (map range_of ranges.now) }
{
    put(out, 0, &[memory, ranges.len() as u8]);
    put_ranges(ranges, out);
}

// Writes places behind the head of a body.
fn put_ranges(ranges: &[LptRange], out: &mut [u8])
    requires { 2 + 6 * length ranges.now ≤ length out.old }
    ensures put { out.new ≡ put_at out.old 2 (flat_map range_text (map range_of ranges.now)) }
    ensures fits { AllByRecursion IsInRange ranges.now }
{
    let mut at = BODY_HEAD;
    for range in ranges {
        put_range(out, at, range);
        at += RANGE;
    }
}

// Writes a place.
fn put_range(out: &mut [u8], at: usize, range: &LptRange)
    requires { at + 6 ≤ length out.old }
    ensures put { out.new ≡ put_at out.old at (range_text (range_of range.now)) }
    ensures fits { IsInRange range.now }
{
    let address = range.address.to_be_bytes();
    let len = range.len.to_be_bytes();
    let text = [
        address[0], address[1], address[2], address[3], len[0], len[1],
    ];
    put(out, at, &text);
}

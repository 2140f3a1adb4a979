//! Reports of checks.

ghost use Rattle.std.specs.Prelude.{◌≡◌, ◌+◌, ◌≤◌, length};
ghost use Rattle.lpt_packet.specs.Numbers.{word_at};
ghost use Rattle.lpt_pus.specs.Numbers.{long_at};
ghost use Rattle.lpt_c.specs.Checks.{area_checked, checked_at};
ghost use Rattle.lpt_c.specs.Readings.{code_read, left_in};

use crate::codes::{DONE, NO_REPORT, RANGE};

/// An area of a report that answers a check.
#[repr(C)]
#[derive(Clone, Copy)]
pub struct LptChecked {
    /// The identifier of the memory.
    pub memory: u8,
    /// How many areas the report has.
    pub areas: u8,
    /// The address of the area's first octet.
    pub address: u32,
    /// How many octets the area has.
    pub len: u16,
    /// Their checksum.
    pub checksum: u16,
}

/// The octets of a body before its areas, and of each of these.
const BODY_HEAD: usize = 2;

const CHECKED: usize = 8;

/// Reads one area of a message's body as the report that answers a check, by its number from 0.
///
/// It answers 0, and `out` says what it is; 105 if the body is no such report; 102 if it has no
/// area of this number.
pub fn lpt_read_check(body: &[u8], number: usize, out: &mut LptChecked) -> u32
    ensures code { result ≡ code_read (area_checked body.now number) }
    ensures out { out.new ≡ left_in (λ x. x) (area_checked body.now number) out.old }
{
    if body.len() < BODY_HEAD || body[1] == 0 {
        return NO_REPORT;
    }
    let areas = usize::from(body[1]);
    if body.len() != BODY_HEAD + CHECKED * areas {
        return NO_REPORT;
    }
    if number >= areas {
        return RANGE;
    }
    *out = checked_at(body, BODY_HEAD + CHECKED * number);
    DONE
}

// The area that stands at a place of the body.
fn checked_at(body: &[u8], at: usize) -> LptChecked
    requires head { 2 ≤ at }
    requires room { at + 8 ≤ length body.now }
    ensures { result ≡ checked_at body.now at }
{
    LptChecked {
        memory: body[0],
        areas: body[1],
        address: u32::from_be_bytes([body[at], body[at + 1], body[at + 2], body[at + 3]]),
        len: u16::from_be_bytes([body[at + 4], body[at + 5]]),
        checksum: u16::from_be_bytes([body[at + 6], body[at + 7]]),
    }
}

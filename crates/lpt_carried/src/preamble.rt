//! The preamble field of a time code.

ghost use Rattle.std.specs.Prelude.{◌≡◌};
ghost use Rattle.lpt_carried.specs.Codes.{epoch_by, epoch_in, epoch_of, part_bits, preamble_of};

use crate::{Submillisecond, TimeCode, TimeFields};

/// The epoch of the standard, 1 January 1958, as a number of days behind 1 January 1900.
const EPOCH_1958: u32 = 21_184;

// The day that a time counts from, as far as its preamble field says the code, its lengths and its
// epoch.
pub(crate) fn epoch_in(code: &TimeCode, field: &[u8]) -> Option<u32>
    ensures { result ≡ epoch_in code.now field.now }
{
    match field {
        [] => Some(epoch_of(code)),
        [octet, ..] => epoch_by(code, *octet),
    }
}

// The same by the field's octet.
fn epoch_by(code: &TimeCode, octet: u8) -> Option<u32>
    ensures { result ≡ epoch_by code.now octet }
{
    let octet = u16::from(octet);
    if octet == preamble_of(code.fields, false) {
        let epoch = epoch_of(code);
        (epoch == EPOCH_1958).then_some(epoch)
    } else if octet == preamble_of(code.fields, true) {
        code.epoch
    } else {
        None
    }
}

// The day that a code counts from.
fn epoch_of(code: &TimeCode) -> u32
    ensures { result ≡ epoch_of code.now }
{
    code.epoch.unwrap_or(EPOCH_1958)
}

// The octet of a preamble field, by whether the epoch is the agency's own.
fn preamble_of(fields: TimeFields, agency: bool) -> u16
    ensures { result ≡ preamble_of fields agency }
{
    match fields {
        TimeFields::Unsegmented { coarse, fine } => {
            let level = if agency { 0x20 } else { 0x10 };
            level + 4 * u16::from(coarse.saturating_sub(1)) + u16::from(fine)
        }
        TimeFields::DaySegmented {
            long,
            submillisecond,
        } => {
            let level = if agency { 0x48 } else { 0x40 };
            level + 4 * u16::from(long) + part_bits(submillisecond)
        }
    }
}

// Its bits that say what stands behind the milliseconds.
fn part_bits(submillisecond: Submillisecond) -> u16
    ensures { result ≡ part_bits submillisecond }
{
    match submillisecond {
        Submillisecond::Absent => 0,
        Submillisecond::Microseconds => 1,
        Submillisecond::Picoseconds => 2,
    }
}

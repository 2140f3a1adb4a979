//! A moment, as a day and a time of day.

ghost use Rattle.std.specs.Prelude.{◌≡◌, ◌<◌, ◌≤◌, ◌*◌, ◌/◌, ◌^◌, true, length, IfSome};
ghost use Rattle.lpt_carried.specs.Codes.{field_octets, lengths_fit, parts_in, places_of};
ghost use Rattle.lpt_carried.specs.Times.{after_seconds, known_moment, moment_by, moment_in, on_day, IsMoment};

use crate::code::day_octets;
use crate::number::number_of;
use crate::preamble::epoch_in;
use crate::{Submillisecond, TimeCode, TimeFields};

/// Days since 1 January 1900 up to 31 December 9999.
const LAST_DAY: u64 = 2_958_463;

/// The milliseconds of a day with a leap second.
const LONGEST_DAY: u32 = 86_401_000;

// A day, as a number of days behind 1 January 1900, and a time of day.
#[derive(Clone, Copy)]
pub(crate) struct Moment {
    pub day: u32,
    // The second of the day, which is 86,400 in a leap second.
    pub second: u32,
    // How many digits a fraction of a second has, and these.
    pub places: u8,
    pub fraction: u64,
}

// The moment that octets say, if they are as many as the code has, if the preamble says so
// too, and up to the year 9999.
pub(crate) fn moment_in(code: &TimeCode, octets: &[u8]) -> Option<Moment>
    ensures value { result ≡ moment_in code.now octets.now }
    ensures fits { IfSome result IsMoment }
{
    if !code.fields.lengths_fit() || octets.len() != code.octets() {
        return None;
    }
    let (field, counted) = octets.split_at(usize::from(code.preamble));
    let epoch = epoch_in(code, field)?;
    moment_by(code.fields, counted, epoch)
}

// The moment that octets behind a preamble say, since a day.
fn moment_by(fields: TimeFields, octets: &[u8], epoch: u32) -> Option<Moment>
    requires fit { lengths_fit fields ≡ true }
    requires size { length octets.now ≡ field_octets fields }
    ensures value { result ≡ moment_by fields octets.now epoch }
    ensures fits { IfSome result IsMoment }
{
    match fields {
        TimeFields::Unsegmented { coarse, fine } => {
            let (seconds, parts) = octets.split_at(usize::from(coarse));
            after_seconds(epoch, fine, number_of(seconds), number_of(parts))
        }
        TimeFields::DaySegmented {
            long,
            submillisecond,
        } => {
            let (days, rest) = octets.split_at(day_octets(long));
            let (milliseconds, parts) = rest.split_at(4);
            on_day(
                submillisecond,
                epoch,
                number_of(days),
                number_of(milliseconds),
                number_of(parts),
            )
        }
    }
}

// The moment so many seconds and parts of one behind the beginning of a day.
fn after_seconds(epoch: u32, fine: u8, seconds: u32, parts: u32) -> Option<Moment>
    requires fine { fine ≤ 3 }
    requires parts { parts < 256 ^ fine }
    ensures value { result ≡ after_seconds epoch fine seconds parts }
    ensures fits { IfSome result IsMoment }
{
    known_moment(
        u64::from(epoch) + u64::from(seconds / 86_400),
        seconds % 86_400,
        3 * fine,
        fraction(fine, parts),
    )
}

// So many parts of a second, in three digits for each octet of them, rounded down.
fn fraction(fine: u8, parts: u32) -> u64
    requires fine { fine ≤ 3 }
    requires parts { parts < 256 ^ fine }
    ensures { result ≡ parts * 1000 ^ fine / 256 ^ fine }
{
    let (most, whole) = match fine {
        0 => (1, 1),
        1 => (1_000, 0x100),
        2 => (1_000_000, 0x1_0000),
        _ => (1_000_000_000, 0x100_0000),
    };
    u64::from(parts) * most / whole
}

// The moment on a day so many days behind another, by the milliseconds of the day and the parts of
// one.
fn on_day(
    submillisecond: Submillisecond,
    epoch: u32,
    days: u32,
    milliseconds: u32,
    parts: u32,
) -> Option<Moment>
    ensures value { result ≡ on_day submillisecond epoch days milliseconds parts }
    ensures fits { IfSome result IsMoment }
{
    let whole = parts_in(submillisecond);
    if milliseconds >= LONGEST_DAY || parts >= whole {
        return None;
    }
    known_moment(
        u64::from(epoch) + u64::from(days),
        milliseconds / 1000,
        3 + places_of(submillisecond),
        u64::from(milliseconds % 1000) * u64::from(whole) + u64::from(parts),
    )
}

// How many parts a millisecond has.
fn parts_in(submillisecond: Submillisecond) -> u32
    ensures { result ≡ parts_in submillisecond }
{
    match submillisecond {
        Submillisecond::Absent => 1,
        Submillisecond::Microseconds => 1_000,
        Submillisecond::Picoseconds => 1_000_000_000,
    }
}

// In how many digits they are written.
fn places_of(submillisecond: Submillisecond) -> u8
    ensures value { result ≡ places_of submillisecond }
    ensures few { result ≤ 9 }
{
    match submillisecond {
        Submillisecond::Absent => 0,
        Submillisecond::Microseconds => 3,
        Submillisecond::Picoseconds => 9,
    }
}

// A moment up to the year 9999.
fn known_moment(day: u64, second: u32, places: u8, fraction: u64) -> Option<Moment>
    requires second_fits { second ≤ 86_400 }
    requires places_fit { places ≤ 12 }
    ensures value { result ≡ known_moment day second places fraction }
    ensures fits { IfSome result IsMoment }
{
    if day > LAST_DAY {
        return None;
    }
    Some(Moment {
        day: day as u32,
        second,
        places,
        fraction,
    })
}

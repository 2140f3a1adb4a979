//! Days of the calendar.

ghost use Rattle.std.specs.Prelude.{◌≡◌};
ghost use Rattle.lpt_carried.specs.Times.{day_number};

use jiff_core::civil::Date;

/// Days from the first date of the kit's calendar, 1 January of the year -9999, to 1 January 1900.
const TO_1900: u32 = 4_346_020;

/// How many days a day of the calendar is behind 1 January 1900; `None` if the calendar has no
/// such day, and for one that isn't in the years 1900 to 9999.
pub fn day_number(year: u16, month: u8, day: u8) -> Option<u32>
    ensures { result ≡ day_number year month day }
{
    if year < 1900 || year > 9999 || month > 12 || day > 31 {
        return None;
    }
    match Date::new(year as i16, month as i8, day as i8) {
        Ok(date) => Some(date.days_since_min() - TO_1900),
        Err(_) => None,
    }
}

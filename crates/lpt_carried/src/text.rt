//! The text of a time.

ghost use Rattle.std.specs.Prelude.{◌≡◌, ◌<◌, ◌≤◌, ◌++◌, ◌∷◌, IfOk, OnOk};
ghost use Rattle.std.specs.Option.{option_map};
ghost use Rattle.std.specs.String.{string_bytes};
ghost use Rattle.jiff_fmt.specs.Text as kit;
ghost use Rattle.lpt_carried.specs.Times.{date_text, digits, last_day, moment_text, time_text, IsMoment};

use crate::TimeCode;
use crate::moment::{Moment, moment_in};
use jiff_core::civil::Date;
use jiff_fmt::temporal::DateTimePrinter;
use std::alloc::{AllocError, Global};

/// Days from 1 January 1900 to 1 January 1970.
const TO_1970: i64 = 25_567;

/// The last minute of a day.
const LAST_MINUTE: u32 = 1439;

/// The time that octets say by a code, as `2026-11-27T05:19:00.250`.
///
/// A fraction has as many digits as tell its values apart: in CUC three for each octet of parts,
/// rounded down; in CDS those of milliseconds and of what stands behind them, which is exact. A leap
/// second is `23:59:60`, on any day.
///
/// `None` if octets are more or fewer than the code has, if a preamble field says another
/// code, other lengths or another epoch, or that a second octet follows it; for milliseconds of the
/// day above 86,400,999, and more parts than one has; and behind the year 9999. The only error is
/// out of memory.
pub fn time_text(
    alloc: Global,
    code: &TimeCode,
    octets: &[u8],
) -> Result<Option<String>, AllocError>
    ensures { IfOk result (λ t. option_map string_bytes t ≡ time_text code.now octets.now) }
{
    match moment_in(code, octets) {
        Some(moment) => Ok(Some(moment_text(alloc, moment)?)),
        None => Ok(None),
    }
}

// The text of a moment. The only error is out of memory.
fn moment_text(alloc: Global, moment: Moment) -> Result<String, AllocError>
    requires { IsMoment moment }
    ensures { IfOk result (λ t. string_bytes t ≡ moment_text moment) }
{
    let date = DateTimePrinter::new().date_text(date_of(moment.day));
    let minute = (moment.second / 60).min(LAST_MINUTE);
    let mut text = String::from_str(alloc, date.as_str())?;
    add_number(&mut text, 'T', 2, u64::from(minute / 60))?;
    add_number(&mut text, ':', 2, u64::from(minute % 60))?;
    add_number(&mut text, ':', 2, u64::from(moment.second - 60 * minute))?;
    if moment.places > 0 {
        add_number(&mut text, '.', moment.places, moment.fraction)?;
    }
    Ok(text)
}

// The kit's date of a day.
fn date_of(day: u32) -> Date
    requires { day ≤ last_day }
    ensures { kit.date_text result ≡ date_text day }
{
    let Ok(date) = Date::from_unix_epoch_day(i64::from(day) - TO_1970) else {
        unreachable!();
    };
    date
}

// Adds a mark, and so many of a number's last digits. The only error is out of memory.
fn add_number(text: &mut String, mark: char, places: u8, number: u64) -> Result<(), AllocError>
    requires mark { mark < 128 }
    requires few { places ≤ 12 }
    ensures { OnOk result (string_bytes text.new
        ≡ string_bytes text.old ++ mark ∷ digits places number) }
{
    text.push(mark)?;
    for place in (0..places).rev() {
        let digit = number / 10_u64.pow(u32::from(place)) % 10;
        text.push(char::from(b'0' + digit as u8))?;
    }
    Ok(())
}

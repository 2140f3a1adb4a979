//! How the time of telemetry is laid out.

ghost use Rattle.std.specs.Prelude.{◌≡◌, ◌<◌, None, Some, codes};
ghost use Rattle.std.specs.Result.{result_ok};
ghost use Rattle.toml.specs.Data.{get_member};
ghost use Rattle.toml.specs.View.{view, table_view};
ghost use Rattle.lpt_settings.specs.Numbers.{number_in};
ghost use Rattle.lpt_carried.specs.Codes.{field_octets};
ghost use Rattle.lpt_layout_file.specs.Times.{code_in, code_or, time_coded, time_counted, counts_in, date_or, day_in, day_of, days_in, parts_in, preamble_in, since, time_at, time_in, time_or};

use lpt_carried::{Submillisecond, TimeCode, TimeFields, day_number};
use lpt_settings::{Reason, Wrong, number_of_value};
use toml::{Table, Value};
use toml_datetime::Datetime;

// The time of telemetry: its octets, and how they say a date if that is known.
#[derive(Clone, Copy)]
pub(crate) struct TimeField {
    pub octets: u8,
    pub code: Option<TimeCode>,
}

// The time of a table of telemetry.
pub(crate) fn time_field(table: &Table) -> Result<TimeField, Wrong<'static>>
    ensures { result_ok result ≡ time_at (table_view table.now) }
{
    let field = time(table)?;
    match table.get("epoch") {
        Some(value) => since(field, day_in(value)),
        None => Ok(field),
    }
}

// The same since the epoch of the standard.
fn time(table: &Table) -> Result<TimeField, Wrong<'static>>
    ensures { result_ok result ≡ time_or (get_member (codes "time") (table_view table.now)) }
{
    match table.get("time") {
        Some(value) => time_in(value),
        None => Ok(TimeField {
            octets: 4,
            code: None,
        }),
    }
}

// The time that a value says.
fn time_in(value: &Value) -> Result<TimeField, Wrong<'static>>
    ensures { result_ok result ≡ time_in (view value.now) }
{
    let field = match value.as_str() {
        Some(text) => code_in(text.as_bytes()),
        None => octets_in(value),
    };
    match field {
        Some(field) => Ok(field),
        None => Err(Wrong::at("time", Reason::NotTime)),
    }
}

// So many octets as a value says, of which nothing more is known.
fn octets_in(value: &Value) -> Option<TimeField>
    ensures { result ≡ code_or None (number_in 0 16 (view value.now)) }
{
    match number_of_value(value, "time", 0, 16) {
        Ok(octets) => Some(TimeField {
            octets: octets as u8,
            code: None,
        }),
        Err(_) => None,
    }
}

// The time by the code of this name.
fn code_in(text: &[u8]) -> Option<TimeField>
    ensures { result ≡ code_in text.now }
{
    match text {
        [b'c', b'u', b'c', b' ', rest @ ..] => counts_in(rest),
        [b'c', b'd', b's', b' ', rest @ ..] => days_in(rest),
        _ => None,
    }
}

// The time that counts seconds, by what is behind the code's word.
fn counts_in(text: &[u8]) -> Option<TimeField>
    ensures { result ≡ counts_in text.now }
{
    match text {
        [coarse, b' ', fine, rest @ ..] => time_counted(preamble_in(rest)?, *coarse, *fine),
        _ => None,
    }
}

// A time of as many octets of seconds, and of parts of one, as two digits say.
fn time_counted(preamble: bool, coarse: u8, fine: u8) -> Option<TimeField>
    ensures { result ≡ time_counted preamble coarse fine }
{
    if !(b'1'..=b'4').contains(&coarse) || !(b'0'..=b'3').contains(&fine) {
        return None;
    }
    let (coarse, fine) = (coarse - b'0', fine - b'0');
    Some(time_coded(preamble, TimeFields::Unsegmented { coarse, fine }))
}

// The time that counts days, by what is behind the code's word.
fn days_in(text: &[u8]) -> Option<TimeField>
    ensures { result ≡ days_in text.now }
{
    match text {
        [b'1', b'6', rest @ ..] => parts_in(false, rest),
        [b'2', b'4', rest @ ..] => parts_in(true, rest),
        _ => None,
    }
}

// The same by what is behind the bits of days.
fn parts_in(long: bool, text: &[u8]) -> Option<TimeField>
    ensures { result ≡ parts_in long text.now }
{
    let (submillisecond, rest) = match text {
        [b' ', b'u', b's', rest @ ..] => (Submillisecond::Microseconds, rest),
        [b' ', b'p', b's', rest @ ..] => (Submillisecond::Picoseconds, rest),
        rest => (Submillisecond::Absent, rest),
    };
    let preamble = preamble_in(rest)?;
    Some(time_coded(
        preamble,
        TimeFields::DaySegmented {
            long,
            submillisecond,
        },
    ))
}

// Whether a preamble field is in front, by what is said last.
fn preamble_in(text: &[u8]) -> Option<bool>
    ensures { result ≡ preamble_in text.now }
{
    match text {
        [] => Some(false),
        [b' ', b'p'] => Some(true),
        _ => None,
    }
}

// A time by a code, since the epoch of the standard.
fn time_coded(preamble: bool, fields: TimeFields) -> TimeField
    requires { field_octets fields < 255 }
    ensures { result ≡ time_coded preamble fields }
{
    let code = TimeCode {
        epoch: None,
        preamble,
        fields,
    };
    TimeField {
        octets: code.octets() as u8,
        code: Some(code),
    }
}

// The number of the day that a value is.
fn day_in(value: &Value) -> Option<u32>
    ensures { result ≡ day_in (view value.now) }
{
    match value.as_datetime() {
        Some(when) => day_of(*when),
        None => day_in_text(value.as_str()?),
    }
}

// The number of the day that a text is.
fn day_in_text(text: &str) -> Option<u32>
    ensures { result ≡ date_or None (Some text.now) }
{
    match text.parse::<Datetime>() {
        Ok(when) => day_of(when),
        Err(_) => None,
    }
}

// The number of the day that is said without a time of day.
fn day_of(when: Datetime) -> Option<u32>
    ensures { result ≡ day_of when }
{
    match (when.date, when.time) {
        (Some(date), None) => day_number(date.year, date.month, date.day),
        _ => None,
    }
}

// A time by a code since the beginning of a day.
fn since(field: TimeField, day: Option<u32>) -> Result<TimeField, Wrong<'static>>
    ensures { result_ok result ≡ since field field.code day }
{
    let Some(code) = field.code else {
        return Err(Wrong::at("epoch", Reason::NoTimeCode));
    };
    let Some(epoch) = day else {
        return Err(Wrong::at("epoch", Reason::NotDay));
    };
    Ok(TimeField {
        code: Some(TimeCode {
            epoch: Some(epoch),
            ..code
        }),
        ..field
    })
}

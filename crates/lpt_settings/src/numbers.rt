//! The numbers of a table.

ghost use Rattle.std.specs.Prelude.{◌≡◌, ◌≤◌, IfOk, IfSome};
ghost use Rattle.std.specs.Result.{result_ok};
ghost use Rattle.toml.specs.View.{view, table_view};
ghost use Rattle.lpt_settings.specs.Numbers.{natural_in, number_in, number_at};

use crate::wrong::{Reason, Wrong};
use toml::{Table, Value};

/// The number at a key of the table, from `least` to `greatest`; `default` if the key is absent.
///
/// Errors: if the key has another value, or is absent and has no default.
pub fn number(
    table: &Table,
    key: &'static str,
    least: u32,
    greatest: u32,
    default: Option<u32>,
) -> Result<u32, Wrong<'static>>
    requires least { IfSome default (λ d. least ≤ d) }
    requires greatest { IfSome default (λ d. d ≤ greatest) }
    ensures value { result_ok result ≡ number_at key.now least greatest default (table_view table.now) }
    ensures least { IfOk result (λ n. least ≤ n) }
    ensures greatest { IfOk result (λ n. n ≤ greatest) }
{
    match table.get(key) {
        Some(value) => number_of_value(value, key, least, greatest),
        None => or_missing(default, key),
    }
}

/// The number of a value, if it is an integer from `least` to `greatest`.
///
/// Errors: if it is another value.
pub fn number_of_value(
    value: &Value,
    key: &'static str,
    least: u32,
    greatest: u32,
) -> Result<u32, Wrong<'static>>
    ensures value { result_ok result ≡ number_in least greatest (view value.now) }
    ensures least { IfOk result (λ n. least ≤ n) }
    ensures greatest { IfOk result (λ n. n ≤ greatest) }
{
    let Some(integer) = value.as_integer() else {
        return Err(Wrong::at(key, Reason::NotInteger));
    };
    match natural(integer, least, greatest) {
        Some(number) => Ok(number),
        None => Err(Wrong::at(key, Reason::OutOfRange { least, greatest })),
    }
}

// The integer, if it is from `least` to `greatest`.
fn natural(integer: i64, least: u32, greatest: u32) -> Option<u32>
    ensures value { result ≡ natural_in least greatest integer }
    ensures least { IfSome result (λ n. least ≤ n) }
    ensures greatest { IfSome result (λ n. n ≤ greatest) }
{
    let number = u32::try_from(integer).ok()?;
    if number < least || number > greatest {
        return None;
    }
    Some(number)
}

// The default, if there is one.
fn or_missing(default: Option<u32>, key: &'static str) -> Result<u32, Wrong<'static>>
    ensures { result_ok result ≡ default }
{
    match default {
        Some(number) => Ok(number),
        None => Err(Wrong::at(key, Reason::Missing)),
    }
}

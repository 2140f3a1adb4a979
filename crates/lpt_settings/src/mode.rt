//! The mode of a table.

ghost use Rattle.std.specs.Prelude.{◌≡◌};
ghost use Rattle.std.specs.Result.{result_ok};
ghost use Rattle.toml.specs.View.{view, table_view};
ghost use Rattle.lpt_settings.specs.Modes.{mode_of, mode_in, mode_at};

use crate::wrong::{Reason, Wrong};
use lpt_part::Mode;
use toml::{Table, Value};

/// The mode at the key `mode` of the table; that of any order if the key is absent.
///
/// Errors: if the key has a value that names no mode.
pub(crate) fn mode(table: &Table) -> Result<Mode, Wrong<'static>>
    ensures value { result_ok result ≡ mode_at (table_view table.now) }
{
    match table.get("mode") {
        Some(value) => mode_of_value(value),
        None => Ok(Mode::Any),
    }
}

// The mode that a value names.
fn mode_of_value(value: &Value) -> Result<Mode, Wrong<'static>>
    ensures { result_ok result ≡ mode_in (view value.now) }
{
    match value.as_str() {
        Some(text) => mode_of(text),
        None => Err(Wrong::at("mode", Reason::NotMode)),
    }
}

// The mode of this name.
fn mode_of(text: &str) -> Result<Mode, Wrong<'static>>
    ensures { result_ok result ≡ mode_of text.now }
{
    if text == "any" {
        Ok(Mode::Any)
    } else if text == "strict" {
        Ok(Mode::Strict)
    } else {
        Err(Wrong::at("mode", Reason::NotMode))
    }
}

//! Layouts read from the text of a layout file.

ghost use Rattle.std.specs.Prelude.{◌≡◌, Some, IfOk, IfSome, option_and_then};
ghost use Rattle.std.specs.Result.{result_ok};
ghost use Rattle.toml.specs.Errors.{IsBlank};
ghost use Rattle.toml.specs.Parse.{parse_document};
ghost use Rattle.toml.specs.View.{table_view};
ghost use Rattle.lpt_carried.specs.Layouts.{own_layouts, SizesFit};
ghost use Rattle.lpt_layout_file.specs.Tables.{layouts_of};

use crate::keys::TABLES;
use crate::tables::{telecommands, telemetry};
use lpt_carried::Layouts;
use lpt_settings::{Reason, Wrong, has_only, unknown_key};
use std::alloc::Global;
use toml::Table;

/// Reads the text of a layout file: a TOML document of the tables, keys, ranges and defaults that
/// the crate lists.
///
/// `None` if the text isn't TOML, a table or a key isn't known, a value has another type or is
/// none of those that the key may have, and if the reader of TOML runs out of memory.
pub fn read_layouts(alloc: Global, text: &str) -> Option<Layouts>
    // The text is a TOML document, and the layouts are what its table means.
    ensures some { IfSome result (λ l.
        option_and_then layouts_of (parse_document text.now) ≡ Some l) }
    ensures sizes { IfSome result SizesFit }

    // White space and comments alone give the profile.
    ensures blank { IsBlank text.now → result ≡ Some own_layouts }
{
    let Ok(table) = toml::table_from_str(alloc, text) else {
        return None;
    };
    judge(&table).ok()
}

// What a table means, or the first thing that is wrong with it.
pub(crate) fn judge(table: &Table) -> Result<Layouts, Wrong<'_>>
    ensures value { result_ok result ≡ layouts_of (table_view table.now) }
    ensures sizes { IfOk result SizesFit }
{
    if !has_only(table, &TABLES) {
        return Err(Wrong::at(unknown_key(table, &TABLES), Reason::Unknown));
    }
    let telemetry = telemetry(table)?;
    let telecommands = telecommands(table)?;
    Ok(Layouts {
        telemetry,
        telecommands,
    })
}

//! The values of keys.

ghost use Rattle.std.specs.Prelude.{◌≡◌, IfOk};
ghost use Rattle.std.specs.Result.{result_ok};
ghost use Rattle.toml.specs.View.{view, table_view};
ghost use Rattle.lpt_carried.specs.Layouts.{SizeIsSize};
ghost use Rattle.lpt_layout_file.specs.Values.{flag_at, flag_in, header_bits_at, header_bits_in, part_bits_at, part_bits_in, size_at, size_in, version_at};

use lpt_layout::{Version, Width};
use lpt_settings::{Reason, Wrong, number, number_of_value};
use toml::{Table, Value};

// The truth at a key, which is true if the key is absent.
pub(crate) fn flag(table: &Table, key: &'static str) -> Result<bool, Wrong<'static>>
    ensures { result_ok result ≡ flag_at key.now (table_view table.now) }
{
    match table.get(key) {
        Some(value) => flag_in(value, key),
        None => Ok(true),
    }
}

// The truth that a value is.
fn flag_in(value: &Value, key: &'static str) -> Result<bool, Wrong<'static>>
    ensures { result_ok result ≡ flag_in (view value.now) }
{
    match value.as_bool() {
        Some(flag) => Ok(flag),
        None => Err(Wrong::at(key, Reason::NotFlag)),
    }
}

// The PUS version, which is 2 if the key is absent.
pub(crate) fn version(table: &Table) -> Result<Version, Wrong<'static>>
    ensures { result_ok result ≡ version_at (table_view table.now) }
{
    match number(table, "version", 1, 2, Some(2))? {
        1 => Ok(Version::One),
        _ => Ok(Version::Two),
    }
}

// How wide a field of a header is, by its bits at a key; 16 if the key is absent.
pub(crate) fn header_bits(table: &Table, key: &'static str) -> Result<Width, Wrong<'static>>
    ensures { result_ok result ≡ header_bits_at key.now (table_view table.now) }
{
    match table.get(key) {
        Some(value) => header_bits_in(value, key),
        None => Ok(Width::Word),
    }
}

// How wide a field of a header is that has as many bits as a value says.
fn header_bits_in(value: &Value, key: &'static str) -> Result<Width, Wrong<'static>>
    ensures { result_ok result ≡ header_bits_in (view value.now) }
{
    match number_of_value(value, key, 0, 16) {
        Ok(0) => Ok(Width::Absent),
        Ok(8) => Ok(Width::Octet),
        Ok(16) => Ok(Width::Word),
        _ => Err(Wrong::at(key, Reason::NotHeaderBits)),
    }
}

// How wide a field of a part is, by its bits at a key; 16 if the key is absent.
pub(crate) fn part_bits(table: &Table, key: &'static str) -> Result<Width, Wrong<'static>>
    ensures { result_ok result ≡ part_bits_at key.now (table_view table.now) }
{
    match table.get(key) {
        Some(value) => part_bits_in(value, key),
        None => Ok(Width::Word),
    }
}

// How wide a field of a part is that has as many bits as a value says.
fn part_bits_in(value: &Value, key: &'static str) -> Result<Width, Wrong<'static>>
    ensures { result_ok result ≡ part_bits_in (view value.now) }
{
    match number_of_value(value, key, 16, 32) {
        Ok(16) => Ok(Width::Word),
        Ok(32) => Ok(Width::Long),
        _ => Err(Wrong::at(key, Reason::NotPartBits)),
    }
}

// The part size, if there is one.
pub(crate) fn part_size(table: &Table) -> Result<Option<u32>, Wrong<'static>>
    ensures value { result_ok result ≡ size_at (table_view table.now) }
    ensures size { IfOk result SizeIsSize }
{
    match table.get("part_size") {
        Some(value) => size_in(value),
        None => Ok(None),
    }
}

// The part size that a value is.
fn size_in(value: &Value) -> Result<Option<u32>, Wrong<'static>>
    ensures value { result_ok result ≡ size_in (view value.now) }
    ensures size { IfOk result SizeIsSize }
{
    number_of_value(value, "part_size", 1, 65_535).map(Some)
}

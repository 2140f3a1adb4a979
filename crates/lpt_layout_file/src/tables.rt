//! What the tables of telemetry and of telecommands mean.

ghost use Rattle.std.specs.Prelude.{◌≡◌, IfOk};
ghost use Rattle.std.specs.Result.{result_ok};
ghost use Rattle.toml.specs.View.{view, table_view};
ghost use Rattle.lpt_carried.specs.Layouts.{SizeFits};
ghost use Rattle.lpt_layout_file.specs.Tables.{parts_in, telecommands_at, telecommands_in, telecommands_of, telemetry_at, telemetry_in, telemetry_of};

use crate::keys::{TELECOMMAND_KEYS, TELEMETRY_KEYS};
use crate::times::time_field;
use crate::values::{flag, header_bits, part_bits, part_size, version};
use lpt_carried::Tailored;
use lpt_layout::{Layout, PartLayout, Width};
use lpt_settings::{Reason, Wrong, WrongPlace, has_only, number, unknown_key};
use toml::{Table, Value};

// How telemetry is laid out, by the table of a file.
pub(crate) fn telemetry(table: &Table) -> Result<Tailored, Wrong<'_>>
    ensures value { result_ok result ≡ telemetry_at (table_view table.now) }
    ensures size { IfOk result SizeFits }
{
    match table.get("telemetry") {
        Some(value) => telemetry_of(value),
        None => Ok(Tailored {
            packets: Layout::own_tm(),
            time: None,
            parts: PartLayout::own(),
            part_size: None,
        }),
    }
}

// The same by a value that should be its table.
fn telemetry_of(value: &Value) -> Result<Tailored, Wrong<'_>>
    ensures value { result_ok result ≡ telemetry_of (view value.now) }
    ensures size { IfOk result SizeFits }
{
    let Some(table) = value.as_table() else {
        return Err(Wrong::at("telemetry", Reason::NotTable));
    };
    match telemetry_in(table) {
        Ok(tailored) => Ok(tailored),
        Err(wrong) => Err(wrong.within(WrongPlace::Table("telemetry"))),
    }
}

// The same by its table.
fn telemetry_in(table: &Table) -> Result<Tailored, Wrong<'_>>
    ensures value { result_ok result ≡ telemetry_in (table_view table.now) }
    ensures size { IfOk result SizeFits }
{
    if !has_only(table, &TELEMETRY_KEYS) {
        return Err(Wrong::at(unknown_key(table, &TELEMETRY_KEYS), Reason::Unknown));
    }
    let has_checksum = flag(table, "checksum")?;
    let version = version(table)?;
    let counter = header_bits(table, "counter")?;
    let user = header_bits(table, "destination")?;
    let time = time_field(table)?;
    let spare = number(table, "spare", 0, 255, Some(0))?;
    let parts = parts_in(table)?;
    let part_size = part_size(table)?;
    Ok(Tailored {
        packets: Layout {
            has_checksum,
            version,
            counter,
            user,
            time: time.octets,
            spare: spare as u8,
        },
        time: time.code,
        parts,
        part_size,
    })
}

// How telecommands are laid out, by the table of a file.
pub(crate) fn telecommands(table: &Table) -> Result<Tailored, Wrong<'_>>
    ensures value { result_ok result ≡ telecommands_at (table_view table.now) }
    ensures size { IfOk result SizeFits }
{
    match table.get("telecommands") {
        Some(value) => telecommands_of(value),
        None => Ok(Tailored {
            packets: Layout::own_tc(),
            time: None,
            parts: PartLayout::own(),
            part_size: None,
        }),
    }
}

// The same by a value that should be its table.
fn telecommands_of(value: &Value) -> Result<Tailored, Wrong<'_>>
    ensures value { result_ok result ≡ telecommands_of (view value.now) }
    ensures size { IfOk result SizeFits }
{
    let Some(table) = value.as_table() else {
        return Err(Wrong::at("telecommands", Reason::NotTable));
    };
    match telecommands_in(table) {
        Ok(tailored) => Ok(tailored),
        Err(wrong) => Err(wrong.within(WrongPlace::Table("telecommands"))),
    }
}

// The same by its table.
fn telecommands_in(table: &Table) -> Result<Tailored, Wrong<'_>>
    ensures value { result_ok result ≡ telecommands_in (table_view table.now) }
    ensures size { IfOk result SizeFits }
{
    if !has_only(table, &TELECOMMAND_KEYS) {
        return Err(Wrong::at(unknown_key(table, &TELECOMMAND_KEYS), Reason::Unknown));
    }
    let has_checksum = flag(table, "checksum")?;
    let version = version(table)?;
    let user = header_bits(table, "source")?;
    let spare = number(table, "spare", 0, 255, Some(0))?;
    let parts = parts_in(table)?;
    let part_size = part_size(table)?;
    Ok(Tailored {
        packets: Layout {
            has_checksum,
            version,
            counter: Width::Absent,
            user,
            time: 0,
            spare: spare as u8,
        },
        time: None,
        parts,
        part_size,
    })
}

// How the bodies of parts are laid out.
fn parts_in(table: &Table) -> Result<PartLayout, Wrong<'static>>
    ensures { result_ok result ≡ parts_in (table_view table.now) }
{
    let id = part_bits(table, "transaction_id")?;
    let number = part_bits(table, "part_number")?;
    Ok(PartLayout { id, number })
}

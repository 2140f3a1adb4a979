//! The settings read from the text of a configuration file.

ghost use Rattle.std.specs.Prelude.{◌≡◌, ◌⊎◌, Some, IsSome, IfSome, IfOk, IfErr, OnErr, MatchResult, option_map, option_and_then};
ghost use Rattle.std.specs.Result.{result_ok};
ghost use Rattle.toml.specs.Errors.{IsBlank};
ghost use Rattle.toml.specs.Parse.{parse_document};
ghost use Rattle.toml.specs.View.{table_view};
ghost use Rattle.lpt_events.specs.Configs.{IsConfig};
ghost use Rattle.lpt_settings.specs.Settings.{config_of, turns_of, numbers_of, settings_of, default_settings};

use crate::SettingsFault;
use crate::keys::{KEYS, has_only, unknown_key};
use crate::memories::{judge_memories, memories};
use crate::mode::mode;
use crate::numbers::number;
use crate::wrong::{Reason, Wrong};
use lpt_events::{Config, Turns};
use lpt_memory::Memories;
use std::alloc::{AllocError, Global};
use toml::Table;

/// Reads a configuration and the first memories: a TOML document of the keys, ranges and defaults
/// that the crate lists.
///
/// Errors: `Config` if the text isn't TOML, a key isn't known or is missing, a value has another
/// type or is out of its range, the memories are too many or none or have an identifier twice, and
/// if the reader of TOML runs out of memory; `Memory` if there is none for the memories of a
/// text that isn't refused for anything else.
pub fn read_config(alloc: Global, text: &str) -> Result<(Config, Memories, Turns), SettingsFault>
    // The text is a TOML document, and the settings are what its table means.
    ensures ok { IfOk result (λ s.
        option_and_then settings_of (parse_document text.now) ≡ Some ((s.0, s.2), s.1)) }
    ensures ranges { IfOk result (λ s. IsConfig s.0) }

    // White space and comments alone give the defaults, if there is memory for them.
    ensures blank { IsBlank text.now
        → MatchResult result (λ s. ((s.0, s.2), s.1) ≡ default_settings) (λ e. e ≡ SettingsFault.Memory) }

    // All of the text is judged before memory is taken for the memories.
    ensures memory { IfErr result (λ e. e ≡ SettingsFault.Memory
        → IsSome (option_and_then settings_of (parse_document text.now))) }

    // No clause says when else it succeeds, since the reader of TOML may want memory.
    ensures fault { IfErr result (λ e. (e ≡ SettingsFault.Config) ⊎ (e ≡ SettingsFault.Memory)) }
{
    let Ok(table) = toml::table_from_str(alloc, text) else {
        return Err(SettingsFault::Config);
    };
    match read_table(alloc, &table) {
        Ok(Some(((config, turns), memories))) => Ok((config, memories, turns)),
        Ok(None) => Err(SettingsFault::Config),
        Err(_) => Err(SettingsFault::Memory),
    }
}

// The settings that a table means; `None` if it is refused. The only error is out of memory,
// if it isn't.
fn read_table(
    alloc: Global,
    table: &Table,
) -> Result<Option<((Config, Turns), Memories)>, AllocError>
    ensures value { IfOk result (λ s. s ≡ settings_of (table_view table.now)) }
    ensures ranges { IfOk result (λ s. IfSome s (λ x. IsConfig x.0.0)) }
    ensures asked { OnErr result (IsSome (settings_of (table_view table.now))) }
{
    let Ok(numbers) = judge(table) else {
        return Ok(None);
    };
    let Some(memories) = memories(alloc, table)? else {
        return Ok(None);
    };
    Ok(Some((numbers, memories)))
}

// Judges all of a table, and takes no memory: its numbers, or the first thing that is wrong.
pub(crate) fn judge(table: &Table) -> Result<(Config, Turns), Wrong<'_>>
    ensures value { result_ok result ≡ option_map (λ s. s.0) (settings_of (table_view table.now)) }
    ensures ranges { IfOk result (λ n. IsConfig n.0) }
{
    if !has_only(table, &KEYS) {
        return Err(Wrong::at(unknown_key(table, &KEYS), Reason::Unknown));
    }
    let numbers = read_numbers(table)?;
    judge_memories(table)?;
    Ok(numbers)
}

// What all numbers of a table mean.
fn read_numbers(table: &Table) -> Result<(Config, Turns), Wrong<'static>>
    ensures value { result_ok result ≡ numbers_of (table_view table.now) }
    ensures ranges { IfOk result (λ n. IsConfig n.0) }
{
    let config = read_fixed(table)?;
    let turns = read_turns(table)?;
    Ok((config, turns))
}

// How much each seat does in a run of threads.
fn read_turns(table: &Table) -> Result<Turns, Wrong<'static>>
    ensures { result_ok result ≡ turns_of (table_view table.now) }
{
    let per_seat = number(table, "per_seat", 1, 1_000_000, Some(100_000))?;
    let ticks = number(table, "ticks", 0, 65535, Some(0))?;
    Ok(Turns { per_seat, ticks })
}

// The configuration that the numbers and the mode of a table mean.
fn read_fixed(table: &Table) -> Result<Config, Wrong<'static>>
    ensures value { result_ok result ≡ config_of (table_view table.now) }
    ensures ranges { IfOk result IsConfig }
{
    let apid = number(table, "apid", 0, 2046, Some(100))?;
    let source = number(table, "source", 0, 65535, Some(1))?;
    let part_size = number(table, "part_size", 4, 1024, Some(8))?;
    let timeout = number(table, "timeout", 1, 65535, Some(10))?;
    let receptions = number(table, "receptions", 1, 64, Some(8))?;
    let outgoing = number(table, "outgoing", 1, 64, Some(8))?;
    let clock = number(table, "clock", 0, u32::MAX, Some(0))?;
    let mode = mode(table)?;
    Ok(Config {
        apid: apid as u16,
        source: source as u16,
        part_size,
        timeout,
        receptions,
        outgoing,
        clock,
        mode,
    })
}

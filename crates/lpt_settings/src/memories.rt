//! The memories that a table describes.

ghost use Rattle.std.specs.Prelude.{◌≡◌, ◌≤◌, ◌&&◌, nat_le, replicate, Some, is_ok, is_some, option_map, option_and_then, IfOk};
ghost use Rattle.std.specs.Result.{result_ok};
ghost use Rattle.toml.specs.View.{view, items_view, table_view};
ghost use Rattle.lpt_settings.specs.MemoryTables.{memory_of, each_memory, if_memories, memories_listed, default_memories, memories_of, is_id, has_id};
ghost use Rattle.lpt_memory.specs.Limits.{memory_limit, size_limit};

use crate::keys::{MEMORY_KEYS, has_only, unknown_key};
use crate::numbers::number;
use crate::wrong::{Reason, Wrong, WrongPlace};
use lpt_memory::{MEMORY_LIMIT, Memories, SIZE_LIMIT};
use lpt_packet::Octets;
use std::alloc::{AllocError, Global};
use toml::{Table, Value};

// A memory as a table describes it: so many octets of one value.
#[derive(Clone, Copy)]
struct Filled {
    id: u8,
    size: usize,
    fill: u8,
}

/// Judges what is at the key `memory`, and takes no memory for it.
pub(crate) fn judge_memories(table: &Table) -> Result<(), Wrong<'_>>
    ensures { is_ok result ≡ is_some (memories_of (table_view table.now)) }
{
    match table.get("memory") {
        Some(value) => judge_listed(value),
        None => Ok(()),
    }
}

// Judges a value that should be an array of tables.
fn judge_listed(value: &Value) -> Result<(), Wrong<'_>>
    ensures { is_ok result ≡ is_some (memories_listed (view value.now)) }
{
    match value.as_array() {
        Some(values) => judge_values(values),
        None => Err(Wrong::at("memory", Reason::NotArray)),
    }
}

// Judges values that should be tables of memories.
fn judge_values(values: &[Value]) -> Result<(), Wrong<'_>>
    ensures { is_ok result ≡ is_some (option_and_then if_memories (each_memory (items_view values.now))) }
{
    if !is_count(values.len()) {
        return Err(Wrong::at("memory", Reason::Count));
    }
    for (place, value) in values.iter().enumerate() {
        let memory = match memory_described(value) {
            Ok(memory) => memory,
            Err(wrong) => return Err(wrong.within(WrongPlace::Memory(place))),
        };
        if has_id(&values[place + 1..], memory.id) {
            return Err(Wrong::at("id", Reason::Twice).within(WrongPlace::Memory(place)));
        }
    }
    Ok(())
}

// Whether there can be so many memories.
fn is_count(len: usize) -> bool
    ensures { result ≡ (nat_le 1 len && nat_le len memory_limit) }
{
    (1..=MEMORY_LIMIT).contains(&len)
}

// Whether one of the values describes a memory of this identifier.
fn has_id(values: &[Value], id: u8) -> bool
    ensures { result ≡ has_id id values.now }
{
    values.iter().any(|value| is_of_id(value, id))
}

// Whether the value describes a memory of this identifier.
fn is_of_id(value: &Value, id: u8) -> bool
    ensures { result ≡ is_id id (memory_of (view value.now)) }
{
    match memory_described(value) {
        Ok(memory) => memory.id == id,
        Err(_) => false,
    }
}

/// The memories at the key `memory`, or the default if the key is absent.
///
/// `None` if the value at the key is refused. The only error is out of memory, if it isn't.
pub(crate) fn memories(alloc: Global, table: &Table) -> Result<Option<Memories>, AllocError>
    ensures { IfOk result (λ m. m ≡ memories_of (table_view table.now)) }
{
    match table.get("memory") {
        Some(value) => memories_listed(alloc, value),
        None => default_memories(alloc),
    }
}

// One memory 1 of 256 octets of 0. The only error is out of memory.
fn default_memories(alloc: Global) -> Result<Option<Memories>, AllocError>
    ensures { IfOk result (λ m. m ≡ Some default_memories) }
{
    let octets = filled_octets(alloc, 256, 0)?;
    let mut memories = Vec::with_capacity(alloc, 1)?;
    memories.push((1, octets))?;
    Ok(if_memories(memories))
}

// The memories of an array of tables; `None` for another value. The only error is out of memory.
fn memories_listed(alloc: Global, value: &Value) -> Result<Option<Memories>, AllocError>
    ensures { IfOk result (λ m. m ≡ memories_listed (view value.now)) }
{
    let Some(values) = value.as_array() else {
        return Ok(None);
    };
    // Of too many memories none is filled.
    if values.len() > MEMORY_LIMIT {
        return Ok(None);
    }
    let mut memories = Vec::with_capacity(alloc, values.len())?;
    for value in values {
        let Some(memory) = memory(alloc, value)? else {
            return Ok(None);
        };
        memories.push(memory)?;
    }
    Ok(if_memories(memories))
}

// These, if they can be memories.
fn if_memories(memories: Vec<(u8, Octets)>) -> Option<Memories>
    ensures { result ≡ if_memories memories.items }
{
    Memories::new(memories).ok()
}

// The memory of a table; `None` for another value. The only error is out of memory.
fn memory(alloc: Global, value: &Value) -> Result<Option<(u8, Octets)>, AllocError>
    ensures { IfOk result (λ m. m ≡ memory_of (view value.now)) }
{
    let Ok(memory) = memory_described(value) else {
        return Ok(None);
    };
    let octets = filled_octets(alloc, memory.size, memory.fill)?;
    Ok(Some((memory.id, octets)))
}

// So many octets of one value. The only error is out of memory.
fn filled_octets(alloc: Global, size: usize, fill: u8) -> Result<Octets, AllocError>
    ensures { IfOk result (λ o. o ≡ replicate size fill) }
{
    Ok(Octets::from_vec(vec![in alloc; fill; size]?))
}

// What a table says of a memory.
fn memory_described(value: &Value) -> Result<Filled, Wrong<'_>>
    ensures value { option_map (λ m. (m.id, replicate m.size m.fill)) (result_ok result)
        ≡ memory_of (view value.now) }
    ensures least { IfOk result (λ m. 1 ≤ m.size) }
    ensures greatest { IfOk result (λ m. m.size ≤ size_limit) }
{
    let Some(table) = value.as_table() else {
        return Err(Wrong::at("", Reason::NotTable));
    };
    if !has_only(table, &MEMORY_KEYS) {
        return Err(Wrong::at(unknown_key(table, &MEMORY_KEYS), Reason::Unknown));
    }
    let id = number(table, "id", 0, 255, None)?;
    let size = number(table, "size", 1, SIZE_LIMIT as u32, None)?;
    let fill = number(table, "fill", 0, 255, Some(0))?;
    Ok(Filled {
        id: id as u8,
        size: size as usize,
        fill: fill as u8,
    })
}

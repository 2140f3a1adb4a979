//! What is said of a world row by row: of the packets on the link, and of the messages.

ghost use Rattle.std.specs.Prelude.{◌≡◌, ◌++◌, length, OnOk, string_bytes};
ghost use Rattle.lpt_part.specs.Splitting.{IsPartSize, part_count};
ghost use Rattle.lpt_journal.specs.Link.{sent};
ghost use Rattle.lpt_world.specs.Worlds.{history};
ghost use Rattle.lpt_script_views.specs.Rows.{held_line, held_row, message_row, messages_text, missing_row, rows_text, sender_row};

use crate::gaps::add_gaps;
use crate::kept::kept_numbers;
use lpt_events::{Opening, is_opened, name_word};
use lpt_ledger::State;
use lpt_packet::{Direction, Name};
use lpt_world::World;
use std::alloc::{AllocError, Global};

/// The end at which messages are listed.
#[derive(Clone, Copy)]
pub(crate) enum Half {
    /// The node that sends a message.
    Sender,
    /// The node that receives it.
    Receiver,
}

// Adds the packets that the link holds to a text.
pub(crate) fn add_held(text: &mut String, world: &World) -> Result<(), AllocError>
    ensures { OnOk result (string_bytes text.new ≡ string_bytes text.old ++ rows_text (held_row world.now) 0 (length (sent (history world.now)))) }
{
    for number in 0..world.packets() {
        add_held_row(text, world, number)?;
    }
    Ok(())
}

// Adds the packet of this number, if the link holds it.
fn add_held_row(text: &mut String, world: &World, number: u64) -> Result<(), AllocError>
    ensures { OnOk result (string_bytes text.new ≡ string_bytes text.old ++ held_row world.now number) }
{
    if !world.is_held(number) {
        return Ok(());
    }
    match world.packet(number) {
        Some(octets) => add_held_line(text, number, octets.len()),
        None => Ok(()),
    }
}

// Adds a packet of so many octets.
fn add_held_line(text: &mut String, number: u64, len: usize) -> Result<(), AllocError>
    ensures { OnOk result (string_bytes text.new ≡ string_bytes text.old ++ held_line number len) }
{
    write!(text, "held {number} {len}\n")
}

// Adds the messages of a world to a text, in the order in which they were opened.
pub(crate) fn add_messages(
    alloc: Global,
    text: &mut String,
    world: &World,
    half: Half,
) -> Result<(), AllocError>
    ensures { OnOk result (string_bytes text.new ≡ string_bytes text.old ++ messages_text world.now half) }
{
    let mut rest = world.opened();
    while let Some((opening, later)) = rest.split_first() {
        if !is_opened(later, opening.direction, opening.name) {
            add_message(alloc, text, world, half, opening)?;
        }
        rest = later;
    }
    Ok(())
}

// Adds a message at its sender or at its receiver.
fn add_message(
    alloc: Global,
    text: &mut String,
    world: &World,
    half: Half,
    opening: &Opening,
) -> Result<(), AllocError>
    ensures { OnOk result (string_bytes text.new ≡ string_bytes text.old ++ message_row world.now half opening.now) }
{
    let parts = parts_that_hold(opening.message.as_slice().len(), world.config().part_size);
    match half {
        Half::Sender => add_sender(text, world, opening.direction, opening.name, parts),
        Half::Receiver => {
            let kept = kept_numbers(alloc, world, opening.direction, opening.name)?;
            add_missing(
                alloc,
                text,
                world.config().source,
                opening.direction,
                opening.name,
                &kept,
                parts,
            )
        }
    }
}

// Adds a message of so many parts, if it is open at the node that sends it.
fn add_sender(
    text: &mut String,
    world: &World,
    direction: Direction,
    name: Name,
    parts: usize,
) -> Result<(), AllocError>
    ensures { OnOk result (string_bytes text.new ≡ string_bytes text.old ++ sender_row world.now direction name parts) }
{
    if world.sender(direction, name) != State::Open {
        return Ok(());
    }
    let direction = direction.word();
    let name = name_word(world.config().source, name);
    write!(text, "open {direction} {name} parts {parts}\n")
}

// Adds a message of so many parts, of which these are kept, and which of them are missing.
fn add_missing(
    alloc: Global,
    text: &mut String,
    source: u16,
    direction: Direction,
    name: Name,
    kept: &[u64],
    parts: usize,
) -> Result<(), AllocError>
    ensures { OnOk result (string_bytes text.new ≡ string_bytes text.old ++ missing_row source direction name kept.now parts) }
{
    if kept.is_empty() {
        return Ok(());
    }
    let direction = direction.word();
    let name = name_word(source, name);
    write!(text, "reception {direction} {name} parts {parts} missing")?;
    add_gaps(alloc, text, kept, parts)?;
    text.push_str("\n")
}

// How many parts of `p` octets hold so many octets.
fn parts_that_hold(len: usize, p: u32) -> usize
    requires { IsPartSize p }
    ensures { result ≡ part_count len p }
{
    len.div_ceil(p as usize)
}

//! What a world shows, printed.

ghost use Rattle.std.specs.Prelude.{◌≡◌, ◌≢◌, ◌++◌, ◌∷◌, [], IfErr, IsErrOf, Err, true, option_map};
ghost use Rattle.hex.specs.Hex.{encode_lower};
ghost use Rattle.lpt_text.specs.Streams.{WriteEnds};
ghost use Rattle.std.specs.List.{flat_map};
ghost use Rattle.lpt_script_text.specs.Printing.{clear_text, memory_text, octets_text, release_text, releases_text};
ghost use Rattle.lpt_journal.specs.Clear.{is_clear};
ghost use Rattle.lpt_world.specs.Worlds.{history};
ghost use Rattle.lpt_script.specs.Ends.{TextEnds};
ghost use Rattle.lpt_script.specs.Scripts.{memory_octets, octets_from, show_text};

use crate::printed::put;
use lpt_events::Release;
use lpt_packet::{Direction, Name};
use lpt_script_text::{
    print_clear, print_journal, print_memory_front, print_none, print_packet, print_release,
    write_digits,
};
use lpt_script_words::Show;
use lpt_text::{Sink, StreamFault, write_out};
use lpt_world::World;
use std::alloc::Global;

/// How many octets of a memory are written at a time.
const PIECE: usize = 16_384;

/// Prints what a line asks for.
pub fn run_show<K: Sink>(
    alloc: Global,
    world: &World,
    show: Show,
    out: &mut K,
) -> Result<(), StreamFault>
    ensures ends { TextEnds (show_text show world.now) result (K.contents out.old) (K.contents out.new) }
    ensures writer { WriteEnds result (K.failed out.old) (K.failed out.new) }
{
    match show {
        Show::Released => { show_released(alloc, world.config().source, world.released(), out) }
        Show::Packet(number) => put(out, print_packet(alloc, number, world.packet(number))),
        Show::Memory { id, address, len } => show_memory(alloc, world, id, address, len, out),
        Show::Clear(direction, name) => show_clear(alloc, world, direction, name, out),
        Show::Journal => put(out, print_journal(alloc, world.journal().len() as u64)),
    }
}

// Prints so many octets of a memory from an address on.
fn show_memory<K: Sink>(
    alloc: Global,
    world: &World,
    id: u8,
    address: u32,
    len: u32,
    out: &mut K,
) -> Result<(), StreamFault>
    ensures ends { TextEnds (memory_text id address (memory_octets world.now id address len)) result (K.contents out.old) (K.contents out.new) }
    ensures writer { WriteEnds result (K.failed out.old) (K.failed out.new) }
{
    if let Err(fault) = put(out, print_memory_front(alloc, id, address)) {
        return Err(fault);
    }
    match octets_of(world, id, address, len) {
        Some(octets) => put_octets(octets, out),
        None => put(out, print_none(alloc)),
    }
}

// Ends a line by octets in hexadecimal digits.
fn put_octets<K: Sink>(octets: &[u8], out: &mut K) -> Result<(), StreamFault>
    ensures ends { TextEnds (octets_text octets.now ++ 10 ∷ []) result (K.contents out.old) (K.contents out.new) }
    ensures writer { WriteEnds result (K.failed out.old) (K.failed out.new) }
{
    if octets.is_empty() {
        return write_out(out, b"-\n");
    }
    match put_digits(octets, out) {
        Ok(()) => write_out(out, b"\n"),
        Err(_) => Err(StreamFault::Write),
    }
}

// Writes two digits for each octet, without a text of all.
fn put_digits<K: Sink>(octets: &[u8], out: &mut K) -> Result<(), StreamFault>
    ensures ends { TextEnds (encode_lower octets.now) result (K.contents out.old) (K.contents out.new) }
    ensures fault { IfErr result (λ e. e ≡ StreamFault.Write) }
    ensures writer { WriteEnds result (K.failed out.old) (K.failed out.new) }
{
    let mut digits = [0; 2 * PIECE];
    let mut at = 0;
    'pieces: while at < octets.len() {
        let len = PIECE.min(octets.len() - at);
        let text = &mut digits[..2 * len];
        write_digits(&octets[at..at + len], text);
        match write_out(out, text) {
            Ok(()) => at += len,
            Err(_) => return Err(StreamFault::Write),
        }
    }
    Ok(())
}

// Prints whether nothing is left of a transaction.
fn show_clear<K: Sink>(
    alloc: Global,
    world: &World,
    direction: Direction,
    name: Name,
    out: &mut K,
) -> Result<(), StreamFault>
    ensures ends { TextEnds (clear_text (is_clear world.now.config (history world.now) direction name)) result (K.contents out.old) (K.contents out.new) }
    ensures writer { WriteEnds result (K.failed out.old) (K.failed out.new) }
{
    put(out, print_clear(alloc, world.is_clear(direction, name)))
}

// So many octets of a memory from an address on, if it is there and they lie within it.
fn octets_of(world: &World, id: u8, address: u32, len: u32) -> Option<&[u8]>
    ensures { option_map (λ x. x.now) result ≡ memory_octets world.now id address len }
{
    match world.memory(id) {
        Some(content) => octets_from(content, address, len),
        None => None,
    }
}

// So many octets from an address on, if they lie within the content.
fn octets_from(content: &[u8], address: u32, len: u32) -> Option<&[u8]>
    ensures { option_map (λ x. x.now) result ≡ octets_from address len content.now }
{
    let start = address as usize;
    let end = start + len as usize;
    if content.len() < end {
        return None;
    }
    Some(&content[start..end])
}

// Prints the released messages, or that there is none.
fn show_released<K: Sink>(
    alloc: Global,
    source: u16,
    releases: &[Release],
    out: &mut K,
) -> Result<(), StreamFault>
    ensures ends { TextEnds (releases_text source releases.now) result (K.contents out.old) (K.contents out.new) }
    ensures writer { WriteEnds result (K.failed out.old) (K.failed out.new) }
{
    if releases.is_empty() {
        put(out, print_none(alloc))
    } else {
        put_releases(alloc, source, releases, out)
    }
}

// Prints released messages, one a line.
fn put_releases<K: Sink>(
    alloc: Global,
    source: u16,
    releases: &[Release],
    out: &mut K,
) -> Result<(), StreamFault>
    ensures ends { TextEnds (flat_map (release_text source) releases.now) result (K.contents out.old) (K.contents out.new) }
    ensures writer { WriteEnds result (K.failed out.old) (K.failed out.new) }
{
    for release in releases {
        match put(out, print_release(alloc, source, release)) {
            Ok(()) => {}
            Err(fault) => return Err(fault),
        }
    }
    Ok(())
}

//! What the lines ask for that begin with `show`.

ghost use Rattle.std.specs.Prelude.{◌≡◌};
ghost use Rattle.lpt_script_words.specs.Grammar.{show_memory_of, show_clear_of, show_of, show_packet_of, show_whole_of};
ghost use Rattle.lpt_script_words.specs.Words.{words};

use crate::messages::read_lone_transaction;
use crate::names::{read_packet_number, read_u8, read_u32};
use crate::words::{is_blank, one_word, split_word, three_words};
use lpt_packet::{Direction, Name};

/// What a line asks to be printed.
#[derive(Clone, Copy, PartialEq, Eq)]
pub enum Show {
    /// `show released`: the messages that were released.
    Released,
    /// `show packet N`: the octets of the packet of this number.
    Packet(u64),
    /// `show memory ID ADDR LEN`: so many octets of a memory, from an address on.
    Memory { id: u8, address: u32, len: u32 },
    /// `show clear DIRECTION ID`: whether nothing is left of this transaction.
    Clear(Direction, Name),
    /// `show journal`: how long the journal is.
    Journal,
}

// The words after `show`.
pub(crate) fn read_show(source: u16, rest: &[u8]) -> Option<Show>
    ensures { result ≡ show_of source (words rest.now) }
{
    let (what, rest) = split_word(rest)?;
    if is_blank(rest) {
        read_show_whole(what)
    } else if what == b"memory".as_slice() {
        read_show_memory(rest)
    } else if what == b"clear".as_slice() {
        read_show_clear(source, rest)
    } else if what == b"packet".as_slice() {
        read_show_packet(rest)
    } else {
        None
    }
}

// The words after `show packet`.
fn read_show_packet(rest: &[u8]) -> Option<Show>
    ensures { result ≡ show_packet_of (words rest.now) }
{
    let number = read_packet_number(one_word(rest)?)?;
    Some(Show::Packet(number))
}

// The words after `show memory`.
fn read_show_memory(rest: &[u8]) -> Option<Show>
    ensures { result ≡ show_memory_of (words rest.now) }
{
    let (id, address, len) = three_words(rest)?;
    let id = read_u8(id)?;
    let (address, len) = read_u32(address).zip(read_u32(len))?;
    Some(Show::Memory { id, address, len })
}

// The words after `show clear`.
fn read_show_clear(source: u16, rest: &[u8]) -> Option<Show>
    ensures { result ≡ show_clear_of source (words rest.now) }
{
    let (direction, name) = read_lone_transaction(source, rest)?;
    Some(Show::Clear(direction, name))
}

// What is shown whole.
fn read_show_whole(word: &[u8]) -> Option<Show>
    ensures { result ≡ show_whole_of word.now }
{
    if word == b"released".as_slice() {
        Some(Show::Released)
    } else if word == b"journal".as_slice() {
        Some(Show::Journal)
    } else {
        None
    }
}

//! The lines that show something, and those of counts. A name is printed as its identifier if it
//! is of the configured source, and as `SOURCE/ID` otherwise.

ghost use Rattle.std.specs.Prelude.{◌≡◌, IfOk};
ghost use Rattle.std.specs.Option.{option_copied};
ghost use Rattle.std.specs.String.{string_bytes};
ghost use Rattle.lpt_script_text.specs.Printing.{unreadable_text, journal_text, plain_count_text, applied_count_text, packet_text, clear_text, memory_front, release_text, none_text};

use crate::words::{octets_word, text_around, text_of};
use lpt_events::{Release, name_word};
use std::alloc::{AllocError, Global};

/// `line 2: unreadable`: the script's line of this number, counted from 1, can't be read.
pub fn print_unreadable(alloc: Global, line: u64) -> Result<String, AllocError>
    ensures { IfOk result (λ t. string_bytes t ≡ unreadable_text line) }
{
    text_of(alloc, format_args!("line {line}: unreadable\n"))
}

/// `journal 10`: the journal has so many entries.
pub fn print_journal(alloc: Global, n: u64) -> Result<String, AllocError>
    ensures { IfOk result (λ t. string_bytes t ≡ journal_text n) }
{
    text_of(alloc, format_args!("journal {n}\n"))
}

/// `plain 0`: so many plain requests were released.
pub fn print_plain_count(alloc: Global, n: u64) -> Result<String, AllocError>
    ensures { IfOk result (λ t. string_bytes t ≡ plain_count_text n) }
{
    text_of(alloc, format_args!("plain {n}\n"))
}

/// `applied 5`: so many requests were executed.
pub fn print_applied_count(alloc: Global, n: u64) -> Result<String, AllocError>
    ensures { IfOk result (λ t. string_bytes t ≡ applied_count_text n) }
{
    text_of(alloc, format_args!("applied {n}\n"))
}

/// `packet 0 1864c000`, or `packet 9 none`: the octets of the packet of this number, if there is
/// one.
pub fn print_packet(alloc: Global, n: u64, packet: Option<&[u8]>) -> Result<String, AllocError>
    ensures { IfOk result (λ t. string_bytes t ≡ packet_text n (option_copied packet.entry)) }
{
    match packet {
        Some(octets) => {
            let octets = octets_word(alloc, octets)?;
            text_around(alloc, octets.len(), format_args!("packet {n} {octets}\n"))
        }
        None => text_of(alloc, format_args!("packet {n} none\n")),
    }
}

/// `clear yes` or `clear no`: whether nothing is left of a transaction.
pub fn print_clear(alloc: Global, clear: bool) -> Result<String, AllocError>
    ensures { IfOk result (λ t. string_bytes t ≡ clear_text clear) }
{
    let clear = if clear { "yes" } else { "no" };
    text_of(alloc, format_args!("clear {clear}\n"))
}

/// `memory 1 16 `: what stands before the octets of the memory of this identifier from this address on.
pub fn print_memory_front(alloc: Global, id: u8, address: u32) -> Result<String, AllocError>
    ensures { IfOk result (λ t. string_bytes t ≡ memory_front id address) }
{
    text_of(alloc, format_args!("memory {id} {address} "))
}

/// `up 7 1864c000`, or `plain 1864c000` if the message was of no transaction: a release.
pub fn print_release(alloc: Global, source: u16, release: &Release) -> Result<String, AllocError>
    ensures { IfOk result (λ t. string_bytes t ≡ release_text source release.now) }
{
    let octets = octets_word(alloc, release.message.as_slice())?;
    match release.of {
        Some((direction, name)) => {
            let direction = direction.word();
            let name = name_word(source, name);
            text_around(
                alloc,
                octets.len(),
                format_args!("{direction} {name} {octets}\n"),
            )
        }
        None => text_around(alloc, octets.len(), format_args!("plain {octets}\n")),
    }
}

/// `none`: there is nothing to show.
pub fn print_none(alloc: Global) -> Result<String, AllocError>
    ensures { IfOk result (λ t. string_bytes t ≡ none_text) }
{
    String::from_str(alloc, "none\n")
}

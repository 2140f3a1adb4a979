//! The checksum that a check report has of a file's octets.

use lpt_command_line::ChecksumWords;
use lpt_io::{Failure, Machine, STANDARD, Status, file_at, octets_word, tell_text, write_all_out};
use lpt_packet::crc16;

/// How many addresses a memory has at most. Of a file with more octets not all may be read.
const ADDRESSES: u64 = 1 << 32;

/// Writes the checksum of a file's octets, or of those from a place on. It is refused if the file
/// doesn't have these octets, or has more than a memory and not all octets are named.
///
/// Errors: `Read` if the file can't be opened or read; `Write`, `Memory`.
pub fn checksum<R: Machine>(rt: &R, words: &ChecksumWords<'_>) -> Result<Status, Failure> {
    let read = file_at(rt, words.file)?;
    let octets = read.as_slice();
    let Some(named) = named_in(words, octets) else {
        tell_unnamed(rt, words.file, octets.len());
        return Ok(Status::Refused);
    };
    let checksum = crc16(named);
    let line = format!(in rt.alloc(); "{checksum:04x}\n")?;
    write_all_out(rt, line.as_bytes())?;
    Ok(Status::Done)
}

// Tells that what is read at this path has only so many octets, or more than a memory.
fn tell_unnamed(rt: &(impl Eprint + AllocGlobal), path: &str, size: usize) {
    let name = if path == STANDARD {
        "standard input"
    } else {
        "the file"
    };
    let octets = octets_word(size);
    let text = if ADDRESSES < size as u64 {
        format!(in rt.alloc(); "{name} has more than {ADDRESSES} octets: no memory has so many")
    } else {
        format!(in rt.alloc(); "{name} has only {size} {octets}")
    };
    tell_text(rt, text);
}

// The octets that the words name, if they are there. Those up to the end aren't if there are more
// than in a memory: perhaps not all were read.
fn named_in<'a>(words: &ChecksumWords<'_>, octets: &'a [u8]) -> Option<&'a [u8]> {
    let behind = octets.get(words.from as usize..)?;
    match words.len {
        Some(len) => behind.get(..len as usize),
        None if ADDRESSES < octets.len() as u64 => None,
        None => Some(behind),
    }
}

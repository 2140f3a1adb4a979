//! Where something stands in the text of a file of tables, as its lines begin.

ghost use Rattle.std.specs.Prelude.{◌≡◌, ◌≤◌, length};
ghost use Rattle.lpt_settings.specs.Places.{line_at, line_ends};

use crate::wrong::WrongPlace;

// The line of the octet of this place, counted from 1.
#[tactic(auto, using(std::proofs::lemmas::List::take_all))]
pub(crate) fn line_at(text: &str, place: usize) -> usize
    ensures { result ≡ line_at text.now place }
{
    let octets = text.as_bytes();
    match octets.get(..place) {
        Some(before) => line_ends(before) + 1,
        None => line_ends(octets) + 1,
    }
}

// How many lines end in the octets.
fn line_ends(octets: &[u8]) -> usize
    ensures value { result ≡ line_ends octets.now }
    ensures few { result ≤ length octets.now }
{
    octets.iter().filter(|octet| **octet == b'\n').count()
}

// The line of a key of this table, counted from 1.
pub(crate) fn line_of(text: &str, place: WrongPlace, key: &str) -> Option<usize> {
    match place {
        WrongPlace::Top => line_at_top(text, key.as_bytes()),
        WrongPlace::Memory(place) => line_in_memory(text, place, key.as_bytes()),
        WrongPlace::Table(name) => line_in_table(text, name.as_bytes(), key.as_bytes()),
    }
}

// The line of a key at the top: one before the first header, or the first header that names it.
fn line_at_top(text: &str, key: &[u8]) -> Option<usize> {
    let mut at_top = true;
    for (index, line) in text.lines().enumerate() {
        let line = line.as_bytes();
        let header = is_header(line);
        at_top = at_top && !header;
        if (at_top || header) && first_key(line) == key {
            return Some(index.saturating_add(1));
        }
    }
    None
}

// The line of a key of the memory of this place, or else the line with which that memory begins.
fn line_in_memory(text: &str, place: usize, key: &[u8]) -> Option<usize> {
    let mut begun = 0usize;
    let mut found = None;
    for (index, line) in text.lines().enumerate() {
        let line = line.as_bytes();
        let number = index.saturating_add(1);
        let is_memory = first_key(line) == b"memory".as_slice();
        if is_header(line) {
            if found.is_some() {
                return found;
            }
            if is_memory && begun == place {
                found = Some(number);
            }
            begun = begun.saturating_add(usize::from(is_memory));
        } else if found.is_some() && first_key(line) == key {
            return Some(number);
        } else if begun == 0 && is_memory {
            return Some(number);
        }
    }
    found
}

// The line of a key of the table of this name, or else that with which the table begins.
fn line_in_table(text: &str, name: &[u8], key: &[u8]) -> Option<usize> {
    let mut found = None;
    for (index, line) in text.lines().enumerate() {
        let line = line.as_bytes();
        let number = index.saturating_add(1);
        let is_named = first_key(line) == name;
        if is_header(line) {
            if found.is_some() {
                return found;
            }
            if is_named {
                found = Some(number);
            }
        } else if found.is_some() && first_key(line) == key {
            return Some(number);
        } else if found.is_none() && is_named {
            return Some(number);
        }
    }
    found
}

// Whether a line is the header of a table.
fn is_header(line: &[u8]) -> bool {
    matches!(without_blanks(line), [b'[', ..])
}

// The key that a line begins with, without the blanks, brackets and quotes before it.
fn first_key(line: &[u8]) -> &[u8] {
    let mut rest = without_blanks(line);
    while let [b'[' | b'"' | b'\'', more @ ..] = rest {
        rest = without_blanks(more);
    }
    match rest.iter().position(|octet| !is_key_octet(*octet)) {
        Some(end) => &rest[..end],
        None => rest,
    }
}

fn without_blanks(line: &[u8]) -> &[u8]
    ensures { length result.now ≤ length line.now }
{
    let mut rest = line;
    while let [b' ' | b'\t', more @ ..] = rest {
        rest = more;
    }
    rest
}

fn is_key_octet(octet: u8) -> bool {
    octet.is_ascii_alphanumeric() || octet == b'_' || octet == b'-'
}

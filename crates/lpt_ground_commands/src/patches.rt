//! A list of files that are loaded, each to an address of a memory.

use crate::pieces::Piece;
use lpt_ground::overlap;
use lpt_ground_run::AreaPlace;
use lpt_io::{
    Failure, Fault, Machine, STANDARD, Usage, UsedFile, WordFault, add_file, file_at, read_file,
    tell_text, used_twice, word_refused,
};
use lpt_settings::{Reason, Wrong, complain_of_toml, has_only, number, unknown_key};
use std::alloc::{AllocError, Global};
use std::rt::Files;
use std::str;
use toml::{Table, Value};

/// The keys of a list, and of each patch in it.
const KEYS: [&str; 1] = ["patch"];

const PATCH_KEYS: [&str; 4] = ["memory", "address", "file", "verify"];

/// How many addresses there are.
const ADDRESSES: u64 = 1 << 32;

// Why a list is refused.
#[derive(Clone, Copy)]
enum Why<'t> {
    // What is wrong with a table.
    Of(Reason),
    // It names no patch.
    Empty,
    // The value is no path of a file.
    NoPath,
    // The file has no octets.
    NoOctets(&'t str),
    // The file doesn't end within the addresses that there are.
    PastEnd(&'t str),
    // The file shares octets with that of a patch before, of this number from 0 on.
    Overlap(&'t str, usize, &'t str),
}

// At which key it is, the empty text for a patch as a whole, and why.
#[derive(Clone, Copy)]
struct Flaw<'t> {
    key: &'t str,
    why: Why<'t>,
}

impl<'t> From<Wrong<'t>> for Flaw<'t> {
    fn from(wrong: Wrong<'t>) -> Self {
        Flaw {
            key: wrong.key,
            why: Why::Of(wrong.reason),
        }
    }
}

// What a patch says.
#[derive(Clone, Copy)]
struct Patch<'t> {
    memory: u8,
    address: u32,
    file: &'t str,
    verify: bool,
}

/// What the list at this path has loaded, beside which the command uses these files. None if the
/// list is refused, or one of its files is used otherwise, after standard error was told why.
///
/// Errors: `Read` if the list or one of its files can't be read; `Config` if the list has more than
/// 1,048,576 octets; `Memory`.
pub fn patches_at(
    rt: &impl Machine,
    path: &str,
    files: Vec<UsedFile<'_>>,
) -> Result<Option<Vec<Piece>>, Failure> {
    let octets = read_file(rt, path)?;
    let text = match str::from_utf8(octets.as_slice()) {
        Ok(text) => text,
        Err(error) => {
            let octet = error.valid_up_to().saturating_add(1);
            let place = format!(in rt.alloc(); "{path}: octet {octet} isn't UTF-8");
            return Ok(refuse(rt, place));
        }
    };
    match toml::table_from_str(rt.alloc(), text) {
        Ok(table) => patches_in(rt, path, files, &table),
        Err(error) => {
            let complaint = complain_of_toml(rt.alloc(), text, &error)?;
            let line = complaint.line().unwrap_or(1);
            let place = format!(in rt.alloc(); "{path}:{line}: {complaint}");
            Ok(refuse(rt, place))
        }
    }
}

// What the list with this table has loaded.
fn patches_in(
    rt: &impl Machine,
    path: &str,
    files: Vec<UsedFile<'_>>,
    table: &Table,
) -> Result<Option<Vec<Piece>>, Failure> {
    let values = match values_in(table) {
        Ok(values) => values,
        Err(flaw) => return Ok(refuse(rt, place_of(rt.alloc(), path, None, flaw))),
    };
    match twice_with(rt, files, values) {
        None => pieces_in(rt, path, values),
        Some(WordFault::Memory) => Err(Failure::from(Fault::Memory)),
        Some(fault) => {
            let _ = word_refused(rt, rt.alloc(), &fault);
            Ok(None)
        }
    }
}

// What is used twice of these files and those of these patches, if something is.
fn twice_with<'t>(
    rt: &(impl Files + AllocGlobal),
    files: Vec<UsedFile<'t>>,
    values: &'t [Value],
) -> Option<WordFault<'t>> {
    let mut files = files;
    for value in values {
        if let Ok(patch) = patch_of(value) {
            if add_file(&mut files, "<LIST>", Some(patch.file), Usage::Read).is_err() {
                return Some(WordFault::Memory);
            }
        }
    }
    used_twice(rt, &files)
}

// What these patches of the list at this path have loaded.
fn pieces_in(
    rt: &impl Machine,
    path: &str,
    values: &[Value],
) -> Result<Option<Vec<Piece>>, Failure> {
    let mut pieces = Vec::new(rt.alloc());
    let mut files = Vec::new(rt.alloc());
    for (number, value) in values.iter().enumerate() {
        let patch = match patch_of(value) {
            Ok(patch) => patch,
            Err(flaw) => return Ok(refuse(rt, place_of(rt.alloc(), path, Some(number), flaw))),
        };
        let piece = piece_of(rt, patch)?;
        if let Some(why) = fault_of(patch.file, &piece, &files, &pieces) {
            let flaw = flaw_at("file", why);
            return Ok(refuse(rt, place_of(rt.alloc(), path, Some(number), flaw)));
        }
        pieces.push(piece)?;
        files.push(patch.file)?;
    }
    Ok(Some(pieces))
}

// Why a file can't be loaded behind others, if it can't.
fn fault_of<'t>(
    file: &'t str,
    piece: &Piece,
    files: &[&'t str],
    pieces: &[Piece],
) -> Option<Why<'t>> {
    if piece.octets.as_slice().is_empty() {
        return Some(Why::NoOctets(file));
    }
    if end_of(piece) > ADDRESSES {
        return Some(Why::PastEnd(file));
    }
    for (number, (other, name)) in pieces.iter().zip(files).enumerate() {
        if share_octets(piece, other) {
            return Some(Why::Overlap(file, number, *name));
        }
    }
    None
}

// The address behind the last octet.
fn end_of(piece: &Piece) -> u64 {
    u64::from(piece.address).saturating_add(piece.octets.as_slice().len() as u64)
}

// Whether two files, which end within the addresses, share an octet of a memory.
fn share_octets(one: &Piece, other: &Piece) -> bool {
    one.memory == other.memory && overlap(range_of(one), range_of(other))
}

// The octets of a file, by their place.
fn range_of(piece: &Piece) -> AreaPlace {
    AreaPlace {
        address: piece.address,
        len: u32::try_from(piece.octets.as_slice().len()).unwrap_or(u32::MAX),
    }
}

// Tells that a list is refused, and where and why.
fn refuse(
    rt: &(impl Eprint + AllocGlobal),
    place: Result<String, AllocError>,
) -> Option<Vec<Piece>> {
    let _ = rt.eprintln("list refused");
    tell_text(rt, place);
    None
}

// What is wrong with a list, or with the patch of this number from 0 on.
fn place_of(
    alloc: Global,
    path: &str,
    number: Option<usize>,
    flaw: Flaw<'_>,
) -> Result<String, AllocError> {
    let mut text = format!(in alloc; "{path}: ")?;
    if let Some(number) = number {
        let number = number.saturating_add(1);
        text.write(format_args!("patch {number}: "))?;
    }
    let key = flaw.key;
    if !key.is_empty() {
        text.write(format_args!("{key}: "))?;
    }
    match flaw.why {
        Why::Of(reason) => text.write(format_args!("{reason}"))?,
        Why::Empty => text.push_str("there is none")?,
        Why::NoPath => text.push_str("not the path of a file")?,
        Why::NoOctets(file) => text.write(format_args!("{file} has no octets"))?,
        Why::PastEnd(file) => {
            text.write(format_args!("{file} ends after the last address, 4294967295"))?
        }
        Why::Overlap(file, number, other) => {
            let number = number.saturating_add(1);
            text.write(format_args!("{file} overlaps {other} of patch {number}"))?
        }
    }
    Ok(text)
}

// The patches of a list, of which there is one at least.
fn values_in(table: &Table) -> Result<&[Value], Flaw<'_>> {
    if !has_only(table, &KEYS) {
        return Err(flaw_at(unknown_key(table, &KEYS), Why::Of(Reason::Unknown)));
    }
    let Some(value) = table.get("patch") else {
        return Err(flaw_at("patch", Why::Empty));
    };
    match value.as_array() {
        Some(values) if !values.is_empty() => Ok(values),
        Some(_) => Err(flaw_at("patch", Why::Empty)),
        None => Err(flaw_at("patch", Why::Of(Reason::NotArray))),
    }
}

// That this is wrong at a key.
fn flaw_at<'t>(key: &'t str, why: Why<'t>) -> Flaw<'t> {
    Flaw { key, why }
}

// What a patch says, whose file isn't standard input.
fn patch_of(value: &Value) -> Result<Patch<'_>, Flaw<'_>> {
    let Some(table) = value.as_table() else {
        return Err(flaw_at("", Why::Of(Reason::NotTable)));
    };
    if !has_only(table, &PATCH_KEYS) {
        return Err(flaw_at(unknown_key(table, &PATCH_KEYS), Why::Of(Reason::Unknown)));
    }
    let memory = number(table, "memory", 0, 255, None)?;
    Ok(Patch {
        memory: memory as u8,
        address: number(table, "address", 0, u32::MAX, None)?,
        file: file_in(table)?,
        verify: verify_in(table)?,
    })
}

// The path of a patch's file.
fn file_in(table: &Table) -> Result<&str, Flaw<'_>> {
    let Some(value) = table.get("file") else {
        return Err(flaw_at("file", Why::Of(Reason::Missing)));
    };
    match value.as_str() {
        Some(file) if file != STANDARD && !file.is_empty() => Ok(file),
        _ => Err(flaw_at("file", Why::NoPath)),
    }
}

// Whether a patch is dumped once it is loaded.
fn verify_in(table: &Table) -> Result<bool, Flaw<'_>> {
    match table.get("verify") {
        None => Ok(false),
        Some(value) => match value.as_bool() {
            Some(verify) => Ok(verify),
            None => Err(flaw_at("verify", Why::Of(Reason::NotFlag))),
        },
    }
}

// A patch with the octets of its file.
fn piece_of(rt: &impl Machine, patch: Patch<'_>) -> Result<Piece, Failure> {
    let octets = file_at(rt, patch.file)?;
    let path = patch.file;
    let file = format!(in rt.alloc(); "{path}")?;
    Ok(Piece {
        memory: patch.memory,
        address: patch.address,
        len: 0,
        verify: patch.verify,
        octets,
        file: Some(file),
    })
}

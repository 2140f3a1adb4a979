//! Files that a command uses twice.

use crate::file_behind;
use crate::saving::split_path;
use lpt_command_line::{SettingWords, SpacecraftWords, TwoUses, WordFault};
use std::alloc::{AllocError, Global};
use std::fs::{self, Metadata};
use std::os::unix::fs::MetadataExt;
use std::rt::Files;

/// A file that a command uses.
#[derive(Clone, Copy)]
pub struct UsedFile<'a> {
    /// The word that names it, as help has it.
    pub option: &'static str,
    /// Its path.
    pub path: &'a str,
    /// How it is used.
    pub usage: Usage,
}

/// How a file is used.
#[derive(Clone, Copy, PartialEq, Eq)]
pub enum Usage {
    /// It is read.
    Read,
    /// Octets go into it as it is.
    Put,
    /// It is written whole, and before that a file beside it whose name ends in `.part`.
    Written,
    /// The same, under the lock of a file beside it whose name ends in `.lock`.
    Locked,
}

impl Usage {
    // What the names of the files beside it end in.
    fn beside(self) -> &'static [&'static str] {
        match self {
            Usage::Read | Usage::Put => &[],
            Usage::Written => &[".part"],
            Usage::Locked => &[".part", ".lock"],
        }
    }
}

/// The first file that two of these uses share, if at least one of them writes it: the one that is
/// named, or one beside it, by whatever spelling or links. What is no file, such as a device, is
/// shared by its path alone.
///
/// The fault is `UsedTwice`, or `Memory`.
pub fn used_twice<'a>(
    rt: &(impl Files + AllocGlobal),
    files: &[UsedFile<'a>],
) -> Option<WordFault<'a>> {
    let Ok(spots) = spots_of(rt, files) else {
        return Some(WordFault::Memory);
    };
    for (number, spot) in spots.iter().enumerate() {
        for other in spots.iter().take(number) {
            if let (Some(one), Some(next)) = (files.get(other.owner), files.get(spot.owner)) {
                if is_shared(one.usage, other, next.usage, spot) {
                    return Some(WordFault::UsedTwice(TwoUses {
                        file: if spot.is_named { next.path } else { one.path },
                        one: one.option,
                        other: next.option,
                        beside: !(spot.is_named && other.is_named),
                    }));
                }
            }
        }
    }
    None
}

/// Adds the files that a spacecraft of these words uses. The only error is out of memory.
pub fn add_craft_files<'a>(
    files: &mut Vec<UsedFile<'a>>,
    words: &SpacecraftWords<'a>,
) -> Result<(), AllocError> {
    let usage = if words.save {
        Usage::Locked
    } else {
        Usage::Read
    };
    for (_, path) in &words.memories {
        files.push(UsedFile {
            option: "--memory <ID=FILE>",
            path: *path,
            usage,
        })?;
    }
    add_file(files, "--state <FILE>", words.state, Usage::Locked)
}

/// Adds the file of the configuration, if there is one. The only error is out of memory.
pub fn add_settings_file<'a>(
    files: &mut Vec<UsedFile<'a>>,
    settings: &SettingWords<'a>,
) -> Result<(), AllocError> {
    add_file(files, "--config <FILE>", settings.file, Usage::Read)
}

/// Adds the file at this path, if there is one. The only error is out of memory.
pub fn add_file<'a>(
    files: &mut Vec<UsedFile<'a>>,
    option: &'static str,
    path: Option<&'a str>,
    usage: Usage,
) -> Result<(), AllocError> {
    if let Some(path) = path {
        files.push(UsedFile {
            option,
            path,
            usage,
        })?;
    }
    Ok(())
}

// A file that is used.
#[derive(Drop)]
struct Spot {
    // By which use, as its number from 0 on.
    owner: usize,
    // Whether it is the one that is named.
    is_named: bool,
    // Its path, behind symbolic links.
    path: String,
    // What stands there.
    found: FoundFile,
}

// What stands at a path.
#[derive(Clone, Copy)]
enum FoundFile {
    // A file: its device, and its number there.
    File((u64, u64)),
    // A file that is known by its name alone, or nothing, in a folder of this number.
    Name(Option<(u64, u64)>),
    // Something else.
    Other,
}

// Whether two files are one, which one of its two uses names, and one of them writes. (If both have
// one beside what they name, they name one as well.)
fn is_shared(one: Usage, spot: &Spot, next: Usage, other: &Spot) -> bool {
    let is_written = one != Usage::Read || next != Usage::Read;
    let is_named = spot.is_named || other.is_named;
    is_written && is_named && spot.owner != other.owner && is_alike(spot, other)
}

// Whether two paths lead to one file: one that is there, or one that would be made under one name
// in one folder.
fn is_alike(one: &Spot, other: &Spot) -> bool {
    if one.path.as_str() == other.path.as_str() {
        return true;
    }
    match (one.found, other.found) {
        (FoundFile::File(one), FoundFile::File(other)) => one == other,
        (FoundFile::Name(at), FoundFile::Name(next)) => {
            let (folder, name) = split_path(one.path.as_str());
            let (others, last) = split_path(other.path.as_str());
            let is_one_folder = match (at, next) {
                (None, None) => folder == others,
                (at, next) => at == next,
            };
            name == last && is_one_folder
        }
        _ => false,
    }
}

// All files that these uses have. The only error is out of memory.
fn spots_of(
    rt: &(impl Files + AllocGlobal),
    files: &[UsedFile<'_>],
) -> Result<Vec<Spot>, AllocError> {
    let mut spots = Vec::new(rt.alloc());
    for (owner, file) in files.iter().enumerate() {
        let path = path_behind(rt, file.path)?;
        let path = path.as_str();
        let named = format!(in rt.alloc(); "{path}")?;
        spots.push(spot_at(rt, owner, true, named))?;
        for end in file.usage.beside() {
            let end = *end;
            let beside = format!(in rt.alloc(); "{path}{end}")?;
            spots.push(spot_at(rt, owner, false, beside))?;
        }
    }
    Ok(spots)
}

// The path of the file to which this one leads, or this one if that isn't known.
fn path_behind(rt: &(impl Files + AllocGlobal), path: &str) -> Result<String, AllocError> {
    match file_behind(rt, path) {
        Ok(path) => Ok(path),
        Err(_) => format!(in rt.alloc(); "{path}"),
    }
}

// What stands at this path.
fn spot_at(rt: &impl Files, owner: usize, is_named: bool, path: String) -> Spot {
    let found = found_at(rt, path.as_str());
    Spot {
        owner,
        is_named,
        path,
        found,
    }
}

fn found_at(rt: &impl Files, path: &str) -> FoundFile {
    let (folder, _) = split_path(path);
    match fs::metadata(rt, path) {
        Ok(known) if known.is_file() => match number_of(&known) {
            Some(number) => FoundFile::File(number),
            None => named_in(rt, folder),
        },
        Ok(_) => FoundFile::Other,
        Err(_) => named_in(rt, folder),
    }
}

// A name in this folder, or something else if the folder isn't there.
fn named_in(rt: &impl Files, folder: &str) -> FoundFile {
    match fs::metadata(rt, folder) {
        Ok(known) => FoundFile::Name(number_of(&known)),
        Err(_) => FoundFile::Other,
    }
}

// Its device, and its number there: a machine in memory may give none.
fn number_of(known: &Metadata) -> Option<(u64, u64)> {
    match known.ino() {
        0 => None,
        number => Some((known.dev(), number)),
    }
}

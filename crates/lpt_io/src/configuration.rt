//! The configuration, the first memories, and their file.

ghost use Rattle.std.specs.Prelude.{IfOk};
ghost use Rattle.lpt_events.specs.Configs.{IsConfig};

use crate::end::Failure;
use crate::ended::done_at;
use crate::fault::Fault;
use crate::watched::Watched;
use lpt_command_line::SettingWords;
use lpt_events::{Config, Turns};
use lpt_memory::Memories;
use lpt_settings::{Complaint, SettingsFault, read_config, why_refused};
use lpt_text::{End, FromStd, read_text};
use std::alloc::{AllocError, Global};
use std::fs::File;
use std::io::{Read, Take};
use std::rt::Files;
use std::str;

/// The most octets that the file may have.
const LONGEST_FILE: usize = 1_048_576;

/// The configuration, the first memories, and how much a run of threads does: those of the file
/// that the words name, or of an empty one without it. What else the words say wins over it.
///
/// Errors: `Read` if the file can't be opened or read; `Config` if it has more than 1,048,576
/// octets, isn't UTF-8 or is refused; `Memory`.
pub fn settings_of(
    rt: &(impl Files + AllocGlobal),
    words: &SettingWords<'_>,
) -> Result<(Config, Memories, Turns), Failure>
    ensures { IfOk result (λ s. IsConfig s.0) }
{
    let (config, memories, turns) = read_at(rt, words.file)?;
    let config = with_words(config, words);
    if config.fault().is_some() {
        drop(memories);
        return Err(Failure::from(Fault::Config));
    }
    Ok((config, memories, turns))
}

// A configuration with what the words say, which wins over it.
fn with_words(config: Config, words: &SettingWords<'_>) -> Config {
    Config {
        apid: words.apid.unwrap_or(config.apid),
        source: words.source.unwrap_or(config.source),
        part_size: words.part_size.unwrap_or(config.part_size),
        mode: words.mode.unwrap_or(config.mode),
        ..config
    }
}

// What the file at this path says, or an empty one.
fn read_at(
    rt: &(impl Files + AllocGlobal),
    path: Option<&str>,
) -> Result<(Config, Memories, Turns), Failure> {
    let Some(path) = path else {
        return Ok(read_config(rt.alloc(), "")?);
    };
    let octets = read_file(rt, path)?;
    let place = match text_of(rt.alloc(), path, &octets) {
        Ok(text) => match read_config(rt.alloc(), text) {
            Ok(read) => return Ok(read),
            Err(SettingsFault::Memory) => return Err(Failure::from(Fault::Memory)),
            Err(SettingsFault::Config) => {
                complaint(rt.alloc(), path, why_refused(rt.alloc(), text))
            }
        },
        Err(place) => place,
    };
    Err(Failure::at(Fault::Config, place))
}

/// The configuration alone, as `settings_of` gives it.
///
/// Errors: as of `settings_of`.
pub fn config_of(
    rt: &(impl Files + AllocGlobal),
    words: &SettingWords<'_>,
) -> Result<Config, Failure>
    ensures { IfOk result (λ c. IsConfig c) }
{
    let (config, memories, _) = settings_of(rt, words)?;
    drop(memories);
    Ok(config)
}

// The text of the file at this path, which has these octets.
//
// Errors: the first octet that isn't text.
pub(crate) fn text_of<'o>(
    alloc: Global,
    path: &str,
    octets: &'o [u8],
) -> Result<&'o str, Result<String, AllocError>> {
    match str::from_utf8(octets) {
        Ok(text) => Ok(text),
        Err(error) => {
            let octet = error.valid_up_to().saturating_add(1);
            Err(format!(in alloc; "{path}: octet {octet} isn't UTF-8"))
        }
    }
}

// Where the text of the file at this path is refused, and why.
pub(crate) fn complaint(
    alloc: Global,
    path: &str,
    why: Result<Option<Complaint>, AllocError>,
) -> Result<String, AllocError> {
    match why? {
        Some(complaint) => match complaint.line() {
            Some(line) => format!(in alloc; "{path}:{line}: {complaint}"),
            None => format!(in alloc; "{path}: {complaint}"),
        },
        None => format!(in alloc; "{path}: refused"),
    }
}

/// The octets of the file at this path.
///
/// Errors: `Read` if it can't be opened or read; `Config` if it has more than 1,048,576
/// octets; `Memory`.
pub fn read_file(rt: &(impl Files + AllocGlobal), path: &str) -> Result<Vec<u8>, Failure> {
    let file = done_at(rt, Fault::Read, path, File::open(rt, path))?;
    let mut source = FromStd::new(Watched::new(file.take(LONGEST_FILE as u64 + 1)));
    let octets = read_octets(rt.alloc(), path, &mut source);
    drop(source);
    octets
}

// The octets of the file at this path, which was opened.
fn read_octets<F: Read>(
    alloc: Global,
    path: &str,
    source: &mut FromStd<Watched<Take<F>>>,
) -> Result<Vec<u8>, Failure> {
    let (octets, end) = read_text(alloc, source)?;
    if octets.len() > LONGEST_FILE {
        let place = format!(in alloc; "{path}: more than {LONGEST_FILE} octets");
        return Err(Failure::at(Fault::Config, place));
    }
    match (end, source.inner().error()) {
        (End::Failed, Some(error)) => {
            let place = format!(in alloc; "{path}: {error}");
            Err(Failure::at(Fault::Read, place))
        }
        (End::Failed, None) => Err(Failure::from(Fault::Read)),
        _ => Ok(octets),
    }
}

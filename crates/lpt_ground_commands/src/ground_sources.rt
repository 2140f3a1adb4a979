//! A run's own source.

use lpt_command_line::{GroundWords, SourceWords};
use lpt_io::{EndMachine, Failure, Fault, LastingFiles, Machine, awaited_lock, file_at, tell_text};
use std::fs;
use std::io::ErrorKind;

/// The run's own source: the one that is given, or the next one, which is noted on the disk before
/// it is used. None if each one had its pass, and that is told.
///
/// Errors: `Read` if a file can't be read, or names no source; `Write` if the source can't be
/// noted, or another process holds the file's lock for longer than 10 seconds; `Memory`.
pub fn source_of(
    rt: &impl EndMachine,
    process: u32,
    words: &GroundWords<'_>,
) -> Result<Option<u16>, Failure> {
    let path = match words.source {
        SourceWords::Given(source) => return Ok(Some(source)),
        SourceWords::Next(path) => path,
    };
    let lock = awaited_lock(rt, process, path)?;
    let taken = next_source(rt, path);
    drop(lock);
    taken
}

// The next source by the file at this path, where it is noted.
fn next_source(rt: &impl EndMachine, path: &str) -> Result<Option<u16>, Failure> {
    let Some(next) = last_source(rt, path)?.checked_add(1) else {
        tell_text(
            rt,
            format!(in rt.alloc(); "{path}: each source up to 65535 had its pass"),
        );
        return Ok(None);
    };
    let text = format!(in rt.alloc(); "{next}\n")?;
    rt.write_for_good(path, text.as_bytes())?;
    Ok(Some(next))
}

// The source that the file at this path names, or 0 if there is no such file.
fn last_source(rt: &impl Machine, path: &str) -> Result<u16, Failure> {
    if let Err(error) = fs::metadata(rt, path) {
        if error.kind() == ErrorKind::NotFound {
            return Ok(0);
        }
    }
    let octets = file_at(rt, path)?;
    let number = match std::str::from_utf8(octets.as_slice()) {
        Ok(text) => text.trim().parse().ok(),
        Err(_) => None,
    };
    match number {
        Some(last) => Ok(last),
        None => {
            let place = format!(in rt.alloc(); "{path}: it holds no source, 0 to 65535");
            Err(Failure::at(Fault::Read, place))
        }
    }
}

//! What is read: a file, or standard input for `-`.

ghost use Rattle.std.specs.Prelude.{◌≡◌, ◌≢◌, codes};

use crate::counts::octets_word;
use crate::end::{Failure, tell_text};
use crate::ended::{done_at, failure_at};
use crate::fault::Fault;
use crate::machine::Machine;
use crate::progress::{Paced, Voice};
use crate::watched::Watched;
use crate::{Chain, SourceSpan};
use lpt_capture::Captured;
use lpt_packet::Octets;
use lpt_text::{End, FromStd, read_text};
use std::fs::{File, OpenFile};
use std::io::{self, Input, Read};
use std::rt::Files;

/// The word for standard input.
pub const STANDARD: &str = "-";

/// How many texts of more than 16,777,216 octets have more than 2^32.
const TEXTS_AT_MOST: usize = 257;

/// A file, or standard input.
#[derive(Drop)]
pub enum Origin<R: Files + Input> {
    /// A file.
    File(R::File),
    /// Standard input.
    Standard(R::Reader),
}

impl<R: Files + Input> Origin<R> {
    // How many octets it has, if that is known.
    fn size(&self) -> Option<u64> {
        let Origin::File(file) = self else {
            return None;
        };
        let data = file.metadata().ok()?;
        if data.is_file() {
            Some(data.len())
        } else {
            None
        }
    }
}

impl<R: Files + Input> Read for Origin<R> {
    fn read(&mut self, buf: &mut [u8]) -> io::Result<usize> {
        match self {
            Origin::File(file) => file.read(buf),
            Origin::Standard(stdin) => stdin.read(buf),
        }
    }
}

/// Octets as they come from a file or standard input, which keeps why it failed.
pub type Incoming<R> = FromStd<Watched<Paced<Origin<R>, R>>>;

/// Octets of packets as they come, of files one behind the other, from one place up to another: of
/// each file the records of a capture, or what is none as it is.
pub type Packets<R> = SourceSpan<Chain<Captured<Incoming<R>>>>;

/// The file at this path, or standard input for `-`, to be read.
///
/// Errors: `Read` if it can't be opened.
pub fn open_input<R: Machine>(rt: &R, path: &str) -> Result<Incoming<R>, Failure> {
    open_paced(rt, path, None)
}

// The same; of a long reading a voice tells how far it is.
//
// Errors: `Read` if it can't be opened.
fn open_paced<R: Machine>(
    rt: &R,
    path: &str,
    voice: Option<Voice>,
) -> Result<Incoming<R>, Failure> {
    let input = input_at(rt, path)?;
    let pace = match voice {
        Some(voice) => voice.pace(rt, input.size()),
        None => None,
    };
    Ok(FromStd::new(Watched::new(Paced::new(input, pace))))
}

/// The file at this path, or standard input for `-`, to be read by who keeps why a read failed.
///
/// Errors: `Read` if it can't be opened.
pub fn input_at<R: Files + Input + AllocGlobal>(rt: &R, path: &str) -> Result<Origin<R>, Failure> {
    if path == STANDARD {
        return Ok(Origin::Standard(rt.reader()));
    }
    let file = done_at(rt, Fault::Read, path, File::open(rt, path))?;
    Ok(Origin::File(file))
}

/// The octets of packets in the files at these paths, `-` for standard input, from a place up to
/// another. All are opened before any is read. The voice tells how far the reading is.
///
/// Errors: `Read` if one can't be opened; `Memory`.
pub fn opened_packets<R: Machine>(
    rt: &R,
    voice: Voice,
    paths: &[&str],
    from: Option<u64>,
    to: Option<u64>,
) -> Result<Packets<R>, Failure> {
    let mut sources = Vec::new(rt.alloc());
    for path in paths {
        sources.push(Captured::new(open_paced(rt, path, Some(voice))?))?;
    }
    let before = from.unwrap_or(0);
    let left = to.map(|to| to.saturating_sub(before));
    Ok(SourceSpan::new(Chain::new(sources), before, left))
}

/// What is read at this path, as messages name it.
pub fn name_of(path: &str) -> &str
    ensures standard { path.now ≡ codes "-" → result.now ≡ codes "standard input" }
    ensures file { path.now ≢ codes "-" → result.now ≡ path.now }
{
    if path == STANDARD {
        "standard input"
    } else {
        path
    }
}

/// The octets of the file at this path, or of standard input for `-`: all, or more than the
/// addresses of a memory.
///
/// Errors: `Read` if it can't be opened or read; `Memory`.
pub fn file_at(rt: &impl Machine, path: &str) -> Result<Octets, Failure> {
    let mut source = open_input(rt, path)?;
    let octets = octets_from(rt, path, &mut source);
    drop(source);
    octets
}

/// All octets of a file that was opened at this path, or more than the addresses of a memory.
///
/// Errors: `Read` if a read failed; `Memory`.
pub fn octets_from<R: Machine>(
    rt: &R,
    path: &str,
    source: &mut Incoming<R>,
) -> Result<Octets, Failure> {
    let mut octets = Vec::new(rt.alloc());
    for _ in 0..TEXTS_AT_MOST {
        let (text, end) = read_text(rt.alloc(), source)?;
        octets.extend_from_slice(&text)?;
        match end {
            End::Whole => break,
            End::Failed => return Err(read_failure(rt, source.inner(), path)),
            End::TooLong => {}
        }
    }
    Ok(Octets::from_vec(octets))
}

/// Why what is read at this path failed.
pub fn read_failure<I>(rt: &impl AllocGlobal, input: &Watched<I>, path: &str) -> Failure {
    let name = name_of(path);
    if let Some(error) = input.error() {
        return failure_at(rt, Fault::Read, name, error);
    }
    let place = format!(in rt.alloc(); "{name}: its places go past 18446744073709551615");
    Failure::at(Fault::Read, place)
}

/// Why the packets that are read at these paths failed, if a read did. Otherwise standard error is
/// told if they end before the place from which on they are read, and which captures end within a
/// record, if the voice tells that: what stands in front of it was read. Before that, what was told
/// of how far the reading is goes away: it may have stopped before the end.
pub fn packets_end<R: Machine>(
    rt: &R,
    voice: Voice,
    packets: &Packets<R>,
    paths: &[&str],
    failed: bool,
) -> Option<Failure> {
    voice.clear(rt);
    if failed {
        return Some(packets_failure(rt, packets, paths));
    }
    let before = packets.before();
    if before > 0 {
        let octets = octets_word(usize::try_from(before).unwrap_or(usize::MAX));
        tell_text(
            rt,
            format!(in rt.alloc(); "--from is {before} {octets} beyond the end"),
        );
    }
    if voice.tells() {
        for (captured, path) in packets.source().sources().iter().zip(paths) {
            if let Some(fault) = captured.fault() {
                let name = name_of(path);
                tell_text(rt, format!(in rt.alloc(); "{name}: {fault}"));
            }
        }
    }
    None
}

// Why the packets that are read at these paths failed: what is wrong with a capture, or the read.
fn packets_failure<R: Machine>(rt: &R, packets: &Packets<R>, paths: &[&str]) -> Failure {
    let chain = packets.source();
    let at = chain.place();
    let (Some(captured), Some(path)) = (chain.sources().get(at), paths.get(at)) else {
        return Failure::from(Fault::Read);
    };
    match captured.fault() {
        Some(fault) => {
            let name = name_of(path);
            let place = format!(in rt.alloc(); "{name}: {fault}");
            Failure::at(Fault::Read, place)
        }
        None => read_failure(rt, captured.source().inner(), path),
    }
}

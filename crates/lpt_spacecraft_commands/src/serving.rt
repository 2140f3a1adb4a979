//! The spacecraft's end, from standard input to standard output.

ghost use Rattle.std.specs.Prelude.{IfOk};
ghost use Rattle.lpt_events.specs.Configs.{IsConfig};
ghost use Rattle.lpt_spacecraft.specs.Streams.{IsIdle};

use crate::keeping::save_all;
use crate::memories::{check_memories, memories_of};
use crate::wires::{Wires, serve_kept};
use lpt_command_line::{SettingWords, SpacecraftWords};
use lpt_events::Config;
use lpt_io::{
    EndMachine, Failure, Fault, Machine, PlainMachine, Status, UsedFile, add_craft_files,
    add_settings_file, failure_at, file_at, locked_file, settings_of, used_twice, word_refused,
};
use lpt_memory::Memories;
use lpt_spacecraft::Spacecraft;
use std::alloc::{AllocError, Global};
use std::fs;
use std::io::{ErrorKind, Read};
use std::sync::Wait;
use std::thread::Threads;
use std::time::Clock;

/// Takes the packets of standard input as the spacecraft does, and writes its reports to standard
/// output. With `--save` a memory goes back into its file behind each load that wrote to it, before
/// that is reported, and all do so at the end, whatever ended it. With `--state` it goes on from
/// that file, if it is there, and is kept in it before anything is written. No other process can
/// use any of these files meanwhile. Octets that are no packet end it, or with `--resync` are
/// passed over: the status is then the same.
///
/// Errors: `Read` if a file or standard input can't be read, or a file isn't what was kept;
/// `Config` if the files make no memories, or others than were kept; `Write`, also if a file can't
/// be written, or another process uses one of those that are; `Memory`.
pub fn spacecraft<R, T>(
    rt: &R,
    threads: &T,
    process: u32,
    settings: &SettingWords<'_>,
    words: &SpacecraftWords<'_>,
) -> Result<Status, Failure>
where
    R: EndMachine,
    T: Threads + Wait + Clock + Copy + Drop + Send + 'static,
{
    let files = files_used(rt.alloc(), settings, words)?;
    if let Some(fault) = used_twice(rt, &files) {
        return Ok(word_refused(rt, rt.alloc(), &fault));
    }
    let (begun, locks) = begun_craft(rt, process, settings, words)?;
    let wires = Wires::Standard(rt.standard_input());
    let ended = serve(rt, threads, begun, words, wires);
    drop(locks);
    ended
}

// The files that these words use. The only error is out of memory.
fn files_used<'a>(
    alloc: Global,
    settings: &SettingWords<'a>,
    words: &SpacecraftWords<'a>,
) -> Result<Vec<UsedFile<'a>>, AllocError> {
    let mut files = Vec::new(alloc);
    add_files(&mut files, settings, words)?;
    Ok(files)
}

// Adds them. The only error is out of memory.
fn add_files<'a>(
    files: &mut Vec<UsedFile<'a>>,
    settings: &SettingWords<'a>,
    words: &SpacecraftWords<'a>,
) -> Result<(), AllocError> {
    add_settings_file(files, settings)?;
    add_craft_files(files, words)
}

/// A spacecraft that serves next.
#[derive(Drop)]
pub struct Begun {
    craft: Spacecraft,
    // The path of the file in which it is kept, if it is.
    state: Option<String>,
    ghost idle: { IsIdle craft },
}

impl Begun {
    /// The octets of a memory, or `None` if there is no such memory.
    pub fn content(&self, id: u8) -> Option<&[u8]> {
        self.craft.content(id)
    }
}

/// The spacecraft of these words: the one that was kept, or a new one. With it come the locks of
/// the files that it writes: no other process uses one of those before they are dropped.
///
/// Errors: `Read` if a file can't be read, or isn't what was kept; `Config` if the files make no
/// memories, or others than were kept; `Write` if another process uses a file that is written;
/// `Memory`.
pub fn begun_craft<R: EndMachine>(
    rt: &R,
    process: u32,
    settings: &SettingWords<'_>,
    words: &SpacecraftWords<'_>,
) -> Result<(Begun, Vec<R::File>), Failure> {
    let (config, usual, _) = settings_of(rt, settings)?;
    let mut locks = saved_locks(rt, process, words)?;
    // They are read under their locks: what another process saves before that isn't undone.
    let memories = if words.memories.is_empty() {
        usual
    } else {
        drop(usual);
        memories_of(rt, words)?
    };
    let Some(path) = words.state else {
        let craft = Spacecraft::new(rt.alloc(), &config, memories)?;
        return Ok((Begun { craft, state: None }, locks));
    };
    let (path, lock) = locked_file(rt, process, path)?;
    locks.push(lock)?;
    let craft = craft_begun(rt, &config, memories, words, path.as_str())?;
    let state = Some(path);
    Ok((Begun { craft, state }, locks))
}

// The locks of the memories' files, if these are saved: no other process saves one meanwhile.
//
// Errors: as of `check_memories` and of `locked_file`; `Memory`.
fn saved_locks<R: EndMachine>(
    rt: &R,
    process: u32,
    words: &SpacecraftWords<'_>,
) -> Result<Vec<R::File>, Failure> {
    check_memories(rt, words)?;
    let mut locks = Vec::new(rt.alloc());
    if words.save {
        for (_, path) in &words.memories {
            let (_, lock) = locked_file(rt, process, path)?;
            locks.push(lock)?;
        }
    }
    Ok(locks)
}

/// Serves with a spacecraft over these wires.
///
/// Errors: as of `spacecraft`.
pub fn serve<R, T, I>(
    rt: &R,
    threads: &T,
    begun: Begun,
    words: &SpacecraftWords<'_>,
    wires: Wires<T, I>,
) -> Result<Status, Failure>
where
    R: PlainMachine,
    T: Threads + Wait + Clock + Copy + Drop + Send + 'static,
    I: Read + Drop + Send + 'static,
{
    let Begun { mut craft, state } = begun;
    let path = match &state {
        Some(path) => Some(path.as_str()),
        None => None,
    };
    let ended = serve_kept(rt, threads, &mut craft, words, path, wires);
    let ended = if words.save {
        save_all(rt, &craft, words, ended)
    } else {
        ended
    };
    drop(craft);
    ended
}

// The spacecraft that was kept in this file, if its memories are those of the words, or a new one
// if there is no such file.
fn craft_begun(
    rt: &impl Machine,
    config: &Config,
    memories: Memories,
    words: &SpacecraftWords<'_>,
    path: &str,
) -> Result<Spacecraft, Failure>
    requires { IsConfig config.now }
    ensures { IfOk result IsIdle }
{
    if let Err(error) = fs::metadata(rt, path) {
        if error.kind() == ErrorKind::NotFound {
            return Ok(Spacecraft::new(rt.alloc(), config, memories)?);
        }
        drop(memories);
        return Err(failure_at(rt, Fault::Read, path, &error));
    }
    let octets = file_at(rt, path)?;
    let craft = match Spacecraft::read_kept(rt.alloc(), config, octets.as_slice()) {
        Ok(craft) => craft,
        Err(fault) => {
            let place = format!(in rt.alloc(); "{path}: {fault}");
            return Err(Failure::at(Fault::Read, place));
        }
    };
    let unlike = unlike_of(rt.alloc(), path, &craft, &memories, words);
    drop(memories);
    match unlike {
        None => Ok(craft),
        Some(place) => {
            drop(craft);
            Err(Failure::at(Fault::Config, place))
        }
    }
}

// How a spacecraft that was kept in this file differs from these memories of the words, if it does.
fn unlike_of(
    alloc: Global,
    path: &str,
    craft: &Spacecraft,
    memories: &Memories,
    words: &SpacecraftWords<'_>,
) -> Option<Result<String, AllocError>> {
    for (id, file) in &words.memories {
        let given = memories.content(*id).unwrap_or(&[]).len();
        let Some(kept) = craft.content(*id) else {
            return Some(format!(in alloc; "{path}: it keeps no memory {id}, the one of {file}"));
        };
        let kept = kept.len();
        if kept != given {
            return Some(format!(in alloc;
                "{path}: it keeps memory {id} with {kept} octets, and {file} has {given}"
            ));
        }
    }
    None
}

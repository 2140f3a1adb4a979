//! The memories whose first contents are files.

use lpt_command_line::SpacecraftWords;
use lpt_io::{Failure, Fault, Machine, failure_at, file_at};
use lpt_memory::{MEMORY_LIMIT, Memories, SIZE_LIMIT};
use lpt_packet::Octets;
use std::fs;
use std::rt::Files;

/// Refuses memories that the words can't name beside each other. No file is read.
///
/// Errors: `Config` if there are more than 16, or two of one identifier; `Read` if a file isn't
/// there.
pub fn check_memories(
    rt: &(impl Files + AllocGlobal),
    words: &SpacecraftWords<'_>,
) -> Result<(), Failure> {
    let count = words.memories.len();
    if count > MEMORY_LIMIT {
        let place = format!(in rt.alloc();
            "--memory: there can be at most {MEMORY_LIMIT} memories, not {count}"
        );
        return Err(Failure::at(Fault::Config, place));
    }
    for (number, (id, file)) in words.memories.iter().enumerate() {
        for (known, _) in words.memories.iter().take(number) {
            if *known == *id {
                let place = format!(in rt.alloc();
                    "--memory {id}={file}: there is a memory {id} already"
                );
                return Err(Failure::at(Fault::Config, place));
            }
        }
        if let Err(error) = fs::metadata(rt, file) {
            return Err(failure_at(rt, Fault::Read, file, &error));
        }
    }
    Ok(())
}

/// The memories whose first contents are the files that the words name.
///
/// Errors: `Read` if one can't be read; `Config` if a file is empty or too long, or as of
/// `check_memories`; `Memory`.
pub fn memories_of(rt: &impl Machine, words: &SpacecraftWords<'_>) -> Result<Memories, Failure> {
    let mut list = Vec::new(rt.alloc());
    for (id, file) in &words.memories {
        let octets = read_one(rt, file)?;
        list.push((*id, octets))?;
    }
    match Memories::new(list) {
        Ok(memories) => Ok(memories),
        Err(_) => Err(Failure::from(Fault::Config)),
    }
}

// The octets of a file that can be a memory. One that says beforehand that it is too long isn't
// read.
fn read_one(rt: &impl Machine, file: &str) -> Result<Octets, Failure> {
    if let Ok(known) = fs::metadata(rt, file) {
        if known.is_file() && known.len() > SIZE_LIMIT as u64 {
            return Err(wrong_size(rt, file, known.len()));
        }
    }
    let octets = file_at(rt, file)?;
    let len = octets.as_slice().len();
    if len == 0 || len > SIZE_LIMIT {
        drop(octets);
        return Err(wrong_size(rt, file, len as u64));
    }
    Ok(octets)
}

// That a file of so many octets can't be a memory.
fn wrong_size(rt: &impl AllocGlobal, file: &str, len: u64) -> Failure {
    let place = if len == 0 {
        format!(in rt.alloc(); "{file}: it is empty, and a memory has at least one octet")
    } else {
        format!(in rt.alloc(); "{file}: {len} octets, and a memory has at most {SIZE_LIMIT}")
    };
    Failure::at(Fault::Config, place)
}

//! The words of the spacecraft's end.

use crate::command_line::Command;
use crate::word_fault::{invalid, no_path};
use crate::words::{STANDARD, Words};
use std::alloc::Global;

/// What `spacecraft` asks for.
#[derive(Drop)]
pub struct SpacecraftWords<'a> {
    /// The memories' identifiers, and the files of their first contents.
    pub memories: Vec<(u8, &'a str)>,
    /// Whether the memories go back into their files.
    pub save: bool,
    /// Behind how many packets a tick comes, or never at 0.
    pub tick_every: u64,
    /// After how many milliseconds one comes, or never at 0.
    pub tick: u32,
    /// How many ticks after its use a name is free again, or never at 0.
    pub reuse: u32,
    /// Whether octets with which no packet can begin are passed over.
    pub resync: bool,
    /// How many octets the longest packet on the link has, if it is given: 7 to 65,542.
    pub longest: Option<u32>,
    /// Whether all that happens is told.
    pub log: bool,
    /// The file in which the state and the memories are kept.
    pub state: Option<&'a str>,
}

/// What the words of `spacecraft` ask for.
pub(crate) fn spacecraft_command<'a>(alloc: Global, words: &mut Words<'_, 'a>) -> Command<'a> {
    if words.find("tick-every").is_some() && words.find("tick").is_some() {
        words.say("the argument '--tick <MS>' cannot be used with '--tick-every <N>'");
    }
    Command::Spacecraft(craft_words(alloc, words))
}

/// What words ask of a spacecraft.
pub(crate) fn craft_words<'a>(alloc: Global, words: &mut Words<'_, 'a>) -> SpacecraftWords<'a> {
    let mut memories = Vec::new(alloc);
    let all = words.all(alloc, "memory");
    for word in &all {
        let memory = memory_in(words, word);
        words.push(&mut memories, memory);
    }
    SpacecraftWords {
        memories,
        save: words.flag("save"),
        tick_every: words.find_number("tick-every").unwrap_or(0),
        tick: words.find_number("tick").unwrap_or(0),
        reuse: words.find_number("reuse").unwrap_or(0),
        resync: words.flag("resync"),
        longest: words.find_number("longest"),
        log: words.flag("log"),
        state: words.find("state"),
    }
}

// The memory that a word `ID=FILE` names.
fn memory_in<'a>(words: &mut Words<'_, 'a>, word: &'a str) -> (u8, &'a str) {
    let (id, file) = word.split_once('=').unwrap_or(("", ""));
    match id.parse() {
        Ok(id) => {
            if file == STANDARD {
                words.refuse(no_path("--memory <ID=FILE>"));
            }
            (id, file)
        }
        Err(_) => {
            let after = "' for '--memory': not ID=FILE with an ID from 0 to 255";
            words.refuse(invalid(word, after));
            (0, file)
        }
    }
}

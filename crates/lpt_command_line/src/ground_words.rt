//! The words of the commands that carry what is asked of a memory to its end.

use crate::command_line::Command;
use crate::link_words::{OddsWords, odds_words};
use crate::spacecraft_words::{SpacecraftWords, craft_words};
use crate::word_fault::{MISSING, no_path};
use crate::words::{STANDARD, Words};
use std::alloc::Global;

/// After how many waits in a row that settle nothing a pass is given up, if nothing else is said.
const TRIES: u32 = 10;

/// Under how many names a large message goes at most, if nothing else is said.
const NAMES: u32 = 6;

/// What `ground` asks for.
#[derive(Drop)]
pub struct GroundWords<'a> {
    /// What is to be done.
    pub job: Job,
    /// Which octets of a memory, and their files; none if a list has them.
    pub areas: Vec<AreaWords<'a>>,
    /// The list that says what is loaded, if one does.
    pub list: Option<&'a str>,
    /// Under which names what is loaded goes as one large message, if it does.
    pub large: Option<LargeWords>,
    /// The pass's own source.
    pub source: SourceWords<'a>,
    /// The first sequence count, 0 to 16,383.
    pub count: u16,
    /// For how many milliseconds nothing comes before what is open is sent again.
    pub wait: u32,
    /// After how many such waits in a row that settle nothing it gives up.
    pub tries: u32,
    /// Where requests are written, if it isn't standard output.
    pub up: Option<&'a str>,
    /// The file in which it is kept what is completed.
    pub kept: Option<&'a str>,
    /// Whether octets with which no packet begins are passed over.
    pub resync: bool,
    /// How many octets the longest packet on the link has, if it is given: 7 to 65,542.
    pub longest: Option<u32>,
    /// Whether each line on standard error is an object of JSON.
    pub json: bool,
}

/// Octets of a memory, and their file.
#[derive(Clone, Copy)]
pub struct AreaWords<'a> {
    /// The memory's identifier.
    pub memory: u8,
    /// The address of the first octet.
    pub address: u32,
    /// How many octets are dumped, at least one; 0 if the file says how many they are.
    pub len: u32,
    /// The file: what is loaded or compared, or where a dump is written.
    pub file: &'a str,
}

/// Under which names a large message goes.
#[derive(Clone, Copy)]
pub struct LargeWords {
    /// The transaction identifier of the first.
    pub first: u16,
    /// How many they are at most, 1 to 65,536.
    pub many: u32,
    /// After how many waits it is given up, if its names aren't used up before.
    pub tries: u32,
}

/// Where a pass has its own source from.
#[derive(Clone, Copy)]
pub enum SourceWords<'a> {
    /// It is this one, at least 1.
    Given(u16),
    /// It is the next one by this file, which names the last.
    Next(&'a str),
}

/// What is carried to its end.
#[derive(Clone, Copy)]
pub enum Job {
    /// The memory takes the octets of files.
    Load {
        /// Whether a report of start counts as one of completion.
        starts: bool,
        /// Whether they are dumped then, and compared.
        verify: bool,
    },
    /// Octets of the memory become files.
    Dump,
    /// The octets of files are compared with checksums of the memory.
    Check,
}

/// What `pass` asks for.
#[derive(Drop)]
pub struct PassWords<'a> {
    /// What ground carries to its end.
    pub ground: GroundWords<'a>,
    /// The spacecraft.
    pub craft: SpacecraftWords<'a>,
    /// What becomes of packets on the link up, and on the link down under the next seed.
    pub odds: OddsWords,
}

/// What the words of the command of this name below `pass` ask for. Its spacecraft goes on behind
/// damage, and its clock stands.
pub(crate) fn pass_command<'a>(
    alloc: Global,
    name: &str,
    words: &mut Words<'_, 'a>,
) -> Command<'a> {
    let odds = odds_words(words);
    let mut craft = craft_words(alloc, words);
    craft.resync = true;
    let ground = ground_words(alloc, name, words);
    Command::Pass(PassWords {
        ground,
        craft,
        odds,
    })
}

/// What these words ask ground for, also in a pass.
pub(crate) fn ground_words<'a>(
    alloc: Global,
    name: &str,
    words: &mut Words<'_, 'a>,
) -> GroundWords<'a> {
    let source = source_in(words);
    let list = words.find("LIST");
    if list == Some(STANDARD) {
        words.refuse(no_path("<LIST>"));
    }
    let areas = areas_in(alloc, name, words);
    GroundWords {
        job: job_in(name, words),
        areas,
        list,
        large: large_in(name, words),
        source,
        count: words.count(),
        wait: words.number("wait"),
        tries: words.find_number("tries").unwrap_or(TRIES),
        up: words.find("up"),
        kept: words.find("job"),
        resync: words.flag("resync"),
        longest: words.find_number("longest"),
        json: words.flag("json"),
    }
}

// Under which names what the command of this name loads goes as one large message, if it does: then
// it is one file's, and no job's file keeps it.
fn large_in(name: &str, words: &mut Words<'_, '_>) -> Option<LargeWords> {
    let first = words.find_number("name");
    let many = words.find_number("names");
    if name != "load" {
        return None;
    }
    if !words.flag("large") {
        if first.is_some() || many.is_some() {
            words.say("the argument '--large' has to be given");
        }
        return None;
    }
    if words.find("area").is_some() {
        words.say("the argument '--large' cannot be used with '--area <ADDRESS> <FILE>'");
    }
    if words.find("job").is_some() {
        words.say("the argument '--large' cannot be used with '--job <FILE>'");
    }
    Some(LargeWords {
        first: first.unwrap_or(0),
        many: many.unwrap_or(NAMES),
        tries: words.find_number("tries").unwrap_or(u32::MAX),
    })
}

// Where the pass has its own source from.
fn source_in<'a>(words: &mut Words<'_, 'a>) -> SourceWords<'a> {
    match (words.find_number("source"), words.find("passes")) {
        (Some(source), None) => SourceWords::Given(source),
        (None, Some(path)) => SourceWords::Next(path),
        (Some(source), Some(_)) => {
            words.say("the argument '--source <N>' cannot be used with '--passes <FILE>'");
            SourceWords::Given(source)
        }
        (None, None) => {
            words.say("the argument '--source <N>' or '--passes <FILE>' has to be given");
            SourceWords::Next("")
        }
    }
}

// What the command of this name does.
fn job_in(name: &str, words: &Words<'_, '_>) -> Job {
    match name {
        "load" | "patch" => Job::Load {
            starts: words.find("ack") == Some("10"),
            verify: words.flag("verify"),
        },
        "dump" => Job::Dump,
        _ => Job::Check,
    }
}

// The octets of a memory that the command of this name names, and their files; a list has its own.
fn areas_in<'a>(alloc: Global, name: &str, words: &mut Words<'_, 'a>) -> Vec<AreaWords<'a>> {
    let mut areas = Vec::new(alloc);
    if name == "patch" {
        return areas;
    }
    let memory = words.number("MEMORY");
    let address = words.text("ADDRESS");
    let is_dump = name == "dump";
    if is_dump {
        let len = words.text("LENGTH");
        if words.find("to").is_none() {
            words.say("the argument '--to <FILE>' has to be given");
        }
        let file = words.find("to").unwrap_or("");
        add_area(&mut areas, words, memory, address, Some(len), file);
    } else {
        let file = words.text("FILE");
        add_area(&mut areas, words, memory, address, None, file);
    }
    let more = words.all(alloc, "area");
    for group in more.chunks(if is_dump { 3 } else { 2 }) {
        match group {
            [address, file] => add_area(&mut areas, words, memory, address, None, file),
            [address, len, file] => {
                add_area(&mut areas, words, memory, address, Some(*len), file);
            }
            _ => words.say(MISSING),
        }
    }
    areas
}

// Adds the octets of a memory at an address: so many, which are dumped into a file, or else those
// of the file. It isn't standard input, since that is what comes down, nor standard output.
fn add_area<'a>(
    areas: &mut Vec<AreaWords<'a>>,
    words: &mut Words<'_, 'a>,
    memory: u8,
    address: &'a str,
    dumped: Option<&'a str>,
    file: &'a str,
) {
    if dumped.is_none() && file == STANDARD {
        words.say("'-' can't be read here: give the octets' path");
    }
    let address = words.address(address);
    let len = match dumped {
        Some(len) => words.length(len),
        None => 0,
    };
    if file == STANDARD {
        words.refuse(no_path("--area <ADDRESS> <LENGTH> <FILE>"));
    }
    let area = AreaWords {
        memory,
        address,
        len,
        file,
    };
    words.push(areas, area);
}

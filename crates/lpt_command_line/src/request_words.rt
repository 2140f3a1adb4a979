//! The words of the commands that write requests to a memory.

ghost use Rattle.std.specs.Prelude.{◌<◌, ◌≤◌};

use crate::command_line::Command;
use crate::word_fault::{MISSING, WordFault};
use crate::words::{STANDARD, Words};
use lpt_pus::AckFlags;
use lpt_requests::{CHECK_LIMIT, DUMP_LIMIT, LOAD_LIMIT};
use std::alloc::Global;

/// What `request` asks for.
#[derive(Drop)]
pub struct RequestWords<'a> {
    /// The memory's identifier.
    pub memory: u8,
    /// What is asked of it.
    pub what: What<'a>,
    /// How many octets of an area one request asks for at most.
    pub each: u16,
    /// Whether that is given, so that even what one request holds is cut into so many.
    pub cut: bool,
    /// The first sequence count, 0 to 16,383.
    pub count: u16,
    /// The acknowledgement flags.
    pub flags: AckFlags,
    /// The path of the layouts, if one is given.
    pub layout: Option<&'a str>,
    ghost counts: { count ≤ 16383 },
    ghost some_each: { 0 < each },
}

/// What is asked of a memory.
#[derive(Drop)]
pub enum What<'a> {
    /// That it takes the octets of these files, each at its address.
    Load(Vec<(u32, &'a str)>),
    /// The octets of these places: their addresses and lengths.
    Dump(Vec<(u32, u32)>),
    /// Their checksums.
    Check(Vec<(u32, u32)>),
}

/// What the words of the command of this name below `request` ask for.
pub(crate) fn request_command<'a>(
    alloc: Global,
    name: &str,
    words: &mut Words<'_, 'a>,
) -> Command<'a> {
    let cut = words.find("each").is_some();
    let each = each_in(name, words);
    let what = match name {
        "load" => What::Load(areas_in(alloc, words)),
        "dump" => What::Dump(places_in(alloc, words)),
        _ => What::Check(places_in(alloc, words)),
    };
    Command::Request(RequestWords {
        memory: words.number("MEMORY"),
        what,
        each,
        cut,
        count: words.count(),
        flags: flags_in(words),
        layout: words.find("layout"),
    })
}

// How many octets one request of this name asks for at most.
fn each_in(name: &str, words: &mut Words<'_, '_>) -> u16
    ensures { 0 < result }
{
    let limit = limit_of(name);
    match words.find_number("each") {
        Some(each) if 0 < each && each <= limit => each,
        Some(each) => {
            words.refuse(WordFault::Number {
                place: "--each <N>",
                number: u32::from(each),
                least: 1,
                most: u32::from(limit),
            });
            limit
        }
        None => limit,
    }
}

// How many octets of an area one request of this name holds at most.
fn limit_of(name: &str) -> u16
    ensures { 0 < result }
{
    match name {
        "load" => LOAD_LIMIT,
        "dump" => DUMP_LIMIT,
        _ => CHECK_LIMIT,
    }
}

// The acknowledgement flags, a number up to 15.
fn flags_in(words: &mut Words<'_, '_>) -> AckFlags {
    let bits: u8 = words.number("ack");
    AckFlags::new(bits.min(15)).unwrap()
}

// The addresses and the files of a load, of which one alone is standard input.
fn areas_in<'a>(alloc: Global, words: &mut Words<'_, 'a>) -> Vec<(u32, &'a str)> {
    let (address, file) = (words.text("ADDRESS"), words.text("FILE"));
    let mut areas = Vec::new(alloc);
    let mut has_input = file == STANDARD;
    let address = words.address(address);
    words.push(&mut areas, (address, file));
    let more = words.all(alloc, "area");
    for pair in more.chunks(2) {
        let [address, file] = pair else {
            words.say(MISSING);
            break;
        };
        let address = words.address(address);
        if *file == STANDARD && has_input {
            words.say("'-' can be read for one area only, and is FILE if no path is given");
        }
        has_input = has_input || *file == STANDARD;
        words.push(&mut areas, (address, *file));
    }
    areas
}

// The places of a dump or a check.
fn places_in(alloc: Global, words: &mut Words<'_, '_>) -> Vec<(u32, u32)> {
    let mut places = Vec::new(alloc);
    let all = words.all(alloc, "PLACE");
    for pair in all.chunks(2) {
        match pair {
            [address, len] => {
                let place = (words.address(address), words.length(len));
                words.push(&mut places, place);
            }
            [address] => words.refuse(WordFault::Word {
                before: "a '<LENGTH>' is missing after the '<ADDRESS>' ",
                word: address,
                after: "",
            }),
            _ => words.say(MISSING),
        }
    }
    places
}

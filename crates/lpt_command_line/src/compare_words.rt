//! The words of the commands that match files with reports.

use crate::command_line::Command;
use crate::word_fault::TWICE;
use crate::words::{STANDARD, Words};
use std::alloc::Global;

/// What `verify` asks for.
#[derive(Drop)]
pub struct VerifyWords<'a> {
    /// The path of the requests, or `-` for standard input.
    pub requests: &'a str,
    /// The paths of the reports, one behind the other, or `-` for standard input.
    pub reports: Vec<&'a str>,
    /// Whether each line is an object of JSON.
    pub json: bool,
    /// Whether the packets of what is open are written, and no line.
    pub open: bool,
    /// The path of the layouts, if one is given.
    pub layout: Option<&'a str>,
}

/// What `compare` asks for.
#[derive(Drop)]
pub struct CompareWords<'a> {
    /// The memory's identifier.
    pub memory: u8,
    /// The address of the first octet of the file.
    pub address: u32,
    /// The path of what should stand there, or `-` for standard input.
    pub file: &'a str,
    /// The paths of the reports, one behind the other, or `-` for standard input.
    pub reports: Vec<&'a str>,
    /// The path of the layouts, if one is given.
    pub layout: Option<&'a str>,
}

/// What `checksum` asks for.
#[derive(Clone, Copy)]
pub struct ChecksumWords<'a> {
    /// The path of the octets, or `-` for standard input.
    pub file: &'a str,
    /// The place of the first octet.
    pub from: u32,
    /// How many octets, if it is given.
    pub len: Option<u32>,
}

/// What the words of `verify` ask for.
pub(crate) fn verify_command<'a>(alloc: Global, words: &mut Words<'_, 'a>) -> Command<'a> {
    let requests = words.text("REQUESTS");
    let reports = words.paths(alloc, "REPORTS");
    let (json, open) = (words.flag("json"), words.flag("open"));
    if requests == STANDARD && open {
        words.say("the argument '-' cannot be used with '--open'");
    }
    if requests == STANDARD && reports.contains(&STANDARD) {
        words.say(TWICE);
    }
    if json && open {
        words.say("the argument '--json' cannot be used with '--open'");
    }
    Command::Verify(VerifyWords {
        requests,
        reports,
        json,
        open,
        layout: words.find("layout"),
    })
}

/// What the words of `compare` ask for.
pub(crate) fn compare_command<'a>(alloc: Global, words: &mut Words<'_, 'a>) -> Command<'a> {
    let memory = words.number("MEMORY");
    let address = words.text("ADDRESS");
    let address = words.address(address);
    let file = words.text("FILE");
    let reports = words.paths(alloc, "REPORTS");
    if file == STANDARD && reports.contains(&STANDARD) {
        words.say(TWICE);
    }
    Command::Compare(CompareWords {
        memory,
        address,
        file,
        reports,
        layout: words.find("layout"),
    })
}

/// What the words of `checksum` ask for.
pub(crate) fn checksum_command<'a>(words: &mut Words<'_, 'a>) -> Command<'a> {
    let from = words.text("from");
    let from = words.address(from);
    let len = match words.find("length") {
        Some(word) => Some(words.length(word)),
        None => None,
    };
    Command::Checksum(ChecksumWords {
        file: words.text("FILE"),
        from,
        len,
    })
}

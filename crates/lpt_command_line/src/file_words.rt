//! The words of the commands that list packets in files and join them.

use crate::command_line::Command;
use crate::split_words::{MOST, name_within};
use crate::word_fault::WordFault;
use crate::words::Words;
use lpt_packet::Direction;
use std::alloc::Global;

/// What `join` asks for.
#[derive(Drop)]
pub struct JoinWords<'a> {
    /// The path of the layouts, if one is given.
    pub layout: Option<&'a str>,
    /// The direction of the packets.
    pub direction: Direction,
    /// The word that names the message, which `name_within` reads; without that, it is the only one
    /// there.
    pub name: Option<&'a str>,
    /// The paths of the packets, one behind the other, or `-` for standard input.
    pub files: Vec<&'a str>,
    /// Whether what is joined needn't be a packet.
    pub any: bool,
    /// Whether the first whole message is taken for good.
    pub first: bool,
    /// The folder into which every message is written, if one is given.
    pub each: Option<&'a str>,
    /// Whether a line of JSON says where each of them is.
    pub json: bool,
    /// Which octets of the packets are read.
    pub span: Span,
}

/// Which octets of a stream are read.
#[derive(Clone, Copy)]
pub struct Span {
    /// The place of the first, from 0, if one is given.
    pub from: Option<u64>,
    /// The place of the first that isn't read any more, if one is given.
    pub to: Option<u64>,
}

/// What `list` asks for.
#[derive(Drop)]
pub struct ListWords<'a> {
    /// The paths of the packets, one behind the other, or `-` for standard input.
    pub files: Vec<&'a str>,
    /// Whether each line is an object of JSON.
    pub json: bool,
    /// Whether the list ends at the first place where no packet is.
    pub strict: bool,
    /// The path of the layouts, if one is given.
    pub layout: Option<&'a str>,
    /// Which octets of the packets are read.
    pub span: Span,
}

/// What `extract` asks for.
#[derive(Drop)]
pub struct ExtractWords<'a> {
    /// The paths of the packets, one behind the other, or `-` for standard input.
    pub files: Vec<&'a str>,
    /// The memory whose image is wanted, if one is.
    pub at: Option<u8>,
    /// The address of the image's first octet, if one is given.
    pub from: Option<u32>,
    /// The octet that stands where nothing gives one, if it is given.
    pub fill: Option<u8>,
    /// Whether an image is written only if nothing is wanting of it.
    pub whole: bool,
    /// Whether reports may come in parts.
    pub join: bool,
    /// The path of the layouts, if one is given.
    pub layout: Option<&'a str>,
}

/// What the words of `list` ask for.
pub(crate) fn list_command<'a>(alloc: Global, words: &mut Words<'_, 'a>) -> Command<'a> {
    Command::List(ListWords {
        span: span_in(words),
        files: words.paths(alloc, "FILE"),
        json: words.flag("json"),
        strict: words.flag("strict"),
        layout: words.find("layout"),
    })
}

/// What the words of `join` ask for.
pub(crate) fn join_command<'a>(alloc: Global, words: &mut Words<'_, 'a>) -> Command<'a> {
    let direction = words.direction();
    let layout = words.find("layout");
    let name = words.find("id");
    if let (None, Some(name)) = (layout, name) {
        words.check(name_within("--id <ID>", name, MOST, MOST));
    }
    let first = words.flag("first");
    let each = each_in(words, name.is_some(), first);
    Command::Join(JoinWords {
        layout,
        direction,
        name,
        span: span_in(words),
        files: words.paths(alloc, "FILE"),
        any: words.flag("any"),
        first,
        each,
        json: words.flag("json"),
    })
}

/// What the words of `extract` ask for.
pub(crate) fn extract_command<'a>(alloc: Global, words: &mut Words<'_, 'a>) -> Command<'a> {
    let files = words.paths(alloc, "FILE");
    let from = match words.find("from") {
        Some(word) => Some(words.address(word)),
        None => None,
    };
    Command::Extract(ExtractWords {
        files,
        at: words.find_number("at"),
        from,
        fill: words.find_number("fill"),
        whole: words.flag("whole"),
        join: words.flag("join"),
        layout: words.find("layout"),
    })
}

// The folder into which every message is written, if that is asked for: then no message is named,
// and none is the first. Only then a line for each is.
fn each_in<'a>(words: &mut Words<'_, 'a>, named: bool, first: bool) -> Option<&'a str> {
    let each = words.find("each");
    if each.is_some() && named {
        words.say("the argument '--each <DIR>' cannot be used with '--id <ID>'");
    } else if each.is_some() && first {
        words.say("the argument '--each <DIR>' cannot be used with '--first'");
    } else if each.is_none() && words.flag("json") {
        words.say("the argument '--each <DIR>' has to be given");
    }
    each
}

// Which octets are read: the first place stands before the last.
fn span_in(words: &mut Words<'_, '_>) -> Span {
    let (from, to) = (words.find_number("from"), words.find_number("to"));
    if let (Some(from), Some(to)) = (from, to) {
        if from > to {
            words.refuse(WordFault::Order { from, to });
        }
    }
    Span { from, to }
}

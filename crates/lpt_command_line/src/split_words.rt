//! The words of the command that splits messages into packets.

ghost use Rattle.std.specs.Prelude.{◌≤◌};

use crate::command_line::Command;
use crate::word_fault::WordFault;
use crate::words::Words;
use lpt_packet::Direction;
use std::alloc::Global;

/// The list of all parts, which stands for no choice.
const ALL: &str = "1-";

/// The greatest source and identifier of the profile.
pub(crate) const MOST: u32 = 65_535;

/// What words name a transaction of a layout by: its identifier, behind its source if that is
/// given.
#[derive(Clone, Copy)]
pub struct WideName {
    /// Its source, if it is given.
    pub source: Option<u32>,
    /// Its identifier.
    pub id: u32,
}

/// What `split` asks for of a message, or of each.
#[derive(Clone, Copy)]
pub struct SplitWords<'a> {
    /// The path of the layouts, if one is given.
    pub layout: Option<&'a str>,
    /// The direction in which it goes.
    pub direction: Direction,
    /// The word that names it, or the first. `name_within` reads it.
    pub name: &'a str,
    /// The path of the message or the packets, or `-` for standard input.
    pub file: &'a str,
    /// The first sequence count, 0 to 16,383.
    pub first: u16,
    /// Whether a message that isn't split goes as it is.
    pub whole: bool,
    /// Whether the packets are written as a capture.
    pub pcap: bool,
    ghost counts: { first ≤ 16383 },
}

/// What `split` asks for of one message.
#[derive(Clone, Copy)]
pub struct SplitOneWords<'a> {
    /// What it asks for.
    pub split: SplitWords<'a>,
    /// The list of the parts.
    pub parts: &'a str,
}

/// What `split --each` asks for.
#[derive(Drop)]
pub struct SplitEachWords<'a> {
    /// What it asks for of each.
    pub split: SplitWords<'a>,
    /// The parts that are chosen; without any, all parts of all messages are written.
    pub picks: Vec<GivenPick<'a>>,
}

/// Parts of one message, as `ID:LIST` or `SOURCE/ID:LIST` names them.
#[derive(Clone, Copy)]
pub struct GivenPick<'a> {
    /// The word.
    pub word: &'a str,
    /// The message's source, if it is given.
    pub source: Option<u32>,
    /// The message's identifier.
    pub id: u32,
    /// The list of its parts.
    pub parts: &'a str,
}

impl<'a> GivenPick<'a> {
    /// Whether its identifier is one up to this one.
    ///
    /// Errors: that it isn't.
    pub fn check(&self, most: u32) -> Result<(), WordFault<'a>> {
        if self.id <= most {
            return Ok(());
        }
        Err(no_pick(self.word, most))
    }

    /// Whether its source, if it is given, is this one.
    ///
    /// Errors: that it isn't.
    pub fn check_source(&self, source: u32) -> Result<(), WordFault<'a>> {
        match self.source {
            Some(given) if given != source => Err(WordFault::Numbered {
                before: "the source of '--parts ",
                word: self.word,
                after: "' isn't that of '<ID>', ",
                number: source,
            }),
            _ => Ok(()),
        }
    }
}

/// What the words of `split` ask for, also with `--each`.
pub(crate) fn split_command<'a>(alloc: Global, words: &mut Words<'_, 'a>) -> Command<'a> {
    if !words.flag("each") {
        let split = common_words(words);
        let parts = list_in(alloc, words);
        return Command::Split(SplitOneWords { split, parts });
    }
    if words.flag("pcap") {
        words.say("the argument '--each' cannot be used with '--pcap'");
    }
    let split = common_words(words);
    let most = if split.layout.is_some() {
        u32::MAX
    } else {
        MOST
    };
    let picks = picks_in(alloc, words, most);
    Command::SplitEach(SplitEachWords { split, picks })
}

// What both ask for.
fn common_words<'a>(words: &mut Words<'_, 'a>) -> SplitWords<'a> {
    let name = words.text("ID");
    let layout = words.find("layout");
    if layout.is_none() {
        words.check(name_within("<ID>", name, MOST, MOST));
    }
    SplitWords {
        layout,
        direction: words.direction(),
        name,
        file: words.text("FILE"),
        first: words.count(),
        whole: words.flag("whole"),
        pcap: words.flag("pcap"),
    }
}

// The list of parts, of which there is one.
fn list_in<'a>(alloc: Global, words: &mut Words<'_, 'a>) -> &'a str {
    let lists = words.all(alloc, "parts");
    if lists.len() > 1 {
        words.say("the argument '--parts <LIST>' cannot be used with '--parts <LIST>'");
    }
    lists.first().copied().unwrap_or(ALL)
}

/// What a word at this place names, by sources and identifiers up to these.
///
/// Errors: `Id`.
pub fn name_within<'a>(
    place: &'static str,
    word: &'a str,
    most_source: u32,
    most: u32,
) -> Result<WideName, WordFault<'a>> {
    let refused = WordFault::Id {
        place,
        word,
        most,
        source: most_source,
    };
    match name_in(word) {
        Some(name) if name.id <= most && name.source.unwrap_or(0) <= most_source => Ok(name),
        _ => Err(refused),
    }
}

// What a word names, as `ID` or as `SOURCE/ID`.
fn name_in(word: &str) -> Option<WideName> {
    let (source, id) = match word.split_once('/') {
        Some((source, id)) => (Some(source.parse().ok()?), id),
        None => (None, word),
    };
    Some(WideName {
        source,
        id: id.parse().ok()?,
    })
}

// The parts that words choose, by identifiers up to this one: `1-` alone chooses none, and so all.
fn picks_in<'a>(alloc: Global, words: &mut Words<'_, 'a>, most: u32) -> Vec<GivenPick<'a>> {
    let mut picks = Vec::new(alloc);
    let lists = words.all(alloc, "parts");
    if lists.as_slice() == [ALL].as_slice() {
        return picks;
    }
    for word in &lists {
        match pick_in(word, most) {
            Ok(pick) if is_picked(&picks, pick.id) => words.refuse(WordFault::Word {
                before: "the ID of '--parts ",
                word,
                after: "' has a list already",
            }),
            Ok(pick) => words.push(&mut picks, pick),
            Err(fault) => words.refuse(fault),
        }
    }
    picks
}

// Whether parts of the message of this identifier are chosen.
fn is_picked(picks: &[GivenPick<'_>], id: u32) -> bool {
    picks.iter().any(|pick| pick.id == id)
}

// What a word chooses, as `ID:LIST` or as `SOURCE/ID:LIST`.
fn pick_in<'a>(word: &'a str, most: u32) -> Result<GivenPick<'a>, WordFault<'a>> {
    if let Some((name, parts)) = word.split_once(':') {
        if let Some(WideName { source, id }) = name_in(name) {
            let pick = GivenPick {
                word,
                source,
                id,
                parts,
            };
            pick.check(most)?;
            return Ok(pick);
        }
    }
    Err(no_pick(word, most))
}

// That a word is no identifier up to this one with a list of parts.
fn no_pick<'a>(word: &'a str, most: u32) -> WordFault<'a> {
    WordFault::Numbered {
        before: "invalid value '",
        word,
        after: "' for '--parts <LIST>': not ID:LIST with an ID up to ",
        number: most,
    }
}

//! What is wrong with words that are more than one to a thing.

use std::alloc::{AllocError, Global};

/// A word that must be there isn't, which clap has refused before.
pub(crate) const MISSING: &str = "a word is missing";

/// Standard input is to be read twice.
pub(crate) const TWICE: &str = "'-' stands twice, and can be read only once";

/// What is completed of a load is to be kept, but not what was loaded.
pub const UNKEPT: WordFault<'static> = WordFault::Said(
    "the argument '--job <FILE>' needs '--state <FILE>', or '--save' and a '--memory <ID=FILE>' \
     for each memory that is loaded: otherwise the next run's spacecraft has forgotten what was \
     loaded",
);

/// What is wrong with words that were read.
#[derive(Clone, Copy)]
pub enum WordFault<'a> {
    /// This.
    Said(&'static str),
    /// This, of this word.
    Word {
        before: &'static str,
        word: &'a str,
        after: &'static str,
    },
    /// This, of this word, with a number behind it.
    Numbered {
        before: &'static str,
        word: &'a str,
        after: &'static str,
        number: u32,
    },
    /// At this place, the word names no message by an identifier and a source up to these.
    Id {
        place: &'static str,
        word: &'a str,
        most: u32,
        source: u32,
    },
    /// At this place, the number isn't one from `least` to `most`.
    Number {
        place: &'static str,
        number: u32,
        least: u32,
        most: u32,
    },
    /// What is read would begin at a place behind that where it ends.
    Order {
        from: u64,
        to: u64,
    },
    /// A file is used by two words, and one of them writes it.
    UsedTwice(TwoUses<'a>),
    /// Memory runs out.
    Memory,
}

/// A file that two words use.
#[derive(Clone, Copy)]
pub struct TwoUses<'a> {
    /// The file.
    pub file: &'a str,
    /// The first word, as help has it.
    pub one: &'static str,
    /// The other.
    pub other: &'static str,
    /// Whether one of both names another file, and writes this one beside it.
    pub beside: bool,
}

impl From<AllocError> for WordFault<'_> {
    fn from(_: AllocError) -> Self {
        WordFault::Memory
    }
}

impl WordFault<'_> {
    /// What is reported of it. The only error is out of memory.
    pub fn text(&self, alloc: Global) -> Result<String, AllocError> {
        match *self {
            WordFault::Said(text) => format!(in alloc; "{text}"),
            WordFault::Word {
                before,
                word,
                after,
            } => format!(in alloc; "{before}{word}{after}"),
            WordFault::Numbered {
                before,
                word,
                after,
                number,
            } => format!(in alloc; "{before}{word}{after}{number}"),
            WordFault::Id {
                place,
                word,
                most,
                source,
            } => no_name(alloc, word, place, most, source),
            WordFault::Number {
                place,
                number,
                least,
                most,
            } => format!(in alloc;
                "invalid value '{number}' for '{place}': not a number from {least} to {most}"
            ),
            WordFault::Order { from, to } => {
                format!(in alloc; "'--from {from}' stands after '--to {to}'")
            }
            WordFault::UsedTwice(uses) => used_twice(alloc, uses),
            WordFault::Memory => format!(in alloc; "out of memory"),
        }
    }
}

/// That a word is none of those that its place takes: which place, and which it takes.
pub(crate) fn invalid<'a>(word: &'a str, after: &'static str) -> WordFault<'a> {
    WordFault::Word {
        before: "invalid value '",
        word,
        after,
    }
}

/// That the file or the folder of a word would be standard input or output.
pub(crate) fn no_path(place: &'static str) -> WordFault<'static> {
    WordFault::Word {
        before: "the argument '",
        word: place,
        after: "' cannot be '-': a file of that name is ./-",
    }
}

// What is reported of a word that names no message, by an identifier and a source up to these.
fn no_name(
    alloc: Global,
    word: &str,
    place: &str,
    most: u32,
    source: u32,
) -> Result<String, AllocError> {
    if source == most {
        return format!(in alloc;
            "invalid value '{word}' for '{place}': not an ID or SOURCE/ID from 0 to {most}"
        );
    }
    format!(in alloc;
        "invalid value '{word}' for '{place}': not an ID up to {most} or a SOURCE up to {source}"
    )
}

// What is reported of a file that two words use.
fn used_twice(alloc: Global, uses: TwoUses<'_>) -> Result<String, AllocError> {
    let TwoUses {
        file,
        one,
        other,
        beside,
    } = uses;
    let why = if beside {
        ": FILE.part and FILE.lock belong to a FILE that is written"
    } else {
        ""
    };
    format!(in alloc; "'{one}' and '{other}' would both use {file}{why}")
}

//! The words of the command that carries packets over a link that loses.

use crate::command_line::Command;
use crate::word_fault::invalid;
use crate::words::Words;
use std::alloc::Global;

/// So many millionths are one percent.
const PERCENT: u32 = 10_000;

/// What `link` asks for.
#[derive(Drop)]
pub struct LinkWords<'a> {
    /// The paths of the packets, one behind the other, or `-` for standard input.
    pub files: Vec<&'a str>,
    /// What becomes of them.
    pub odds: OddsWords,
    /// How often bits of a packet's header are changed, in millionths.
    pub headers: u32,
    /// The path of the layouts, if one is given.
    pub layout: Option<&'a str>,
}

/// What becomes of packets on a link. The odds are millionths.
#[derive(Clone, Copy)]
pub struct OddsWords {
    /// How often a packet isn't written.
    pub lose: u32,
    /// How often one is written twice.
    pub repeat: u32,
    /// How often bits of one are changed.
    pub damage: u32,
    /// How many packets later one is written at most.
    pub delay: u16,
    /// The seed of the generator.
    pub seed: u64,
}

/// What the words of `link` ask for.
pub(crate) fn link_command<'a>(alloc: Global, words: &mut Words<'_, 'a>) -> Command<'a> {
    Command::Link(LinkWords {
        files: words.all(alloc, "FILE"),
        odds: odds_words(words),
        headers: odds_in(words, "damage-headers"),
        layout: words.find("layout"),
    })
}

// What is to become of packets on a link.
pub(crate) fn odds_words(words: &mut Words<'_, '_>) -> OddsWords {
    OddsWords {
        lose: odds_in(words, "lose"),
        repeat: odds_in(words, "repeat"),
        damage: odds_in(words, "damage"),
        delay: words.number("delay"),
        seed: words.number("seed"),
    }
}

// The odds that the word of this name says.
fn odds_in(words: &mut Words<'_, '_>, name: &str) -> u32 {
    let word = words.text(name);
    match millionths(word) {
        Some(odds) => odds,
        None => {
            let after = "' for '<P>': not a percentage from 0% to 100%";
            words.refuse(invalid(word, after));
            0
        }
    }
}

// A percentage of 0 to 100 with four digits at most behind the point, in millionths.
fn millionths(word: &str) -> Option<u32> {
    let number = word.strip_suffix('%').unwrap_or(word);
    let (whole, part) = number.split_once('.').unwrap_or((number, "0"));
    let percents: u32 = whole.parse().ok()?;
    let more = digits_behind(part)?;
    if percents > 100 || (percents == 100 && more > 0) {
        return None;
    }
    percents.checked_mul(PERCENT)?.checked_add(more)
}

// One to four digits behind a point, as ten-thousandths.
fn digits_behind(part: &str) -> Option<u32> {
    let digits = part.as_bytes();
    if digits.is_empty() || digits.len() > 4 || !digits.iter().all(|digit| digit.is_ascii_digit()) {
        return None;
    }
    let scale = match digits.len() {
        1 => 1000,
        2 => 100,
        3 => 10,
        _ => 1,
    };
    let number: u32 = part.parse().ok()?;
    number.checked_mul(scale)
}

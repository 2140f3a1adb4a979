//! The words of a command as clap read them, and what is wrong with them.

ghost use Rattle.std.specs.Prelude.{◌≤◌};

use crate::word_fault::{MISSING, TWICE, WordFault, invalid};
use clap::ArgMatches;
use lpt_packet::Direction;
use std::alloc::Global;
use std::str::FromStr;

/// The word for standard input.
pub(crate) const STANDARD: &str = "-";

/// The words of a command. What can't be read of them is read as something else, and refuses them
/// all: whoever has read all that it wants looks once for the fault.
#[derive(Drop)]
pub(crate) struct Words<'m, 'a> {
    matches: &'m ArgMatches<'a>,
    // What is wrong with them, if anything is: what was found first.
    fault: Option<WordFault<'a>>,
}

impl<'m, 'a> Words<'m, 'a> {
    /// Words with which nothing is wrong yet.
    pub(crate) fn new(matches: &'m ArgMatches<'a>) -> Self {
        Words {
            matches,
            fault: None,
        }
    }

    /// What is wrong with them, if anything is.
    pub(crate) fn fault(&self) -> Option<WordFault<'a>> {
        self.fault
    }

    /// Refuses them for this, if they aren't refused already.
    pub(crate) fn refuse(&mut self, fault: WordFault<'a>) {
        if self.fault.is_none() {
            self.fault = Some(fault);
        }
    }

    /// Refuses them, and says why.
    pub(crate) fn say(&mut self, why: &'static str) {
        self.refuse(WordFault::Said(why));
    }

    /// Refuses them if this is refused.
    pub(crate) fn check<T: Copy>(&mut self, read: Result<T, WordFault<'a>>) {
        if let Err(fault) = read {
            self.refuse(fault);
        }
    }

    /// Adds this to a list, if there is memory for it.
    pub(crate) fn push<T: Copy>(&mut self, list: &mut Vec<T>, item: T) {
        if list.push(item).is_err() {
            self.refuse(WordFault::Memory);
        }
    }

    /// Whether this flag is given.
    pub(crate) fn flag(&self, name: &str) -> bool {
        self.matches.get_flag(name)
    }

    /// The word of this name, if it is given.
    pub(crate) fn find(&self, name: &str) -> Option<&'a str> {
        self.matches.get_str(name)
    }

    /// The number of this name, if it is given.
    pub(crate) fn find_number<T: FromStr>(&self, name: &str) -> Option<T>
    where
        T::Err: Drop,
    {
        self.matches.get_one(name)
    }

    /// All words of this name.
    pub(crate) fn all(&mut self, alloc: Global, name: &str) -> Vec<&'a str> {
        let mut all = Vec::new(alloc);
        if let Some(words) = self.matches.get_strs(name) {
            for word in words {
                self.push(&mut all, *word);
            }
        }
        all
    }

    /// The word of this name, which must be there.
    pub(crate) fn text(&mut self, name: &str) -> &'a str {
        match self.matches.get_str(name) {
            Some(word) => word,
            None => {
                self.say(MISSING);
                ""
            }
        }
    }

    /// The number of this name, which must be there.
    pub(crate) fn number<T: FromStr + Default>(&mut self, name: &str) -> T
    where
        T::Err: Drop,
    {
        match self.matches.get_one(name) {
            Some(number) => number,
            None => {
                self.say(MISSING);
                T::default()
            }
        }
    }

    /// The sequence count.
    pub(crate) fn count(&mut self) -> u16
        ensures { result ≤ 16383 }
    {
        match self.matches.get_one("count") {
            Some(count) if count <= 16_383 => count,
            _ => {
                self.say(MISSING);
                0
            }
        }
    }

    /// The direction.
    pub(crate) fn direction(&mut self) -> Direction {
        match self.text("DIRECTION") {
            "up" => Direction::Up,
            _ => Direction::Down,
        }
    }

    /// The paths of this name, of which one alone may be standard input.
    pub(crate) fn paths(&mut self, alloc: Global, name: &str) -> Vec<&'a str> {
        let paths = self.all(alloc, name);
        if paths.iter().filter(|path| **path == STANDARD).count() > 1 {
            self.say(TWICE);
        }
        paths
    }

    /// The address that a word names.
    pub(crate) fn address(&mut self, word: &'a str) -> u32 {
        match number_in(word) {
            Some(address) => address,
            None => {
                let after = "' for '<ADDRESS>': not a number from 0 to 4294967295";
                self.refuse(invalid(word, after));
                0
            }
        }
    }

    /// The number of octets that a word names, at least one.
    pub(crate) fn length(&mut self, word: &'a str) -> u32 {
        match number_in(word) {
            Some(len) if len > 0 => len,
            _ => {
                let after = "' for '<LENGTH>': not a number from 1 to 4294967295";
                self.refuse(invalid(word, after));
                1
            }
        }
    }
}

// The number that a word is, below 2^32: decimal, or hexadecimal behind `0x`.
fn number_in(word: &str) -> Option<u32> {
    match word.split_once('x') {
        Some(("0", digits)) => u32::from_str_radix(digits, 16).ok(),
        _ => word.parse().ok(),
    }
}

//! The words of the command that patches an image.

use crate::asking::{ADDRESS, MEMORY};
use crate::command_line::Command;
use crate::commands::{TEXT, U32};
use crate::row::{CommandRow, Configured, Named, Word};
use crate::setting_words::PART_SIZE;
use crate::word_fault::{TWICE, no_path};
use crate::words::{STANDARD, Words};
use clap::builder::ValueParser;

/// What `patch` asks for.
#[derive(Clone, Copy)]
pub struct PatchWords<'a> {
    /// The path of the image that the memory has, or `-` for standard input.
    pub old: &'a str,
    /// The path of that which it should have, or `-` for standard input.
    pub new: &'a str,
    /// The memory's identifier.
    pub memory: u8,
    /// The address of the first octet of the images.
    pub address: u32,
    /// The path of the folder that is made for the lists.
    pub folder: &'a str,
    /// Areas with at most so many octets between them are one.
    pub gap: u32,
    /// Areas begin and end at multiples of this.
    pub align: u32,
}

/// `patch`.
pub(crate) static PATCH: CommandRow = CommandRow {
    name: "patch",
    about: "Write lists for ground patch that turn one image into another, and back",
    words: &[
        Word::One(
            "OLD",
            TEXT,
            "The image that the memory has, or - for standard input",
        ),
        Word::One(
            "NEW",
            TEXT,
            "The image that it should have, as long as OLD, or - for standard input",
        ),
        MEMORY,
        ADDRESS,
        Word::One(
            "DIR",
            TEXT,
            "A folder that isn't there yet, for the lists and the octets of each area",
        ),
    ],
    named: &[
        Named::Else(
            "gap",
            "N",
            (U32, "0"),
            "Join areas with at most N octets between them that don't differ",
        ),
        Named::Else(
            "align",
            "N",
            (ValueParser::Unsigned(1, u32::MAX as u64), "1"),
            "Let areas begin and end at multiples of N, as far as the image reaches",
        ),
        PART_SIZE,
    ],
    configured: Configured::No,
};

/// What the words of `patch` ask for.
pub(crate) fn patch_command<'a>(words: &mut Words<'_, 'a>) -> Command<'a> {
    let (old, new) = (words.text("OLD"), words.text("NEW"));
    let memory = words.number("MEMORY");
    let address = words.text("ADDRESS");
    let address = words.address(address);
    let folder = words.text("DIR");
    if old == STANDARD && new == STANDARD {
        words.say(TWICE);
    }
    if folder == STANDARD {
        words.refuse(no_path("<DIR>"));
    }
    Command::Patch(PatchWords {
        old,
        new,
        memory,
        address,
        folder,
        gap: words.number("gap"),
        align: words.number("align"),
    })
}

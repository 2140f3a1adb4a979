//! The words that say what a configuration says, in its place or beside it.

use crate::row::Named;
use crate::words::Words;
use clap::builder::ValueParser;
use lpt_part::Mode;

/// The words that give a configuration.
#[derive(Clone, Copy)]
pub struct SettingWords<'a> {
    /// The path of its file, if one is given.
    pub file: Option<&'a str>,
    /// The application process identifier, if it is given.
    pub apid: Option<u16>,
    /// The source, if it is given.
    pub source: Option<u16>,
    /// The part size in octets, if it is given.
    pub part_size: Option<u32>,
    /// In which order parts are taken, if it is given.
    pub mode: Option<Mode>,
}

const CONFIG: Named = Named::File("config", "A TOML file with the configuration");

const APID: Named = Named::One(
    "apid",
    "N",
    ValueParser::Signed(0, 2046),
    "The APID of all packets, 0 to 2046",
);

pub(crate) const PART_SIZE: Named = Named::One(
    "part-size",
    "N",
    ValueParser::Signed(4, 1024),
    "The size of a part in octets, 4 to 1024",
);

/// The configuration's file, and the words that win over it.
pub(crate) static SETTINGS: [Named; 5] = [
    CONFIG,
    APID,
    Named::One(
        "source",
        "N",
        ValueParser::Signed(0, 65_535),
        "The source of an ID that is written without one, 0 to 65535",
    ),
    PART_SIZE,
    Named::One(
        "mode",
        "MODE",
        ValueParser::Names(&["any", "strict"]),
        "Take parts in any order, or strictly in the order of their numbers",
    ),
];

/// Those of requests, which are telecommands of the source.
pub(crate) static REQUEST_SETTINGS: [Named; 4] = [
    CONFIG,
    APID,
    Named::One(
        "source",
        "N",
        ValueParser::Signed(0, 65_535),
        "The source ID of the telecommands, 0 to 65535",
    ),
    PART_SIZE,
];

/// Those of a pass, which has a source of its own.
pub(crate) static PASS_SETTINGS: [Named; 4] = [
    CONFIG,
    APID,
    Named::One(
        "source",
        "N",
        ValueParser::Signed(1, 65_535),
        "A source that no earlier pass had, 1 to 65535; this or --passes must be given",
    ),
    PART_SIZE,
];

/// How many octets the longest packet on the link has: as many as are given, or else as one has
/// that carries a part of this size.
pub fn longest_on_link(given: Option<u32>, part_size: u32) -> usize {
    match given {
        Some(longest) => longest as usize,
        None => part_size.saturating_add(23) as usize,
    }
}

/// What the words of a command give of a configuration.
pub(crate) fn setting_words<'a>(words: &Words<'_, 'a>) -> SettingWords<'a> {
    SettingWords {
        file: words.find("config"),
        apid: words.find_number("apid"),
        source: words.find_number("source"),
        part_size: words.find_number("part-size"),
        mode: match words.find("mode") {
            Some("any") => Some(Mode::Any),
            Some(_) => Some(Mode::Strict),
            None => None,
        },
    }
}

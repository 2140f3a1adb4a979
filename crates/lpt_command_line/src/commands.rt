//! The commands, and the words of each.

use crate::row::{CommandRow, Configured, Named, Word};
use clap::builder::ValueParser;

pub(crate) const TEXT: ValueParser<'static> = ValueParser::String;

pub(crate) const U8: ValueParser<'static> = ValueParser::Signed(0, 255);

pub(crate) const U64: ValueParser<'static> = ValueParser::Unsigned(0, u64::MAX);

pub(crate) const U32: ValueParser<'static> = ValueParser::Unsigned(0, u32::MAX as u64);

const SCRIPT: Word = Word::One("SCRIPT", TEXT, "The script's path, or - for standard input");

pub(crate) const JSON: Named = Named::Flag("json", "Print each line as a JSON object");

pub(crate) const QUIET: Named = Named::Flag("quiet", "Report only why the status is not 0");

const DIRECTION: Word = Word::One(
    "DIRECTION",
    ValueParser::Names(&["up", "down"]),
    "Up to the spacecraft, or down from it",
);

pub(crate) const PACKETS: Word = Word::Files("FILE", "Files of packets, or - for standard input");

const FROM: Named = Named::One(
    "from",
    "PLACE",
    U64,
    "Read from this place on, the number of an octet as list prints it",
);

const TO: Named = Named::One(
    "to",
    "PLACE",
    U64,
    "Read up to this place, without its octet",
);

pub(crate) const COUNT: Named = Named::Else(
    "count",
    "N",
    (ValueParser::Signed(0, 16_383), "0"),
    "The sequence count of the first packet, 0 to 16383",
);

/// The file of a mission's layouts.
pub(crate) const LAYOUT: Named = Named::File(
    "layout",
    "A TOML file with the mission's layouts of headers and parts",
);

/// That more is said of octets than what they are.
const MORE: Named = Named::Flag(
    "more",
    "Also print how many areas a request or report has, the first of them, and which \
           segment a packet is",
);

/// `run`.
pub(crate) static RUN: CommandRow = CommandRow {
    name: "run",
    about: "Run a script of the simulator",
    words: &[SCRIPT],
    named: &[Named::Flag(
        "views",
        "Let the script also show link, senders, receptions and jobs",
    )],
    configured: Configured::Nodes,
};

/// `threads`.
pub(crate) static THREADS: CommandRow = CommandRow {
    name: "threads",
    about: "Run a script, then let ten threads send and deliver what is open",
    words: &[SCRIPT],
    named: &[],
    configured: Configured::Nodes,
};

/// `decode`.
pub(crate) static DECODE: CommandRow = CommandRow {
    name: "decode",
    about: "Decode a packet given in hexadecimal",
    words: &[Word::May(
        "HEX",
        "Octets as hexadecimal digits, or - for none; without HEX standard input has them",
    )],
    named: &[MORE, LAYOUT],
    configured: Configured::Packets,
};

/// `list`.
pub(crate) static LIST: CommandRow = CommandRow {
    name: "list",
    about: "List the packets of a file or a pipe",
    words: &[PACKETS],
    named: &[
        JSON,
        Named::Flag("strict", "Stop at damage, or octets that are no packet"),
        FROM,
        TO,
        LAYOUT,
        QUIET,
    ],
    configured: Configured::Packets,
};

/// `split`.
pub(crate) static SPLIT: CommandRow = CommandRow {
    name: "split",
    about: "Split a message into parts, and write their packets",
    words: &[
        DIRECTION,
        Word::One(
            "ID",
            TEXT,
            "The message's ID or SOURCE/ID, each 0 to 65535 or as wide as --layout says",
        ),
        Word::File("FILE", "The message's file, or - for standard input"),
    ],
    named: &[
        Named::Many(
            "parts",
            &["LIST"],
            &["1-"],
            "The parts to write, such as 3,7-9,12-; with --each ID:LIST",
        ),
        COUNT,
        Named::Flag(
            "each",
            "Split each packet of the file as a message; the IDs count up from ID",
        ),
        Named::Flag(
            "whole",
            "Write a message that fits in one part as it is, unsplit",
        ),
        Named::Flag(
            "pcap",
            "Write the packets as a pcap capture; not with --each",
        ),
        LAYOUT,
    ],
    configured: Configured::Packets,
};

/// `join`.
pub(crate) static JOIN: CommandRow = CommandRow {
    name: "join",
    about: "Join the parts that packets carry, and write the message",
    words: &[DIRECTION, PACKETS],
    named: &[
        Named::Text(
            "id",
            "ID",
            "The message's ID or SOURCE/ID; needed if parts of several messages came",
        ),
        Named::Flag(
            "first",
            "Write the first message under its name, even if others of that name come after \
                   it",
        ),
        Named::Flag("any", "Write the joined message even if it is no packet"),
        Named::Text(
            "each",
            "DIR",
            "Write each message to a file of its own in this folder; not with --id or --first",
        ),
        Named::Flag(
            "json",
            "Print a JSON object for each message, with where it is in the packets; only \
                   with --each",
        ),
        FROM,
        TO,
        LAYOUT,
        QUIET,
    ],
    configured: Configured::Packets,
};

/// `extract`.
pub(crate) static EXTRACT: CommandRow = CommandRow {
    name: "extract",
    about: "Extract octets of memory from dump reports",
    words: &[PACKETS],
    named: &[
        Named::One(
            "at",
            "MEMORY",
            U8,
            "Write an image of this memory, each area at its address",
        ),
        Named::Text(
            "from",
            "ADDRESS",
            "The address at which the image begins; 0 if not given",
        ),
        Named::One(
            "fill",
            "OCTET",
            U8,
            "The octet for addresses that no area covers, 0 to 255; 0 if not given",
        ),
        Named::Flag(
            "whole",
            "Write the image only if nothing of it is missing or was passed over",
        ),
        Named::Flag("join", "Also take dump reports that came in parts"),
        LAYOUT,
        QUIET,
    ],
    configured: Configured::Packets,
};

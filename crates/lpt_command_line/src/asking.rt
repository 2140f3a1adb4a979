//! The commands that write requests to a memory, and those that say what became of them.

use crate::commands::{COUNT, JSON, LAYOUT, QUIET, TEXT, U8};
use crate::row::{CommandRow, Configured, Named, Word};
use clap::builder::ValueParser;

pub(crate) const MEMORY: Word = Word::One("MEMORY", U8, "The memory's identifier, 0 to 255");

pub(crate) const ADDRESS: Word = Word::One(
    "ADDRESS",
    TEXT,
    "The address of the first octet, as 16384 or 0x4000",
);

const REPORTS: Word = Word::Files("REPORTS", "Files of reports, or - for standard input");

const PLACES: Word = Word::Several(
    "PLACE",
    &["ADDRESS", "LENGTH"],
    "Addresses, each followed by how many octets, 1 to 4294967295; numbers as 16384 or \
           0x4000",
);

const EACH: Named = Named::One(
    "each",
    "N",
    ValueParser::Signed(1, 65_535),
    "At most N octets in a request; as many as fit if not given",
);

const ACK: Named = Named::Else(
    "ack",
    "N",
    (ValueParser::Signed(0, 15), "0"),
    "Acknowledgement flags, 0 to 15, a sum: 1 acceptance, 2 start, 4 progress, 8 completion",
);

/// `verify`.
pub(crate) static VERIFY: CommandRow = CommandRow {
    name: "verify",
    about: "List requests with what verification reports say about them",
    words: &[
        Word::One(
            "REQUESTS",
            TEXT,
            "The requests themselves, not what split wrote; - for standard input",
        ),
        REPORTS,
    ],
    named: &[
        JSON,
        Named::Flag(
            "open",
            "Write the packets of requests that no report settles, in place of the list",
        ),
        LAYOUT,
        QUIET,
    ],
    configured: Configured::No,
};

/// `compare`.
pub(crate) static COMPARE: CommandRow = CommandRow {
    name: "compare",
    about: "Compare a file with the checksums in check reports",
    words: &[
        MEMORY,
        ADDRESS,
        Word::One(
            "FILE",
            TEXT,
            "The file that should be in the memory, or - for standard input",
        ),
        REPORTS,
    ],
    named: &[LAYOUT, QUIET],
    configured: Configured::Packets,
};

/// `checksum`.
pub(crate) static CHECKSUM: CommandRow = CommandRow {
    name: "checksum",
    about: "Print the checksum that a check report has for a file",
    words: &[Word::File("FILE", "The octets' file, or - for standard input")],
    named: &[
        Named::Else("from", "PLACE", (TEXT, "0"), "The place of the first octet"),
        Named::Text(
            "length",
            "N",
            "How many octets; all that follow if not given",
        ),
    ],
    configured: Configured::No,
};

/// `request load`.
pub(crate) static REQUEST_LOAD: CommandRow = CommandRow {
    name: "load",
    about: "Load octets into a memory",
    words: &[
        MEMORY,
        ADDRESS,
        Word::File("FILE", "The octets' file, or - for standard input"),
    ],
    named: &[
        Named::Many(
            "area",
            &["ADDRESS", "FILE"],
            &[],
            "Load another file to another address, in the same requests",
        ),
        EACH,
        ACK,
        COUNT,
        LAYOUT,
    ],
    configured: Configured::Requests,
};

/// `request dump`.
pub(crate) static REQUEST_DUMP: CommandRow = CommandRow {
    name: "dump",
    about: "Ask for octets of a memory",
    words: &[MEMORY, PLACES],
    named: &[EACH, ACK, COUNT, LAYOUT],
    configured: Configured::Requests,
};

/// `request check`.
pub(crate) static REQUEST_CHECK: CommandRow = CommandRow {
    name: "check",
    about: "Ask for checksums of a memory",
    words: &[MEMORY, PLACES],
    named: &[EACH, ACK, COUNT, LAYOUT],
    configured: Configured::Requests,
};

//! The commands that carry what is asked of a memory to its end.

use crate::asking::{ADDRESS, MEMORY};
use crate::commands::{COUNT, JSON, QUIET, TEXT, U64};
use crate::passes::{
    DAMAGE, DELAY, LONGEST, LOSE, MEMORY as CRAFT_MEMORY, REPEAT, RESYNC, SAVE, STATE,
};
use crate::row::{CommandRow, Configured, Named, Word};
use clap::builder::ValueParser;

const FILE: Word = Word::One("FILE", TEXT, "The path of the octets' file");

const LIST: Word = Word::One(
    "LIST",
    TEXT,
    "A TOML file, in which each [[patch]] has memory, address, file and, if wanted, verify",
);

const LENGTH: Word = Word::One(
    "LENGTH",
    TEXT,
    "How many octets, 1 to 4294967295, as 16384 or 0x4000",
);

const MILLIS: ValueParser<'static> = ValueParser::Signed(1, 86_400_000);

const WAIT_HELP: &str = "\
Send open requests again if nothing came for MS milliseconds. Give more than a round trip, and \
more than the spacecraft needs for a round";

const WAIT: Named = Named::Else("wait", "MS", (MILLIS, "1000"), WAIT_HELP);

const SHORT_WAIT: Named = Named::Else("wait", "MS", (MILLIS, "200"), WAIT_HELP);

const TIMES: ValueParser<'static> = ValueParser::Signed(1, 1_000_000);

const TRIES: Named = Named::Else(
    "tries",
    "N",
    (TIMES, "10"),
    "Give up after N waits in a row that settled nothing",
);

const LOAD_TRIES: Named = Named::One(
    "tries",
    "N",
    TIMES,
    "Give up after N waits in a row that settled nothing \
           [default: 10; if --large sends parts, as many as there are rounds]",
);

const LARGE: Named = Named::Flag(
    "large",
    "Load the file in one step, all or nothing: by one request, in parts if it is long; \
           not with --area or --job",
);

const NAME: Named = Named::One(
    "name",
    "ID",
    ValueParser::Signed(0, 65_535),
    "With --large: the transaction ID under which the parts go first [default: 0]",
);

const NAMES: Named = Named::One(
    "names",
    "N",
    ValueParser::Signed(1, 65_536),
    "With --large: give up after N IDs; the parts go under the first for 4 rounds, then for \
           8, 12 and so on [default: 6]",
);

const UP: Named = Named::Text(
    "up",
    "FIFO",
    "Where requests are written, in place of standard output",
);

const JOB: Named = Named::File(
    "job",
    "Keep in this file what is completed; the same command with another source goes on from \
           it",
);

const PASSES: Named = Named::File(
    "passes",
    "Take the source after the one in this file, and write it there; in place of --source. \
           All operators of a spacecraft share one file",
);

const AREA: Named = Named::Many(
    "area",
    &["ADDRESS", "FILE"],
    &[],
    "Another file at another address, in the same pass",
);

const DUMPED_AREA: Named = Named::Many(
    "area",
    &["ADDRESS", "LENGTH", "FILE"],
    &[],
    "Other octets and their file, in the same pass",
);

const ACK: Named = Named::Else(
    "ack",
    "N",
    (ValueParser::Names(&["8", "10"]), "8"),
    "The acknowledgement flags: with 10 a report of start counts as well",
);

const VERIFY: Named = Named::Flag("verify", "Dump the octets after the load, and compare them");

const TO: Named = Named::File(
    "to",
    "Where the octets are written once all have come; must be given",
);

/// The words that each command below `ground` takes after its own.
pub(crate) static GROUND_WORDS: [Named; 6] = [UP, JOB, RESYNC, LONGEST, JSON, QUIET];

/// `ground load`.
pub(crate) static GROUND_LOAD: CommandRow = CommandRow {
    name: "load",
    about: "Load a file into a memory, and end once all of it is there",
    words: &[MEMORY, ADDRESS, FILE],
    named: &[
        AREA, LARGE, NAME, NAMES, PASSES, ACK, VERIFY, COUNT, WAIT, LOAD_TRIES,
    ],
    configured: Configured::Pass,
};

/// `ground dump`.
pub(crate) static GROUND_DUMP: CommandRow = CommandRow {
    name: "dump",
    about: "Fetch octets of a memory, and write them once all have come",
    words: &[MEMORY, ADDRESS, LENGTH],
    named: &[TO, DUMPED_AREA, PASSES, COUNT, WAIT, TRIES],
    configured: Configured::Pass,
};

/// `ground check`.
pub(crate) static GROUND_CHECK: CommandRow = CommandRow {
    name: "check",
    about: "Compare a file with checksums of a memory",
    words: &[MEMORY, ADDRESS, FILE],
    named: &[AREA, PASSES, COUNT, WAIT, TRIES],
    configured: Configured::Pass,
};

/// `ground patch`.
pub(crate) static GROUND_PATCH: CommandRow = CommandRow {
    name: "patch",
    about: "Load the files of a list into memories, and end once all of them are there",
    words: &[LIST],
    named: &[PASSES, ACK, VERIFY, COUNT, WAIT, TRIES],
    configured: Configured::Pass,
};

const PASS_SEED: Named = Named::Else(
    "seed",
    "S",
    (U64, "0"),
    "The random seed; what gets lost also depends on how fast the machine is",
);

/// The words that each command below `pass` takes after its own.
pub(crate) static PASS_WORDS: [Named; 12] = [
    JOB,
    LONGEST,
    JSON,
    CRAFT_MEMORY,
    SAVE,
    STATE,
    LOSE,
    REPEAT,
    DAMAGE,
    DELAY,
    PASS_SEED,
    QUIET,
];

/// `pass load`.
pub(crate) static PASS_LOAD: CommandRow = CommandRow {
    name: "load",
    about: "Load a file into a memory over links that lose",
    words: &[MEMORY, ADDRESS, FILE],
    named: &[
        AREA, LARGE, NAME, NAMES, PASSES, ACK, VERIFY, COUNT, SHORT_WAIT, LOAD_TRIES,
    ],
    configured: Configured::Pass,
};

/// `pass dump`.
pub(crate) static PASS_DUMP: CommandRow = CommandRow {
    name: "dump",
    about: "Fetch octets of a memory over links that lose",
    words: &[MEMORY, ADDRESS, LENGTH],
    named: &[TO, DUMPED_AREA, PASSES, COUNT, SHORT_WAIT, TRIES],
    configured: Configured::Pass,
};

/// `pass check`.
pub(crate) static PASS_CHECK: CommandRow = CommandRow {
    name: "check",
    about: "Compare a file with checksums of a memory over links that lose",
    words: &[MEMORY, ADDRESS, FILE],
    named: &[AREA, PASSES, COUNT, SHORT_WAIT, TRIES],
    configured: Configured::Pass,
};

/// `pass patch`.
pub(crate) static PASS_PATCH: CommandRow = CommandRow {
    name: "patch",
    about: "Load the files of a list into memories over links that lose",
    words: &[LIST],
    named: &[PASSES, ACK, VERIFY, COUNT, SHORT_WAIT, TRIES],
    configured: Configured::Pass,
};

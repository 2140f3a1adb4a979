//! The commands that play a pass: the link, and the spacecraft's end.

use crate::commands::{LAYOUT, PACKETS, QUIET, U32, U64};
use crate::row::{CommandRow, Configured, Named};
use clap::builder::ValueParser;

pub(crate) const LOSE: Named = Named::Odds("lose", "The share of packets that get lost");

pub(crate) const REPEAT: Named = Named::Odds(
    "repeat",
    "The share of packets that are written twice",
);

pub(crate) const DAMAGE: Named = Named::Odds(
    "damage",
    "The share of packets in which bits change, so that the checksum is wrong",
);

pub(crate) const DAMAGE_HEADERS: Named = Named::Odds(
    "damage-headers",
    "The share of packets whose header is damaged, also its first octet and its length",
);

pub(crate) const DELAY: Named = Named::Else(
    "delay",
    "N",
    (ValueParser::Signed(0, 1000), "0"),
    "Delay packets, each by at most N others, 0 to 1000",
);

pub(crate) const SEED: Named = Named::Else(
    "seed",
    "S",
    (U64, "0"),
    "The random seed; the same seed, options and packets give the same output",
);

pub(crate) const MEMORY: Named = Named::Many(
    "memory",
    &["ID=FILE"],
    &[],
    "The ID of a memory, and the file of its first content, 1 to 1048576 octets",
);

pub(crate) const SAVE: Named = Named::Flag(
    "save",
    "Write a memory back to its file after each load, and all of them at the end",
);

pub(crate) const STATE: Named = Named::File(
    "state",
    "Keep the state and the memories in this file, and go on from it next time",
);

pub(crate) const RESYNC: Named = Named::Flag(
    "resync",
    "Go on after octets that are no packet; may take a packet inside a message for one that \
           was sent",
);

pub(crate) const LONGEST: Named = Named::One(
    "longest",
    "N",
    ValueParser::Signed(7, 65_542),
    "The octets of the longest packet on the link; a header that says more is damaged \
           [default: the part size and 23]",
);

/// `link`.
pub(crate) static LINK: CommandRow = CommandRow {
    name: "link",
    about: "Lose, repeat, delay and damage packets, as a bad link does",
    words: &[PACKETS],
    named: &[
        LOSE,
        REPEAT,
        DAMAGE,
        DAMAGE_HEADERS,
        DELAY,
        SEED,
        LAYOUT,
        QUIET,
    ],
    configured: Configured::No,
};

/// `spacecraft`.
pub(crate) static SPACECRAFT: CommandRow = CommandRow {
    name: "spacecraft",
    about: "Play the spacecraft: take packets, execute requests, write reports",
    words: &[],
    named: &[
        MEMORY,
        SAVE,
        Named::One(
            "tick-every",
            "N",
            U64,
            "Move the clock on by a tick after every N packets; never if 0 or not given",
        ),
        Named::One(
            "tick",
            "MS",
            ValueParser::Unsigned(1, u32::MAX as u64),
            "Move the clock on by a tick every MS milliseconds, even if nothing comes; not \
                   with --tick-every",
        ),
        Named::One(
            "reuse",
            "N",
            U32,
            "Free a name N ticks after its reception ended or its report was sent; no older \
                   packet may be on its way then",
        ),
        RESYNC,
        LONGEST,
        Named::Flag(
            "log",
            "Report on standard error what becomes of each packet and request",
        ),
        STATE,
    ],
    configured: Configured::Nodes,
};

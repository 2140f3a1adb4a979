//! The layout file: a TOML document that says how a mission lays out its telemetry, telecommands
//! and their parts, if it does so otherwise than this project's own profile. It is a file of its
//! own, for the commands that read packets in files; nodes and worlds know no layout but their own.
//!
//! The main types are `Layouts`, with a `Tailored` for each packet type, and lpt_settings'
//! `Complaint`, what is wrong with a text. The first calls are `read_layouts` and, if it refuses
//! a text, `why_refused`. `Layouts::own` are the profile's.
//!
//! There are two tables, `telemetry` and `telecommands`:
//!
//! | Key | In | Value | If it is absent |
//! |---|---|---|---|
//! | `checksum` | both | `true` or `false` | `true` |
//! | `version` | both | 1 or 2 | 2 |
//! | `counter` | telemetry | 0, 8 or 16 bits | 16 |
//! | `destination` | telemetry | 0, 8 or 16 bits | 16 |
//! | `source` | telecommands | 0, 8 or 16 bits | 16 |
//! | `time` | telemetry | 0 to 16 octets, `"cuc C F"` or `"cds D"` | 4 |
//! | `epoch` | telemetry | a day of the years 1900 to 9999 | 1958-01-01 |
//! | `spare` | both | 0 to 255 octets | 0 |
//! | `transaction_id` | both | 16 or 32 bits | 16 |
//! | `part_number` | both | 16 or 32 bits | 16 |
//! | `part_size` | both | 1 to 65,535 octets | it isn't known |
//!
//! Each table and each key may be absent, and there is no other. A time named `cuc C F` has C
//! octets of seconds, 1 to 4, and F of parts of one, 0 to 3. One named `cds D` has D bits of days,
//! 16 or 24, and 32 of milliseconds of the day; with ` us` behind it 16 of microseconds more, or
//! with ` ps` 32 of picoseconds. With ` p` at the name's end a preamble field of one octet stands
//! in front. Only such a time has an epoch, a date or a text that is one.
#![tactic(auto)]

mod complaint;
mod keys;
mod reading;
mod tables;
mod times;
mod values;

pub use complaint::why_refused;
pub use lpt_carried::{Layouts, Tailored, TimeCode};
pub use lpt_layout::{Layout, PartLayout};
pub use lpt_packet::Direction;
pub use lpt_settings::Complaint;
pub use reading::read_layouts;

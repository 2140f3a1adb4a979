//! The configuration file: a TOML document of numbers, each with its range and its default, of the
//! mode, and of the memories. The main types are lpt_events' `Config` and `Turns`, lpt_memory's
//! `Memories`, `SettingsFault`, and `Complaint`, what is wrong with a text. The first calls are
//! `read_config` and, if it refuses a text, `why_refused`. Whoever reads another file of tables
//! does it by `has_only`, `unknown_key` and `number`, and says by `complain` what is wrong there.
//!
//! | Key | Range | Default |
//! |---|---|---|
//! | `apid` | 0 to 2046 | 100 |
//! | `source` | 0 to 65,535 | 1 |
//! | `part_size` | 4 to 1024 octets | 8 |
//! | `timeout` | 1 to 65,535 ticks | 10 |
//! | `receptions` | 1 to 64 | 8 |
//! | `outgoing` | 1 to 64 | 8 |
//! | `clock` | 0 to 4,294,967,295 ticks | 0 |
//! | `mode` | `"any"` or `"strict"` | `"any"` |
//! | `per_seat` | 1 to 1,000,000 calls | 100,000 |
//! | `ticks` | 0 to 65,535 ticks | 0 |
//! | `memory` | an array of 1 to 16 tables | one memory 1 of 256 octets of 0 |
//!
//! Each table of `memory` is a memory of `size` octets that all have the value `fill`. Its
//! identifier is no other's:
//!
//! | Key | Range | Default |
//! |---|---|---|
//! | `id` | 0 to 255 | none: it must be there |
//! | `size` | 1 to 1,048,576 octets | none: it must be there |
//! | `fill` | 0 to 255 | 0 |
//!
//! Each key with a default may be absent, and there is no other key. A new number is one more word
//! in `KEYS`, one more line in `read_fixed` or `read_turns`, and the same in the specs.
#![tactic(auto)]

mod complaint;
mod fault;
mod keys;
mod memories;
mod mode;
mod numbers;
mod place;
mod settings;
mod wrong;

pub use complaint::{Complaint, complain, complain_of_toml, why_refused};
pub use fault::SettingsFault;
pub use keys::{has_only, unknown_key};
pub use numbers::{number, number_of_value};
pub use settings::read_config;
pub use wrong::{Reason, Wrong, WrongPlace};

//! What every command of the program reads, writes and tells: files and standard input, standard
//! output, files that are written whole, the configuration, how far a reading is, and how the
//! program ends.
//!
//! Each function takes a handle of what it reaches, by the bounds that it needs, or as a `Machine`
//! if it reaches nearly all. The main types are `Failure`, with the `Fault` that ended a command,
//! and `Status`. The first calls are `opened_packets`, `output` and `finish`.
//!
//! `Chain`, `SourceSpan` and `Keeping` are sources over other sources. What an end reaches besides
//! is an `EndMachine`.
#![tactic(auto)]

mod chain;
mod configuration;
mod counts;
mod disk;
mod end;
mod end_machine;
mod ended;
mod fault;
mod input;
mod keeping;
mod layouts;
mod locking;
mod machine;
mod naming;
mod pace;
mod progress;
mod saving;
mod saving_disk;
mod span;
mod streams;
mod used_files;
mod watched;

pub use chain::Chain;
pub use configuration::{config_of, read_file, settings_of};
pub use counts::{octets_word, tell_no_packets};
pub use disk::Disk;
pub use end::{Failure, explain_words, tell_end, tell_place, tell_text, word_refused};
pub use end_machine::{EndMachine, LastingFiles, PlainMachine, Uplink};
pub use ended::{carried_ended, copied_ended, failure_at, read_ended, written_ended};
pub use fault::{Fault, Status, status_of};
pub use input::{
    Incoming, Origin, Packets, STANDARD, file_at, input_at, name_of, octets_from, open_input,
    opened_packets, packets_end, read_failure,
};
pub use keeping::Keeping;
pub use layouts::{layouts_at, own_or_read, reading_of};
pub use locking::{awaited_lock, lock_file, locked_file};
pub use lpt_capture::Captured;
pub use lpt_carried::Layouts;
pub use lpt_command_line::{NoCommand, SettingWords, WordFault};
pub use lpt_events::{Config, Turns};
pub use lpt_memory::Memories;
pub use lpt_packet::Octets;
pub use lpt_settings::SettingsFault;
pub use lpt_text::{FromStd, StreamFault};
pub use machine::{Machine, Terminals};
pub use naming::part_of;
pub use progress::{Pace, Paced, Voice};
pub use saving::{check_place, file_behind, write_beside, write_for_good};
pub use saving_disk::write_whole;
pub use span::SourceSpan;
pub use streams::{Output, finish, first_failure, output, write_all_out};
pub use used_files::{Usage, UsedFile, add_craft_files, add_file, add_settings_file, used_twice};
pub use watched::Watched;

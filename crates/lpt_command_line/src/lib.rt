//! The command line of `lpt`: what its words ask for.
//!
//! The commands are rows of tables (`src/commands.rt`), by which clap reads the words and prints
//! the help. The main type is `CommandLine`, and the first call `read_words`, which gives one, or
//! why nothing is to be done.
//!
//! A new command is a row in `src/commands.rt`, which `src/building.rt` adds; a case of `Command`
//! in `src/command_line.rt`, with a line in `command_of`, and a function which makes that case of
//! its `Words`; and a line in `do_command` or `do_on_packets` of `lpt/src/main.rt`,
//! which does the work.
#![tactic(auto)]

mod asking;
mod building;
mod command_line;
mod commands;
mod compare_words;
mod file_words;
mod ground_words;
mod grounds;
mod link_words;
mod passes;
mod patch_words;
mod request_words;
mod row;
mod setting_words;
mod spacecraft_words;
mod split_words;
mod word_fault;
mod words;

pub use command_line::{Command, CommandLine, DecodeWords, NoCommand, RunWords, read_words};
pub use compare_words::{ChecksumWords, CompareWords, VerifyWords};
pub use file_words::{ExtractWords, JoinWords, ListWords, Span};
pub use ground_words::{AreaWords, GroundWords, Job, LargeWords, PassWords, SourceWords};
pub use link_words::{LinkWords, OddsWords};
pub use lpt_packet::{Direction, Name};
pub use lpt_part::Mode;
pub use lpt_pus::AckFlags;
pub use patch_words::PatchWords;
pub use request_words::{RequestWords, What};
pub use setting_words::{SettingWords, longest_on_link};
pub use spacecraft_words::SpacecraftWords;
pub use split_words::{
    GivenPick, SplitEachWords, SplitOneWords, SplitWords, WideName, name_within,
};
pub use word_fault::{TwoUses, UNKEPT, WordFault};

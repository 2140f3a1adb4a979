//! The commands of messages: split into packets, joined of them, and the octets of dump reports.
//!
//! Each takes the handles that it uses by bounds. The first calls are `split` and `join`.
#![tactic(auto)]

ghost use Rattle.lpt_events.specs.Configs.{IsConfig};

mod eaches;
mod extract_joins;
mod extract_notices;
mod extracts;
mod joins;
mod placed_joins;
mod split_eaches;
mod splits;

pub use extracts::extract;
pub use joins::join;
pub use lpt_command_line::{ExtractWords, JoinWords, SplitEachWords, SplitOneWords};
pub use lpt_events::Config;
pub use lpt_io::{Failure, Machine, Status, Voice};
pub use split_eaches::split_all;
pub use splits::split;

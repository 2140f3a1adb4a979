//! The commands of the simulator: scripts run, with threads behind them and without.
//!
//! Each takes the handles that it uses by bounds. The first call is `run`.
#![tactic(auto)]

mod ends;
mod work;

pub use lpt_command_line::SettingWords;
pub use lpt_io::{Failure, Machine, Status};
pub use work::{RunKind, run};

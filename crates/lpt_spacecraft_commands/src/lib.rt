//! The spacecraft's end as a command, and what a pass in one process takes of it: a spacecraft that
//! serves next, the wires over which it hears and writes, and pipes between threads.
//!
//! The first call is `spacecraft`.
#![tactic(auto)]

mod inbox;
mod keeping;
mod logging;
mod memories;
mod pipes;
mod serving;
mod ticker;
mod wires;

pub use lpt_command_line::{SettingWords, SpacecraftWords};
pub use lpt_io::{EndMachine, Failure, PlainMachine, Status};
pub use pipes::{PipeReader, PipeWriter, Unread, pipe, short_pipe};
pub use serving::{Begun, begun_craft, serve, spacecraft};
pub use wires::Wires;

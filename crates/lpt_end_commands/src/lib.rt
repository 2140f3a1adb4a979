//! The commands of the two ends: ground's, the spacecraft's, and both in one process.
//!
//! Each takes the handles that it uses by bounds: threads, and an `EndMachine`, which is what
//! every command reaches and what an end reaches besides. The first call is `ground`.
#![tactic(auto)]

mod passing;

pub use lpt_command_line::{GroundWords, PassWords, SettingWords, SpacecraftWords};
pub use lpt_ground_commands::ground;
pub use lpt_io::{EndMachine, Failure, LastingFiles, Machine, Status, Voice};
pub use lpt_spacecraft_commands::spacecraft;
pub use passing::pass;

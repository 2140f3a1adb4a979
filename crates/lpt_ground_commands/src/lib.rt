//! Ground's end as a command, and what a pass in one process takes of it: areas and lists, an
//! errand that is ready, what is told of it, and how it is carried out.
//!
//! The first call is `ground`.
#![tactic(auto)]

mod comparing;
mod errands;
mod ground_lines;
mod ground_notes;
mod ground_puts;
mod ground_rounds;
mod ground_sources;
mod ground_told;
mod ground_wires;
mod grounds;
mod job_files;
mod outputs;
mod patches;
mod pieces;
mod uplinks;

pub use errands::Errand;
pub use ground_told::Teller;
pub use ground_wires::limit_of;
pub use grounds::{Ready, carry_over, ground, job_lock, ready_of};
pub use lpt_command_line::{GroundWords, SettingWords};
pub use lpt_ground_run::{ErrandKind, Places};
pub use lpt_io::{EndMachine, Failure, PlainMachine, Status, UsedFile, Voice};
pub use outputs::{check_places, files_used};
pub use pieces::{Piece, pieces_of};

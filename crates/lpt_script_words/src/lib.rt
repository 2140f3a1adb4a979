//! The lines of a script: how a line is cut into words, and what it asks for. The words of a line stand
//! between spaces. This crate reads lines; it runs and prints nothing. A line is read as a load only if its areas can
//! be written.
//!
//! The main types are `Reading`, what a line says, `Command`, what it asks for, and `Load`. The
//! first call is `read_line`.
#![tactic(auto)]

mod grammar;
pub mod laws;
mod load;
mod messages;
mod names;
mod nodes;
mod numbers;
mod packets;
mod showing;
mod words;

pub use grammar::{Command, Reading, read_line};
pub use load::Load;
pub use names::{GREATEST_NUMBER, cut_source};
pub use numbers::{read_hex, read_number};
pub use showing::Show;
pub use words::split_word;

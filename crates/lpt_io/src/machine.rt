//! What a command reaches of the machine that it runs on.

use std::io::Input;
use std::rt::{Clock, Files};

/// The machine that a command runs on, or what stands in for it: its files, its standard streams,
/// its clock and its memory.
pub trait Machine: Files + Input + Print + Eprint + Clock + AllocGlobal + Copy + Drop {}

impl<R: Files + Input + Print + Eprint + Clock + AllocGlobal + Copy + Drop> Machine for R {}

/// Which of the standard streams are terminals.
#[derive(Clone, Copy)]
pub struct Terminals {
    /// Whether standard input is one.
    pub input: bool,
    /// Whether standard output is one.
    pub output: bool,
    /// Whether standard error is one.
    pub errors: bool,
}

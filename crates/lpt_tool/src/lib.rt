//! The tool: scripts, with ten threads behind them too, and a packet decoded.
//!
//! `run_script` runs a script line by line on a world of its own and prints what each line did.
//! `run_threads_script` does the same for the lines that don't show, lets ten threads carry what
//! they opened, and then prints what those left and what the other lines show. `decode` prints what
//! octets are as a packet. The first and the last stand in `lpt_script`. `read_config` reads what
//! they are given, in `lpt_settings`. The faults are `ToolFault`, of which each of another crate
//! becomes one.
#![tactic(auto)]

mod configuration;
mod fault;
mod full;
mod scripts;
mod summary;
mod threads;
mod threads_end;

pub use configuration::read_config;
pub use fault::ToolFault;
pub use lpt_events::{Config, Turns};
pub use lpt_memory::Memories;
pub use lpt_script::{ScriptEnd, ScriptFault};
pub use lpt_share::ShareFault;
pub use lpt_text::{Source, StreamFault};
pub use scripts::{decode, run_script};
pub use threads::run_threads_script;
pub use threads_end::ThreadsEnd;

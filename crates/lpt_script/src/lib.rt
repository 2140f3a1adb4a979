//! Scripts: what each line does to a world, and what it prints; and a packet decoded. It knows
//! nothing of threads.
//!
//! The main types are `Source` and `Sink`, which a caller gives, `ScriptEnd`, and `ScriptFault`. The
//! first calls are `run_script` with a configuration, memories, a source and a sink, and `decode`.
#![tactic(auto)]

mod command;
mod decoding;
mod end;
mod fault;
mod loading;
mod printed;
mod running;
mod script;
mod showing;
mod shows;

pub use command::run_command;
pub use decoding::decode;
pub use end::ScriptEnd;
pub use fault::ScriptFault;
pub use lpt_events::{Config, StepFault};
pub use lpt_memory::Memories;
pub use lpt_script_words::{Command, Show};
pub use lpt_text::{Sink, Source, StreamFault};
pub use lpt_world::World;
pub use printed::put;
pub use script::{run_lines, run_script};
pub use showing::run_show;
pub use shows::Shows;

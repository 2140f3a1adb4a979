//! Scripts whose lines may also ask for a view: what the link holds, which messages are open where
//! they are sent and where they are received, and which jobs aren't executed. Any other line does
//! and prints what it does in a script without views.
//!
//! The one call is `run_views` with a configuration, memories, a source and a sink.
#![tactic(auto)]

mod gaps;
mod jobs;
mod kept;
pub mod laws;
mod rows;
mod viewing;
mod views;

pub use lpt_events::Config;
pub use lpt_memory::Memories;
pub use lpt_script::{ScriptEnd, ScriptFault};
pub use lpt_text::{Sink, Source};
pub use viewing::run_views;
pub use views::is_view;

//! How to call these crates: a small caller each of `lpt_packet`, `lpt_reception`, `lpt_memory`,
//! `lpt_node` and `lpt_world`, proved as all else is. docs/CALLING.md shows their text and explains
//! it.
#![tactic(auto)]

pub mod carrying;
pub mod jumble;
pub mod memory;
pub mod packet;
pub mod reception;
pub mod world;

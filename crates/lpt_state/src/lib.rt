//! What of an end of a large packet transfer (ECSS-E-ST-70-41C) outlasts a restart, as octets:
//! which end it is, what it is bound to of its configuration, its boot and clock, and the names
//! that it has used. Its limits aren't in it.
//!
//! `write_state` writes it, or `write_state_into`, without memory, into a buffer of `state_len`
//! octets; `read_state` makes an end of it, or answers a `StateFault`. What is read of what was
//! written is exactly what a restart leaves of the end.
#![tactic(auto)]

mod fault;
mod found;
pub mod laws;
mod numbers;
mod reading;
mod writing;

pub use fault::StateFault;
pub use lpt_events::{Config, Side};
pub use lpt_node::Node;
pub use reading::read_state;
pub use writing::{state_len, write_state, write_state_into};

//! The vocabulary of a pass: what can be asked of a world, what it answers, and what its packets
//! are. The definitions say which packets the nodes make, and what octets are to the node that
//! receives them, whatever that node has kept.
//!
//! The main types are `Config`, `Event` and its `Reply`, `StepFault`, `Outcome` of a delivery,
//! `Entry` of a journal, and `SeatLog`. The first call is `Config::fault`, the first number out of
//! its range.
#![tactic(auto)]

mod applied;
mod config;
mod config_fault;
mod entry;
mod event;
mod fault;
mod lane;
mod laws;
mod link_packets;
mod log;
mod message_types;
mod naming;
mod outcome;
mod refused;
mod reply;
mod side;
mod telemetry;
mod turns;
mod worker;

pub use applied::Applied;
pub use config::Config;
pub use config_fault::ConfigFault;
pub use entry::{Entry, Opening, Release, is_opened};
pub use event::Event;
pub use fault::StepFault;
pub use lane::Lane;
pub use link_packets::longest_on_link;
pub use log::{Call, SeatLog};
pub use lpt_packet::{Direction, Name, Octets};
pub use lpt_part::{Kind, Mode, Reason, count};
pub use lpt_pus::AckFlags;
pub use message_types::part_kind;
pub use naming::{NameWord, name_word};
pub use outcome::{Outcome, Why};
pub use refused::{Refused, RunEnd};
pub use reply::{Answer, Puts, Reply};
pub use side::Side;
pub use telemetry::TelemetryKind;
pub use turns::Turns;
pub use worker::Worker;

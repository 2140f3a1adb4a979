//! What the pieces of a stream carry, read by a layout, of which the profile's is one: a part of a
//! large message, with the name of its transaction, or why none.
//!
//! The main type is `Reading`. The first calls are `Reading::own`, which is the profile's, or a
//! reading with a mission's layouts; then `cut`, by which its stream is cut, and `carried_in` of
//! each piece, or `part_carried` of octets. A mission's layouts are `Layouts`.
//!
//! `Skips` counts the pieces that a reader of parts passes over, and why. `TimeCode` says how octets
//! are a time (CCSDS 301.0-B), `time_text` which date that is; no leap second is known.
#![tactic(auto)]

mod carrying;
mod code;
mod days;
mod fitting;
pub mod laws;
mod layouts;
mod lines;
mod moment;
mod name;
mod number;
mod preamble;
mod reading;
mod skip;
mod skips;
mod sorting;
mod text;
mod topic;
mod wanted;
mod why;

pub use carrying::{CarriedPart, carried_in, part_carried};
pub use code::{Submillisecond, TimeCode, TimeFields};
pub use days::day_number;
pub use fitting::fitting_size;
pub use layouts::{Layouts, Tailored};
pub use lines::name_text;
pub use lpt_layout::{Layout, PartAs, PartLayout};
pub use lpt_packet::{Direction, PacketFault};
pub use lpt_part::PartFault;
pub use lpt_pus::PusFault;
pub use lpt_stream::{Cut, PieceKind};
pub use name::Name;
pub use reading::Reading;
pub use skip::Skip;
pub use skips::Skips;
pub use text::time_text;
pub use wanted::Wanted;
pub use why::Why;

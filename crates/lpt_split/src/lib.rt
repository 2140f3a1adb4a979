//! A message split into the packets of its parts (ECSS-E-ST-70-41C, large packet transfer), by a
//! layout, of which the profile's is one: part by part, in the order in which they are asked for,
//! and as often. At the profile's own layouts packets and parts are written as the profile's, which
//! `lpt_layout::laws::the_own_layouts` says.
//!
//! `split_each` splits each packet of a stream as a message of its own, the first under one
//! identifier, the one behind it under the next, and so on.
//!
//! A part list names parts of a message, as `3,7-9,12-`.
//!
//! The main types are `Writing`, how packets are laid out and in which `Form` they stand: packets
//! alone, or a capture; and `Wanted`, what a split is to write. The first calls are
//! `split_message`, from a source to a sink, and `put_split`, for a message that is there; nothing is
//! written unless each packet that is wanted can be made.
#![tactic(auto)]

mod each_wanted;
mod ending;
mod form;
mod lists;
mod message;
mod one;
mod packet;
mod packets;
mod pick;
mod putting;
mod split_end;
mod splitting;
mod wanted;
mod writing;

pub use each_wanted::EachWanted;
pub use ending::{EachEnd, EachSplit};
pub use form::Form;
pub use lists::read_parts;
pub use lpt_layout::{Layout, PartLayout, Width};
pub use lpt_packet::Direction;
pub use lpt_text::{Sink, Source, StreamFault};
pub use message::split_message;
pub use packets::front;
pub use pick::Pick;
pub use putting::put_split;
pub use split_end::SplitEnd;
pub use splitting::split_each;
pub use wanted::Wanted;
pub use writing::{Writing, greatest};

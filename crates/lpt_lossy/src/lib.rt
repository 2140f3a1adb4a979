//! A link that loses: packets are read and written again, some not, some twice, some later, and
//! some with changed bits, which no reader takes as a packet.
//!
//! A stream is cut by lengths alone (CCSDS 133.0-B): nothing is searched in it, and no octets of a
//! packet are ever taken for another one. What becomes of a packet, `Dice` throw, by a seed and
//! `Odds`. The first call is `lossy_stream`, with a `LossyLink`, which says by which layouts
//! packets are judged. It is proved that nothing comes out that didn't go in. Which packets the
//! dice choose, when they are written and how many are told of each kind is only tested.
#![tactic(auto)]

mod burst;
mod carrying;
mod counts;
mod dice;
mod fate;
mod link;
mod lossy;
mod settling;
mod turns;
mod words;

pub use counts::{CrossingCounts, LossyEnd};
pub use dice::{Dice, Odds};
pub use fate::{Burst, Fate};
pub use link::LossyLink;
pub use lossy::lossy_stream;
pub use lpt_carried::Layouts;
pub use lpt_text::{Sink, Source, StreamFault};

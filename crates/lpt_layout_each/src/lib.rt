//! The messages of a mission's layout, or of the profile's, among the packets of a stream, each of
//! every name, in the order in which they become whole, and what never becomes whole.
//!
//! A name is used again: behind a whole message the next one begins. Parts of the last message that
//! come again late do no harm, and a next message that has parts of the last one is joined too.
//!
//! The main types are `NewsAs`, and `TakerAs`, who is told of them. The first call is `each_as`.
//! Who does something else with each packet, too, keeps `HeldsAs`, and at the end calls `leave_as`,
//! or `pop_left` for one name after the other. `write_messages` makes a file of each in a `Shelf`.
#![tactic(auto)]

mod alone;
mod course;
mod each;
mod held;
mod helds;
mod kept;
pub mod laws;
mod leaving;
mod lefts;
mod naming;
mod news;
mod run;
mod shelf;
mod turn;
mod waiting;
mod writing;

pub use each::each_as;
pub use helds::HeldsAs;
pub use leaving::leave_as;
pub use lefts::pop_left;
pub use lpt_carried::{CarriedPart, Name, Reading, Skips};
pub use lpt_layout::Octets;
pub use lpt_layout_join::{CameAs, MisfitAs};
pub use lpt_text::{Source, StreamFault};
pub use news::{NewsAs, TakerAs};
pub use shelf::Shelf;
pub use waiting::WaitingAs;
pub use writing::write_messages;

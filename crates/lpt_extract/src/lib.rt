//! The octets of memories that a stream's packets hold (ECSS-E-ST-70-41C, service 6): those of the
//! areas in dump reports, in the order in which they stand, or at their places in an image.
//!
//! A dump report is telemetry, of the profile or of a mission's layout; its body is encoded as a
//! load's. If an area's checksum is wrong, or the body isn't read, it is passed over, and told
//! with its place. The addresses of an image that no area gave are known as its gaps. A `Tally`
//! counts what was passed over, skipped, or no packet.
//!
//! The main type is `Wanted`. The first call is `extract_stream`, with a stream of packets, a sink
//! for the octets, and a `Listener`, who is told of each area; or `extract_joined_as`, if reports
//! may come in parts, of the profile (`Reading::own`) or of a mission's layout.
#![tactic(auto)]

mod clashes;
mod cover;
mod ending;
mod extracted;
mod extracting;
mod holding;
mod image;
mod joining;
mod joins;
mod layout_joins;
mod notice;
mod report;
mod seen_area;
mod taking;
mod tally;
mod wanted;

pub use clashes::Clashes;
pub use extracted::{ExtractEnd, Extracted};
pub use extracting::extract_stream;
pub use joining::Hearers;
pub use layout_joins::extract_joined_as;
pub use lpt_carried::Reading;
pub use lpt_layout::Layout;
pub use lpt_layout_each::TakerAs;
pub use lpt_text::{Sink, Source, StreamFault};
pub use notice::{Listener, Notice, Span};
pub use tally::{Others, Tally};
pub use wanted::{ImagePlace, Wanted};

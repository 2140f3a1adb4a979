//! A list of the packets of a stream by layouts, of which the profile's are the default: a line for
//! each, with its place, its length, and what its headers and its part or report say, as words or
//! as an object of JSON. If octets are no packet, a line says from which place on.
//!
//! The main types are `Form`, words or JSON, and `Listed`, how a list ends and how much is no
//! packet. The first call is `list_stream`, with a source and a sink; `decode_layouts` writes what
//! octets are alone, and `told_in` finds by which other layout parts would be read.
#![tactic(auto)]

mod areas;
mod choice;
mod decoding;
mod form;
mod fronts;
mod headers;
mod heads;
mod hints;
mod items;
mod lines;
mod list_end;
mod lister;
mod listing;
mod parts;
mod reports;
mod segments;
mod told;

pub use areas::print_areas;
pub use decoding::decode_layouts;
pub use form::Form;
pub use fronts::told_in;
pub use hints::{Hint, hint_of};
pub use list_end::{ListEnd, Listed, Tally};
pub use listing::list_stream;
pub use lpt_carried::Layouts;
pub use lpt_packet::{PacketFault, PacketKind};
pub use lpt_script_text::Areas;
pub use lpt_stream::Peer;
pub use lpt_text::{Sink, Source, StreamFault};
pub use segments::print_refused;
pub use told::{Told, is_read};

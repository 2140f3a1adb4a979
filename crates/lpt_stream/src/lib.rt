//! A stream of octets as space packets (CCSDS 133.0-B), one behind the other, and what is none. It
//! is cut into pieces as it comes, each as soon as nothing that may still come can change it: no
//! more of it is held than the octets of two packets and what one read gives. A `Cut` says whether
//! checksums decide what a packet is, or lengths alone, or, of a live stream, both. By checksums,
//! the next place is searched, behind octets that are none, at which a packet with a right checksum
//! begins.
//!
//! The main type is `PacketBuffer`. The first call is `take_pieces`, with a `Taker`, which takes
//! one piece after the other and writes what they give; or `each_piece`, with a `PieceTaker`, which
//! writes nothing. `packet_length` says how long the packet is that begins with these octets.
//!
//! The register of a checksum after some octets is the sum, without carry, of what it would be after
//! as many zeros, and of what the octets make of another register. So `Search` and `Marks` keep the
//! register before each octet, and the checksum of any frame among them takes a few steps.
#![tactic(auto)]

mod buffer;
mod cut;
mod cutting;
mod each;
mod ending;
mod ends;
mod found;
mod front;
pub mod laws;
mod marks;
mod nowhere;
mod peer;
mod piece_kind;
mod reaching;
mod register;
mod search;
mod strays;
mod taking;
mod waiting;

pub use buffer::PacketBuffer;
pub use cut::Cut;
pub use cutting::{packet_length, whole_length};
pub use each::{Taker, take_pieces};
pub use found::{Found, ends_in_checksum};
pub use front::piece_in_front;
pub use lpt_text::{Sink, Source, StreamFault};
pub use marks::Marks;
pub use peer::Peer;
pub use piece_kind::PieceKind;
pub use reaching::is_awaited;
pub use search::Search;
pub use strays::strays_in_front;
pub use taking::{PieceTaker, each_piece};

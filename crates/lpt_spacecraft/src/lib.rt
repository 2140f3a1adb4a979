//! The spacecraft's end over a stream of packets. Each packet goes to a node; each request that is
//! released is read and executed at once; what is reported of it is written, in order, and a report
//! that is too long for a packet in all its parts. Ticks come every so many packets, or by a clock,
//! and a reception that is due then expires; so many ticks after its use a name is free again, if
//! that is asked for. What outlasts a machine that dies is kept before anything that was made is
//! written. What happens is told.
//!
//! The main type is `Spacecraft`. The first calls are `Spacecraft::new` and `serve_stream`.
#![tactic(auto)]

mod clock;
mod files;
mod flying;
mod front;
mod inlet;
mod keeping;
mod kept_file;
pub mod laws;
mod lines;
mod naming;
mod pace;
mod passing;
mod relaying;
mod sending;
mod serving;
mod spacecraft;
mod stop;
mod strays;
mod taking;
mod ticking;
mod told;
mod waiting;
mod writing;

pub use clock::Clock;
pub use files::{KeepFault, KeptFiles, WholeFile, save_one};
pub use inlet::{Happening, Inlet, Relay};
pub use keeping::{Keeper, Unkept};
pub use kept_file::KeptFault;
pub use lines::print_told;
pub use lpt_events::{Applied, Config, Outcome};
pub use lpt_memory::Memories;
pub use lpt_packet::{Direction, Name, Octets};
pub use lpt_state::StateFault;
pub use lpt_stream::Peer;
pub use lpt_text::{Sink, StreamFault};
pub use pace::Pace;
pub use passing::Passing;
pub use relaying::relay_stream;
pub use serving::serve_stream;
pub use spacecraft::Spacecraft;
pub use stop::Stop;
pub use told::{Done, Listener, Taken, Told};
pub use waiting::serve_waiting;

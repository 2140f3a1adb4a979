//! The parts of one transaction of a mission's layout among the packets of a stream, joined to
//! their message. The packets may come in any order, more than once, and with others in between;
//! parts may have any size, which is found if it isn't known.
//!
//! The stream is cut by checksums; if packets of the layout have none, by the lengths that their
//! headers say.
//!
//! The parts that are missing are given as a part list, which the split that sends them again
//! takes.
//!
//! The main types are lpt_carried's `Reading`, how parts are read, `CameAs`, what came of a
//! transaction, and `JoinReport`, what became of a join. The first call is `join_as`, from a source
//! to a sink; `missing` and `missing_list` give the numbers that haven't come.
#![tactic(auto)]

mod against;
mod came;
mod counts;
mod ending;
mod gaps;
mod gathering;
mod gatherings;
mod last_part;
pub mod laws;
mod nowhere;
mod order;
mod part_numbers;
mod several;
mod slots;
mod spans;
mod telling;
mod writing;

pub use came::CameAs;
pub use counts::Counts;
pub use ending::{JoinEnd, JoinReport, MisfitAs};
pub use gaps::missing;
pub use gathering::Gathering;
pub use gatherings::{Gatherings, TRANSACTION_LIMIT};
pub use last_part::LastPart;
pub use lpt_carried::{CarriedPart, Name, Reading, Skip, Skips, Wanted};
pub use lpt_layout::{Layout, Octets, PartAs, PartLayout};
pub use lpt_packet::{Direction, PacketFault};
pub use lpt_part::PartFault;
pub use lpt_pus::PusFault;
pub use lpt_text::{Sink, Source, StreamFault};
pub use nowhere::Nowhere;
pub use order::Order;
pub use part_numbers::PartNumbers;
pub use several::gather_stream;
pub use telling::missing_list;
pub use writing::{end_of, join_as, unfit};

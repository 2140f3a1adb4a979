//! One end of the link: what it sends, what it keeps of what it receives, and what it refuses.
//! Large messages go in parts (ECSS-E-ST-70-41C, large packet transfer), each part in a space
//! packet. At the spacecraft a released message becomes a job, which is claimed, read, and executed
//! in its turn.
//!
//! The main types are `Node`, seen as plain data of which each call is one function, and `Parsed`,
//! a packet read outside it. The first calls are `Node::new`, `open`, `send_part` and `accept`.
#![tactic(auto)]

mod accepted;
mod accepting;
mod arrival;
mod ask;
mod asking;
mod counts;
mod ending;
mod executed;
mod executing;
mod expired;
mod fault;
mod making;
mod node;
mod outgoing;
mod parsed;
mod receipt;
mod receiver;
mod requesting;
mod restart;
mod sending;
mod timing;
mod walking;
mod working;

pub use accepted::Accepted;
pub use ask::Ask;
pub use executed::Executed;
pub use expired::Expired;
pub use fault::NodeFault;
pub use lpt_events::{Applied, Config, Outcome, Side, StepFault};
pub use lpt_ledger::State;
pub use lpt_memory::{Memories, Ticket};
pub use lpt_packet::{Direction, Name, Octets};
pub use lpt_pus::AckFlags;
pub use lpt_table::Table;
pub use node::Node;
pub use parsed::Parsed;

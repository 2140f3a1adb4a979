//! A world that threads share: the lock round it, the seats' logs, and the run of ten seats.
//! Packets are read and requests prepared while the lock is free, unless a turn goes on with
//! what it had begun. Threads send each other notices that there is work; a notice that leads to a
//! refusal is dropped. After a run the logs are compared with the journal,
//! and what is left to do is owed: a held packet, a job, a tick, an open transaction.
//!
//! The main types are `Shared`, `SeatLog`, `Gate` and `ShareFault`. The first calls are
//! `run_threads` with a world, or `Shared::new` and `call`. Every call that takes the lock may
//! wait.
#![tactic(auto)]

mod agree;
mod call;
mod fault;
mod finish;
mod first;
mod full;
mod held;
mod judging;
mod kinds;
mod notices;
mod owed;
mod run;
mod same;
mod seats;
mod sending;
mod settled;
mod taken;
mod task;
mod turns;
mod work;

pub use agree::agrees;
pub use call::{CallFault, Done, Shared};
pub use fault::ShareFault;
pub use held::Origin;
pub use kinds::are_of_seats;
pub use lpt_events::{
    Answer, Config, Entry, Event, Lane, Outcome, SeatLog, Side, StepFault, Turns, Worker,
};
pub use lpt_packet::{Direction, Name, Octets};
pub use lpt_world::World;
pub use owed::{Owed, open_transactions};
pub use run::{ShareEnd, run_threads};
pub use settled::{are_in_order, is_settled};
pub use turns::{Gate, Point};

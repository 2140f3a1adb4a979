//! A seat of a run, and what it does.

use crate::notices::Outlets;
use crossbeam_channel::Receiver;
use lpt_events::{Lane, Side, Worker};
use lpt_packet::{Direction, Name};

/// What a seat does, with the notices that it goes by.
#[derive(Drop)]
pub enum Task {
    /// Takes and delivers each packet of which it has a notice.
    Lane(Lane, Receiver<u64>),
    /// Ticks.
    Timer(Side),
    /// Claims, prepares and commits a job for each notice.
    Worker(Worker, Receiver<u64>),
    /// Sends and finishes each transaction of which it has a notice.
    Sender(Direction, Receiver<Name>),
}

/// A seat of a run: its number, what it does, and whom it notifies of it.
#[derive(Drop)]
pub struct Seat {
    /// The seat, 1 to 10.
    pub seat: u8,
    /// What it does.
    pub task: Task,
    /// Whom it notifies.
    pub outlets: Outlets,
}

//! What a world answers if it accepts nothing.

use crate::{Event, StepFault};

/// An event that was refused. Nothing has changed.
#[derive(Debug, Drop, PartialEq, Eq)]
pub struct Refused {
    /// The first reason.
    pub fault: StepFault,
    /// The journal's length.
    pub at: u64,
    /// The event, given back.
    pub event: Event,
}

/// How a run of events ended.
#[derive(Clone, Copy, Debug, PartialEq, Eq)]
pub struct RunEnd {
    /// How many events were accepted.
    pub done: u64,
    /// Why the next was refused, if one was.
    pub refused: Option<StepFault>,
}

//! Why a node refuses a call.

ghost use Rattle.std.specs.Prelude.{◌≡◌};
ghost use Rattle.lpt_events.specs.FaultNames.{code_of, name_of};
ghost use Rattle.lpt_node.specs.Faults.{node_fault};

use lpt_events::StepFault;
use std::fmt;
use thiserror::Error;

/// The first reason, in the order in which they are tested.
#[derive(Clone, Copy, Debug, PartialEq, Eq, Error)]
pub enum NodeFault {
    /// The name is in use.
    InUse,
    /// The message isn't longer than a part.
    Short,
    /// The message or packet is too long.
    Long,
    /// As many outgoing transactions are open as the limit.
    TooMany,
    /// No such outgoing transaction is open.
    NotOpen,
    /// The message has no part of that number.
    NoSuchPart,
    /// No reception is overdue.
    NothingDue,
    /// There is no job to claim, or none to execute.
    NoJob,
    /// No reading of the oldest job was handed in.
    NotReady,
    /// The clock is at its greatest value.
    ClockEnd,
    /// Out of memory.
    Memory,
    /// The service type and the message subtype are those of a part.
    PartRequest,
}

// It is said as a world says it.
impl fmt::Display for NodeFault {
    fn fmt<W: fmt::Write>(&self, f: &mut fmt::Formatter<W>) -> fmt::Result {
        self.in_step().fmt(f)
    }
}

impl NodeFault {
    /// The fault as a world reports it.
    pub fn in_step(self) -> StepFault
        ensures { result ≡ node_fault self }
    {
        match self {
            NodeFault::InUse => StepFault::InUse,
            NodeFault::Short => StepFault::Short,
            NodeFault::Long => StepFault::Long,
            NodeFault::TooMany => StepFault::TooMany,
            NodeFault::NotOpen => StepFault::NotOpen,
            NodeFault::NoSuchPart => StepFault::NoSuchPart,
            NodeFault::NothingDue => StepFault::NothingDue,
            NodeFault::NoJob => StepFault::NoJob,
            NodeFault::NotReady => StepFault::NotReady,
            NodeFault::ClockEnd => StepFault::ClockEnd,
            NodeFault::Memory => StepFault::Memory,
            NodeFault::PartRequest => StepFault::PartRequest,
        }
    }

    /// The fault's number, which is the one that a world gives it.
    pub fn code(self) -> u16
        ensures { result ≡ code_of (node_fault self) }
    {
        self.in_step().code()
    }

    /// The fault's name, as it is printed.
    pub fn name(self) -> &'static str
        ensures { result.now ≡ name_of (node_fault self) }
    {
        self.in_step().name()
    }
}

//! Why a world refuses an event.

ghost use Rattle.std.specs.Prelude.{◌≡◌, Some};
ghost use Rattle.lpt_events.specs.FaultNames.{code_of, name_of, text_of};

use std::error::Error;
use std::fmt;

/// The first reason, in the order in which the event's reasons are tested.
#[derive(Clone, Copy, Debug, PartialEq, Eq)]
pub enum StepFault {
    /// The name isn't free.
    InUse,
    /// The message isn't longer than a part.
    Short,
    /// The message is longer than the longest packet, or a plain request's packet or what the link's
    /// noise left has more octets than the part size and 23.
    Long,
    /// As many outgoing transactions of the node are open as the limit.
    TooMany,
    /// No such outgoing transaction is open.
    NotOpen,
    /// The message has no part of that number.
    NoSuchPart,
    /// The link holds no such packet in the lane's direction.
    NotHeld,
    /// The lane has a packet in its hand already, or the worker a request.
    HandFull,
    /// The lane has no packet in its hand, or the worker no request.
    HandEmpty,
    /// No reception is overdue.
    NothingDue,
    /// There is no request to claim, or none to execute.
    NoJob,
    /// No reading of the oldest request was handed in.
    NotReady,
    /// A part of the transaction is held or in a hand, or a reception of it is open.
    NotClear,
    /// What the link's noise should leave is read as a packet.
    LooksWhole,
    /// The transaction's sender is still open.
    StillOpen,
    /// The clock is at its greatest value.
    ClockEnd,
    /// There is no such seat.
    NoSuchSeat,
    /// Out of memory.
    Memory,
    /// What was read isn't what the lane has in its hand, or of the request that the worker has; or
    /// it was read for another receiver, APID, part size or shape of memories.
    NotYours,
    /// The service type and the message subtype are those of a part.
    PartRequest,
}

impl StepFault {
    /// The fault's number, 41 to 60.
    pub fn code(self) -> u16
        ensures { result ≡ code_of self }
    {
        match self {
            StepFault::InUse => 41,
            StepFault::Short => 42,
            StepFault::Long => 43,
            StepFault::TooMany => 44,
            StepFault::NotOpen => 45,
            StepFault::NoSuchPart => 46,
            StepFault::NotHeld => 47,
            StepFault::HandFull => 48,
            StepFault::HandEmpty => 49,
            StepFault::NothingDue => 50,
            StepFault::NoJob => 51,
            StepFault::NotReady => 52,
            StepFault::NotClear => 53,
            StepFault::LooksWhole => 54,
            StepFault::StillOpen => 55,
            StepFault::ClockEnd => 56,
            StepFault::NoSuchSeat => 57,
            StepFault::Memory => 58,
            StepFault::NotYours => 59,
            StepFault::PartRequest => 60,
        }
    }

    /// The fault's name, as it is printed.
    pub fn name(self) -> &'static str
        ensures { result.now ≡ name_of self }
    {
        match self {
            StepFault::InUse => "InUse",
            StepFault::Short => "Short",
            StepFault::Long => "Long",
            StepFault::TooMany => "TooMany",
            StepFault::NotOpen => "NotOpen",
            StepFault::NoSuchPart => "NoSuchPart",
            StepFault::NotHeld => "NotHeld",
            StepFault::HandFull => "HandFull",
            StepFault::HandEmpty => "HandEmpty",
            StepFault::NothingDue => "NothingDue",
            StepFault::NoJob => "NoJob",
            StepFault::NotReady => "NotReady",
            StepFault::NotClear => "NotClear",
            StepFault::LooksWhole => "LooksWhole",
            StepFault::StillOpen => "StillOpen",
            StepFault::ClockEnd => "ClockEnd",
            StepFault::NoSuchSeat => "NoSuchSeat",
            StepFault::Memory => "Memory",
            StepFault::NotYours => "NotYours",
            StepFault::PartRequest => "PartRequest",
        }
    }

    /// Why the event is refused, in words.
    pub fn text(self) -> &'static str
        ensures { result.now ≡ text_of self }
    {
        match self {
            StepFault::InUse => "the name isn't free: its message is open, or wasn't retired",
            StepFault::Short => "the message isn't longer than a part",
            StepFault::Long => {
                "a message has 65,542 octets at most, and what is sent in one piece 23 more than a part"
            }
            StepFault::TooMany => "as many messages are open as the configuration allows",
            StepFault::NotOpen => "no such message is open",
            StepFault::NoSuchPart => "the message has no part of that number",
            StepFault::NotHeld => "the link holds no such packet in the lane's direction",
            StepFault::HandFull => "the lane has a packet in its hand, or the worker a job",
            StepFault::HandEmpty => "the lane has no packet in its hand, or the worker no job",
            StepFault::NothingDue => "no reception of the node has waited for the timeout",
            StepFault::NoJob => "no job waits",
            StepFault::NotReady => "the oldest job wasn't committed yet",
            StepFault::NotClear => {
                "a part of the message is on the link or in a hand, or its receiver keeps one"
            }
            StepFault::LooksWhole => "these octets are a packet, so noise can't have left them",
            StepFault::StillOpen => "the message's sender is open",
            StepFault::ClockEnd => "the clock is at its greatest value",
            StepFault::NoSuchSeat => "there is no such seat",
            StepFault::Memory => "out of memory",
            StepFault::NotYours => {
                "what was read isn't what the lane or the worker has, or was read for another receiver"
            }
            StepFault::PartRequest => {
                "a telecommand of service 13, subtype 9, 10 or 11, carries a part"
            }
        }
    }
}

impl Error for StepFault {}

impl fmt::Display for StepFault {
    ghost output = { λ fault. Some (text_of fault) };

    fn fmt<W: fmt::Write>(&self, f: &mut fmt::Formatter<W>) -> fmt::Result {
        f.write_str(self.text())
    }
}

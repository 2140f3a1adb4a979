//! The execution of a request over the memories.

ghost use Rattle.std.specs.Prelude.{◌≡◌, ℕ, Bool, true, List, None, length, IfOk, OnErr};
ghost use Rattle.lpt_memory.specs.Effects.{answer, AnswerFits};
ghost use Rattle.lpt_memory.specs.Given.{answer_of, read_length};
ghost use Rattle.lpt_memory.specs.Memories.{Contents, sizes_of};
ghost use Rattle.lpt_memory.specs.Readings.{source_meaning};
ghost use Rattle.lpt_execution.specs.Endings.{ending, has_data, is_small, reply_fault, reply_refusal, reply_report};
ghost use Rattle.lpt_execution.specs.Ranges.{EndingFits};

use crate::{Ending, Report};
use lpt_events::{TelemetryKind, longest_on_link};
use lpt_memory::{Effect, Memories, Reading, ReplyKind};
use lpt_packet::{ERROR_CONTROL, PRIMARY_HEADER};
use lpt_pus::{FailureCode, TM_HEADER};
use std::alloc::{AllocError, Global};

// The octets that stand around the body of telemetry.
const AROUND_A_BODY: usize = PRIMARY_HEADER + TM_HEADER + ERROR_CONTROL;

/// Whether telemetry with a body of so many octets is a packet of the link, if a part has `p`.
pub fn is_small(p: u32, length: usize) -> bool
    ensures { result ≡ is_small p length }
{
    length <= longest_on_link(p) - AROUND_A_BODY
}

/// Why a reply with a body of so many octets isn't sent. If it is no packet of the link it needs
/// a `free` name, and then `room` for one open message more.
pub fn reply_fault(p: u32, length: usize, free: bool, room: bool) -> Option<FailureCode>
    ensures { result ≡ reply_fault p length free room }
{
    if is_small(p, length) {
        None
    } else if !free {
        Some(FailureCode::NoFreeIdentifier)
    } else if !room {
        Some(FailureCode::TooManyOpen)
    } else {
        None
    }
}

// Why the reply to a message isn't sent, if it has one.
fn reply_refusal(p: u32, free: bool, room: bool, reading: &Reading) -> Option<FailureCode>
    ensures held { (ms : Contents) → reading.now.sizes ≡ sizes_of ms
        → result ≡ reply_refusal p free room (answer (source_meaning reading.now) ms) }
    ensures given { (octets : List ℕ) → length octets ≡ read_length (source_meaning reading.now)
        → result ≡ reply_refusal p free room (answer_of (source_meaning reading.now) octets) }
{
    match reading.reply_len() {
        Some(length) => reply_fault(p, length, free, room),
        None => None,
    }
}

/// How the execution of a request ends, with its reply, if it has one. A load isn't done yet,
/// and no memory changes. `free` and `room` say whether a reply could be opened as a message.
///
/// The only error is out of memory, for a reply that is sent.
pub fn ending_of(
    p: u32,
    free: bool,
    room: bool,
    memories: &Memories,
    reading: &Reading,
) -> Result<Ending, AllocError>
    requires { reading.now.sizes ≡ sizes_of memories.now }
    ensures ending { IfOk result (λ e.
        e ≡ ending p free room (answer (source_meaning reading.now) memories.now)) }
    ensures fits { IfOk result EndingFits }

    // Memory runs out only if a reply is made.
    ensures memory { OnErr result
        (has_data (ending p free room (answer (source_meaning reading.now) memories.now)) ≡ true) }
{
    if let Some(code) = reply_refusal(p, free, room, reading) {
        return Ok(Ending::Refused(code));
    }
    Ok(effect_ending(memories.answer(reading)?))
}

/// The same for memories that are elsewhere, by the octets that the request reads of them, one area
/// behind the other.
///
/// The only error is out of memory, for a reply that is sent.
pub fn ending_given(
    alloc: Global,
    p: u32,
    free: bool,
    room: bool,
    octets: &[u8],
    reading: &Reading,
) -> Result<Ending, AllocError>
    requires { length octets.now ≡ read_length (source_meaning reading.now) }
    ensures ending { IfOk result (λ e.
        e ≡ ending p free room (answer_of (source_meaning reading.now) octets.now)) }
    ensures fits { IfOk result EndingFits }
    ensures memory { OnErr result
        (has_data (ending p free room (answer_of (source_meaning reading.now) octets.now)) ≡ true) }
{
    if let Some(code) = reply_refusal(p, free, room, reading) {
        return Ok(Ending::Refused(code));
    }
    Ok(effect_ending(reading.answer_of(alloc, octets)?))
}

// How a request ends that comes to this, if its reply is sent.
fn effect_ending(effect: Effect) -> Ending
    ensures ending { (p : ℕ) (free room : Bool) → None ≡ reply_refusal p free room effect
        → result ≡ ending p free room effect }
    ensures fits { AnswerFits effect → EndingFits result }
{
    match effect {
        Effect::Silent => Ending::Silent,
        Effect::Code(code) => Ending::Refused(code),
        Effect::Done => Ending::Carried(None),
        Effect::Reply(kind, body) => {
            let kind = reply_report(kind);
            Ending::Carried(Some(Report { kind, body }))
        }
    }
}

// The kind of the report that a reply is.
fn reply_report(kind: ReplyKind) -> TelemetryKind
    ensures { result ≡ reply_report kind }
{
    match kind {
        ReplyKind::Dump => TelemetryKind::Dump,
        ReplyKind::Check => TelemetryKind::Check,
    }
}

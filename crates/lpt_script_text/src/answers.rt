//! The lines of events: what an accepted one did, and why one was refused. A name is printed as its
//! identifier if it is of the configured source, and as `SOURCE/ID` otherwise.

ghost use Rattle.std.specs.Prelude.{◌≡◌, IfOk, OnOk};
ghost use Rattle.std.specs.String.{string_bytes};
ghost use Rattle.lpt_script_text.specs.Printing.{accepted_text, opened_text, expired_text, applied_text, retired_text, restarted_text, outcome_text, refused_text};

use crate::pushing::{
    begin, end, named_line, number_line, push_name, push_number, transaction_line, two_numbers,
};
use lpt_events::{Answer, Applied, Event, Outcome, Reply, Side, StepFault};
use lpt_packet::{Direction, Name};
use std::alloc::{AllocError, Global};

/// Makes a text what an accepted event prints by its reply: the text of its own answer, and nothing
/// for another. If memory runs out, nothing is said of the text.
pub fn write_accepted(
    text: &mut String,
    source: u16,
    event: &Event,
    reply: &Reply,
) -> Result<(), AllocError>
    ensures { OnOk result (string_bytes text.new ≡ accepted_text source event.now reply.now) }
{
    match (event, reply.answer) {
        (Event::Open(direction, name, _), Answer::Opened(parts)) => {
            write_opened(text, source, *direction, *name, parts)
        }
        (Event::Send(_, _, _), Answer::Put(number)) => number_line(text, "put ", number),
        (Event::Plain(_, _, _, _, _), Answer::Put(number)) => number_line(text, "put ", number),
        (Event::Lose(number), Answer::Lost) => number_line(text, "lost ", *number),
        (Event::Damage(_, _), Answer::Put(number)) => number_line(text, "put ", number),
        (Event::Take(_, _), Answer::Took(number)) => number_line(text, "took ", number),
        (Event::Deliver(lane), Answer::Delivered(outcome)) => {
            write_outcome(text, source, lane.direction(), outcome)
        }
        (Event::Finish(direction, name), Answer::Finished) => {
            named_line(text, "finished ", source, *direction, *name)
        }
        (Event::Tick(_), Answer::Clock(ticks)) => number_line(text, "clock ", u64::from(ticks)),
        (Event::Expire(_), Answer::Expired(direction, name)) => {
            named_line(text, "expired ", source, direction, name)
        }
        (Event::Claim(_), Answer::Claimed(boot, job)) => two_numbers(text, "claimed ", boot, job),
        (Event::Commit(_), Answer::Committed(boot, job)) => {
            two_numbers(text, "committed ", boot, job)
        }
        (Event::Commit(_), Answer::Stale(boot, job)) => two_numbers(text, "stale ", boot, job),
        (Event::Apply, Answer::Applied(applied)) => write_applied(text, source, applied),
        (Event::Retire(direction, name), Answer::Retired) => {
            named_line(text, "retired ", source, *direction, *name)
        }
        (Event::Restart(side), Answer::Restarted(boot)) => write_restarted(text, *side, boot),
        // Each event by its name, so that a new one is missed here.
        (
            Event::Open(_, _, _)
            | Event::Send(_, _, _)
            | Event::Plain(_, _, _, _, _)
            | Event::Lose(_)
            | Event::Damage(_, _)
            | Event::Take(_, _)
            | Event::Deliver(_)
            | Event::Finish(_, _)
            | Event::Tick(_)
            | Event::Expire(_)
            | Event::Claim(_)
            | Event::Commit(_)
            | Event::Apply
            | Event::Retire(_, _)
            | Event::Restart(_),
            _,
        ) => begin(text, ""),
    }
}

// `opened up 7 parts 3`: a message was opened, and has so many parts.
fn write_opened(
    text: &mut String,
    source: u16,
    direction: Direction,
    name: Name,
    parts: u16,
) -> Result<(), AllocError>
    ensures { OnOk result (string_bytes text.new ≡ opened_text source direction name parts) }
{
    let parts = u64::from(parts);
    transaction_line(text, "opened ", source, direction, name, " parts ", parts)
}

// `restarted craft 1`: the node on this side was restarted, and has this boot now.
fn write_restarted(text: &mut String, side: Side, boot: u64) -> Result<(), AllocError>
    ensures { OnOk result (string_bytes text.new ≡ restarted_text side boot) }
{
    begin(text, "restarted ")?;
    text.push_str(side.word())?;
    text.push_str(" ")?;
    end(text, boot)
}

/// `expired up 7`: the reception of this transaction was ended.
pub fn print_expired(
    alloc: Global,
    source: u16,
    direction: Direction,
    name: Name,
) -> Result<String, AllocError>
    ensures { IfOk result (λ t. string_bytes t ≡ expired_text source direction name) }
{
    let mut text = String::new(alloc);
    named_line(&mut text, "expired ", source, direction, name)?;
    Ok(text)
}

/// `retired up 7`: this transaction is free at both ends.
pub fn print_retired(
    alloc: Global,
    source: u16,
    direction: Direction,
    name: Name,
) -> Result<String, AllocError>
    ensures { IfOk result (λ t. string_bytes t ≡ retired_text source direction name) }
{
    let mut text = String::new(alloc);
    named_line(&mut text, "retired ", source, direction, name)?;
    Ok(text)
}

/// `applied done`, `applied done down 0` with the identifier of the report of data that was opened,
/// `applied silent`, or `applied code 4` with the number of the fault: a request was executed.
pub fn print_applied(alloc: Global, source: u16, applied: Applied) -> Result<String, AllocError>
    ensures { IfOk result (λ t. string_bytes t ≡ applied_text source applied) }
{
    let mut text = String::new(alloc);
    write_applied(&mut text, source, applied)?;
    Ok(text)
}

// The same in a text.
fn write_applied(text: &mut String, source: u16, applied: Applied) -> Result<(), AllocError>
    ensures { OnOk result (string_bytes text.new ≡ applied_text source applied) }
{
    match applied {
        Applied::Done(None) => begin(text, "applied done\n"),
        Applied::Done(Some(name)) => {
            named_line(text, "applied done ", source, Direction::Down, name)
        }
        Applied::Silent => begin(text, "applied silent\n"),
        Applied::Code(code) => number_line(text, "applied code ", u64::from(code.number())),
    }
}

/// What became of a packet that was delivered in this direction: `kept up 7 3` and `again up 7 1`
/// with a part's number, `released up 7 20` and `plain 27` with a message's octets, `report 1 4`
/// with service type and message subtype, `abort 7 1` and `broken up 7 3` with the number of the
/// reason, `ignored Closed` with its name.
pub fn print_outcome(
    alloc: Global,
    source: u16,
    direction: Direction,
    outcome: Outcome,
) -> Result<String, AllocError>
    ensures { IfOk result (λ t. string_bytes t ≡ outcome_text source direction outcome) }
{
    let mut text = String::new(alloc);
    write_outcome(&mut text, source, direction, outcome)?;
    Ok(text)
}

// The same in a text.
fn write_outcome(
    text: &mut String,
    source: u16,
    direction: Direction,
    outcome: Outcome,
) -> Result<(), AllocError>
    ensures { OnOk result (string_bytes text.new ≡ outcome_text source direction outcome) }
{
    match outcome {
        Outcome::Kept(name, part) => {
            let part = u64::from(part);
            transaction_line(text, "kept ", source, direction, name, " ", part)
        }
        Outcome::Again(name, part) => {
            let part = u64::from(part);
            transaction_line(text, "again ", source, direction, name, " ", part)
        }
        Outcome::Released(name, octets) => {
            let octets = u64::from(octets);
            transaction_line(text, "released ", source, direction, name, " ", octets)
        }
        Outcome::PlainReleased(octets) => number_line(text, "plain ", u64::from(octets)),
        Outcome::ReportNoted(service, subtype) => {
            two_numbers(text, "report ", u64::from(service), u64::from(subtype))
        }
        Outcome::AbortNoted(name, reason) => {
            begin(text, "abort ")?;
            push_name(text, source, name)?;
            text.push_str(" ")?;
            end(text, u64::from(reason.code()))
        }
        Outcome::Broken(name, reason) => {
            let reason = u64::from(reason.code());
            transaction_line(text, "broken ", source, direction, name, " ", reason)
        }
        Outcome::Ignored(why) => {
            begin(text, "ignored ")?;
            text.push_str(why.name())?;
            text.push_str("\n")
        }
    }
}

/// Makes a text `refused 47 NotHeld`: an event was refused, for this reason. If memory runs out,
/// nothing is said of the text.
pub fn write_refused(text: &mut String, fault: StepFault) -> Result<(), AllocError>
    ensures { OnOk result (string_bytes text.new ≡ refused_text fault) }
{
    begin(text, "refused ")?;
    push_number(text, u64::from(fault.code()))?;
    text.push_str(" ")?;
    text.push_str(fault.name())?;
    text.push_str("\n")
}

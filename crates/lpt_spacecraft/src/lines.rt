//! The lines that tell what happens.

ghost use Rattle.std.specs.Prelude.{◌≡◌, IfOk};
ghost use Rattle.std.specs.String.{string_bytes};
ghost use Rattle.lpt_spacecraft.specs.Lines.{sent_text, told_text};
ghost use Rattle.lpt_spacecraft.specs.declared.told.Told.TheVariants.{Did};

use crate::told::{Done, Told};
use lpt_events::name_word;
use lpt_packet::{Direction, Name};
use lpt_script_text::{print_applied, print_expired, print_outcome, print_retired};
use std::alloc::{AllocError, Global};

/// The lines that tell this: what became of a packet, as `kept up 7 3`; of a request, as
/// `applied done`, with `reports 4` behind it, and `sent down 0 235` if a report went in so many
/// parts; `expired up 7`; `retired up 7` if the name is free again; `full up 1` if that
/// source has no free name left; `skipped 52 13` if so many octets at a place are no packet. The
/// only error is out of memory.
pub fn print_told(alloc: Global, source: u16, told: Told) -> Result<String, AllocError>
    ensures { IfOk result (λ t. string_bytes t ≡ told_text source told) }
{
    match told {
        Told::Took(outcome) => print_outcome(alloc, source, Direction::Up, outcome),
        Told::Did(done) => print_done(alloc, source, done),
        Told::GaveUp(name) => print_expired(alloc, source, Direction::Up, name),
        Told::Freed(direction, name) => print_retired(alloc, source, direction, name),
        Told::UsedUp(direction, from) => {
            let direction = direction.word();
            format!(in alloc; "full {direction} {from}\n")
        }
        Told::Skipped { place, len } => format!(in alloc; "skipped {place} {len}\n"),
    }
}

// The lines of a request that was executed.
fn print_done(alloc: Global, source: u16, done: Done) -> Result<String, AllocError>
    ensures { IfOk result (λ t. string_bytes t ≡ told_text source (Did done)) }
{
    let reports = done.reports;
    let reports = format!(in alloc; "reports {reports}\n")?;
    let mut text = print_applied(alloc, source, done.applied)?;
    text.push_str(reports.as_str())?;
    text.push_str(print_sent(alloc, source, done.sent)?.as_str())?;
    Ok(text)
}

// The line of a report that was sent in parts, if one was.
fn print_sent(alloc: Global, source: u16, sent: Option<(Name, u16)>) -> Result<String, AllocError>
    ensures { IfOk result (λ t. string_bytes t ≡ sent_text source sent) }
{
    match sent {
        None => Ok(String::new(alloc)),
        Some((name, parts)) => {
            let name = name_word(source, name);
            format!(in alloc; "sent down {name} {parts}\n")
        }
    }
}

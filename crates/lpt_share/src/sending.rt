//! Whether no part is sent twice: part after part, and one transaction after the other.

ghost use Rattle.std.specs.Prelude.{◌≡◌, ◌&&◌, None, Some};
ghost use Rattle.lpt_share.specs.Finished.{is_sent};
ghost use Rattle.lpt_share.specs.Turn.{are_all_in_turn, are_in_turn, follows, is_next, sent_in};

use crate::finish::sends;
use lpt_events::{Entry, Event};
use lpt_packet::{Direction, Name};

/// A part that was sent.
#[derive(Clone, Copy)]
pub(crate) struct Sent {
    name: Name,
    part: u16,
}

/// Whether each part that entries send follows the one before in its direction, or is a
/// transaction's first, and sent but once.
pub(crate) fn are_in_turn(entries: &[Entry]) -> bool
    ensures { result ≡ are_all_in_turn entries.now }
{
    are_in_turn_in(Direction::Up, entries) && are_in_turn_in(Direction::Down, entries)
}

// The same in one direction.
fn are_in_turn_in(direction: Direction, entries: &[Entry]) -> bool
    ensures { result ≡ are_in_turn direction None entries.now }
{
    let mut last = None;
    let mut rest = entries;
    while let Some((entry, tail)) = rest.split_first() {
        if let Some(sent) = sent_in(direction, &entry.event) {
            if !is_next(direction, last, sent, tail) {
                return false;
            }
            last = Some(sent);
        }
        rest = tail;
    }
    true
}

// The part that an event sends in this direction.
fn sent_in(direction: Direction, event: &Event) -> Option<Sent>
    ensures { result ≡ sent_in direction event.now }
{
    match event {
        Event::Send(d, name, part) if *d == direction => Some(Sent {
            name: *name,
            part: *part,
        }),
        _ => None,
    }
}

// Whether a part may be sent behind the last one, before these.
fn is_next(direction: Direction, last: Option<Sent>, sent: Sent, later: &[Entry]) -> bool
    ensures { result ≡ is_next direction last (Some sent) later.now }
{
    follows(last, sent) || (sent.part == 1 && !is_first_sent(later, direction, sent.name))
}

// Whether a part follows the last one.
fn follows(last: Option<Sent>, sent: Sent) -> bool
    ensures { result ≡ follows last sent }
{
    match last {
        Some(last) => sent.name == last.name && u32::from(sent.part) == u32::from(last.part) + 1,
        None => false,
    }
}

// Whether entries send the first part of a transaction.
fn is_first_sent(entries: &[Entry], direction: Direction, name: Name) -> bool
    ensures { result ≡ is_sent entries.now direction name 1 }
{
    let mut rest = entries;
    while let Some((entry, tail)) = rest.split_first() {
        if sends(&entry.event, direction, name, 1) {
            return true;
        }
        rest = tail;
    }
    false
}

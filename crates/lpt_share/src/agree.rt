//! The logs of the seats beside the journal.

ghost use Rattle.std.specs.Prelude.{◌≡◌, ◌↔◌, ◌+◌, ◌<◌, ◌^◌, length, IsTrue};
ghost use Rattle.lpt_share.specs.Agreeing.{Agree, AreApart, AreSeated, AreLogged, has_seat, call_at, calls_of};

use crate::same::{is_same_event, is_same_reply};
use lpt_events::{Call, Entry, SeatLog};
use lpt_world::World;

/// Whether the journal's entries from this place on are the calls of these logs: the logs are of
/// distinct seats, each entry is of one of them, and each log has its seat's entries, each once and
/// in order. It takes no memory.
pub fn agrees(world: &World, from: u64, logs: &[SeatLog]) -> bool
    ensures { IsTrue result ↔ Agree world.now from logs.now }
{
    let journal = world.journal();
    if from > journal.len() as u64 {
        return false;
    }
    let entries = &journal[from as usize..];
    are_apart(logs) && are_seated(entries, logs) && are_logged(from, entries, logs)
}

// Whether one of the logs is of the seat.
fn has_seat(seat: u8, logs: &[SeatLog]) -> bool
    ensures { result ≡ has_seat seat logs.now }
{
    let mut rest = logs;
    while let Some((log, tail)) = rest.split_first() {
        if log.seat == seat {
            return true;
        }
        rest = tail;
    }
    false
}

// Whether no two logs are of one seat.
fn are_apart(logs: &[SeatLog]) -> bool
    ensures { IsTrue result ↔ AreApart logs.now }
{
    let mut rest = logs;
    while let Some((log, tail)) = rest.split_first() {
        if has_seat(log.seat, tail) {
            return false;
        }
        rest = tail;
    }
    true
}

// Whether each entry is of a seat that has a log.
fn are_seated(entries: &[Entry], logs: &[SeatLog]) -> bool
    ensures { IsTrue result ↔ AreSeated entries.now logs.now }
{
    let mut rest = entries;
    while let Some((entry, tail)) = rest.split_first() {
        if !has_seat(entry.seat, logs) {
            return false;
        }
        rest = tail;
    }
    true
}

// Whether each log has its seat's calls. The first entry has this place.
fn are_logged(place: u64, entries: &[Entry], logs: &[SeatLog]) -> bool
    requires { place + length entries.now < 2 ^ 64 }
    ensures { IsTrue result ↔ AreLogged place entries.now logs.now }
{
    let mut rest = logs;
    while let Some((log, tail)) = rest.split_first() {
        if !is_logged(place, entries, log.seat, log.calls.as_slice()) {
            return false;
        }
        rest = tail;
    }
    true
}

// Whether these are the seat's calls among the entries, the first of which has this place.
fn is_logged(place: u64, entries: &[Entry], seat: u8, calls: &[Call]) -> bool
    requires { place + length entries.now < 2 ^ 64 }
    ensures { IsTrue result ↔ (calls.now ≡ calls_of seat place entries.now) }
{
    let mut at = place;
    let mut left = calls;
    let mut rest = entries;
    while let Some((entry, tail)) = rest.split_first() {
        if entry.seat == seat {
            let Some((call, more)) = left.split_first() else {
                return false;
            };
            if !is_entry(call, at, entry) {
                return false;
            }
            left = more;
        }
        at += 1;
        rest = tail;
    }
    left.is_empty()
}

// Whether a call is the entry at this place.
fn is_entry(call: &Call, place: u64, entry: &Entry) -> bool
    ensures { IsTrue result ↔ (call.now ≡ call_at place entry.now) }
{
    call.place == place
        && is_same_event(&call.event, &entry.event)
        && is_same_reply(&call.reply, &entry.reply)
}

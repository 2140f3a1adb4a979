//! What a run has finished: nothing is left in a hand or with a worker, each job is executed, each
//! transaction is carried, and the timers have ticked.

ghost use Rattle.std.specs.Prelude.{◌≡◌, ◌↔◌, ◌+◌, ◌<◌, ◌^◌, ◌≤◌, ◌-◌, length, drop, IsTrue};
ghost use Rattle.lpt_journal.specs.Senders.{opened, notes_abort};
ghost use Rattle.lpt_part.specs.Splitting.{IsPartSize, part_count};
ghost use Rattle.lpt_world.specs.Worlds.{history};
ghost use Rattle.lpt_share.specs.Finished.{ticks, tick_count, sends, finishes, is_finished, is_aborted, AreExecuted, IsIdle, IsTicked};
ghost use Rattle.lpt_share.specs.Settled.{sent_on, IsSentWhole, IsCarriedInOrder, AreCarriedInOrder};

use crate::full::{are_full, is_full};
use crate::kinds::{sender_seat, timer_seat};
use lpt_events::{Answer, Entry, Event, Lane, Opening, Outcome, SeatLog, Side, Turns, Worker};
use lpt_packet::{Direction, Name};
use lpt_world::World;

/// Whether no hand and no worker has anything.
pub fn is_idle(world: &World) -> bool
    ensures { IsTrue result ↔ IsIdle world.now }
{
    world.hand(Lane::S1).is_none()
        && world.hand(Lane::S2).is_none()
        && world.hand(Lane::G1).is_none()
        && world.hand(Lane::G2).is_none()
        && world.ticket(Worker::W1).is_none()
        && world.ticket(Worker::W2).is_none()
}

/// Whether each job is executed, or the logs of both workers are full.
pub fn are_executed(world: &World, limit: u32, logs: &[SeatLog]) -> bool
    ensures { IsTrue result ↔ AreExecuted limit logs.now world.now }
{
    world.jobs_queued() == 0 || are_full(limit, logs, 7, 8)
}

/// Whether a node's timer ticked no more often than it was to, and as often if its log isn't full
/// and the clock isn't at its greatest.
pub fn is_ticked(
    world: &World,
    entries: &[Entry],
    side: Side,
    turns: Turns,
    logs: &[SeatLog],
) -> bool
    ensures { IsTrue result ↔ IsTicked turns logs.now world.now entries.now side }
{
    let seat = timer_seat(side);
    let count = tick_count(entries, seat, side);
    if count > u64::from(turns.ticks) {
        return false;
    }
    count == u64::from(turns.ticks)
        || world.clock(side) == u32::MAX
        || is_full(turns.per_seat, logs, seat)
}

// How often a seat ticked.
fn tick_count(entries: &[Entry], seat: u8, side: Side) -> u64
    ensures { result ≡ tick_count entries.now seat side }
{
    let mut count = 0;
    let mut rest = entries;
    while let Some((entry, tail)) = rest.split_first() {
        if entry.seat == seat && is_tick(&entry.event, side) {
            count += 1;
        }
        rest = tail;
    }
    count
}

// Whether an event is a tick of this side's clock.
fn is_tick(event: &Event, side: Side) -> bool
    ensures { result ≡ ticks event.now side }
{
    match event {
        Event::Tick(node) => *node == side,
        _ => false,
    }
}

/// Whether each transaction that was opened from this place on was sent, part after part, and
/// finished, or aborted, after its opening; but for those of a sender whose log is full. The
/// entries are those from there on.
pub fn are_carried(
    world: &World,
    from: u64,
    entries: &[Entry],
    limit: u32,
    logs: &[SeatLog],
) -> bool
    requires { length entries.now + 1 < 2 ^ 64 }
    ensures { IsTrue result ↔ AreCarriedInOrder limit logs.now world.now.config.part_size from entries.now (opened (history world.now)) }
{
    let p = world.config().part_size;
    let mut rest = world.opened();
    while let Some((opening, tail)) = rest.split_first() {
        if opening.place >= from
            && !is_full(limit, logs, sender_seat(opening.direction))
            && !is_opening_carried(opening, p, from, entries)
        {
            return false;
        }
        rest = tail;
    }
    true
}

// Whether an opening from this place on was carried.
#[tactic(auto, using(crate::proofs::FinishLemmas::none_behind))]
fn is_opening_carried(opening: &Opening, p: u32, from: u64, entries: &[Entry]) -> bool
    requires size { IsPartSize p }
    requires behind { from ≤ opening.now.place }
    requires small { length entries.now + 1 < 2 ^ 64 }
    ensures { IsTrue result ↔ IsCarriedInOrder (drop (opening.now.place - from) entries.now) opening.now.direction opening.now.name (part_count (length opening.now.message) p) }
{
    let past = opening.place - from;
    let length = opening.message.as_slice().len();
    if past > entries.len() as u64 {
        return false;
    }
    let after = &entries[past as usize..];
    is_carried(after, opening.direction, opening.name, length, p)
}

/// Whether a transaction whose message has so many octets was sent, part after part, and finished,
/// or aborted.
pub(crate) fn is_carried(
    entries: &[Entry],
    direction: Direction,
    name: Name,
    octets: usize,
    p: u32,
) -> bool
    requires size { IsPartSize p }
    requires small { length entries.now + 1 < 2 ^ 64 }
    ensures { IsTrue result ↔ IsCarriedInOrder entries.now direction name (part_count octets p) }
{
    let parts = parts_of(octets, p);
    is_sent_whole(entries, direction, name, parts) || is_aborted(entries, direction, name)
}

// How many parts a message of so many octets has.
fn parts_of(octets: usize, p: u32) -> u64
    requires { IsPartSize p }
    ensures { result ≡ part_count octets p }
{
    (octets as u64).div_ceil(u64::from(p))
}

// Whether so many parts were sent, one after the other, and the transaction finished.
fn is_sent_whole(entries: &[Entry], direction: Direction, name: Name, parts: u64) -> bool
    requires { length entries.now + 1 < 2 ^ 64 }
    ensures { IsTrue result ↔ IsSentWhole entries.now direction name parts }
{
    let (next, finished) = sent_to_the_end(entries, direction, name);
    next > parts && finished
}

// The part after those that were sent one after the other from the first on, and whether the
// transaction was finished behind them. One walk finds both.
fn sent_to_the_end(entries: &[Entry], direction: Direction, name: Name) -> (u64, bool)
    requires { length entries.now + 1 < 2 ^ 64 }
    ensures next { result.0 ≡ sent_on entries.now direction name 1 }
    ensures finished { result.1 ≡ is_finished entries.now direction name }
{
    let mut next = 1;
    let mut rest = entries;
    while let Some((entry, tail)) = rest.split_first() {
        if finishes(&entry.event, direction, name) {
            return (next, true);
        }
        if sends(&entry.event, direction, name, next) {
            next += 1;
        }
        rest = tail;
    }
    (next, false)
}

// Whether an event finishes a transaction.
fn finishes(event: &Event, direction: Direction, name: Name) -> bool
    ensures { result ≡ finishes event.now direction name }
{
    match event {
        Event::Finish(d, i) => *d == direction && *i == name,
        _ => false,
    }
}

/// Whether an event sends this part of a transaction.
pub(crate) fn sends(event: &Event, direction: Direction, name: Name, part: u64) -> bool
    ensures { result ≡ sends event.now direction name part }
{
    match event {
        Event::Send(d, i, k) => *d == direction && *i == name && u64::from(*k) == part,
        _ => false,
    }
}

// Whether an abortion report of a transaction was noted.
fn is_aborted(entries: &[Entry], direction: Direction, name: Name) -> bool
    ensures { result ≡ is_aborted entries.now direction name }
{
    let mut rest = entries;
    while let Some((entry, tail)) = rest.split_first() {
        if direction == Direction::Up && notes_abort(entry.reply.answer, name) {
            return true;
        }
        rest = tail;
    }
    false
}

// Whether an answer notes an abortion report of this name.
fn notes_abort(answer: Answer, name: Name) -> bool
    ensures { result ≡ notes_abort answer name }
{
    match answer {
        Answer::Delivered(Outcome::AbortNoted(i, _)) => i == name,
        _ => false,
    }
}

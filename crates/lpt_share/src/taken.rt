//! Which packets a run has taken: each that it could, and none twice.

ghost use Rattle.std.specs.Prelude.{◌≡◌, ◌↔◌, length, replicate, true, false, IsTrue, IfOk};
ghost use Rattle.lpt_share.specs.Finished.{is_among, is_let_off, is_put, packet_taken, puts_to};
ghost use Rattle.lpt_share.specs.FinishedInside.{are_fresh, is_fresh, mark, packets_marked, AreMarked};
ghost use Rattle.lpt_share.specs.Settled.{AreTakenInTurn};

use crate::full::are_full;
use lpt_events::{Entry, Event, Puts, SeatLog};
use lpt_packet::Direction;
use lpt_world::World;
use std::alloc::{AllocError, Global};

/// Whether these entries take each packet that was put and never lost, but for those whose lanes'
/// logs are full, and none twice. The only error is out of memory, for a mark for each packet.
pub fn are_taken(
    alloc: Global,
    world: &World,
    entries: &[Entry],
    limit: u32,
    logs: &[SeatLog],
) -> Result<bool, AllocError>
    ensures { IfOk result (λ all. IsTrue all ↔ AreTakenInTurn limit logs.now world.now entries.now) }
{
    let mut marks = no_marks(alloc, world.packets() as usize)?;
    let once = mark_taken(&mut marks, entries);
    Ok(once & are_marked(world, limit, logs, marks.as_slice()))
}

// So many marks, none of which is set.
fn no_marks(alloc: Global, count: usize) -> Result<Vec<bool>, AllocError>
    ensures { IfOk result (λ v. v.items ≡ replicate count false) }
{
    vec![in alloc; false; count]
}

// Sets the mark of each packet that the entries take. Whether each had one that wasn't set.
fn mark_taken(marks: &mut Vec<bool>, entries: &[Entry]) -> bool
    ensures once { result ≡ are_fresh entries.now marks.old.items }
    ensures marked { marks.new.items ≡ packets_marked entries.now marks.old.items }
    ensures length { length marks.new.items ≡ length marks.old.items }
{
    let mut once = true;
    let mut rest = entries;
    while let Some((entry, tail)) = rest.split_first() {
        once = once & is_fresh(&entry.event, marks.as_slice());
        mark(&entry.event, marks);
        rest = tail;
    }
    once
}

// Whether a packet that is taken has a mark that isn't set.
fn is_fresh(event: &Event, marks: &[bool]) -> bool
    ensures { result ≡ is_fresh (packet_taken event.now) marks.now }
{
    match packet_taken(event) {
        Some(n) => n < marks.len() as u64 && !marks[n as usize],
        None => true,
    }
}

// Sets the mark of a packet that is taken.
fn mark(event: &Event, marks: &mut Vec<bool>)
    ensures { marks.new.items ≡ mark (packet_taken event.now) marks.old.items }
{
    if let Some(n) = packet_taken(event) {
        if n < marks.len() as u64 {
            marks[n as usize] = true;
        }
    }
}

// The number of the packet that an event takes.
fn packet_taken(event: &Event) -> Option<u64>
    ensures { result ≡ packet_taken event.now }
{
    match event {
        Event::Take(_, n) => Some(*n),
        _ => None,
    }
}

// Whether each packet that the link holds has its mark, or those who take it are let off.
fn are_marked(world: &World, limit: u32, logs: &[SeatLog], marks: &[bool]) -> bool
    ensures { IsTrue result ↔ AreMarked limit logs.now world.now 0 marks.now }
{
    let mut n = 0;
    let mut rest = marks;
    while let Some((mark, tail)) = rest.split_first() {
        if world.is_held(n) && !*mark && !is_let_off(world, limit, logs, n) {
            return false;
        }
        n += 1;
        rest = tail;
    }
    true
}

// Whether the logs of both lanes are full that take a packet.
fn is_let_off(world: &World, limit: u32, logs: &[SeatLog], n: u64) -> bool
    ensures { result ≡ is_let_off limit logs.now world.now.journal n }
{
    let journal = world.journal();
    (are_full(limit, logs, 1, 2) && is_put(journal, Direction::Up, n))
        || (are_full(limit, logs, 3, 4) && is_put(journal, Direction::Down, n))
}

// Whether entries put a packet in this direction.
fn is_put(entries: &[Entry], direction: Direction, n: u64) -> bool
    ensures { result ≡ is_put entries.now direction n }
{
    let mut rest = entries;
    while let Some((entry, tail)) = rest.split_first() {
        if puts_to(&entry.event) == direction && is_among(entry.reply.puts, n) {
            return true;
        }
        rest = tail;
    }
    false
}

// Where the packets go that an event puts.
fn puts_to(event: &Event) -> Direction
    ensures { result ≡ puts_to event.now }
{
    match event {
        Event::Send(direction, _, _) | Event::Damage(direction, _) => *direction,
        Event::Plain(_, _, _, _, _) => Direction::Up,
        _ => Direction::Down,
    }
}

// Whether a packet is one of those that were put.
fn is_among(puts: Option<Puts>, n: u64) -> bool
    ensures { result ≡ is_among puts n }
{
    match puts {
        Some(puts) => puts.first <= n && n - puts.first < puts.count,
        None => false,
    }
}

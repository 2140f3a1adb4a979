//! The transactions that are open when a run begins, and that it owes.

ghost use Rattle.std.specs.Prelude.{◌≡◌, ◌↔◌, ◌+◌, ◌<◌, ◌^◌, ◌&&◌, not, length, IsTrue, IfOk};
ghost use Rattle.lpt_journal.specs.Senders.{sender};
ghost use Rattle.lpt_node.specs.Nodes.{is_open};
ghost use Rattle.lpt_part.specs.Splitting.{IsPartSize};
ghost use Rattle.lpt_world.specs.Worlds.{history, state_shown};
ghost use Rattle.lpt_share.specs.Finished.{owed_of};
ghost use Rattle.lpt_share.specs.Settled.{AreOwedInOrder};
ghost use Rattle.lpt_events.specs.Openings.{is_opened};

use crate::finish::is_carried;
use crate::full::is_full;
use crate::kinds::sender_seat;
use lpt_events::{Entry, Opening, SeatLog, is_opened};
use lpt_ledger::State;
use lpt_packet::{Direction, Name};
use lpt_world::World;
use std::alloc::{AllocError, Global};

/// An open transaction: its name in its direction, and the length of its message.
#[derive(Clone, Copy)]
pub struct Owed {
    direction: Direction,
    name: Name,
    length: usize,
}

/// The open transactions of a world. The only error is out of memory.
pub fn open_transactions(alloc: Global, world: &World) -> Result<Vec<Owed>, AllocError>
    ensures { IfOk result (λ v. v.items ≡ owed_of world.now) }
{
    let mut owed = Vec::new(alloc);
    let mut rest = world.opened();
    while let Some((opening, later)) = rest.split_first() {
        if is_open_last(world, opening, later) {
            owed.push(Owed {
                direction: opening.direction,
                name: opening.name,
                length: opening.message.as_slice().len(),
            })?;
        }
        rest = later;
    }
    Ok(owed)
}

// Whether a transaction is open, and this is its last opening.
fn is_open_last(world: &World, opening: &Opening, later: &[Opening]) -> bool
    ensures { result ≡ (is_open (state_shown (sender (history world.now) opening.now.direction opening.now.name))
        && not (is_opened later.now opening.now.direction opening.now.name)) }
{
    match world.sender(opening.direction, opening.name) {
        State::Open => !is_opened(later, opening.direction, opening.name),
        State::Free => false,
        State::Closed => false,
    }
}

/// Whether each of these was sent, part after part, and finished, or aborted; but for those of a
/// sender whose log is full.
pub fn are_owed_carried(
    owed: &[Owed],
    p: u32,
    entries: &[Entry],
    limit: u32,
    logs: &[SeatLog],
) -> bool
    requires size { IsPartSize p }
    requires small { length entries.now + 1 < 2 ^ 64 }
    ensures { IsTrue result ↔ AreOwedInOrder limit logs.now p entries.now owed.now }
{
    let mut rest = owed;
    while let Some((one, tail)) = rest.split_first() {
        if !is_full(limit, logs, sender_seat(one.direction))
            && !is_carried(entries, one.direction, one.name, one.length, p)
        {
            return false;
        }
        rest = tail;
    }
    true
}

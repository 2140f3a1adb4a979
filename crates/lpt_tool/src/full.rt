//! Which seats of a run of threads reached their limit.

ghost use Rattle.std.specs.Prelude.{◌≡◌, IfOk};
ghost use Rattle.lpt_tool.specs.Full.{call_count, full_of, full_seats};

use lpt_events::Entry;
use std::alloc::{AllocError, Global};

/// The seats that have a thread.
static SEATS: [u8; 10] = [1, 2, 3, 4, 5, 6, 7, 8, 9, 10];

/// The seats that made this many calls or more, in order.
pub(crate) fn full_seats(
    alloc: Global,
    limit: u32,
    journal: &[Entry],
) -> Result<Vec<u8>, AllocError>
    ensures { IfOk result (λ v. v.items ≡ full_seats limit journal.now) }
{
    full_of(alloc, limit, journal, &SEATS)
}

// Those of these seats that made this many calls or more.
fn full_of(
    alloc: Global,
    limit: u32,
    journal: &[Entry],
    seats: &[u8],
) -> Result<Vec<u8>, AllocError>
    ensures { IfOk result (λ v. v.items ≡ full_of limit journal.now seats.now) }
{
    let mut full = Vec::new(alloc);
    let mut rest = seats;
    while let Some((seat, later)) = rest.split_first() {
        if call_count(*seat, journal) >= u64::from(limit) {
            full.push(*seat)?;
        }
        rest = later;
    }
    Ok(full)
}

// How many calls of a seat a journal has.
fn call_count(seat: u8, journal: &[Entry]) -> u64
    ensures { result ≡ call_count seat journal.now }
{
    let mut count = 0;
    let mut rest = journal;
    while let Some((entry, later)) = rest.split_first() {
        if entry.seat == seat {
            count += 1;
        }
        rest = later;
    }
    count
}

//! Whether the calls of the seats' logs are of the events for which these seats ask.

ghost use Rattle.std.specs.Prelude.{◌≡◌};
ghost use Rattle.lpt_share.specs.Kinds.{lane_seat, timer_seat, worker_seat, sender_seat, is_of_seat, are_of_seat, are_of_seats};

use lpt_events::{Call, Event, Lane, SeatLog, Side, Worker};
use lpt_packet::Direction;

/// Whether each call of each log is of an event that the log's seat asks for: lanes take and
/// deliver, timers tick and end receptions, workers claim, commit and have jobs executed, and
/// senders send and finish, each for its own lane, node, worker or direction.
pub fn are_of_seats(logs: &[SeatLog]) -> bool
    ensures { result ≡ are_of_seats logs.now }
{
    let mut rest = logs;
    while let Some((log, tail)) = rest.split_first() {
        if !are_of_seat(log.seat, log.calls.as_slice()) {
            return false;
        }
        rest = tail;
    }
    true
}

// Whether each call is of an event that the seat asks for.
fn are_of_seat(seat: u8, calls: &[Call]) -> bool
    ensures { result ≡ are_of_seat seat calls.now }
{
    let mut rest = calls;
    while let Some((call, tail)) = rest.split_first() {
        if !is_of_seat(seat, &call.event) {
            return false;
        }
        rest = tail;
    }
    true
}

// Whether the seat asks for such an event.
fn is_of_seat(seat: u8, event: &Event) -> bool
    ensures { result ≡ is_of_seat seat event.now }
{
    match event {
        Event::Take(lane, _) => seat == lane_seat(*lane),
        Event::Deliver(lane) => seat == lane_seat(*lane),
        Event::Tick(side) => seat == timer_seat(*side),
        Event::Expire(side) => seat == timer_seat(*side),
        Event::Claim(worker) => seat == worker_seat(*worker),
        Event::Commit(worker) => seat == worker_seat(*worker),
        Event::Apply => seat == 7 || seat == 8,
        Event::Send(direction, _, _) => seat == sender_seat(*direction),
        Event::Finish(direction, _) => seat == sender_seat(*direction),
        _ => false,
    }
}

// The seat of a lane.
fn lane_seat(lane: Lane) -> u8
    ensures { result ≡ lane_seat lane }
{
    match lane {
        Lane::S1 => 1,
        Lane::S2 => 2,
        Lane::G1 => 3,
        Lane::G2 => 4,
    }
}

// The seat of a node's timer.
pub(crate) fn timer_seat(side: Side) -> u8
    ensures { result ≡ timer_seat side }
{
    match side {
        Side::Craft => 5,
        Side::Ground => 6,
    }
}

// The seat of a worker.
fn worker_seat(worker: Worker) -> u8
    ensures { result ≡ worker_seat worker }
{
    match worker {
        Worker::W1 => 7,
        Worker::W2 => 8,
    }
}

// The seat of a direction's sender.
pub(crate) fn sender_seat(direction: Direction) -> u8
    ensures { result ≡ sender_seat direction }
{
    match direction {
        Direction::Up => 9,
        Direction::Down => 10,
    }
}

//! The seats of a run at its beginning: who notifies whom, and the first notices.

ghost use Rattle.std.specs.Prelude.{◌≡◌, ◌≤◌, true, None, is_some, vec_len, IfOk};
ghost use Rattle.lpt_journal.specs.Senders.{opened, sender};
ghost use Rattle.lpt_node.specs.Nodes.{is_open};
ghost use Rattle.lpt_world.specs.Worlds.{history, state_shown};
ghost use Rattle.lpt_share.specs.Seats.{is_task, names_in, AreOpenNames, AreOutlets, AreSeats, IsSeat};

use crate::notices::{Outlets, send};
use crate::task::{Seat, Task};
use crossbeam_channel::{Receiver, Sender, unbounded};
use lpt_events::{Lane, Side, Worker};
use lpt_ledger::State;
use lpt_packet::{Direction, Name};
use lpt_world::World;
use std::alloc::{AllocError, Global};
use std::sync::Wait;

/// An unbounded channel of notices.
#[derive(Drop)]
struct Channel<T: Drop> {
    to: Sender<T>,
    from: Receiver<T>,
}

/// All channels of a run, before any seat has its ends.
#[derive(Drop)]
struct Channels {
    up: Channel<u64>,
    down: Channel<u64>,
    jobs: Channel<u64>,
    opened_up: Channel<Name>,
    opened_down: Channel<Name>,
}

/// All seats, from 1 to 10. They have notices of what stands in the world: each held packet, each
/// job that waits, and each open transaction by rising name. No end of a channel is left that
/// no seat has. Errors: out of memory.
pub fn all_seats<R: Wait>(alloc: Global, rt: &R, world: &World) -> Result<Vec<Seat>, AllocError>
    ensures count { IfOk result (λ v. vec_len v ≡ 10) }
    ensures seats { IfOk result (λ v. AreSeats 1 v.items) }
{
    let channels = new_channels(alloc)?;
    let seats = told_seats(alloc, rt, world, &channels);
    drop(channels);
    seats
}

// The seats, each with its ends of these channels, into which the first notices are given.
fn told_seats<R: Wait>(
    alloc: Global,
    rt: &R,
    world: &World,
    channels: &Channels,
) -> Result<Vec<Seat>, AllocError>
    ensures count { IfOk result (λ v. vec_len v ≡ 10) }
    ensures seats { IfOk result (λ v. AreSeats 1 v.items) }
{
    tell_packets(rt, world, channels)?;
    tell_jobs(rt, world, &channels.jobs.to)?;
    tell_opened(alloc, rt, world, Direction::Up, &channels.opened_up.to)?;
    tell_opened(alloc, rt, world, Direction::Down, &channels.opened_down.to)?;
    seats(alloc, channels)
}

// A channel.
fn new_channel<T: Drop>(alloc: Global) -> Result<Channel<T>, AllocError> {
    let (to, from) = unbounded(alloc)?;
    Ok(Channel { to, from })
}

// Two channels, one for each direction.
fn new_pair<T: Drop>(alloc: Global) -> Result<(Channel<T>, Channel<T>), AllocError> {
    let up = new_channel(alloc)?;
    Ok((up, new_channel(alloc)?))
}

// The channels of a run.
fn new_channels(alloc: Global) -> Result<Channels, AllocError> {
    let (up, down) = new_pair(alloc)?;
    let (opened_up, opened_down) = new_pair(alloc)?;
    Ok(Channels {
        up,
        down,
        jobs: new_channel(alloc)?,
        opened_up,
        opened_down,
    })
}

// Gives notice of each held packet. Its direction isn't asked for: the lanes of the other one are
// refused it.
fn tell_packets<R: Wait>(rt: &R, world: &World, channels: &Channels) -> Result<(), AllocError> {
    for n in 0..world.packets() {
        if world.is_held(n) {
            send(rt, &channels.up.to, n)?;
            send(rt, &channels.down.to, n)?;
        }
    }
    Ok(())
}

// Gives notice of each job that waits.
fn tell_jobs<R: Wait>(rt: &R, world: &World, jobs: &Sender<u64>) -> Result<(), AllocError> {
    for _ in 0..world.jobs_left() {
        send(rt, jobs, 0)?;
    }
    Ok(())
}

// Gives notice of each open transaction of a direction.
fn tell_opened<R: Wait>(
    alloc: Global,
    rt: &R,
    world: &World,
    direction: Direction,
    to: &Sender<Name>,
) -> Result<(), AllocError> {
    for name in &open_names(alloc, world, direction)? {
        send(rt, to, *name)?;
    }
    Ok(())
}

// The names of the open transactions of a direction, rising. One that was opened more than once may
// stand there as often.
fn open_names(alloc: Global, world: &World, direction: Direction) -> Result<Vec<Name>, AllocError>
    ensures { IfOk result (λ v. AreOpenNames direction world.now v.items) }
{
    let mut names = names_in(alloc, world, direction)?;
    names.sort()?;
    Ok(names)
}

// The same in order of opening.
fn names_in(alloc: Global, world: &World, direction: Direction) -> Result<Vec<Name>, AllocError>
    ensures { IfOk result (λ v. v.items ≡ names_in direction world.now (opened (history world.now))) }
{
    let mut names = Vec::new(alloc);
    let mut rest = world.opened();
    while let Some((opening, later)) = rest.split_first() {
        if opening.direction == direction && is_open(world, direction, opening.name) {
            names.push(opening.name)?;
        }
        rest = later;
    }
    Ok(names)
}

// Whether a transaction is open.
fn is_open(world: &World, direction: Direction, name: Name) -> bool
    ensures { result ≡ is_open (state_shown (sender (history world.now) direction name)) }
{
    match world.sender(direction, name) {
        State::Open => true,
        State::Free | State::Closed => false,
    }
}

// The ten seats, each with its ends of the channels.
#[tactic(auto, using(crate::proofs::SeatLemmas::one_more))]
fn seats(alloc: Global, channels: &Channels) -> Result<Vec<Seat>, AllocError>
    ensures count { IfOk result (λ v. vec_len v ≡ 10) }
    ensures seats { IfOk result (λ v. AreSeats 1 v.items) }
{
    let mut all = Vec::new(alloc);
    for seat in 1..=10 {
        all.push(seat_of(seat, channels)?)?;
    }
    Ok(all)
}

// The seat of this number.
fn seat_of(seat: u8, channels: &Channels) -> Result<Seat, AllocError>
    requires least { 1 ≤ seat }
    requires greatest { seat ≤ 10 }
    ensures { IfOk result (λ it. IsSeat seat it) }
{
    let task = task_of(seat, channels)?;
    Ok(Seat {
        seat,
        task,
        outlets: outlets_of(seat, channels)?,
    })
}

// What the seat of this number does.
fn task_of(seat: u8, channels: &Channels) -> Result<Task, AllocError>
    requires least { 1 ≤ seat }
    requires greatest { seat ≤ 10 }
    ensures { IfOk result (λ task. is_task seat task ≡ true) }
{
    Ok(match seat {
        1 => Task::Lane(Lane::S1, channels.up.from.clone()?),
        2 => Task::Lane(Lane::S2, channels.up.from.clone()?),
        3 => Task::Lane(Lane::G1, channels.down.from.clone()?),
        4 => Task::Lane(Lane::G2, channels.down.from.clone()?),
        5 => Task::Timer(Side::Craft),
        6 => Task::Timer(Side::Ground),
        7 => Task::Worker(Worker::W1, channels.jobs.from.clone()?),
        8 => Task::Worker(Worker::W2, channels.jobs.from.clone()?),
        9 => Task::Sender(Direction::Up, channels.opened_up.from.clone()?),
        _ => Task::Sender(Direction::Down, channels.opened_down.from.clone()?),
    })
}

// Whom the seat of this number notifies. Seats 3, 4 and 6 notify nobody.
fn outlets_of(seat: u8, channels: &Channels) -> Result<Outlets, AllocError>
    requires least { 1 ≤ seat }
    requires greatest { seat ≤ 10 }
    ensures { IfOk result (λ out. AreOutlets seat out) }
{
    match seat {
        1 | 2 => Ok(Outlets {
            packets: Some(channels.down.to.clone()?),
            jobs: Some(channels.jobs.to.clone()?),
            opened: None,
            told: 0,
        }),
        7 | 8 => Ok(Outlets {
            packets: Some(channels.down.to.clone()?),
            jobs: None,
            opened: Some(channels.opened_down.to.clone()?),
            told: 0,
        }),
        5 | 10 => puts_on(&channels.down.to),
        9 => puts_on(&channels.up.to),
        _ => Ok(Outlets::none()),
    }
}

// The notices of a seat that only puts packets.
fn puts_on(packets: &Sender<u64>) -> Result<Outlets, AllocError>
    ensures packets { IfOk result (λ out. is_some out.packets ≡ true) }
    ensures jobs { IfOk result (λ out. out.jobs ≡ None) }
    ensures opened { IfOk result (λ out. out.opened ≡ None) }
    ensures told { IfOk result (λ out. out.told ≡ 0) }
{
    Ok(Outlets {
        packets: Some(packets.clone()?),
        jobs: None,
        opened: None,
        told: 0,
    })
}

//! Notices: how a seat lets others know that there is work. A notice is a hint; what it leads to
//! may be refused.

ghost use Rattle.std.specs.Prelude.{◌≡◌, None, vec_len, OnOk};
ghost use Rattle.lpt_share.specs.Seats.{releases};

use crossbeam_channel::{SendError, Sender};
use lpt_events::{Answer, Applied, Call, Outcome, Reply, SeatLog};
use lpt_packet::Name;
use std::alloc::AllocError;
use std::sync::Wait;

/// Whom a seat notifies of what its calls gave.
#[derive(Drop)]
pub struct Outlets {
    /// The lanes that take the packets that the seat puts on the link, by their numbers.
    pub packets: Option<Sender<u64>>,
    /// The workers, of each job that the seat releases; the number says nothing.
    pub jobs: Option<Sender<u64>>,
    /// The spacecraft's sender, of each transaction that the seat opens.
    pub opened: Option<Sender<Name>>,
    /// Of how many of the seat's calls they were notified.
    pub told: usize,
}

impl Outlets {
    /// Notifies nobody.
    pub fn none() -> Outlets
        ensures packets { result.packets ≡ None }
        ensures jobs { result.jobs ≡ None }
        ensures opened { result.opened ≡ None }
        ensures told { result.told ≡ 0 }
    {
        Outlets {
            packets: None,
            jobs: None,
            opened: None,
            told: 0,
        }
    }

    /// Notifies of the calls of a log that weren't notified yet. The only error is out of memory.
    pub fn tell_of<R: Wait>(&mut self, rt: &R, log: &SeatLog) -> Result<(), AllocError>
        ensures told { OnOk result (self.new.told ≡ vec_len log.now.calls) }
        ensures packets { self.new.packets ≡ self.old.packets }
        ensures jobs { self.new.jobs ≡ self.old.jobs }
        ensures opened { self.new.opened ≡ self.old.opened }
    {
        for call in log.calls.get(self.told..).unwrap_or(&[]) {
            self.tell(rt, call)?;
        }
        self.told = log.calls.len();
        Ok(())
    }

    // Notifies of a call.
    fn tell<R: Wait>(&self, rt: &R, call: &Call) -> Result<(), AllocError> {
        if let Some(packets) = &self.packets {
            tell_packets(rt, packets, &call.reply)?;
        }
        if let Some(jobs) = &self.jobs {
            if releases(call.reply.answer) {
                send(rt, jobs, 0)?;
            }
        }
        if let Some(opened) = &self.opened {
            if let Answer::Applied(Applied::Done(Some(name))) = call.reply.answer {
                send(rt, opened, name)?;
            }
        }
        Ok(())
    }
}

// Notifies of each packet that was put.
fn tell_packets<R: Wait>(rt: &R, packets: &Sender<u64>, reply: &Reply) -> Result<(), AllocError> {
    if let Some(puts) = reply.puts {
        for k in 0..puts.count {
            send(rt, packets, puts.first.saturating_add(k))?;
        }
    }
    Ok(())
}

// Whether an answer says that a message was released.
fn releases(answer: Answer) -> bool
    ensures { result ≡ releases answer }
{
    match answer {
        Answer::Delivered(Outcome::Released(_, _)) => true,
        Answer::Delivered(Outcome::PlainReleased(_)) => true,
        _ => false,
    }
}

/// Gives a notice. Nobody may be left to take it; the only error is out of memory.
pub fn send<T: Drop, R: Wait>(rt: &R, to: &Sender<T>, notice: T) -> Result<(), AllocError> {
    match to.send(rt, notice) {
        Ok(()) => Ok(()),
        Err(SendError::Disconnected(_notice)) => Ok(()),
        Err(SendError::OutOfMemory(_notice)) => Err(AllocError),
    }
}

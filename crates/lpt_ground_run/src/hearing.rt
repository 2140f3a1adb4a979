//! A thread that reads what comes down, and the ear to which it hands the packets over.

ghost use Rattle.std.specs.Prelude.{◌≡◌, [], ℕ, List, Option, None, true, IfSome};
ghost use Rattle.lpt_ground_run.specs.Counts.{AreCounted};
ghost use Rattle.lpt_ground_run.specs.Halts.{Rises};
ghost use Rattle.lpt_ground_run.specs.Handing.{IsNamed, IsPacketOf};

use crate::Halt;
use crate::counts::RunCounts;
use crate::cutting::Cutting;
use crate::downlink::{Came, Cuts, Downlink, read_all};
use crate::standing::Standing;
use crossbeam_channel::{Receiver, RecvTimeoutError, Sender, unbounded};
use lpt_ground::{Asked, Ear, Terms, Waited};
use lpt_packet::Octets;
use lpt_text::{Sink, Source, StreamFault};
use std::alloc::Global;
use std::marker::Brand;
use std::sync::Wait;
use std::thread::{Builder, Threads};
use std::time::{Clock, Duration, Instant};
use thiserror::Error;

/// Why nothing can be heard.
#[derive(Clone, Copy, Debug, PartialEq, Eq, Error)]
pub enum HearFault {
    /// The thread that reads couldn't be started.
    #[error("a thread couldn't be started")]
    NoThread,
    /// Out of memory.
    #[error("out of memory")]
    Memory,
}

/// Is told how far a pass is.
pub trait Notes {
    /// Is told, before each round and once the pass is at its end, what was counted and what became
    /// of its requests. It answers whether the pass may go on.
    fn keep(&mut self, counts: RunCounts, asked: &[Asked]) -> bool;
}

/// An ear at what another thread reads.
#[derive(Drop)]
pub struct Hearing<R: Wait + Clock + Drop, N: Notes + Drop, J: Downlink = Brand> {
    rt: R,
    from: Receiver<Came<J>>,
    // How long no report comes until a wait is over.
    wait: Duration,
    // Whose reports these are.
    terms: Terms,
    notes: N,
    // Why nothing more will come, if it isn't the end of what comes down.
    fault: Option<StreamFault>,
    // Where what came ended, if it has, and how many octets were passed over before.
    halt: Option<Halt>,
    strays: u64,
    // How far it has come, and which length is believed.
    standing: Standing,
    longest: usize,
    // What was counted since it was asked last.
    counts: RunCounts,
}

impl<R, N, J> Hearing<R, N, J>
where
    R: Threads + Wait + Clock + Copy + Drop + Send + 'static,
    N: Notes + Drop,
    J: Downlink + Send + 'static,
{
    /// Starts a thread that reads this source, and hears what it hands over. It reads up to octets
    /// with which no packet begins, or, if it resumes, to the source's end. A wait is over once no
    /// report under these terms has come for so many milliseconds, whatever else comes.
    ///
    /// The thread isn't joined: it ends with its source, with the process, or once it has a packet
    /// to hand over and this is gone. Errors: `NoThread`, `Memory`.
    pub fn begin<S: Source + Drop + Send + 'static>(
        rt: &R,
        alloc: Global,
        source: S,
        cutting: Cutting,
        wait: u32,
        terms: Terms,
        notes: N,
    ) -> Result<Self, HearFault>
        requires { IsNamed J.octets J.longest (S.remaining source) cutting.longest }
    {
        let Ok((to, from)) = unbounded(alloc) else {
            return Err(HearFault::Memory);
        };
        let Ok(other) = to.clone() else {
            return Err(HearFault::Memory);
        };
        let reader = *rt;
        let read = move || -> ()
            requires { IsNamed J.octets J.longest (S.remaining source) cutting.longest }
        { read_all(reader, alloc, source, cutting, (to, other)) };
        match Builder::new().spawn(rt, read) {
            Ok(_) => Ok(Hearing {
                rt: *rt,
                from,
                wait: Duration::from_millis(u64::from(wait)),
                terms,
                notes,
                fault: None,
                halt: None,
                strays: 0,
                standing: Standing::new(alloc),
                longest: cutting.longest,
                counts: RunCounts::new(),
            }),
            Err(_) => Err(HearFault::NoThread),
        }
    }
}

impl<R: Wait + Clock + Drop, N: Notes + Drop, J: Downlink> Hearing<R, N, J> {
    /// Its notes.
    pub fn notes(&mut self) -> &mut N {
        &mut self.notes
    }

    /// Waits for reports under these terms from now on.
    pub fn hear_under(&mut self, terms: Terms)
        ensures { self.new.terms ≡ terms }
    {
        self.terms = terms;
    }

    /// Why nothing more will come, if what comes down isn't at its end: a read failed, or memory
    /// ran out.
    pub fn fault(&self) -> Option<StreamFault>
        ensures { result ≡ self.now.fault }
    {
        self.fault
    }

    /// Where what came ended, once it has: up to there each packet was heard. None as well if
    /// `fault` says why.
    pub fn halt(&self) -> Option<Halt>
        ensures { result ≡ self.now.halt }
    {
        self.halt
    }

    /// How many octets were passed over in front of what was heard, since no packet begins with
    /// them: none if it doesn't resume. 2^64 - 1 stands for more, too.
    pub fn strays(&self) -> u64
        ensures { result ≡ self.now.strays }
    {
        self.strays
    }

    /// The packet within which what came stands, if that isn't at its end.
    pub fn within(&self) -> Option<Halt> {
        match (self.halt, self.fault) {
            (None, None) => self.standing.within(self.longest),
            _ => None,
        }
    }

    // Takes what came: the packet, if it is one.
    fn packet_of(&mut self, came: Came<J>) -> Option<Octets>
        ensures { IfSome result (IsPacketOf J.longest J.octets) }
    {
        match came {
            Came::Read(octets) => self.standing.read(octets.as_slice()),
            Came::Packet(packet, cuts) => {
                self.take_cuts(cuts);
                return Some(packet.into_octets());
            }
            Came::Passed(cuts) => self.take_cuts(cuts),
            Came::Halt(halt, cuts) => {
                self.take_cuts(cuts);
                self.halt = Some(halt);
            }
            Came::Fault(fault) => self.fault = Some(fault),
        }
        None
    }

    // Notes how far all is cut.
    fn take_cuts(&mut self, cuts: Cuts) {
        self.strays = cuts.strays;
        self.standing.cut(cuts.place, cuts.in_step);
    }

    // Whether nothing more comes.
    fn is_over(&self) -> bool {
        self.halt.is_some() || self.fault.is_some()
    }

    /// What was counted since this was asked last.
    pub fn counts(&mut self) -> RunCounts
        ensures counts { result ≡ self.old.counts }
        ensures anew { AreCounted self.new.counts [] 0 }
    {
        let counts = self.counts;
        self.counts = RunCounts::new();
        counts
    }

    /// Tells the notes how a pass has ended, and answers whether they could keep that.
    pub fn tell_end(&mut self, asked: &[Asked]) -> bool {
        self.notes.keep(self.counts, asked)
    }

    /// Hears on until what comes down is at its end, or for one wait, and passes over what comes.
    pub fn hear_out(&mut self) {
        let Ok(now) = Instant::now(&self.rt) else {
            return;
        };
        let Some(deadline) = now.checked_add(self.wait) else {
            return;
        };
        for _ in 0..u64::MAX {
            match self.from.recv_deadline(&self.rt, deadline) {
                Ok(came) => drop(self.packet_of(came)),
                Err(_) => return,
            }
        }
    }
}

impl<R: Wait + Clock + Drop, N: Notes + Drop, J: Downlink> Ear for Hearing<R, N, J> {
    ghost told = { λ _. None };

    ghost comes = { IsPacketOf J.longest J.octets };

    ghost is_kept = { λ _. true };

    fn ready(&mut self) -> Option<Octets> {
        for _ in 0..u64::MAX {
            let Ok(came) = self.from.try_recv(&self.rt) else {
                break;
            };
            if let Some(octets) = self.packet_of(came) {
                self.counts.count_down();
                return Some(octets);
            }
        }
        self.counts.count_up();
        None
    }

    fn wait<K: Sink>(&mut self, out: &K) -> Waited {
        let Some(deadline) = end_of_wait(&self.rt, self.wait) else {
            return Waited::Quiet;
        };
        for _ in 0..u64::MAX {
            let came = match self.from.recv_deadline(&self.rt, deadline) {
                Ok(came) => came,
                Err(RecvTimeoutError::Timeout) => return Waited::Quiet,
                Err(RecvTimeoutError::Disconnected) => return Waited::End,
            };
            let packet = self.packet_of(came);
            if self.is_over() {
                return Waited::End;
            }
            let Some(octets) = packet else {
                continue;
            };
            self.counts.count_down();
            // What is no report of the pass says nothing of it, and the wait goes on.
            if is_report(self.terms, &octets) {
                return Waited::Packet(octets);
            }
        }
        Waited::Quiet
    }

    fn keep(&mut self, asked: &[Asked]) -> bool {
        self.counts.begin_round();
        self.notes.keep(self.counts, asked)
    }
}

// When a wait of this length is over that begins now, if the clock can be read.
fn end_of_wait(clock: &impl Clock, wait: Duration) -> Option<Instant> {
    let now = Instant::now(clock).ok()?;
    now.checked_add(wait)
}

// Whether a packet is a report under these terms.
fn is_report(terms: Terms, packet: &Octets) -> bool {
    terms.report_of(packet.as_slice()).is_some()
}

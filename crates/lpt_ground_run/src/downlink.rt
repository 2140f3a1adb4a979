//! What comes down, the thread that reads it, and what that hands over.

ghost use Rattle.std.specs.Prelude.{◌≡◌, None};
ghost use Rattle.lpt_ground_run.specs.Handing.{IsNamed, IsPacketOf};

use crate::Halt;
use crate::cutting::{Cutting, Outlet, hand_packets};
use crossbeam_channel::Sender;
use lpt_packet::Octets;
use lpt_text::{Source, StreamFault};
use std::alloc::Global;
use std::marker::{Brand, Model, PhantomData};
use std::sync::Wait;

/// The octets that come down, and how many of them the longest packet has, if a type names them: a
/// function that is generic in it may require that a source gives just these, and knows then that
/// each packet that comes is one of theirs.
pub trait Downlink {
    ghost use Rattle.std.specs.Prelude.{ℕ, List, Option};

    ghost octets: { Option (List ℕ) };

    ghost longest: { ℕ };
}

impl Downlink for Brand {
    ghost use Rattle.std.specs.Prelude.{None};

    ghost octets = { None };

    ghost longest = { 0 };
}

// A packet that came down.
#[derive(Drop)]
pub(crate) struct Packet<J: Downlink> {
    octets: Octets,
    of: PhantomData<J>,
}

impl<J: Downlink> Model for Packet<J> {
    ghost use Rattle.std.specs.Prelude.{ℕ, List};
    ghost use Rattle.lpt_ground_run.specs.Handing.{IsPacketOf};

    ghost Value = { List ℕ };

    ghost view = { λ p. p.octets };

    ghost invariant = { λ p. IsPacketOf J.longest J.octets p.octets };
}

impl<J: Downlink> Packet<J> {
    // A packet of these octets.
    fn new(octets: Octets) -> Packet<J>
        requires { IsPacketOf J.longest J.octets octets }
        ensures { result ≡ octets }
    {
        Packet {
            octets,
            of: PhantomData,
        }
    }

    // Its octets.
    pub(crate) fn into_octets(self) -> Octets
        ensures same { result ≡ self }
        ensures comes { IsPacketOf J.longest J.octets result }
    {
        let Packet { octets, of: _ } = self;
        octets
    }
}

// How far the thread that reads has cut what it read.
#[derive(Clone, Copy)]
pub(crate) struct Cuts {
    // How many octets were passed over, and up to which place all is cut.
    pub(crate) strays: u64,
    pub(crate) place: u64,
    // Whether that is right behind a packet.
    pub(crate) in_step: bool,
}

// Nothing is cut yet.
const BEGUN: Cuts = Cuts {
    strays: 0,
    place: 0,
    in_step: true,
};

// What the thread that reads hands over.
#[derive(Drop)]
pub(crate) enum Came<J: Downlink> {
    // What it read.
    Read(Vec<u8>),
    // A packet, and how far all is cut behind it.
    Packet(Packet<J>, Cuts),
    // How far it is behind a damaged packet, or the first octet of several that are passed over.
    Passed(Cuts),
    // Where the last of them ended, and how far all is cut.
    Halt(Halt, Cuts),
    // Why nothing more will come.
    Fault(StreamFault),
}

// The end of the channel at which the thread hands over.
#[derive(Drop)]
struct Handing<R: Wait + Drop, J: Downlink> {
    rt: R,
    to: Sender<Came<J>>,
    // Whether somebody takes what is handed over.
    open: bool,
    cuts: Cuts,
}

impl<R: Wait + Drop, J: Downlink> Outlet for Handing<R, J> {
    ghost may = { IsPacketOf J.longest J.octets };

    ghost handed = { λ _. None };

    ghost strays = { λ handing. handing.cuts.strays };

    ghost is_open = { λ handing. handing.«open» };

    fn hand(&mut self, packet: Octets) -> bool {
        self.cuts.place = self
            .cuts
            .place
            .saturating_add(packet.as_slice().len() as u64);
        self.cuts.in_step = true;
        let came = Came::Packet(Packet::new(packet), self.cuts);
        self.open = self.to.send(&self.rt, came).is_ok();
        self.open
    }

    fn pass(&mut self) {
        self.cuts.strays = self.cuts.strays.saturating_add(1);
        self.cuts.place = self.cuts.place.saturating_add(1);
        if self.cuts.in_step {
            self.cuts.in_step = false;
            let _ = self.to.send(&self.rt, Came::Passed(self.cuts));
        }
    }

    fn skip(&mut self, octets: usize) {
        self.cuts.place = self.cuts.place.saturating_add(octets as u64);
        self.cuts.in_step = true;
        let _ = self.to.send(&self.rt, Came::Passed(self.cuts));
    }
}

// A source that hands over what it reads, too.
#[derive(Drop)]
struct Overheard<R: Wait + Drop, J: Downlink, S: Drop> {
    rt: R,
    alloc: Global,
    to: Sender<Came<J>>,
    source: S,
}

impl<R: Wait + Drop, J: Downlink, S: Source + Drop> Source for Overheard<R, J, S> {
    ghost remaining = { λ overheard. S.remaining overheard.source };

    ghost failed = { λ overheard. S.failed overheard.source };

    fn read(&mut self, buf: &mut [u8]) -> Option<usize> {
        let given = self.source.read(buf)?;
        if let Ok(octets) = Vec::from_slice(self.alloc, &buf[..given]) {
            let _ = self.to.send(&self.rt, Came::Read(octets));
        }
        Some(given)
    }
}

// Hands over what this source gives, cut into packets, and then why it gave no more.
pub(crate) fn read_all<R: Wait + Copy + Drop, J: Downlink, S: Source + Drop>(
    rt: R,
    alloc: Global,
    source: S,
    cutting: Cutting,
    ends: (Sender<Came<J>>, Sender<Came<J>>),
)
    requires named { IsNamed J.octets J.longest (S.remaining source) cutting.longest }
{
    let (to, other) = ends;
    let mut overheard = Overheard {
        rt,
        alloc,
        to: other,
        source,
    };
    let mut handing = Handing {
        rt,
        to,
        open: true,
        cuts: BEGUN,
    };
    let last = match hand_packets(alloc, &mut overheard, &mut handing, cutting) {
        Ok(halt) => Came::Halt(halt, handing.cuts),
        Err(fault) => Came::Fault(fault),
    };
    let _ = handing.to.send(&handing.rt, last);
}

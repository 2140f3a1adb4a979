//! What a world shows: its journal, and what follows from that.

ghost use Rattle.std.specs.Prelude.{◌≡◌, ◌-◌, length, slice_get, IfOk};
ghost use Rattle.std.specs.Option.{option_map, option_copied};
ghost use Rattle.lpt_journal.specs.Hands.{hand};
ghost use Rattle.lpt_journal.specs.Headline.{EachIsLastOpened, AtMostOncePerOpening, EachWasAsked, EachIsOfGround, MemoriesFollow};
ghost use Rattle.lpt_journal.specs.Jobs.{jobs, jobs_claimed, jobs_applied, ticket};
ghost use Rattle.lpt_journal.specs.Link.{sent, is_held};
ghost use Rattle.lpt_journal.specs.Receivers.{clock};
ghost use Rattle.lpt_journal.specs.Releases.{releases};
ghost use Rattle.lpt_journal.specs.Senders.{opened, sender};
ghost use Rattle.lpt_journal.specs.Whole.{WholeIsReleased};
ghost use Rattle.lpt_memory.specs.Memories.{content_of, sizes_of};
ghost use Rattle.lpt_events.specs.Configs.{IsConfig};
ghost use Rattle.lpt_world.specs.Worlds.{IsTold, Promised, history, memories_now, state_shown};

use crate::World;
use lpt_events::{Config, Entry, Lane, Opening, Release, Side, Worker};
use lpt_ledger::State;
use lpt_memory::Shape;
use lpt_packet::{Direction, Name};
use std::alloc::AllocError;

impl World {
    /// All accepted events, the oldest first, each of a seat from 0 to 10. Each could happen after
    /// those before it, and has the reply that it gives then. Each large message released under a
    /// name is byte for byte the one last opened under it by the other node, at most once per
    /// opening. The memories are their first content, changed by the executed requests in order of
    /// release, each of which was sent by ground, released by the spacecraft and executed once.
    /// What expired or was broken off is never released, all else that came whole is, and what was
    /// released is never heard again. No request is executed in another boot than that of its
    /// release.
    pub fn journal(&self) -> &[Entry]
        ensures shown { result.now ≡ self.now.journal }
        ensures told { IsTold self.now.config self.now.first self.now.journal }
        ensures configured { IsConfig self.now.config }
        // What holds of every journal, whatever the link did and the nodes were asked.
        ensures promised { Promised self.now }
    {
        self.journal.as_slice()
    }

    /// All openings, in order of place.
    pub fn opened(&self) -> &[Opening]
        ensures { result.now ≡ opened (history self.now) }
    {
        self.system.opened.as_slice()
    }

    /// All releases, in order of place. Each large message is byte for byte the one last opened
    /// under its name by the other node, at most once per opening. Each plain request is the packet
    /// of one that ground had asked for.
    ///
    /// None that came whole is withheld: what was last opened under a name is among them if each of
    /// its parts was delivered since then, and since its receiver was last restarted, while there
    /// was room, unless its reception expired or was broken off.
    pub fn released(&self) -> &[Release]
        ensures all { result.now ≡ releases self.now.config (history self.now) }
        ensures last_opened { EachIsLastOpened self.now.config (history self.now) }
        ensures once { AtMostOncePerOpening self.now.config (history self.now) }
        ensures asked { EachWasAsked self.now.config (history self.now) }
        ensures none_withheld { WholeIsReleased self.now.config (history self.now) }
    {
        self.system.released.as_slice()
    }

    /// The octets of the packet of this number, whether the link still holds it or not; none if
    /// fewer packets were put.
    pub fn packet(&self, n: u64) -> Option<&[u8]>
        ensures { option_copied result
            ≡ option_map (λ p. p.octets) (slice_get (sent (history self.now)) n) }
    {
        self.system.link.packet(n)
    }

    /// The octets of a memory now: its first content, changed by the requests that were executed,
    /// in the order in which the spacecraft released them. Each of these is a plain one that ground
    /// had asked for, or the message last opened upwards under its name. None if there is no
    /// such memory.
    pub fn memory(&self, id: u8) -> Option<&[u8]>
        ensures content { option_map (λ x. x.now) result ≡ content_of id (memories_now self.now) }
        ensures follow { MemoriesFollow self.now.config self.now.first (history self.now) }
        ensures of_ground { EachIsOfGround self.now.config (history self.now) }
    {
        self.system.memories.content(id)
    }

    /// The octets that a memory had first, or none if there is no such memory.
    pub fn first(&self, id: u8) -> Option<&[u8]>
        ensures { option_map (λ x. x.now) result ≡ content_of id self.now.first }
    {
        self.first.content(id)
    }

    /// The identifiers and sizes of the memories, for which requests are prepared.
    ///
    /// The only error is out of memory.
    pub fn shape(&self) -> Result<Shape, AllocError>
        ensures { IfOk result (λ s. s ≡ sizes_of self.now.first) }
    {
        self.first.shape()
    }

    /// The configuration, whose numbers are in their ranges.
    pub fn config(&self) -> Config
        ensures shown { result ≡ self.now.config }
        ensures configured { IsConfig result }
    {
        self.system.config
    }

    /// How many packets were put on the link so far; they are numbered from 0.
    pub fn packets(&self) -> u64
        ensures { result ≡ length (sent (history self.now)) }
    {
        self.system.link.packets()
    }

    /// Whether the link holds the packet of this number: it was put, and isn't lost.
    pub fn is_held(&self, n: u64) -> bool
        ensures { result ≡ is_held (history self.now) n }
    {
        self.system.link.is_held(n)
    }

    /// The number of the packet in a lane's hand, if there is one.
    pub fn hand(&self, lane: Lane) -> Option<u64>
        ensures { result ≡ hand (history self.now) lane }
    {
        self.system.link.hand(lane)
    }

    /// The state of a transaction at the node that sends in this direction.
    pub fn sender(&self, direction: Direction, name: Name) -> State
        ensures { result ≡ state_shown (sender (history self.now) direction name) }
    {
        self.system.sender(direction, name)
    }

    /// The clock of a node, in ticks.
    pub fn clock(&self, side: Side) -> u32
        ensures { result ≡ clock self.now.config (history self.now) side }
    {
        self.system.clock(side)
    }

    /// The boot and the number of the job that a worker has claimed and not committed.
    pub fn ticket(&self, worker: Worker) -> Option<(u64, u64)>
        ensures { result
            ≡ option_map (λ t. (t.boot, t.job)) (ticket self.now.config (history self.now) worker) }
    {
        let held = self.system.tickets.get(worker)?;
        Some((held.boot, held.job))
    }

    /// How many jobs of the spacecraft's present boot wait for a worker: each was released, and
    /// none has claimed it.
    pub fn jobs_left(&self) -> u64
        ensures { result
            ≡ length (jobs self.now.config (history self.now)) - jobs_claimed (history self.now) }
    {
        self.system.on_craft.waiting()
    }

    /// How many jobs of the spacecraft's present boot aren't executed yet, claimed and committed
    /// ones among them.
    pub fn jobs_queued(&self) -> u64
        ensures { result
            ≡ length (jobs self.now.config (history self.now)) - jobs_applied (history self.now) }
    {
        self.system.on_craft.jobs_queued()
    }
}

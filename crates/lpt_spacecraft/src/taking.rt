//! What the spacecraft's end makes of a packet.

ghost use Rattle.std.specs.Prelude.{◌≡◌, ◌∷◌, ◌⊎◌, ◌+◌, ◌-◌, ◌<◌, ◌^◌, ℕ, List, ◌++◌, [], true, false, IfErr, IfOk, Ok, OnErr, OnOk, Some, option_map};
ghost use Rattle.lpt_jobs.specs.Jobs.{jobs_numbered};
ghost use Rattle.lpt_jobs.specs.declared.job.Job.TheVariants.{Waiting};
ghost use Rattle.lpt_events.specs.Configs.{IsConfig};
ghost use Rattle.lpt_events.specs.declared.side.Side.TheVariants.{Craft};
ghost use Rattle.lpt_memory.specs.Memories.{content_of};
ghost use Rattle.lpt_memory.specs.Readings.{source_meaning};
ghost use Rattle.lpt_state.specs.Lastings.{IsEnd};
ghost use Rattle.lpt_state.specs.Spellings.{state_spelled};
ghost use Rattle.lpt_state.specs.Verdicts.{reading, StateRefusedBy};
ghost use Rattle.lpt_text.specs.Streams.{WriteEnds};
ghost use Rattle.lpt_spacecraft.specs.Serving.{new_end, packet_taken, request_worked, worked_if};
ghost use Rattle.lpt_spacecraft.specs.Streams.{onboard, Breaks, IsIdle, WaitsFor, Writes};
ghost use Rattle.lpt_spacecraft.specs.Telling.{done_if, taken_in, work_done, written_by};

use crate::Spacecraft;
use crate::told::{Done, Taken};
use crate::writing::{write_all, write_one};
use lpt_events::{Config, Side};
use lpt_memory::{Memories, Reading, prepare};
use lpt_node::{Accepted, Executed, Node};
use lpt_packet::Octets;
use lpt_state::{StateFault, read_state, write_state};
use lpt_text::{Sink, StreamFault};
use std::alloc::{AllocError, Global};

impl Spacecraft {
    /// An end at which nothing has happened, with these memories. The only error is out of memory.
    pub fn new(alloc: Global, config: &Config, memories: Memories) -> Result<Spacecraft, AllocError>
        requires { IsConfig config.now }
        ensures config { IfOk result (λ s. s.config ≡ config.now) }
        ensures new { IfOk result (λ s. onboard s ≡ new_end config.now memories) }
        ensures idle { IfOk result IsIdle }
    {
        let node = Node::new(alloc, Side::Craft, config)?;
        Ok(Spacecraft {
            alloc,
            config: *config,
            node,
            memories,
        })
    }

    /// An end that is read back from the state that was kept of it, over the memories that were
    /// kept with it: what a restart leaves of it.
    ///
    /// Errors: what is wrong with the state; `Memory`.
    pub fn resume(
        alloc: Global,
        config: &Config,
        state: &[u8],
        memories: Memories,
    ) -> Result<Spacecraft, StateFault>
        requires { IsConfig config.now }
        ensures config { IfOk result (λ s. s.config ≡ config.now) }
        ensures node { IfOk result (λ s. reading Craft config.now state.now ≡ Ok s.node) }
        ensures memories { IfOk result (λ s. s.memories ≡ memories) }
        ensures idle { IfOk result IsIdle }
        ensures refused { IfErr result (StateRefusedBy (reading Craft config.now state.now)) }
    {
        let node = read_state(alloc, Side::Craft, config, state)?;
        Ok(Spacecraft {
            alloc,
            config: *config,
            node,
            memories,
        })
    }

    /// Appends the state of the end, without the memories. The only error is out of memory, and
    /// then nothing is appended.
    pub fn write_state(&self, out: &mut Vec<u8>) -> Result<(), AllocError>
        ensures ok { OnOk result (out.new.items ≡ out.old.items ++ state_spelled self.now.node) }
        ensures end { OnOk result (IsEnd self.now.node) }
        ensures err { OnErr result (out.new.items ≡ out.old.items) }
    {
        write_state(&self.node, out)
    }

    /// The octets of a memory, or `None` if there is no such memory.
    pub fn content(&self, id: u8) -> Option<&[u8]>
        ensures { option_map (λ x. x.now) result ≡ content_of id self.now.memories }
    {
        self.memories.content(id)
    }

    /// Whether no more requests can be numbered: 2^64 - 1 were released.
    pub fn is_full(&self) -> bool
        ensures full { result ≡ true → jobs_numbered self.now.node.at.jobs ≡ 2 ^ 64 - 1 }
        ensures room { result ≡ false → jobs_numbered self.now.node.at.jobs + 1 < 2 ^ 64 }
    {
        self.node.jobs() == u64::MAX
    }

    /// Takes a packet, executes what it released, writes what is reported, and answers what became
    /// of them.
    ///
    /// Errors: `Write` if a write failed; `Memory`. The memories are as they were or as the
    /// request leaves them, and a front part of what would be reported stays written.
    pub fn take<K: Sink>(&mut self, octets: &[u8], out: &mut K) -> Result<Taken, StreamFault>
        requires idle { IsIdle self.old }
        requires room { jobs_numbered self.old.node.at.jobs + 1 < 2 ^ 64 }
        ensures ok { OnOk result
            (Writes (packet_taken self.old.config (onboard self.old) octets.now)
            self.new (K.contents out.old) (K.contents out.new)) }
        ensures done { IfOk result (λ t.
            t ≡ taken_in self.old.config (onboard self.old) octets.now) }
        ensures idle { OnOk result (IsIdle self.new) }

        ensures config { self.new.config ≡ self.old.config }

        ensures fault { IfErr result (λ e. (e ≡ StreamFault.Write) ⊎ (e ≡ StreamFault.Memory)) }
        ensures writer { WriteEnds result (K.failed out.old) (K.failed out.new) }
        ensures breaks { IfErr result (λ _. Breaks self.old.memories
            (packet_taken self.old.config (onboard self.old) octets.now) self.new.memories
            (K.contents out.old) (K.contents out.new)) }
    {
        let Ok(accepted) = self.node.accept_octets(octets) else {
            return Err(StreamFault::Memory);
        };
        let Accepted {
            outcome,
            packet,
            released,
        } = accepted;
        match write_one(out, packet) {
            Ok(()) => {}
            Err(fault) => return Err(fault),
        }
        match self.work_if(released, out) {
            Ok(done) => Ok(Taken { outcome, done }),
            Err(fault) => Err(fault),
        }
    }

    // Reads and executes the request that was released, if one was, writes what is reported, and
    // answers what became of it.
    fn work_if<K: Sink>(
        &mut self,
        released: Option<Octets>,
        out: &mut K,
    ) -> Result<Option<Done>, StreamFault>
        requires { WaitsFor released self.old.node.at.jobs.jobs }
        ensures ok { OnOk result (Writes (worked_if self.old.config (onboard self.old) released)
            self.new (K.contents out.old) (K.contents out.new)) }
        ensures done { IfOk result (λ x.
            x ≡ done_if self.old.config (onboard self.old) released) }
        ensures idle { OnOk result (IsIdle self.new) }

        ensures config { self.new.config ≡ self.old.config }

        ensures fault { IfErr result (λ e. (e ≡ StreamFault.Write) ⊎ (e ≡ StreamFault.Memory)) }
        ensures writer { WriteEnds result (K.failed out.old) (K.failed out.new) }
        ensures breaks { IfErr result (λ _. Breaks self.old.memories
            (worked_if self.old.config (onboard self.old) released) self.new.memories
            (K.contents out.old) (K.contents out.new)) }
    {
        match released {
            None => Ok(None),
            Some(_) => match self.work(out) {
                Ok(done) => Ok(Some(done)),
                Err(fault) => Err(fault),
            },
        }
    }

    // Reads and executes the request that waits, writes what is reported, and answers what became
    // of it.
    fn work<K: Sink>(&mut self, out: &mut K) -> Result<Done, StreamFault>
        requires { (m : List ℕ) × (self.old.node.at.jobs.jobs ≡ Waiting m ∷ []) }
        ensures ok { OnOk result
            (Writes (request_worked self.old.config (onboard self.old)) self.new
            (K.contents out.old) (K.contents out.new)) }
        ensures done { IfOk result (λ x. x ≡ work_done self.old.config (onboard self.old)) }
        ensures idle { OnOk result (IsIdle self.new) }

        ensures config { self.new.config ≡ self.old.config }

        ensures fault { IfErr result (λ e. (e ≡ StreamFault.Write) ⊎ (e ≡ StreamFault.Memory)) }
        ensures writer { WriteEnds result (K.failed out.old) (K.failed out.new) }
        ensures breaks { IfErr result (λ _. Breaks self.old.memories
            (request_worked self.old.config (onboard self.old)) self.new.memories
            (K.contents out.old) (K.contents out.new)) }
    {
        let Ok(shape) = self.memories.shape() else {
            return Err(StreamFault::Memory);
        };
        let Ok(ticket) = self.node.claim() else {
            unreachable!()
        };
        let (boot, job) = (ticket.boot(), ticket.job());
        let reading = match prepare(self.alloc, &shape, self.config.apid, ticket) {
            Ok(prepared) => prepared.reading(),
            Err(ticket) => {
                ticket.abandon();
                return Err(StreamFault::Memory);
            }
        };
        let wrote = written_by(&reading);
        self.node.commit(boot, job, reading);
        let Ok(executed) = self.node.apply_front(&mut self.memories) else {
            return Err(StreamFault::Memory);
        };
        let Executed {
            applied,
            packets,
            opened,
        } = executed;
        let reports = packets.len();
        match write_all(out, packets.as_slice()) {
            Ok(()) => {}
            Err(fault) => return Err(fault),
        }
        match self.send_opened(opened, out) {
            Ok(sent) => Ok(Done {
                applied,
                reports,
                sent,
                wrote,
            }),
            Err(fault) => Err(fault),
        }
    }
}

// The memory that a message writes to, if it does.
fn written_by(reading: &Reading) -> Option<u8>
    ensures { result ≡ written_by (source_meaning reading.now) }
{
    let access = reading.access(0)?;
    if access.is_write {
        Some(access.memory)
    } else {
        None
    }
}

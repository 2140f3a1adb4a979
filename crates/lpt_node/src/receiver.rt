//! What receives at one end: the state of each name, and the open receptions.

ghost use Rattle.std.specs.Prelude.{◌≡◌, ◌+◌, ◌<◌, ◌^◌, [], true, if◌then◌else◌, IsTrue, is_some, IfSome, IfOk, OnOk, OnErr};
ghost use Rattle.std.specs.FinMap as map;
ghost use Rattle.std.specs.Option.{option_map};
ghost use Rattle.lpt_part.specs.declared.reason.Reason.TheVariants as why;
ghost use Rattle.lpt_part.specs.Parts.{piece};
ghost use Rattle.lpt_events.specs.NamedParts.{part_named};
ghost use Rattle.lpt_pus.specs.Telemetry.{telemetry, as_written};
ghost use Rattle.lpt_ledger.specs.States.{state_at};
ghost use Rattle.lpt_table.specs.Deadlines.{due_of};
ghost use Rattle.lpt_table.specs.SettingBack.{reaches_back, set_back};
ghost use Rattle.lpt_table.specs.Tables.{IsTableSize};
ghost use Rattle.lpt_jobs.specs.Jobs.{jobs_numbered};
ghost use Rattle.lpt_node.specs.Receivers.{abort_report, reception_ended, grows, part_received, table_in, IsSameReceiver, IsShort};
ghost use Rattle.lpt_node.specs.Receiving.{jobs_after};
ghost use Rattle.lpt_node.specs.Restarts.{NoneOpen};

use crate::ending::{abort, break_off, close_reported, release};
use crate::receipt::Receipt;
use crate::restart::free;
use lpt_events::Side;
use lpt_jobs::JobQueue;
use lpt_ledger::{Ledger, State};
use lpt_packet::{Name, Octets};
use lpt_part::{Mode, Part, Reason};
use lpt_pus::TmHead;
use lpt_table::laws::{put_back_undoes, set_back_keeps_times};
use lpt_table::{Offer, Table};
use std::alloc::{AllocError, Global};
use std::marker::Model;

/// The receptions that are open at one end, and the names of those that have ended.
///
/// A name is closed in the ledger when its reception ends, and is never open there.
#[derive(Drop)]
pub(crate) struct Receiver {
    alloc: Global,
    ledger: Ledger,
    table: Table,
}

impl Model for Receiver {
    ghost use Rattle.lpt_node.specs.Receivers.{ReceiverState, coded_receiver};

    ghost Value = { ReceiverState };

    ghost coded = { coded_receiver };

    ghost use Rattle.lpt_node.specs.Receivers.{IsReceiver};

    ghost view = { λ a. record {
      limit = a.table.limit;
      timeout = a.table.timeout;
      p = a.table.p;
      mode = a.table.mode;
      ledger = a.ledger;
      entries = a.table.entries;
    } };

    ghost invariant = { λ a. IsReceiver a.ledger a.table };
}

impl Receiver {
    /// A receiver that knows these names, with places for `limit` receptions, of which none is
    /// open. The only error is out of memory.
    pub(crate) fn new(
        alloc: Global,
        ledger: Ledger,
        limit: u32,
        timeout: u32,
        p: u32,
        mode: Mode,
    ) -> Result<Receiver, AllocError>
        requires sizes { IsTableSize limit timeout p }
        requires closed { NoneOpen ledger }
        ensures { IfOk result (λ r. r ≡ record {
          limit = limit;
          timeout = timeout;
          p = p;
          mode = mode;
          ledger = ledger;
          entries = map.empty;
        }) }
    {
        let table = Table::new(alloc, limit, timeout, p, mode)?;
        Ok(Receiver {
            alloc,
            ledger,
            table,
        })
    }

    /// The names, closed if a reception has ended, and never open.
    pub(crate) fn ledger(&self) -> &Ledger
        ensures names { result.now ≡ self.now.ledger }
        ensures none_open { NoneOpen result.now }
    {
        &self.ledger
    }

    /// Whether a reception of this name is open.
    pub(crate) fn is_open(&self, name: Name) -> bool
        ensures open { result ≡ is_some (map.get self.now.entries name) }

        // The name of an open reception is free.
        ensures free { IsTrue result → state_at self.now.ledger name ≡ State.Free }
    {
        self.table.is_open(name)
    }

    /// The state of a name, which is open while a reception is.
    pub(crate) fn state(&self, name: Name) -> State
        ensures { result ≡ if is_some (map.get self.now.entries name) then State.Open
            else state_at self.now.ledger name }
    {
        if self.table.is_open(name) {
            State::Open
        } else {
            self.ledger.state(name)
        }
    }

    /// The open receptions.
    pub(crate) fn table(&self) -> &Table
        ensures { result.now ≡ table_in self.now }
    {
        &self.table
    }

    /// The name of the reception that is due at this tick.
    pub(crate) fn due(&self, now: u32) -> Option<Name>
        ensures due { result ≡ due_of (table_in self.now) now }
        ensures open { IfSome result (λ name. is_some (map.get self.now.entries name) ≡ true) }
    {
        self.table.due(now)
    }

    /// Takes a part that came from this source, or to it, at this tick. A message that is whole is
    /// joined and its reception ended; at the spacecraft it becomes a job. One that is broken off
    /// is ended with a report of it, if reports have a head.
    ///
    /// The only error is out of memory, and then nothing has changed.
    pub(crate) fn accept(
        &mut self,
        side: Side,
        jobs: &mut JobQueue,
        head: Option<TmHead>,
        source: u16,
        part: &Part<'_>,
        now: u32,
    ) -> Result<Receipt, AllocError>
        requires p { part.now.p ≡ self.old.p }
        requires numbers { jobs_numbered jobs.old + 1 < 2 ^ 64 }
        ensures ok { IfOk result (λ t. (self.new, t)
            ≡ part_received (option_map (λ h. as_written (telemetry h [])) head) self.old
            (part_named source (piece part.now)) now) }
        ensures jobs { IfOk result (λ t. jobs.new ≡ jobs_after side jobs.old t) }
        ensures short { IfOk result IsShort }

        ensures same { IsSameReceiver self.old self.new }

        // Memory runs out only if some is taken.
        ensures memory { OnErr result
            (grows (part_received (option_map (λ h. as_written (telemetry h [])) head) self.old
            (part_named source (piece part.now)) now).1 ≡ true) }
        ensures err { OnErr result (self.new ≡ self.old) }
        ensures no_job { OnErr result (jobs.new ≡ jobs.old) }
    {
        let name = Name {
            source,
            id: part.id,
        };
        if self.ledger.state(name) != State::Free {
            return Ok(Receipt::Closed);
        }
        put_back_undoes();
        match self.table.offer(source, part, now) {
            Offer::Kept => Ok(Receipt::Kept),
            Offer::Again => Ok(Receipt::Again),
            Offer::NoRoom => Ok(Receipt::NoRoom),
            Offer::Memory => Err(AllocError),
            Offer::Whole(whole) => {
                release(side, jobs, &mut self.ledger, &mut self.table, name, whole)
            }
            Offer::Gap => break_off(self.alloc, &mut self.ledger, head, name),
            Offer::Conflict(broken) => {
                abort(
                    self.alloc,
                    &mut self.ledger,
                    &mut self.table,
                    head,
                    name,
                    broken,
                )
            }
        }
    }

    /// Ends an open reception for its age, with a report of it, if reports have a head.
    ///
    /// The only error is out of memory, and then nothing has changed.
    pub(crate) fn expire(
        &mut self,
        head: Option<TmHead>,
        name: Name,
    ) -> Result<Option<Octets>, AllocError>
        requires { is_some (map.get self.old.entries name) ≡ true }
        ensures report { IfOk result (λ o. o
            ≡ abort_report (option_map (λ h. as_written (telemetry h [])) head) name why.Expired) }
        ensures ended { OnOk result (self.new ≡ reception_ended self.old name) }

        ensures same { IsSameReceiver self.old self.new }

        ensures err { OnErr result (self.new ≡ self.old) }
    {
        let report = close_reported(self.alloc, &mut self.ledger, head, name, Reason::Expired)?;
        self.table.expire(name);
        Ok(report)
    }

    /// Whether no reception took its last part before so many ticks.
    pub(crate) fn reaches_back(&self, ticks: u32) -> bool
        ensures { result ≡ reaches_back ticks self.now.entries }
    {
        self.table.reaches_back(ticks)
    }

    /// Sets the last tick of each reception back by so many, which none of them is below.
    pub(crate) fn set_back(&mut self, ticks: u32)
        requires { IsTrue (reaches_back ticks self.old.entries) }
        ensures { self.new ≡ record self.old { entries = set_back ticks self.old.entries } }
    {
        set_back_keeps_times();
        self.table.set_back(ticks);
    }

    /// Makes a name free.
    pub(crate) fn retire(&mut self, name: Name)
        ensures { self.new ≡ record self.old { ledger = map.remove self.old.ledger name } }
    {
        free(&mut self.ledger, name);
    }

    /// Drops all open receptions. What is closed stays so.
    pub(crate) fn clear(&mut self)
        ensures { self.new ≡ record self.old { entries = map.empty } }
    {
        self.table.clear_all();
    }
}

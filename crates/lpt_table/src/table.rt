//! The table of open receptions.

ghost use Rattle.std.specs.Prelude.{◌≡◌, ◌<◌, ℕ, IfOk, IfSome, IsSome, IsSomeAnd, IsTrue, None, Some, is_some};
ghost use Rattle.std.specs.FinMap as map;
ghost use Rattle.std.specs.Option.{option_map};
ghost use Rattle.lpt_packet.specs.Names.{named_by};
ghost use Rattle.lpt_reception.specs.Steps.{part_kept};
ghost use Rattle.lpt_reception.specs.Received.{is_gap, no_parts};
ghost use Rattle.lpt_table.specs.Deadlines.{IsDue, due_of};
ghost use Rattle.lpt_table.specs.Offering.{TakesOut, is_open, part_offered, put_back, received_at, with_entry};
ghost use Rattle.lpt_table.specs.SettingBack.{reaches_back, table_back};
ghost use Rattle.lpt_table.specs.Tables.{IsTableSize, no_receptions};
ghost use Rattle.lpt_table.specs.Walking.{due_at, has_come, next_due, reception_at, IsNext};

use crate::Offer;
use crate::entries::{Entry, EntryList};
use lpt_packet::Name;
use lpt_part::{Mode, Part};
use lpt_reception::{Filling, Took};
use std::alloc::{AllocError, Global};
use std::marker::Model;

/// The receptions that are open at one end, up to a limit, and the tick at which each last took a
/// part.
///
/// While a reception is out of the table, between an offer that hands it out and `settle` or
/// `put_back`, no other call may be made.
#[derive(Drop)]
pub struct Table {
    alloc: Global,
    receptions: EntryList,
    timeout: u32,
    mode: Mode,
    // The name and the last tick of the reception that is out.
    out: Option<(Name, u32)>,
}

impl Model for Table {
    ghost use Rattle.std.specs.Prelude.{◌≤◌, ◌+◌};
    ghost use Rattle.std.specs.FinMap as map;
    ghost use Rattle.lpt_table.specs.Tables.{TableState, coded_table_state};

    ghost Value = { TableState };

    ghost coded = { coded_table_state };

    ghost use Rattle.lpt_table.specs.EntryLists.{how_many_out, IsAway};

    ghost view = { λ a. record {
      limit = a.receptions.limit;
      timeout = a.timeout;
      p = a.receptions.p;
      mode = a.mode;
      entries = a.receptions.entries;
      out = a.out;
    } };

    ghost invariant = { λ a.
        (map.len a.receptions.entries + how_many_out a.out ≤ a.receptions.limit)
        × IsAway a.out a.receptions.entries };
}

impl Table {
    ghost use Rattle.lpt_reception.specs.Steps.{IsNew};
    ghost use Rattle.lpt_table.specs.Offers.{Offers, IsOfName, kind_of};

    /// A table with places for `limit` receptions, 1 to 64, in which none is open. A reception is
    /// overdue when it took no part for `timeout` ticks, 1 to 65,535. Parts are of `p` octets, 4 to
    /// 1024, and are taken in this mode. The only error is out of memory.
    pub fn new(
        alloc: Global,
        limit: u32,
        timeout: u32,
        p: u32,
        mode: Mode,
    ) -> Result<Table, AllocError>
        requires { IsTableSize limit timeout p }
        ensures { IfOk result (λ t. t ≡ no_receptions limit timeout p mode) }
    {
        Ok(Table {
            alloc,
            receptions: EntryList::new(alloc, limit, p)?,
            timeout,
            mode,
            out: None,
        })
    }

    /// Offers a part that came from this source to its transaction's reception, and opens one if
    /// none is open. `now` is the tick at which the part has come; it isn't compared with earlier
    /// ticks.
    ///
    /// The answer is the first of these that applies: `NoRoom`; `Conflict` for a contradiction;
    /// `Again`; in strict mode, for a part that isn't the next one, `Conflict` if a reception is
    /// open and `Gap` if none is; `Whole`; `Kept`. `Memory` comes in place of the last two alone.
    /// A reception that comes out leaves its last tick and its place in the table.
    pub fn offer(&mut self, source: u16, part: &Part<'_>, now: u32) -> Offer
        requires p { part.now.p ≡ self.old.p }
        requires settled { self.old.out ≡ None }
        ensures answer { Offers self.old (named_by source part.now.id) part.now.number
            (part_kept part.now) now result self.new }

        // A reception that comes out may be put back.
        ensures its { IsOfName (named_by source part.now.id) self.old.p result }

        // The same as a function, out of memory aside.
        ensures offered { IfSome (kind_of result) (λ k.
            part_offered self.old (named_by source part.now.id) part.now.number (part_kept part.now)
            now
            ≡ (k, self.new)) }
    {
        let name = Name {
            source,
            id: part.id,
        };
        self.answer(name, part, now)
    }

    // The same by the name, with one clause of which the others follow.
    fn answer(&mut self, name: Name, part: &Part<'_>, now: u32) -> Offer
        requires p { part.now.p ≡ self.old.p }
        requires settled { self.old.out ≡ None }
        requires named { name.id ≡ part.now.id }
        ensures { Offers self.old name part.now.number (part_kept part.now) now result self.new }
    {
        match self.receptions.offer(self.mode, name, part, now) {
            None => self.offer_first(name, part, now),
            Some(Took::Kept) => Offer::Kept,
            Some(Took::Again) => Offer::Again,
            Some(Took::Whole) => Offer::Whole(self.take_out(name).ended_by(part.number)),
            Some(Took::Conflict(reason)) => {
                Offer::Conflict(self.take_out(name).broken_for(reason))
            }
            Some(Took::NoMemory) => Offer::Memory,
        }
    }

    // Takes the reception of this name out, and remembers its last tick and keeps its place.
    fn take_out(&mut self, name: Name) -> Filling
        requires settled { self.old.out ≡ None }
        requires open { IsSome (map.get self.old.entries name) }
        ensures out { TakesOut self.old self.new name }
        ensures it { result ≡ received_at self.old name }
    {
        let Some(
            Entry {
                name: _,
                filling,
                last,
            },
        ) = self.receptions.take(name)
        else {
            unreachable!()
        };
        self.out = Some((name, last));
        filling
    }

    // Opens a reception with this part.
    fn offer_first(&mut self, name: Name, part: &Part<'_>, now: u32) -> Offer
        requires part { part.now.p ≡ self.old.p }
        requires settled { self.old.out ≡ None }
        requires named { name.id ≡ part.now.id }
        requires absent { map.get self.old.entries name ≡ None }
        ensures { Offers self.old name part.now.number (part_kept part.now) now result self.new }
    {
        if self.receptions.is_full() {
            return Offer::NoRoom;
        }
        if self.skips(part) {
            return Offer::Gap;
        }
        match Filling::start(self.alloc, part, part.p) {
            Ok(filling) => {
                self.keep(name, filling, now);
                Offer::Kept
            }
            Err(AllocError) => Offer::Memory,
        }
    }

    // Whether this part can't open a reception in the table's mode.
    #[tactic(auto, using(crate::proofs::FirstParts::gap_alone))]
    fn skips(&self, part: &Part<'_>) -> bool
        ensures gap { result ≡ is_gap self.now.mode no_parts part.now.number }
        ensures new { IsNew no_parts part.now.number (part_kept part.now) }
    {
        match self.mode {
            Mode::Any => false,
            Mode::Strict => part.number != 1,
        }
    }

    // Keeps a reception, for which there is a place, under its name and a last tick.
    fn keep(&mut self, name: Name, filling: Filling, last: u32)
        requires settled { self.old.out ≡ None }
        requires absent { map.get self.old.entries name ≡ None }
        requires room { map.len self.old.entries < self.old.limit }
        requires id { filling.id ≡ name.id }
        requires p { filling.p ≡ self.old.p }
        ensures { self.new ≡ with_entry self.old name filling.parts last }
    {
        self.receptions.put(Entry {
            name,
            filling,
            last,
        });
    }

    /// Gives up the last tick and the place of the reception that is out, that of `name`. It
    /// takes no memory.
    pub fn settle(&mut self, name: Name)
        requires out { IsSomeAnd self.old.out (λ o. o.0 ≡ name) }
        ensures { self.new ≡ record self.old { out = None } }
    {
        self.out = None;
    }

    /// Puts the reception that is out, that of `name`, back as `filling`, under its old last
    /// tick. It takes no memory.
    pub fn put_back(&mut self, name: Name, filling: Filling)
        requires out { IsSomeAnd self.old.out (λ o. o.0 ≡ name) }
        requires id { filling.id ≡ name.id }
        requires p { filling.p ≡ self.old.p }
        ensures { self.new ≡ put_back self.old name filling.parts }
    {
        if let Some((_, last)) = self.out.take() {
            self.keep(name, filling, last);
        }
    }

    /// Whether a reception of this name is open.
    pub fn is_open(&self, name: Name) -> bool
        requires settled { self.now.out ≡ None }
        ensures { result ≡ is_open self.now name }
    {
        self.receptions.contains(name)
    }

    /// How many receptions are open.
    pub fn len(&self) -> usize
        requires settled { self.now.out ≡ None }
        ensures { result ≡ map.len self.now.entries }
    {
        self.receptions.len()
    }

    /// The name of the overdue reception with the least last tick, and of equal ones the least
    /// name, or `None` if none is overdue.
    ///
    /// A reception is overdue when its last tick and the timeout add up to at most `now`.
    pub fn due(&self, now: u32) -> Option<Name>
        requires settled { self.now.out ≡ None }
        ensures due { IsDue self.now now result }
        ensures value { result ≡ due_of self.now now }
    {
        self.receptions.due(self.timeout, now)
    }

    /// The tick from which on some reception is overdue, or `None` if none is open.
    pub fn next_due(&self) -> Option<u64>
        requires settled { self.now.out ≡ None }
        ensures value { result ≡ next_due self.now }
        ensures due { (now : ℕ) → is_some (due_of self.now now) ≡ has_come result now }
    {
        let last = self.receptions.first_last()?;
        Some(u64::from(last) + u64::from(self.timeout))
    }

    /// The least name behind another of which a reception is open. From `None` on, by the name that
    /// it answered last, it goes through all of them.
    pub fn open_behind(&self, after: Option<Name>) -> Option<Name>
        requires settled { self.now.out ≡ None }
        ensures { IsNext (is_open self.now) after result }
    {
        self.receptions.nearest(after)
    }

    /// The reception of this name, if one is open.
    pub fn reception(&self, name: Name) -> Option<&Filling>
        requires settled { self.now.out ≡ None }
        ensures { option_map (λ f. f.now) result ≡ reception_at self.now name }
    {
        let (filling, _) = self.receptions.get(name)?;
        Some(filling)
    }

    /// The tick from which on the reception of this name is overdue, if one is open.
    pub fn due_at(&self, name: Name) -> Option<u64>
        requires settled { self.now.out ≡ None }
        ensures { result ≡ due_at self.now name }
    {
        let (_, last) = self.receptions.get(name)?;
        Some(u64::from(last) + u64::from(self.timeout))
    }

    /// Whether no reception took its last part before so many ticks, so that last ticks can be set
    /// back by them.
    pub fn reaches_back(&self, ticks: u32) -> bool
        requires settled { self.now.out ≡ None }
        ensures { result ≡ reaches_back ticks self.now.entries }
    {
        match self.receptions.first_last() {
            None => true,
            Some(last) => ticks <= last,
        }
    }

    /// Sets the last tick of each reception back by so many ticks, as a clock is set back: what is
    /// due, and how long it is until then, stays the same.
    pub fn set_back(&mut self, ticks: u32)
        requires settled { self.old.out ≡ None }
        requires reaches { IsTrue (reaches_back ticks self.old.entries) }
        ensures { self.new ≡ table_back ticks self.old }
    {
        self.receptions.set_back(ticks);
    }

    /// Removes the reception of this name, and says whether there was one.
    pub fn expire(&mut self, name: Name) -> bool
        requires settled { self.old.out ≡ None }
        ensures removed { self.new
            ≡ record self.old { entries = map.remove self.old.entries name } }
        ensures was { result ≡ is_open self.old name }
    {
        self.receptions.take(name).is_some()
    }

    /// Removes all receptions.
    pub fn clear_all(&mut self)
        requires settled { self.old.out ≡ None }
        ensures { self.new ≡ record self.old { entries = map.empty } }
    {
        self.receptions.clear();
    }
}

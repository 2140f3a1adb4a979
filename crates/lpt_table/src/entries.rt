//! The open receptions, kept under keys, and their places in the order in which they would be due.

ghost use Rattle.std.specs.Prelude.{◌≡◌, ◌≤◌, ◌<◌, ◌+◌, IfOk, IfNone, IfSome, IsTrue, MatchOption, Some, None, is_some, nat_le, if◌then◌else◌};
ghost use Rattle.std.specs.FinMap as map;
ghost use Rattle.std.specs.Option.{option_map};
ghost use Rattle.lpt_reception.specs.Steps.{part_kept};
ghost use Rattle.lpt_table.specs.Deadlines.{soonest};
ghost use Rattle.lpt_table.specs.EntryLists.{TakesIn, last_after};
ghost use Rattle.lpt_table.specs.SettingBack.{reaches_back, set_back};
ghost use Rattle.lpt_table.specs.Walking.{least_last, IsNext};

use crate::places::{DuePlace, first_due, first_last, nearest, rank_of, renew, set_back, spot_of};
use lpt_packet::Name;
use lpt_part::{Mode, Part};
use lpt_reception::{Filling, Took};
use slab::Slab;
use std::alloc::{AllocError, Global};
use std::marker::Model;

/// An open reception under its name, and the tick at which it last took a part.
#[derive(Drop)]
pub(crate) struct Entry {
    pub(crate) name: Name,
    pub(crate) filling: Filling,
    pub(crate) last: u32,
}

/// The open receptions, with room for a limit of them.
///
/// The key of a reception that was taken out is the key of the next one that is put in.
#[derive(Drop)]
pub(crate) struct EntryList {
    fillings: Slab<Filling>,
    // In the order of last ticks, and of names if those are equal.
    places: Vec<DuePlace>,
    limit: u32,
    p: u32,
}

impl Model for EntryList {
    ghost use Rattle.std.specs.Vec.{vec_capacity};
    ghost use Rattle.lpt_table.specs.EntryLists.{Listing, coded_listing};

    ghost Value = { Listing };

    ghost coded = { coded_listing };

    ghost use Rattle.lpt_table.specs.EntriesOf.{map_of, IsListed};

    ghost view = { λ a. record {
      limit = a.limit;
      p = a.p;
      entries = map_of a.fillings a.places.items;
    } };

    ghost invariant = { λ a.
        IsListed a.limit a.p (vec_capacity a.places) a.fillings a.places.items };
}

impl EntryList {
    ghost use Rattle.lpt_table.specs.EntriesOf.{entry_in, IsIts, IsEntry};

    /// A list with room for `limit` receptions, of which none is open. The only error is out of
    /// memory.
    pub(crate) fn new(alloc: Global, limit: u32, p: u32) -> Result<EntryList, AllocError>
        ensures { IfOk result (λ l. l ≡ record { limit = limit; p = p; entries = map.empty }) }
    {
        let fillings = Slab::with_capacity(alloc, limit as usize)?;
        Ok(EntryList {
            fillings,
            places: Vec::with_capacity(alloc, limit as usize)?,
            limit,
            p,
        })
    }

    /// How many receptions are open.
    pub(crate) fn len(&self) -> usize
        ensures { result ≡ map.len self.now.entries }
    {
        self.places.len()
    }

    /// Whether no place is free.
    pub(crate) fn is_full(&self) -> bool
        ensures { result ≡ nat_le self.now.limit (map.len self.now.entries) }
    {
        self.len() >= self.limit as usize
    }

    /// Whether a reception of this name is open.
    pub(crate) fn contains(&self, name: Name) -> bool
        ensures { result ≡ is_some (map.get self.now.entries name) }
    {
        spot_of(&self.places, name).is_some()
    }

    /// Lets the reception of this name, if one is open, take a part of it in this mode. It stays
    /// in the list; if it has the part and others are missing, its last tick is `now`.
    pub(crate) fn offer(
        &mut self,
        mode: Mode,
        name: Name,
        part: &Part<'_>,
        now: u32,
    ) -> Option<Took>
        requires p { part.now.p ≡ self.old.p }
        requires named { name.id ≡ part.now.id }
        ensures none { IfNone result (map.get self.old.entries name ≡ None) }
        ensures unchanged { IfNone result (self.new ≡ self.old) }
        ensures took { IfSome result (TakesIn mode self.old self.new name part.now.number now
            (part_kept part.now)) }
        ensures len { map.len self.new.entries ≡ map.len self.old.entries }
    {
        let at = spot_of(&self.places, name)?;
        let place = self.places[at];
        let took = self.fillings[place.key].take(mode, part);
        let last = last_after(&took, place.last, now);
        renew(&mut self.places, at, place, last);
        Some(took)
    }

    /// Takes the reception of this name out of the list.
    pub(crate) fn take(&mut self, name: Name) -> Option<Entry>
        ensures rest { self.new ≡ record self.old { entries = map.remove self.old.entries name } }
        ensures entry { MatchOption result (map.get self.old.entries name ≡ None)
            (λ e. IsEntry (map.get self.old.entries name) name self.old.p e) }
        ensures unchanged { IfNone result (self.new ≡ self.old) }
        ensures len { map.len self.new.entries + (if is_some result then 1 else 0)
            ≡ map.len self.old.entries }
    {
        match spot_of(&self.places, name) {
            None => None,
            Some(at) => {
                let place = self.places.remove(at);
                let filling = self.fillings.remove(place.key);
                Some(Entry {
                    name,
                    filling,
                    last: place.last,
                })
            }
        }
    }

    /// Puts a reception into the list, which has a free place and none of its name. It takes no
    /// memory.
    pub(crate) fn put(&mut self, entry: Entry)
        requires room { map.len self.old.entries < self.old.limit }
        requires absent { map.get self.old.entries entry.name ≡ None }
        requires its { IsIts self.old.p entry }
        ensures value { self.new ≡ record self.old {
          entries = map.insert self.old.entries entry.name (entry_in entry);
        } }
        ensures len { map.len self.new.entries ≡ map.len self.old.entries + 1 }
    {
        let Entry {
            name,
            filling,
            last,
        } = entry;
        let at = rank_of(&self.places, last, name);
        let key = self.fillings.insert_reserved(filling);
        match self.places.insert(at, DuePlace { last, name, key }) {
            Ok(()) => {}
            Err(_) => unreachable!(),
        }
    }

    /// Takes all receptions out and lets them go.
    pub(crate) fn clear(&mut self)
        ensures { self.new ≡ record self.old { entries = map.empty } }
    {
        self.places.clear();
        self.fillings.clear();
    }

    /// Sets all last ticks back by so many, which none of them is below.
    pub(crate) fn set_back(&mut self, ticks: u32)
        requires { IsTrue (reaches_back ticks self.old.entries) }
        ensures value { self.new ≡ record self.old { entries = set_back ticks self.old.entries } }
        ensures len { map.len self.new.entries ≡ map.len self.old.entries }
    {
        set_back(&mut self.places, ticks);
    }

    /// The name of the first reception with the least last tick among the overdue ones. It looks at
    /// one place.
    pub(crate) fn due(&self, timeout: u32, now: u32) -> Option<Name>
        ensures { result ≡ option_map (λ b. b.0)
            (soonest timeout now (map.entries self.now.entries)) }
    {
        first_due(&self.places, timeout, now)
    }

    /// The reception of this name, and its last tick.
    pub(crate) fn get(&self, name: Name) -> Option<(&Filling, u32)>
        ensures { MatchOption result (map.get self.now.entries name ≡ None) (λ r.
            IsEntry (map.get self.now.entries name) name self.now.p
            (record { name = name; filling = r.0.now; last = r.1 })) }
    {
        match spot_of(&self.places, name) {
            None => None,
            Some(at) => {
                let place = self.places[at];
                Some((&self.fillings[place.key], place.last))
            }
        }
    }

    /// The least name of an open reception behind another.
    pub(crate) fn nearest(&self, after: Option<Name>) -> Option<Name>
        ensures { IsNext (λ name. is_some (map.get self.now.entries name)) after result }
    {
        nearest(&self.places, after)
    }

    /// The least last tick. It looks at one place.
    pub(crate) fn first_last(&self) -> Option<u32>
        ensures { result ≡ least_last (map.entries self.now.entries) }
    {
        first_last(&self.places)
    }
}

// The last tick of a reception that has made this of a part.
fn last_after(took: &Took, last: u32, now: u32) -> u32
    ensures { result ≡ last_after took.now last now }
{
    match took {
        Took::Kept | Took::Again => now,
        Took::Whole | Took::Conflict(_) | Took::NoMemory => last,
    }
}

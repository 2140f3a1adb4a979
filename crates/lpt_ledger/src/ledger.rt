//! The ledger of the names of one end.

ghost use Rattle.std.specs.Prelude.{◌≡◌, ◌≢◌, ℕ, ◌<◌, true, false, None, Some, cond, is_some, IfOk, IfErr, IfSome, IfNone, IsTrue, OnOk, OnErr};
ghost use Rattle.std.specs.BTreeMap.{is_at};
ghost use Rattle.std.specs.FinMap as map;
ghost use Rattle.lpt_packet.specs.Names.{name_cmp};
ghost use Rattle.lpt_ledger.specs.Marks.{Opened, Shut, all_closed};
ghost use Rattle.lpt_ledger.specs.States.{state_at};
ghost use Rattle.lpt_ledger.specs.Refusals.{refusal_open, refusal_close, refusal_shut, refusal_retire, RefusedBy};
ghost use Rattle.lpt_ledger.specs.LeastFree.{least_free_in, IsLeastFree};
ghost use Rattle.lpt_ledger.specs.LedgerInside.{mark_of, mark_on, page_first, page_in, page_mark, with_state, IsChanged};

use crate::bits::lowest_clear;
use crate::full::{WORD_NAMES, Words, keep_place, put_bit, word_of};
use crate::page::{PAGE, Page, first_among};
use crate::{LedgerFault, State};
use lpt_packet::Name;
use std::alloc::{AllocError, Global};
use std::collections::BTreeMap;
use std::marker::Model;

// How many words have a bit for each page of a source.
const WORDS: u16 = 16;

/// The state of each name at one end.
#[derive(Drop)]
pub struct Ledger {
    // The pages of the names that aren't free, by their first names. A page has a place in memory
    // if one of its names isn't free.
    pub(crate) pages: BTreeMap<Name, Page>,
    // A bit for each page, which is set only if none of its names is free.
    full: Words,
}

impl Model for Ledger {
    ghost use Rattle.lpt_ledger.specs.Marks.{Marks, coded_marks};
    ghost use Rattle.lpt_ledger.specs.LedgerInside.{marks, IsKept};

    ghost Value = { Marks };

    ghost coded = { coded_marks };

    ghost view = { λ a. marks a.pages.entries };

    ghost invariant = { λ a. IsKept a.pages.entries a.full.entries };
}

impl Ledger {
    /// A ledger in which each name is free. It takes no memory.
    pub fn new(alloc: Global) -> Ledger
        ensures { result ≡ map.empty }
    {
        Ledger {
            pages: BTreeMap::new(alloc),
            full: BTreeMap::new(alloc),
        }
    }

    /// The state of a name.
    pub fn state(&self, name: Name) -> State
        ensures { result ≡ state_at self.now name }
    {
        page_of(&self.pages, first_among(name, PAGE)).state(u32::from(name.id % PAGE))
    }

    /// The least free name of a source, or `None` if none of its 65,536 is free. It looks at no
    /// more than 16 words of 64 bits, and at the pages that no bit tells as full.
    pub fn least_free(&self, source: u16) -> Option<Name>
        ensures least { IsLeastFree self.now source result }
        ensures value { result ≡ least_free_in self.now source }
    {
        for number in 0..WORDS {
            let first = number * WORD_NAMES;
            let mut word = word_of(&self.full, Name { source, id: first });
            while let Some(bit) = lowest_clear(word) {
                let id = first + bit as u16 * PAGE;
                if let Some(place) = first_free(&self.pages, Name { source, id }) {
                    let id = id + place as u16;
                    return Some(Name { source, id });
                }
                word |= 1 << bit;
            }
        }
        None
    }

    /// Opens a free name.
    ///
    /// Errors, the first that applies: `InUse`, it is open or closed; `Memory`.
    pub fn open(&mut self, name: Name) -> Result<(), LedgerFault>
        ensures enabled { OnOk result (refusal_open (state_at self.old name) ≡ None) }
        ensures ok { OnOk result (self.new ≡ map.insert self.old name Opened) }

        // The fault is the one of the name's state, else out of memory, and nothing has changed.
        ensures refused { IfErr result (RefusedBy (refusal_open (state_at self.old name))) }
        ensures err { OnErr result (self.new ≡ self.old) }
    {
        self.occupy(name, State::Open)
    }

    /// Closes an open name. It takes no memory.
    ///
    /// Errors: `NotOpen` if it is free or closed.
    pub fn close(&mut self, name: Name) -> Result<(), LedgerFault>
        ensures enabled { OnOk result (refusal_close (state_at self.old name) ≡ None) }
        ensures ok { OnOk result (self.new ≡ map.insert self.old name Shut) }

        // The fault is the one of the name's state, and nothing has changed.
        ensures refused { IfErr result (λ e. refusal_close (state_at self.old name) ≡ Some e) }
        ensures err { OnErr result (self.new ≡ self.old) }
    {
        if self.change(name, Some(State::Open), State::Closed) {
            return Ok(());
        }
        if self.state(name) != State::Open {
            return Err(LedgerFault::NotOpen);
        }
        self.reset(name, State::Closed);
        Ok(())
    }

    /// Closes a free name, which was never open.
    ///
    /// Errors, the first that applies: `InUse`, it is open or closed; `Memory`.
    pub fn shut(&mut self, name: Name) -> Result<(), LedgerFault>
        ensures enabled { OnOk result (refusal_shut (state_at self.old name) ≡ None) }
        ensures ok { OnOk result (self.new ≡ map.insert self.old name Shut) }

        // The fault is the one of the name's state, else out of memory, and nothing has changed.
        ensures refused { IfErr result (RefusedBy (refusal_shut (state_at self.old name))) }
        ensures err { OnErr result (self.new ≡ self.old) }
    {
        self.occupy(name, State::Closed)
    }

    /// Frees a closed name. It takes no memory.
    ///
    /// Errors: `StillOpen` if it is open, `NotOpen` if it is free.
    pub fn retire(&mut self, name: Name) -> Result<(), LedgerFault>
        ensures enabled { OnOk result (refusal_retire (state_at self.old name) ≡ None) }
        ensures ok { OnOk result (self.new ≡ map.remove self.old name) }

        // The fault is the one of the name's state, and nothing has changed.
        ensures refused { IfErr result (λ e. refusal_retire (state_at self.old name) ≡ Some e) }
        ensures err { OnErr result (self.new ≡ self.old) }
    {
        match self.state(name) {
            State::Free => Err(LedgerFault::NotOpen),
            State::Open => Err(LedgerFault::StillOpen),
            State::Closed => {
                self.reset(name, State::Free);
                Ok(())
            }
        }
    }

    /// Closes each open name. No other changes its state. It takes no memory.
    pub fn close_all(&mut self)
        ensures { self.new ≡ all_closed self.old }
    {
        self.pages.retain(|_, page| {
            *page = page.all_closed();
            true
        });
    }

    // Gives a free name this state, which isn't free.
    fn occupy(&mut self, name: Name, state: State) -> Result<(), LedgerFault>
        ensures enabled { OnOk result (state_at self.old name ≡ State.Free) }
        ensures ok { OnOk result (self.new ≡ with_state self.old name state) }

        ensures refused { IfErr result (RefusedBy (refusal_open (state_at self.old name))) }
        ensures err { OnErr result (self.new ≡ self.old) }
    {
        if self.change(name, Some(State::Free), state) {
            return Ok(());
        }
        if self.state(name) != State::Free {
            return Err(LedgerFault::InUse);
        }
        match self.put(name, state) {
            Ok(()) => Ok(()),
            Err(AllocError) => Err(LedgerFault::Memory),
        }
    }

    // Gives a name that isn't free another state. It takes no memory.
    fn reset(&mut self, name: Name, state: State)
        requires { state_at self.old name ≢ State.Free }
        ensures { self.new ≡ with_state self.old name state }
    {
        match self.set(name, state) {
            Ok(()) => {}
            Err(AllocError) => unreachable!(),
        }
    }

    // Sets the state of a name. The only error is out of memory, which comes for a free one
    // alone.
    pub(crate) fn set(&mut self, name: Name, state: State) -> Result<(), AllocError>
        ensures ok { OnOk result (self.new ≡ with_state self.old name state) }
        ensures free { OnErr result (state_at self.old name ≡ State.Free) }
        ensures err { OnErr result (self.new ≡ self.old) }
    {
        if self.change(name, None, state) {
            return Ok(());
        }
        self.put(name, state)
    }

    // Sets the state of a name if it has this one, or whatever it has, and if its page can be
    // changed where it stands. Says whether it did; if not, nothing has changed.
    fn change(&mut self, name: Name, from: Option<State>, state: State) -> bool
        ensures had { IsTrue result → IfSome from (λ s. state_at self.old name ≡ s) }
        ensures done { IsTrue result → self.new ≡ with_state self.old name state }
        ensures not_done { result ≡ false → self.new ≡ self.old }
    {
        let first = first_among(name, PAGE);
        change_page(
            &mut self.pages,
            first,
            u32::from(name.id % PAGE),
            from,
            state,
        )
    }

    // Sets the state of a name, with the bit of its page. The only error is out of memory, which
    // comes for a free one alone.
    fn put(&mut self, name: Name, state: State) -> Result<(), AllocError>
        ensures ok { OnOk result (self.new ≡ with_state self.old name state) }
        ensures free { OnErr result (state_at self.old name ≡ State.Free) }
        ensures err { OnErr result (self.new ≡ self.old) }
    {
        let first = first_among(name, PAGE);
        let before = page_of(&self.pages, first);
        let page = before.with(u32::from(name.id % PAGE), state);
        keep_place(&mut self.full, name, before, page)?;
        put_page(&mut self.pages, first, page)?;
        put_bit(&mut self.full, name, page.is_full());
        Ok(())
    }
}

// The page that begins with a name; if there is none, one of which all are free.
fn page_of(pages: &BTreeMap<Name, Page>, first: Name) -> Page
    ensures { (b : ℕ) → page_mark result b ≡ mark_on (page_in pages.now.entries first) b }
{
    match pages.get(&first) {
        None => Page::new(),
        Some(page) => *page,
    }
}

// Whether a name may be changed that has this state.
fn may_change(from: Option<State>, has: State) -> bool
    ensures { IsTrue result → IfSome from (λ s. has ≡ s) }
{
    match from {
        None => true,
        Some(from) => has == from,
    }
}

// Gives the name at a place of a page this state where the page stands, with one look at the pages;
// not if it has another state than it may have, nor if the page has no place or would lose it, nor
// if it gets full or is full no more. Says whether it did.
fn change_page(
    pages: &mut BTreeMap<Name, Page>,
    first: Name,
    place: u32,
    from: Option<State>,
    state: State,
) -> bool
    requires { place < 64 }
    ensures had { IsTrue result
        → IfSome from (λ s. mark_on (page_in pages.old.entries first) place ≡ mark_of s) }
    ensures done { IsTrue result
        → IsChanged pages.old.entries pages.new.entries first place state }
    ensures not_done { result ≡ false
        → (q : Name) → page_in pages.new.entries q ≡ page_in pages.old.entries q }
{
    match pages.get_mut(&first) {
        None => false,
        Some(kept) => {
            if !may_change(from, kept.state(place)) {
                return false;
            }
            let page = kept.with(place, state);
            if page.is_empty() || page.is_full() != kept.is_full() {
                return false;
            }
            *kept = page;
            true
        }
    }
}

// Puts a page in its place, or takes its place out if all of it are free. The only error is out
// of memory, which comes only if there was no page.
fn put_page(pages: &mut BTreeMap<Name, Page>, first: Name, page: Page) -> Result<(), AllocError>
    ensures ok { OnOk result ((q : Name) (b : ℕ) → mark_on (page_in pages.new.entries q) b
        ≡ cond (is_at (name_cmp first) q) (page_mark page b)
        (mark_on (page_in pages.old.entries q) b)) }
    ensures none { OnErr result (page_in pages.old.entries first ≡ None) }
    ensures others { (q : Name) → is_at (name_cmp first) q ≡ false
        → page_in pages.new.entries q ≡ page_in pages.old.entries q }
    ensures err { OnErr result (pages.new.entries ≡ pages.old.entries) }
{
    if page.is_empty() {
        let _ = pages.remove(&first);
        return Ok(());
    }
    match pages.insert(first, page) {
        Ok(_) => Ok(()),
        Err(_) => Err(AllocError),
    }
}

// The place of the first name of a page that is free.
fn first_free(pages: &BTreeMap<Name, Page>, first: Name) -> Option<u32>
    ensures within { IfSome result (λ b. b < 64) }
    ensures free { IfSome result (λ b. mark_on (page_in pages.now.entries first) b ≡ None) }
    ensures first { IfSome result (λ b. (i : ℕ) → i < b
        → is_some (mark_on (page_in pages.now.entries first) i) ≡ true) }
    ensures none { IfNone result ((i : ℕ) → i < 64
        → is_some (mark_on (page_in pages.now.entries first) i) ≡ true) }
{
    match pages.get(&first) {
        None => Some(0),
        Some(page) => page.first_free(),
    }
}

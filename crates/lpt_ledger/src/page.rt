//! The states of 64 names that follow one another.

ghost use Rattle.std.specs.Prelude.{◌≡◌, ◌≢◌, ℕ, ◌*◌, ◌/◌, ◌<◌, true, false, None, is_some, IfSome, IfNone, IsTrue};
ghost use Rattle.lpt_packet.specs.Names.{named_by};
ghost use Rattle.lpt_ledger.specs.LedgerInside.{closed_page, mark_of, page_mark};

use crate::State;
use crate::bits::{has_bit, lowest_clear, with_bit};
use lpt_packet::Name;

/// How many names a page has.
pub(crate) const PAGE: u16 = 64;

/// The states of 64 names. A name has the bit of its place in each word.
#[derive(Clone, Copy)]
pub(crate) struct Page {
    // The bits of those that aren't free.
    taken: u64,
    // Of these the bits of those that are open.
    opened: u64,
}

impl Page {
    /// All are free.
    pub(crate) fn new() -> Page
        ensures { (b : ℕ) → page_mark result b ≡ None }
    {
        Page {
            taken: 0,
            opened: 0,
        }
    }

    /// The state of the name at a place.
    pub(crate) fn state(self, place: u32) -> State
        requires { place < 64 }
        ensures { mark_of result ≡ page_mark self place }
    {
        if !has_bit(self.taken, place) {
            State::Free
        } else if has_bit(self.opened, place) {
            State::Open
        } else {
            State::Closed
        }
    }

    /// Whether the name at a place isn't free.
    pub(crate) fn is_taken(self, place: u32) -> bool
        requires { place < 64 }
        ensures { result ≡ is_some (page_mark self place) }
    {
        has_bit(self.taken, place)
    }

    /// The page once the name at a place has this state.
    pub(crate) fn with(self, place: u32, state: State) -> Page
        requires { place < 64 }
        ensures this { page_mark result place ≡ mark_of state }
        ensures others { (b : ℕ) → b < 64 → b ≢ place → page_mark result b ≡ page_mark self b }
    {
        let (taken, open) = match state {
            State::Free => (false, false),
            State::Open => (true, true),
            State::Closed => (true, false),
        };
        Page {
            taken: with_bit(self.taken, place, taken),
            opened: with_bit(self.opened, place, open),
        }
    }

    /// The page with each open name closed.
    pub(crate) fn all_closed(self) -> Page
        ensures { result ≡ closed_page self }
    {
        Page {
            taken: self.taken,
            opened: 0,
        }
    }

    /// Whether all are free.
    pub(crate) fn is_empty(self) -> bool
        ensures { result ≡ true → (b : ℕ) → page_mark self b ≡ None }
    {
        self.taken == 0
    }

    /// Whether none is free.
    pub(crate) fn is_full(self) -> bool
        ensures full { IsTrue result → (b : ℕ) → b < 64 → is_some (page_mark self b) ≡ true }
        ensures other { result ≡ false → (b : ℕ) × (b < 64) × (page_mark self b ≡ None) }
    {
        self.first_free().is_none()
    }

    /// The place of the first that is free.
    pub(crate) fn first_free(self) -> Option<u32>
        ensures within { IfSome result (λ b. b < 64) }
        ensures free { IfSome result (λ b. page_mark self b ≡ None) }
        ensures first { IfSome result (λ b. (i : ℕ) → i < b → is_some (page_mark self i) ≡ true) }
        ensures none { IfNone result ((i : ℕ) → i < 64 → is_some (page_mark self i) ≡ true) }
    {
        lowest_clear(self.taken)
    }
}

/// The first of a name's run, if the names of a source stand in runs of so many.
pub(crate) fn first_among(name: Name, names: u16) -> Name
    requires { 0 < names }
    ensures { result ≡ named_by name.source (name.id / names * names) }
{
    Name {
        source: name.source,
        id: name.id / names * names,
    }
}

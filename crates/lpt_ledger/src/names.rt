//! The names in use, one by one.

ghost use Rattle.std.specs.Prelude.{◌≡◌, ◌+◌, ◌-◌, ◌<◌, ◌≤◌, [], ◌∷◌, IfSome, IfNone};
ghost use Rattle.std.specs.FinMap as map;
ghost use Rattle.lpt_packet.specs.Names.{Name as Named, named_by};
ghost use Rattle.lpt_ledger.specs.RunsInside.{page_names};

use crate::Ledger;
use crate::page::{PAGE, Page};
use lpt_packet::Name;
use std::collections::btree_map::Iter;
use std::marker::Model;

/// The names in use that are left, in their order: those of a page from a place on, and those of
/// the pages behind it.
#[derive(Drop)]
pub(crate) struct Names<'a> {
    pages: Iter<'a, Name, Page>,
    first: Name,
    page: Page,
    place: u16,
}

impl<'a> Model for Names<'a> {
    ghost use Rattle.std.specs.Prelude.{List};
    ghost use Rattle.lpt_packet.specs.Names.{Name as Named};
    ghost use Rattle.lpt_ledger.specs.RunsInside.{names_left, IsAtPlace};

    ghost Value = { List Named };

    ghost view = { λ a. names_left a.place a.first a.page a.pages };

    ghost invariant = { λ a. IsAtPlace a.place a.first a.pages };
}

impl<'a> Names<'a> {
    /// All names in use of a ledger.
    pub(crate) fn of(ledger: &'a Ledger) -> Names<'a>
        ensures { result ≡ map.keys ledger.now }
    {
        Names {
            pages: ledger.pages.iter(),
            first: Name { source: 0, id: 0 },
            page: Page::new(),
            place: PAGE,
        }
    }

    /// The next one, if one is left.
    pub(crate) fn next(&mut self) -> Option<Name>
        ensures some { IfSome result (λ n. self.old ≡ n ∷ self.new) }
        ensures none { IfNone result (self.old ≡ []) }
        ensures end { IfNone result (self.new ≡ []) }
    {
        loop {
            if let Some(place) = taken_from(self.page, self.place) {
                self.place = place + 1;
                return Some(Name {
                    source: self.first.source,
                    id: self.first.id + place,
                });
            }
            let (first, page) = self.pages.next()?;
            self.first = *first;
            self.page = *page;
            self.place = 0;
        }
    }
}

// The first place of a page, from one on, whose name is in use.
fn taken_from(page: Page, from: u16) -> Option<u16>
    requires { from ≤ 64 }
    ensures within { IfSome result (λ p. p < 64) }
    ensures taken { IfSome result (λ p. (first : Named) → page_names (64 - from) from first page
        ≡ named_by first.source (first.id + p) ∷ page_names (64 - (p + 1)) (p + 1) first page) }
    ensures none { IfNone result ((first : Named) → page_names (64 - from) from first page ≡ []) }
{
    for place in from..PAGE {
        if page.is_taken(u32::from(place)) {
            return Some(place);
        }
    }
    None
}

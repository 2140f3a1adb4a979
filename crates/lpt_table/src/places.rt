//! Where the open receptions are kept, in the order in which they would be due.

ghost use Rattle.std.specs.Prelude.{◌≡◌, ◌<◌, ◌≤◌, All, T, length, map as mapped, slice_index_or, vec_capacity};
ghost use Rattle.std.specs.FinMap as map;
ghost use Rattle.lpt_packet.specs.Names.{name_cmp};
ghost use Rattle.lpt_table.specs.Places.{AreApart, spot, rank, when_cmp, by_name, by_moment, first_overdue, place_renewed};
ghost use Rattle.lpt_table.specs.SettingBack.{place_earlier};
ghost use Rattle.lpt_table.specs.Walking.{first_last, is_behind, is_nearer, nearer, nearest};

use lpt_packet::Name;
use std::cmp::Ordering;

/// Where an open reception is kept: the tick at which it last took a part, its name, and its key.
#[derive(Clone, Copy)]
pub(crate) struct DuePlace {
    pub(crate) last: u32,
    pub(crate) name: Name,
    pub(crate) key: usize,
}

// At which place a name stands, which stands but once. One that took a part just now is at the end,
// so the search begins there.
pub(crate) fn spot_of(places: &[DuePlace], name: Name) -> Option<usize>
    requires { AreApart name_cmp (by_name places.now) }
    ensures { result ≡ spot name_cmp name (by_name places.now) }
{
    for at in (0..places.len()).rev() {
        if places[at].name == name {
            return Some(at);
        }
    }
    None
}

// At which place one of this last tick and name belongs. One that took a part just now belongs at
// the end, so the search begins there.
pub(crate) fn rank_of(places: &[DuePlace], last: u32, name: Name) -> usize
    requires { T (map.is_sorted when_cmp (by_moment places.now)) }
    ensures { result ≡ rank when_cmp (last, name) (by_moment places.now) }
{
    for at in (0..places.len()).rev() {
        let place = &places[at];
        match last.cmp(&place.last).then(name.cmp(&place.name)) {
            Ordering::Less => {}
            Ordering::Equal => return at + 1,
            Ordering::Greater => return at + 1,
        }
    }
    0
}

// Gives the place at `at` this last tick, and puts it where it then belongs. One whose tick is the
// same stays as it is; one that took a part just now mostly is at the end and stays there. It takes
// no memory.
pub(crate) fn renew(places: &mut Vec<DuePlace>, at: usize, place: DuePlace, last: u32)
    requires within { at < length places.old.items }
    requires there { place ≡ slice_index_or places.old.items at place }
    requires ordered { T (map.is_sorted when_cmp (by_moment places.old.items)) }
    ensures places { places.new.items ≡ place_renewed places.old.items at
        (record place { last = last }) }
    ensures room { vec_capacity places.old ≤ vec_capacity places.new }
{
    if last == place.last {
        return;
    }
    let place = DuePlace { last, ..place };
    if at + 1 == places.len() && rank_of(&places[..at], place.last, place.name) == at {
        places[at] = place;
        return;
    }
    places.remove(at);
    let to = rank_of(places, place.last, place.name);
    match places.insert(to, place) {
        Ok(()) => {}
        Err(_) => unreachable!(),
    }
}

// Sets the last tick of each place back by so many ticks.
pub(crate) fn set_back(places: &mut [DuePlace], ticks: u32)
    requires { All (λ x. ticks ≤ x.last) places.old }
    ensures { places.new ≡ mapped (place_earlier ticks) places.old }
{
    for place in places.iter_mut() {
        place.last -= ticks;
    }
}

// The name at the first place, if the reception there is overdue.
pub(crate) fn first_due(places: &[DuePlace], timeout: u32, now: u32) -> Option<Name>
    ensures { result ≡ first_overdue timeout now places.now }
{
    match places {
        [] => None,
        [first, ..] => {
            if u64::from(first.last) + u64::from(timeout) <= u64::from(now) {
                Some(first.name)
            } else {
                None
            }
        }
    }
}

// The least name behind another, if that is given.
pub(crate) fn nearest(places: &[DuePlace], after: Option<Name>) -> Option<Name>
    ensures { result ≡ nearest after places.now }
{
    let mut found = None;
    for at in (0..places.len()).rev() {
        found = nearer(after, places[at].name, found);
    }
    found
}

// A name, if it stands behind another and before the one that was found; otherwise that one.
fn nearer(after: Option<Name>, name: Name, found: Option<Name>) -> Option<Name>
    ensures { result ≡ nearer after name found }
{
    if is_behind(after, name) && is_nearer(name, found) {
        Some(name)
    } else {
        found
    }
}

// Whether a name stands behind this one, if there is one.
fn is_behind(after: Option<Name>, name: Name) -> bool
    ensures { result ≡ is_behind after name }
{
    match after {
        None => true,
        Some(after) => after < name,
    }
}

// Whether a name stands before one that was found.
fn is_nearer(name: Name, found: Option<Name>) -> bool
    ensures { result ≡ is_nearer name found }
{
    match found {
        None => true,
        Some(found) => name < found,
    }
}

// The last tick of the first place.
pub(crate) fn first_last(places: &[DuePlace]) -> Option<u32>
    ensures { result ≡ first_last places.now }
{
    match places {
        [] => None,
        [first, ..] => Some(first.last),
    }
}

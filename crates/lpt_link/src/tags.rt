//! How many held packets are of each transaction.

ghost use Rattle.std.specs.Prelude.{◌≡◌, ◌+◌, ◌<◌, ◌≤◌, ◌^◌, IfSome, IsOk, OnOk};
ghost use Rattle.lpt_packet.specs.Names.{Name};
ghost use Rattle.lpt_link.specs.Counts.{no_counts, number_in, IsPlaced, IsOneMoreAt, count_of, one_of, HasPlace, KeepsPlaces, SameCounts, IsOneMore};

use lpt_packet::{Direction, Name};
use std::alloc::{AllocError, Global};
use std::collections::BTreeMap;
use std::marker::Model;

/// A number for each transaction, by its direction and name. One that isn't 0 has a place in
/// memory, and 0 has one if it was made.
#[derive(Drop)]
pub(crate) struct Tags {
    up: BTreeMap<Name, u64>,
    down: BTreeMap<Name, u64>,
}

impl Model for Tags {
    ghost use Rattle.lpt_link.specs.Counts.{LinkCounts};

    ghost Value = { LinkCounts };

    ghost view = { λ t. record { up = t.up.entries; down = t.down.entries } };
}

impl Tags {
    // The numbers are all 0, and have no place. It takes no memory.
    pub(crate) fn new(alloc: Global) -> Tags
        ensures { result ≡ no_counts }
    {
        Tags {
            up: BTreeMap::new(alloc),
            down: BTreeMap::new(alloc),
        }
    }

    // The transaction's number.
    pub(crate) fn of(&self, direction: Direction, name: Name) -> u64
        ensures { result ≡ count_of self.now direction name }
    {
        match direction {
            Direction::Up => number(&self.up, name),
            Direction::Down => number(&self.down, name),
        }
    }

    // Makes the place of a transaction's number. The only error is out of memory, which comes only
    // if there is none. No number changes.
    pub(crate) fn make_place(&mut self, direction: Direction, name: Name) -> Result<(), AllocError>
        ensures place { OnOk result (HasPlace self.new direction name) }
        ensures there { HasPlace self.old direction name → IsOk result }
        ensures same { SameCounts self.old self.new }
        ensures places { KeepsPlaces self.old self.new }
    {
        match direction {
            Direction::Up => place(&mut self.up, name),
            Direction::Down => place(&mut self.down, name),
        }
    }

    // Adds one to the number of the transaction with this tag, if there is one.
    pub(crate) fn add(&mut self, direction: Direction, tag: Option<Name>)
        requires place { IfSome tag (HasPlace self.old direction) }
        requires room { (name : Name) → count_of self.old direction name + 1 < 2 ^ 64 }
        ensures more { IsOneMore direction tag self.old self.new }
        ensures places { KeepsPlaces self.old self.new }
    {
        if let Some(name) = tag {
            match direction {
                Direction::Up => add_one(&mut self.up, name),
                Direction::Down => add_one(&mut self.down, name),
            }
        }
    }

    // Takes one away from it, and with the last one its place.
    #[inline(always)]
    pub(crate) fn remove(&mut self, direction: Direction, tag: Option<Name>)
        requires { (name : Name) → one_of direction tag direction name ≤ count_of self.old direction name }
        ensures { IsOneMore direction tag self.new self.old }
    {
        if let Some(name) = tag {
            match direction {
                Direction::Up => take_one(&mut self.up, name),
                Direction::Down => take_one(&mut self.down, name),
            }
        }
    }
}

// The number under a name.
#[inline(always)]
fn number(counts: &BTreeMap<Name, u64>, name: Name) -> u64
    ensures { result ≡ number_in counts.now.entries name }
{
    match counts.get(&name) {
        None => 0,
        Some(number) => *number,
    }
}

// Makes the place of a name. The only error is out of memory, which comes only if there is none.
#[inline(always)]
fn place(counts: &mut BTreeMap<Name, u64>, name: Name) -> Result<(), AllocError>
    ensures place { OnOk result (IsPlaced counts.new.entries name) }
    ensures there { IsPlaced counts.old.entries name → IsOk result }
    ensures same { (q : Name) → number_in counts.new.entries q ≡ number_in counts.old.entries q }
    ensures places { (q : Name) → IsPlaced counts.old.entries q → IsPlaced counts.new.entries q }
{
    if counts.contains_key(&name) {
        return Ok(());
    }
    match counts.insert(name, 0) {
        Ok(_) => Ok(()),
        Err(_) => Err(AllocError),
    }
}

// Adds one to the number of a name that has a place.
#[inline(always)]
fn add_one(counts: &mut BTreeMap<Name, u64>, name: Name)
    requires place { IsPlaced counts.old.entries name }
    requires room { number_in counts.old.entries name + 1 < 2 ^ 64 }
    ensures more { IsOneMoreAt name counts.old.entries counts.new.entries }
    ensures places { (q : Name) → IsPlaced counts.old.entries q → IsPlaced counts.new.entries q }
{
    match counts.get_mut(&name) {
        Some(number) => *number += 1,
        None => unreachable!(),
    }
}

// Takes one away from the number of a name, and its place if none is left.
fn take_one(counts: &mut BTreeMap<Name, u64>, name: Name)
    requires { 1 ≤ number_in counts.old.entries name }
    ensures { IsOneMoreAt name counts.new.entries counts.old.entries }
{
    match counts.get_mut(&name) {
        Some(number) => {
            if *number > 1 {
                *number -= 1;
                return;
            }
        }
        None => unreachable!(),
    }
    let _ = counts.remove(&name);
}

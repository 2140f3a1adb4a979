//! The names in use as runs, and runs of names closed.

ghost use Rattle.std.specs.Prelude.{◌≡◌, ℕ, ◌≤◌, ◌^◌, [], ◌∷◌, length, IfSome, IfNone, OnOk, OnErr};
ghost use Rattle.std.specs.Iterator.{YieldsFirst, item_count};
ghost use Rattle.std.specs.List.{All};
ghost use Rattle.lpt_ledger.specs.Runs.{IsRun, is_next, lone, names_of, runs_of, shut_names, some_names};

use crate::names::Names;
use crate::{Ledger, NameRun, State};
use lpt_packet::Name;
use std::alloc::AllocError;
use std::marker::Model;

/// The runs of names in use that are left, in their order.
#[derive(Drop)]
pub struct Runs<'a> {
    // The name that the next run begins with.
    ahead: Option<Name>,
    // Those behind it.
    names: Names<'a>,
}

impl<'a> Model for Runs<'a> {
    ghost use Rattle.std.specs.Prelude.{List};
    ghost use Rattle.lpt_ledger.specs.declared.run.NameRun.{NameRun as Ran};
    ghost use Rattle.lpt_ledger.specs.RunsInside.{runs_left};

    ghost Value = { List Ran };

    ghost view = { λ a. runs_left a.ahead a.names };
}

impl<'a> Iterator for Runs<'a> {
    type Item = NameRun;

    ghost next_gives = { YieldsFirst (λ s. s) };

    ghost remaining = { item_count (λ s. s) };

    fn next(&mut self) -> Option<NameRun> {
        self.next_run()
    }
}

impl<'a> Runs<'a> {
    // The next run, if one is left: the next name, and those that follow it.
    fn next_run(&mut self) -> Option<NameRun>
        ensures some { IfSome result (λ r. self.old ≡ r ∷ self.new) }
        ensures none { IfNone result (self.old ≡ []) }
        ensures end { IfNone result (self.new ≡ []) }
    {
        let mut run = lone(self.ahead?);
        while let Some(name) = self.names.next() {
            if !is_next(run, name) {
                self.ahead = Some(name);
                return Some(run);
            }
            run.last = name.id;
        }
        self.ahead = None;
        Some(run)
    }
}

impl Ledger {
    /// The names in use, open or closed, as runs in their order. It takes no memory.
    pub fn runs(&self) -> Runs<'_>
        ensures { result ≡ runs_of self.now }
    {
        let mut names = Names::of(self);
        let ahead = names.next();
        Runs { ahead, names }
    }

    /// How many runs there are. It takes no memory.
    pub fn run_count(&self) -> usize
        ensures count { result ≡ length (runs_of self.now) }
        ensures fit { All IsRun (runs_of self.now) }
        ensures few { result ≤ 2 ^ 32 }
    {
        let mut count = 0;
        for _run in self.runs() {
            count += 1;
        }
        count
    }

    /// Closes each name of a run, whatever it was. The only error is out of memory, and then the
    /// first of its names are closed, maybe none.
    pub fn shut_run(&mut self, run: NameRun) -> Result<(), AllocError>
        ensures ok { OnOk result (self.new ≡ shut_names self.old (names_of run)) }
        ensures err { OnErr result ((k : ℕ) × (self.new
            ≡ shut_names self.old (some_names k run.source run.first))) }
    {
        for id in u32::from(run.first)..u32::from(run.last) + 1 {
            let name = Name {
                source: run.source,
                id: id as u16,
            };
            self.set(name, State::Closed)?;
        }
        Ok(())
    }
}

// The run of one name.
fn lone(name: Name) -> NameRun
    ensures { result ≡ lone name }
{
    NameRun {
        source: name.source,
        first: name.id,
        last: name.id,
    }
}

// Whether a name is the next one behind a run.
fn is_next(run: NameRun, name: Name) -> bool
    ensures { result ≡ is_next run name }
{
    run.source == name.source && u32::from(run.last) + 1 == u32::from(name.id)
}

//! A large message on its way up: what is next, by what was heard.

ghost use Rattle.std.specs.Prelude.{◌≤◌, ◌<◌};
ghost use Rattle.lpt_ground.specs.Parts.{patience};

use crate::parts::count_behind;
use crate::{End, Large, Pass, Step, Terms};
use lpt_packet::Octets;
use lpt_part::{ABORT, TRANSFER, read_abort};
use std::alloc::{AllocError, Global};

/// So many rounds may settle nothing under the first name, and so many more under each next one.
const PATIENCE: u32 = 4;

/// How far a message is that goes up in parts.
///
/// A round puts each part once, under one name. Behind it the pass listens, and once nothing was
/// heard for the wait the next round begins: after 4 of them under the next name, and after 4 more
/// for each name that is used up. A name whose reception was given up is used up at once.
#[derive(Drop)]
pub struct Uplink {
    large: Large,
    // How many names are used up.
    used: u32,
    // The sequence count of the first packet under the name behind them.
    count: u16,
    // How many parts were put in this round.
    at: usize,
    // How many rounds under this name settled nothing.
    rounds: u32,
    ghost uses: { used ≤ large.names.many },
    ghost counts: { count ≤ 16383 },
    ghost waits: { rounds < patience used },
}

impl Uplink {
    ghost use Rattle.std.specs.Prelude.{◌≡◌, ◌<◌, ℕ, IfOk, length};
    ghost use Rattle.lpt_packet.specs.Numbers.{IsOctets};
    ghost use Rattle.lpt_ground.specs.Passes.{PassState, state_of};
    ghost use Rattle.lpt_ground.specs.declared.pass.Step.TheVariants.{Put};
    ghost use Rattle.lpt_ground.specs.Parts.{id_of, part_packet, parts_of};
    ghost use Rattle.lpt_ground.specs.Uplinks.{way_at_first, at_end, with_packet, is_abort, next_part, next_way, with_part_put, under_next_name, with_round, way_of};

    /// A message whose uplink begins.
    pub fn new(large: Large) -> Uplink
        ensures way { (s : PassState) → way_of result s ≡ way_at_first large s }
        ensures large { result.large ≡ large }
    {
        let count = large.count;
        Uplink {
            large,
            used: 0,
            count,
            at: 0,
            rounds: 0,
        }
    }

    /// What is next, beside the pass of the message's request. If that stops, or no name is left,
    /// it stops. Otherwise it puts the next part in this round, or listens if there is none.
    #[tactic(auto, unfolding(crate::specs::Uplinks::next_way))]
    pub fn next(&self, pass: &Pass) -> Step
        ensures step { result ≡ next_way self.now.large (way_of self.now (state_of pass.now)) }
        ensures within { (k : ℕ) → result ≡ Put k → k < parts_of self.now.large }
    {
        match pass.next() {
            Step::Stop(end) => Step::Stop(end),
            Step::Put(_) => self.next_part(),
            Step::Listen => self.next_part(),
        }
    }

    // What is next while its request's pass goes on.
    fn next_part(&self) -> Step
        ensures step { (s : PassState) → result ≡ next_part self.now.large (way_of self.now s) }
        ensures within { (k : ℕ) → result ≡ Put k → k < parts_of self.now.large }
    {
        if self.used >= self.large.names.many {
            Step::Stop(End::Given)
        } else if self.at < usize::from(self.large.parts()) {
            Step::Put(self.at)
        } else {
            Step::Listen
        }
    }

    /// The packet of the part behind so many, under the name in use. The only error is out of
    /// memory.
    pub fn packet(&self, alloc: Global, k: usize) -> Result<Octets, AllocError>
        requires { k < parts_of self.now.large }
        ensures { IfOk result (λ o.
            o ≡ part_packet self.now.large self.now.used self.now.count k) }
    {
        self.large.packet(alloc, self.used, self.count, k as u16)
    }

    /// Takes it that the part behind so many was put.
    pub fn part_sent(&mut self, k: usize)
        requires { k < parts_of self.old.large }
        ensures way { (s : PassState) → way_of self.new s ≡ with_part_put (way_of self.old s) k }
        ensures large { self.new.large ≡ self.old.large }
    {
        self.at = k + 1;
    }

    /// Takes a packet that was heard, beside the pass of the message's request, which hears it too.
    pub fn hear(&mut self, pass: &mut Pass, octets: Octets)
        ensures way { way_of self.new (state_of pass.new)
            ≡ with_packet self.old.large pass.old.terms
            (way_of self.old (state_of pass.old)) octets }
        ensures large { self.new.large ≡ self.old.large }
        ensures terms { pass.new.terms ≡ pass.old.terms }
    {
        let is_abort = self.is_abort(pass.terms(), octets.as_slice());
        pass.hear(octets);
        if is_abort {
            self.rename();
        }
    }

    // Whether octets report that the reception under the name in use was given up.
    #[tactic(auto, unfolding(crate::specs::Uplinks::is_abort))]
    fn is_abort(&self, terms: Terms, octets: &[u8]) -> bool
        requires { IsOctets octets.now }
        ensures { result ≡ is_abort terms (id_of self.now.large self.now.used) octets.now }
    {
        let Some((head, body)) = terms.report_of(octets) else {
            return false;
        };
        if head.service != TRANSFER || head.subtype != ABORT {
            return false;
        }
        match read_abort(body) {
            Ok((id, _)) => id == self.large.id(self.used),
            Err(_) => false,
        }
    }

    // From now on the parts go under the next name.
    fn rename(&mut self)
        ensures way { (s : PassState) → way_of self.new s
            ≡ under_next_name self.old.large (way_of self.old s) }
        ensures large { self.new.large ≡ self.old.large }
    {
        self.count = count_behind(self.count, self.large.parts());
        self.used = self.large.names.many.min(self.used + 1);
        self.at = 0;
        self.rounds = 0;
    }

    /// Takes it that nothing was heard for the wait: a new round begins, for the pass of the
    /// message's request too.
    pub fn quiet(&mut self, pass: &mut Pass)
        ensures way { way_of self.new (state_of pass.new) ≡ with_round self.old.large pass.old.terms
            (way_of self.old (state_of pass.old)) }
        ensures large { self.new.large ≡ self.old.large }
        ensures terms { pass.new.terms ≡ pass.old.terms }
    {
        pass.quiet();
        if self.rounds + 1 < PATIENCE * (self.used + 1) {
            self.at = 0;
            self.rounds += 1;
        } else {
            self.rename();
        }
    }

    /// Takes it that nothing more will be heard.
    pub fn close(&mut self, pass: &mut Pass)
        ensures way { way_of self.new (state_of pass.new)
            ≡ at_end (way_of self.old (state_of pass.old)) }
        ensures large { self.new.large ≡ self.old.large }
        ensures terms { pass.new.terms ≡ pass.old.terms }
    {
        pass.close();
    }
}

//! A reception that waits for parts.

ghost use Rattle.std.specs.Prelude.{◌≡◌, ◌≤◌, true, false, length, IfOk, IfSome, IsSome};
ghost use Rattle.std.specs.FinMap as map;
ghost use Rattle.lpt_part.specs.declared.mode.Mode.TheVariants as Mode;
ghost use Rattle.lpt_reception.specs.PartsOf.{IsMessageOf};
ghost use Rattle.lpt_reception.specs.Received.{no_parts, with_part, is_whole, spelled};
ghost use Rattle.lpt_packet.specs.Sizes.{longest_packet};

use crate::store::{Standing, Store};
use crate::{Broken, Step, Took, Whole};
use lpt_packet::Octets;
use lpt_part::{Mode, Part, Reason, TransactionId};
use std::alloc::{AllocError, Global};
use std::marker::Model;

/// A reception that waits for parts. It may be let go.
#[derive(Drop)]
pub struct Filling {
    id: TransactionId,
    p: u32,
    store: Store,
}

impl Model for Filling {
    ghost use Rattle.lpt_reception.specs.Received.{Received};
    ghost use Rattle.lpt_reception.specs.Codes.{coded_received};

    ghost Value = { Received };

    ghost coded = { coded_received };

    ghost use Rattle.lpt_reception.specs.Stored.{parts_stored, IsSound};

    ghost view = { λ a. record { id = a.id; p = a.p; parts = parts_stored a.p a.store } };

    ghost invariant = { λ a. IsSound a.p a.store };
}

impl Filling {
    ghost use Rattle.lpt_reception.specs.Steps.{part_kept, IsNew, Answers, Takes};
    ghost use Rattle.lpt_reception.specs.Endings.{ended_by};
    ghost use Rattle.lpt_reception.specs.Missing.{IsLastNumber, IsNextMissing};

    /// A reception with its first part, for parts of `p` octets. The only error is out of memory.
    #[tactic(auto, using(crate::proofs::StartLemmas::not_whole_alone))]
    pub fn start(alloc: Global, part: &Part<'_>, p: u32) -> Result<Filling, AllocError>
        requires { part.now.p ≡ p }
        ensures started { IfOk result (λ f. f ≡ record {
          id = part.now.id;
          p = p;
          parts = with_part no_parts part.now.number (part_kept part.now);
        }) }

        // A part contradicts no other if there is none, and alone it is no whole message.
        ensures alone { IsNew no_parts part.now.number (part_kept part.now) }
        ensures not_whole { is_whole (with_part no_parts part.now.number (part_kept part.now))
            ≡ false }
    {
        let mut store = Store::new(alloc);
        store.add(part)?;
        Ok(Filling {
            id: part.id,
            p,
            store,
        })
    }

    /// The identifier of the transaction.
    pub fn id(&self) -> TransactionId
        ensures { result ≡ self.now.id }
    {
        self.id
    }

    /// How many parts were kept.
    pub fn kept_count(&self) -> u32
        ensures { result ≡ map.len self.now.parts }
    {
        self.store.len()
    }

    /// The number of the last part, or `None` if that wasn't kept.
    pub fn last_number(&self) -> Option<u16>
        ensures is { IsLastNumber self.now.parts result }
        ensures above { IfSome result (λ n. 2 ≤ n) }
    {
        self.store.last_number(self.p)
    }

    /// The least number from `from` on, and from 1 on, whose part wasn't kept and stands before the
    /// last part, if that was kept; otherwise all up to 65,535 are looked at. `None` if there is
    /// none.
    pub fn next_missing(&self, from: u16) -> Option<u16>
        ensures { IsNextMissing self.now.parts from result }
    {
        self.store.next_missing(from, self.p)
    }

    /// Adds a part of this transaction, in any order. An allocation failure leaves
    /// the reception as it was.
    pub fn accept(self, part: &Part<'_>) -> Step
        requires id { part.now.id ≡ self.id }
        requires p { part.now.p ≡ self.p }
        ensures { Answers Mode.Any self part.now.number (part_kept part.now) result }
    {
        self.accept_in(Mode::Any, part)
    }

    /// Does the same in the order of the parts' numbers: one that is neither kept nor the next
    /// breaks the reception off.
    pub fn accept_strict(self, part: &Part<'_>) -> Step
        requires id { part.now.id ≡ self.id }
        requires p { part.now.p ≡ self.p }
        ensures { Answers Mode.Strict self part.now.number (part_kept part.now) result }
    {
        self.accept_in(Mode::Strict, part)
    }

    // Adds a part in this mode.
    fn accept_in(mut self, mode: Mode, part: &Part<'_>) -> Step
        requires id { part.now.id ≡ self.id }
        requires p { part.now.p ≡ self.p }
        ensures { Answers mode self part.now.number (part_kept part.now) result }
    {
        match self.take(mode, part) {
            Took::Kept => Step::Filling(self),
            Took::Again => Step::Again(self),
            Took::Whole => Step::Whole(self.ended_by(part.number)),
            Took::Conflict(reason) => Step::Conflict(self.broken_for(reason)),
            Took::NoMemory => Step::NoMemory(self),
        }
    }

    /// Adds a part of this transaction in this mode, and leaves the reception where it is. If the
    /// answer is `Whole` or `Conflict`, `ended_by` and `broken_for` give the reception that ended.
    #[inline(always)]
    pub fn take(&mut self, mode: Mode, part: &Part<'_>) -> Took
        requires id { part.now.id ≡ self.old.id }
        requires p { part.now.p ≡ self.old.p }
        ensures { Takes mode self.old part.now.number (part_kept part.now) result self.new }
    {
        match self.store.standing_of(mode, part) {
            Standing::Conflict(reason) => return Took::Conflict(reason),
            Standing::Again => return Took::Again,
            Standing::New => {}
        }
        let Ok(()) = self.store.add(part) else {
            return Took::NoMemory;
        };
        if self.store.is_whole(self.p) {
            return Took::Whole;
        }
        Took::Kept
    }

    /// The reception as a whole that its part of this number ended.
    pub fn ended_by(self, number: u16) -> Whole
        requires whole { is_whole self.parts ≡ true }
        requires there { IsSome (map.get self.parts number) }
        ensures { result ≡ ended_by self number }
    {
        Whole { all: self, number }
    }

    /// The reception as one that a part broke off for this reason.
    pub fn broken_for(self, reason: Reason) -> Broken
        ensures { result ≡ record { before = self; reason = reason } }
    {
        Broken {
            before: self,
            reason,
        }
    }

    /// A copy of the message, if all parts are there. The only error is out of memory.
    pub(crate) fn message_joined(&self) -> Result<Octets, AllocError>
        requires { is_whole self.now.parts ≡ true }
        ensures message { IfOk result (λ m. m ≡ spelled self.now.parts) }
        ensures short { IfOk result (λ m. length m ≤ longest_packet) }
        ensures split { IfOk result (IsMessageOf self.now.parts self.now.p) }
    {
        Ok(Octets::from_vec(self.store.octets.copy()?))
    }

    /// The message, if all parts are there.
    pub(crate) fn into_message(self) -> Octets
        requires { is_whole self.parts ≡ true }
        ensures message { result ≡ spelled self.parts }
        ensures short { length result ≤ longest_packet }
        ensures split { IsMessageOf self.parts self.p result }
    {
        let Filling { id: _, p: _, store } = self;
        Octets::from_vec(store.into_octets())
    }

    /// The reception without one of its parts, if all parts are there.
    pub(crate) fn without(mut self, number: u16) -> Filling
        requires whole { is_whole self.parts ≡ true }
        requires there { IsSome (map.get self.parts number) }
        ensures { result ≡ record self { parts = map.remove self.parts number } }
    {
        self.store.take_out(number, self.p);
        self
    }
}

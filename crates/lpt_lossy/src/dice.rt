//! Packets that are lost, repeated, delayed and damaged by chance.

ghost use Rattle.std.specs.Prelude.{◌≡◌, ◌≤◌, true, IfSome};
ghost use Rattle.lpt_lossy.specs.Bursts.{is_allowed};

use crate::fate::{Burst, Fate};
use crate::words::{ALWAYS, befalls, burst_of, burst_of_header, up_to};
use rand_core::SeedableRng;
use rand_core::utils::NextWord;
use rand_xoshiro::Xoshiro256PlusPlus;

/// How often each of these happens to packets, in millionths: 0 for never, 1,000,000 for always.
#[derive(Clone, Copy)]
pub struct Odds {
    /// That a packet isn't written.
    pub lose: u32,
    /// That it is written twice.
    pub repeat: u32,
    /// That bits of it are changed, but none of its first octet and its length field.
    pub damage: u32,
    /// That bits of its primary header are changed, of whatever octets. What befalls it so isn't
    /// damaged otherwise.
    pub headers: u32,
    /// How many packets later it is written at most: each number up to this one is as likely.
    pub delay: u16,
}

/// One who decides by chance. What it decides is the same for the same odds and seed. The generator
/// is no secret: it serves tests.
#[derive(Drop)]
pub struct Dice {
    odds: Odds,
    generator: Xoshiro256PlusPlus,
}

impl Dice {
    ghost use Rattle.std.specs.Prelude.{◌≡◌, ◌≤◌, true, IfSome};
    ghost use Rattle.lpt_lossy.specs.Bursts.{is_allowed};

    /// Dice of these odds that were seeded by this number.
    pub fn new(odds: Odds, seed: u64) -> Dice
        ensures { result.odds ≡ odds }
    {
        Dice {
            odds,
            generator: Xoshiro256PlusPlus::seed_from_u64(seed),
        }
    }

    // What becomes of the next packet, which has so many octets, 7 or more.
    pub(crate) fn decide(&mut self, len: usize) -> Fate
        requires { 7 ≤ len }
        ensures odds { self.new.odds ≡ self.old.odds }
        ensures allowed { IfSome result.burst
            (λ u. is_allowed self.old.odds u.in_header ≡ true) }
    {
        let lose = self.generator.next_word();
        let repeat = self.generator.next_word();
        let later = self.generator.next_word();
        let damage = self.generator.next_word();
        let bits = self.generator.next_word();
        let burst = burst_said(&self.odds, len, damage, bits);
        Fate {
            is_lost: befalls(self.odds.lose, lose),
            is_twice: befalls(self.odds.repeat, repeat),
            later: up_to(self.odds.delay, later),
            burst,
        }
    }
}

// The bits to change in a packet of so many octets, if these words say that some change.
fn burst_said(odds: &Odds, len: usize, damage: u64, bits: u64) -> Option<Burst>
    requires { 7 ≤ len }
    ensures { IfSome result (λ u. is_allowed odds.now u.in_header ≡ true) }
{
    if befalls(odds.headers, damage / ALWAYS) {
        return Some(burst_of_header(bits));
    }
    if befalls(odds.damage, damage) {
        return Some(burst_of(len, bits));
    }
    None
}

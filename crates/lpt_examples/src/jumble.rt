//! A network in memory that loses, repeats and delays packets.

ghost use Rattle.std.specs.Prelude.{◌≡◌, ℕ, List, Contains};

use crate::carrying::Network;
use lpt_node::NodeFault;
use lpt_packet::Octets;
use std::alloc::Global;

// Each LOST-th packet is lost. Of the packets that it has, the next is STRIDE places further on.
const LOST: u32 = 5;

const STRIDE: u32 = 7;

/// A network that loses each fifth packet, and gives out the others late, in any order, and again.
#[derive(Drop)]
pub struct Jumble {
    // Those that weren't lost.
    packets: Vec<Octets>,
    turn: u32,
}

impl Jumble {
    /// A network to which nothing was given yet.
    pub fn new(alloc: Global) -> Jumble
        ensures { (b : List ℕ) → ¬ Contains result.packets.items b }
    {
        Jumble {
            packets: Vec::new(alloc),
            turn: 0,
        }
    }
}

impl Network for Jumble {
    ghost may_come = { λ a b. Contains a.packets.items b };

    fn put(&mut self, packet: Octets) -> Result<(), NodeFault> {
        self.turn = self.turn.wrapping_add(1);
        if self.turn % LOST == 0 {
            return Ok(());
        }
        match self.packets.push(packet) {
            Ok(()) => Ok(()),
            Err(_) => Err(NodeFault::Memory),
        }
    }

    fn next(&mut self) -> Option<Octets> {
        let held = self.packets.len();
        if held == 0 {
            return None;
        }
        let place = self.turn.wrapping_mul(STRIDE) as usize % held;
        self.packets[place].copy().ok()
    }
}

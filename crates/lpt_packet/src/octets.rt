//! Octets that own their memory.

ghost use Rattle.std.specs.Prelude.{◌≡◌, ◌+◌, ◌≤◌, ◌++◌, length, take, drop, IfOk};
ghost use Rattle.lpt_packet.specs.Numbers.{IsOctets};

use crate::laws::slices_hold_octets;
use std::alloc::AllocError;
use std::marker::Model;

/// A list of octets that owns its memory. It grows and shrinks no more once it is made.
#[derive(Debug, Drop)]
pub struct Octets {
    items: Vec<u8>,
}

impl Model for Octets {
    ghost use Rattle.std.specs.Prelude.{ℕ, List};

    ghost Value = { List ℕ };

    ghost view = { λ a. a.items.items };
}

impl PartialEq for Octets {
    ghost use Rattle.std.specs.Prelude.{◌==◌};
    ghost use Rattle.std.specs.Cmp.Lexicographic.{pointwise};
    ghost use Rattle.std.specs.Cmp.Rules.{comparing};
    ghost use Rattle.std.proofs.Common.{rules};

    ghost eq = { pointwise ◌==◌ };

    ghost laws = { Prim.search (comparing, rules) };

    fn eq(&self, other: &Octets) -> bool {
        self.items.as_slice() == other.items.as_slice()
    }
}

impl Eq for Octets {
    ghost use Rattle.std.specs.Cmp.Rules.{comparing};
    ghost use Rattle.std.proofs.Common.{rules};

    ghost laws = { Prim.search (comparing, rules) };
}

impl Octets {
    /// The octets of a vector, which are not copied.
    pub fn from_vec(items: Vec<u8>) -> Octets
        ensures { result ≡ items.items }
    {
        Octets { items }
    }

    /// The octets, borrowed.
    pub fn as_slice(&self) -> &[u8]
        ensures same { result.now ≡ self.now }
        ensures octets { IsOctets self.now }
    {
        let items = self.items.as_slice();
        slices_hold_octets(items);
        items
    }

    /// A copy of the octets, on the allocator of this value. The only error is out of memory.
    pub fn copy(&self) -> Result<Octets, AllocError>
        ensures { IfOk result (λ o. o ≡ self.now) }
    {
        Ok(Octets {
            items: Vec::from_slice(*self.items.allocator(), &self.items)?,
        })
    }

    /// Writes octets over those from place `at` on. Their number stays.
    pub fn overwrite(&mut self, at: usize, octets: &[u8])
        requires { at + length octets.now ≤ length self.old }
        ensures { self.new ≡ take at self.old ++ octets.now ++ drop (at + length octets.now) self.old }
    {
        self.items[at..at + octets.len()].copy_from_slice(octets);
    }
}

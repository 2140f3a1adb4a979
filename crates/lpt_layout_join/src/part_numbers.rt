//! Which parts came.

ghost use Rattle.std.specs.Prelude.{◌≡◌, ◌≤◌, ◌-◌, ◌==◌, ◌||◌, ℕ, length, get_or, true, false, OnOk};

use lpt_part::Kind;
use std::alloc::{AllocError, Global};

/// The numbers of the parts that came, and whether a last part is among them.
#[derive(Drop)]
pub struct PartNumbers {
    // Whether each number's part came, up to the highest that did.
    marks: Vec<bool>,
    ended: bool,
    ghost few: { length marks.items ≤ 65543 },
    ghost top: { get_or marks.items (length marks.items - 1) true ≡ true },
}

impl PartNumbers {
    ghost use Rattle.std.specs.Prelude.{◌≡◌, ◌≤◌, ℕ, ◌==◌, ◌||◌, false, OnOk};
    ghost use Rattle.lpt_part.specs.Parts.{same_kind};
    ghost use Rattle.lpt_part.specs.declared.kind.Kind.TheVariants.{Last};
    ghost use Rattle.lpt_layout_join.specs.Missing.{IsHighest};
    ghost use Rattle.lpt_layout_join.specs.PartNumbersInside.{has, is_ended};

    /// The numbers of a message of which no part came.
    pub fn new(alloc: Global) -> PartNumbers
        ensures none { (n : ℕ) → has result n ≡ false }
        ensures ended { is_ended result ≡ false }
    {
        PartNumbers {
            marks: Vec::new(alloc),
            ended: false,
        }
    }

    /// Whether the part of this number came.
    pub fn has(&self, number: u32) -> bool
        ensures { result ≡ has self.now number }
    {
        match self.marks.get(number as usize) {
            Some(came) => *came,
            None => false,
        }
    }

    /// Whether a last part came.
    pub fn is_ended(&self) -> bool
        ensures { result ≡ is_ended self.now }
    {
        self.ended
    }

    /// The highest number of a part that came, at most 65,542; 0 if none came.
    pub fn highest(&self) -> u32
        ensures highest { IsHighest (has self.now) result }
        ensures small { result ≤ 65542 }
    {
        self.marks.len().saturating_sub(1) as u32
    }

    /// Notes that a part of this number came, at most 65,542. The only error is out of memory.
    pub fn add(&mut self, number: u32, kind: Kind) -> Result<(), AllocError>
        requires { number ≤ 65542 }
        ensures came { OnOk result ((n : ℕ) → has self.new n ≡ ((number == n) || has self.old n)) }
        ensures ended { OnOk result (is_ended self.new ≡ (same_kind kind Last || is_ended self.old)) }
    {
        mark(&mut self.marks, number as usize)?;
        self.ended = self.ended || kind == Kind::Last;
        Ok(())
    }
}

// Marks a number. The only error is out of memory.
fn mark(marks: &mut Vec<bool>, place: usize) -> Result<(), AllocError>
    requires place { place ≤ 65542 }
    requires few { length marks.old.items ≤ 65543 }
    requires top { get_or marks.old.items (length marks.old.items - 1) true ≡ true }
    ensures came { OnOk result ((n : ℕ) → get_or marks.new.items n false
        ≡ ((place == n) || get_or marks.old.items n false)) }
    ensures few { length marks.new.items ≤ 65543 }
    ensures top { get_or marks.new.items (length marks.new.items - 1) true ≡ true }
{
    if marks.len() <= place {
        marks.resize(place + 1, false)?;
    }
    marks[place] = true;
    Ok(())
}

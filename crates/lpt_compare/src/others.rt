//! What is of another application process.

/// How many are of other application processes, and which the first of them is of.
#[derive(Clone, Copy)]
pub struct Others {
    /// How many. It stays at 2^64 - 1 if it would be more.
    pub count: u64,
    /// The APID of the first of them.
    pub first: Option<u16>,
}

impl Others {
    ghost use Rattle.std.specs.Prelude.{◌≡◌, ℕ, ◌++◌, ◌∷◌, List, []};
    ghost use Rattle.lpt_compare.specs.Read.{AreOthers};

    // None of them.
    pub(crate) fn new() -> Others
        ensures { AreOthers [] result }
    {
        Others {
            count: 0,
            first: None,
        }
    }

    // Counts one more, of this APID.
    pub(crate) fn add(&mut self, apid: u16)
        ensures { (xs : List ℕ) → AreOthers xs self.old → AreOthers (xs ++ apid ∷ []) self.new }
    {
        self.count = self.count.saturating_add(1);
        if self.first.is_none() {
            self.first = Some(apid);
        }
    }
}

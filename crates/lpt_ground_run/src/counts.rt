//! What is counted of a pass: packets, and rounds.

ghost use Rattle.std.specs.Prelude.{◌≡◌, ◌+◌, ◌∷◌, [], ℕ, List};
ghost use Rattle.lpt_ground_run.specs.Counts.{AreCounted};

/// How many packets went up and came down in a pass, and in how many rounds some went up.
///
/// Each number is at most 2^64 - 1.
#[derive(Clone, Copy, Debug, PartialEq, Eq)]
pub struct RunCounts {
    /// How many packets went up.
    pub up: u64,
    /// In how many rounds.
    pub rounds: u64,
    /// How many packets came down.
    pub down: u64,
    // Whether none went up in the round that was begun last.
    waits: bool,
}

impl RunCounts {
    /// Counts of a pass of which nothing was counted yet.
    pub fn new() -> RunCounts
        ensures { AreCounted result [] 0 }
    {
        RunCounts {
            up: 0,
            rounds: 0,
            down: 0,
            waits: false,
        }
    }

    /// Notes that a round begins. It counts once a packet goes up in it.
    pub fn begin_round(&mut self)
        ensures { (ups : List ℕ) (down : ℕ) → AreCounted self.old ups down
            → AreCounted self.new (0 ∷ ups) down }
    {
        self.waits = true;
    }

    /// Counts a packet that goes up in the round that was begun last.
    pub fn count_up(&mut self)
        ensures { (n down : ℕ) (ups : List ℕ) → AreCounted self.old (n ∷ ups) down
            → AreCounted self.new ((n + 1) ∷ ups) down }
    {
        if self.waits {
            self.rounds = self.rounds.saturating_add(1);
        }
        self.waits = false;
        self.up = self.up.saturating_add(1);
    }

    /// Counts a packet that came down.
    pub fn count_down(&mut self)
        ensures { (ups : List ℕ) (down : ℕ) → AreCounted self.old ups down
            → AreCounted self.new ups (down + 1) }
    {
        self.down = self.down.saturating_add(1);
    }
}

//! A clock by which ticks come.

ghost use Rattle.std.specs.Prelude.{◌≡◌, ℕ, ◌∷◌, List, [], Option};
ghost use Rattle.std.specs.Io.KnownBytes.{Consumes};
ghost use Rattle.lpt_spacecraft.specs.Streams.{Answers};

/// A clock that says how many ticks are due.
pub trait Clock {
    // The answers that it will give from here on, if they are known.
    ghost answers: { Self → Option (List ℕ) };

    /// How many ticks are due since it was asked last, or since it was made.
    fn due(&mut self) -> u64
        ensures { Consumes (answers self.old) (answers self.new) (result ∷ []) };
}

// How many ticks are due by a clock, if it is asked; if it isn't, none are.
pub(crate) fn due_by<C: Clock>(clock: &mut C, is_asked: bool) -> u64
    ensures { Answers is_asked (C.answers clock.old) (C.answers clock.new) (result ∷ []) }
{
    if is_asked { clock.due() } else { 0 }
}

//! What is proved of two ends that free names by lines: functions with empty bodies.

ghost use Rattle.lpt_apart.specs.Freeing.{LinesFreeInOrder, StepsAreTalked};
ghost use Rattle.lpt_apart.specs.ResetsFreeing.{LinesFreeThroughResets};

/// Take two new ends of one configuration but for the clocks that they begin with, whose programs
/// number the uses of each name, and free names by the lines of `specs/Lines`. Whatever they do,
/// and whatever is heard of what they said, any number of times and in any order: what they do is
/// moves that two ends apart can make. So names are freed in order, no part of a freed name is
/// handed over, and the ends keep the promise and withhold nothing that came whole.
pub fn lines_free_in_order()
    ensures { LinesFreeInOrder }
{}

/// Such ends also free names in order if either machine is reset at any time, again and again, and
/// reads back its state with the turns of its names. For that an end says what is so, and was so
/// when its state was last kept, and sends parts that it could have sent then, too. What is left of
/// the moves, but for those that resets deleted, frees names in order; so the ends keep the
/// promise, and withhold nothing that came whole.
pub fn lines_free_through_resets()
    ensures { LinesFreeThroughResets }
{}

/// Whatever steps two ends can do, ends that free names by lines can do, with lines that say what
/// is asked. So these lines shut nothing out.
pub fn steps_are_talked()
    ensures { StepsAreTalked }
{}

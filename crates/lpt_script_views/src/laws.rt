//! What the definitions say of journals, proved of all of them: a function with an empty body.

ghost use Rattle.lpt_script_views.specs.Laws.{KeptAreHeard};

/// Over every journal, the parts that the replies say to be kept are those that the receiver has heard.
/// So the parts that `show receptions` calls missing are just those of the message that it lacks.
#[tactic(auto, using(crate::proofs::HeardLemmas::kept_heard))]
pub fn kept_parts_are_heard()
    ensures { KeptAreHeard }
{}

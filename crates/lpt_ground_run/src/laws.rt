//! What is proved of a pass that goes on in another process: a function with an empty body.

ghost use Rattle.lpt_ground_run.specs.Laws.{KeptRunsAreOnePass};

/// A pass that heard again what was kept, and then was carried to its end, was carried there from
/// its beginning, as if it had been one process.
pub fn kept_runs_are_one_pass()
    ensures { KeptRunsAreOnePass }
{}

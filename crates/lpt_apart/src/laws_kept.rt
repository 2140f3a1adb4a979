//! What is proved of two ends whose state is written down: functions with empty bodies.

ghost use Rattle.lpt_apart.specs.Deeds.{ReadingsAreRestarts};
ghost use Rattle.lpt_apart.specs.Resets.{ResetEndsKeepThePromise, SendingsAreForgotten};

/// An end that is read back from what was written of it is a restart of the one that was written,
/// within the limits of the configuration in which it is read, if nothing happened at it since. The
/// other end, what is on the way, and the jobs that workers have are as they were.
///
/// So a caller writes the state before anything that a call answered is acted on or sent: then a
/// machine that dies before the writing has done nothing that another could have seen, and what is
/// read is the end as it last was.
pub fn readings_are_restarts()
    ensures { ReadingsAreRestarts }
{}

/// Take two new ends that were written, and any list of moves, writings and resets of either
/// machine, also such as come one behind the other, and such as come behind moves that weren't
/// written. Then what was done, but for what resets deleted, is a history of two ends apart that
/// comes to the nodes, jobs and memories that the machines have; so they keep the promise, and
/// withhold nothing that came whole.
///
/// A machine may be reset if the other end has done nothing that it couldn't do without what is
/// deleted: if it was handed no packet that was put out since the last writing, and freed no
/// name because of it.
pub fn reset_ends_keep_the_promise()
    ensures { ResetEndsKeepThePromise }
{}

/// A restart forgets that a part or a plain request was sent, and that a message was finished. So
/// what was sent without being written isn't deleted by a reset, and may be handed over.
pub fn sendings_are_forgotten()
    ensures { SendingsAreForgotten }
{}

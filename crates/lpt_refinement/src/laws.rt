//! What ties the machine to the journal: a function with an empty body.

ghost use Rattle.lpt_refinement.specs.GoesOn.{FollowsJournal};

/// The machine in which nothing has happened shows the empty journal. One that shows a journal in
/// which jobs are claimed, committed and executed in their order, and each packet has the tag of the
/// transaction of which it is a part (`Fits`), refuses an event for the journal's reason. If the
/// configuration is in range, what the nodes ask for besides holds of an event that isn't refused; it
/// is answered as the journal says, and then the longer journal is shown.
pub fn follows_journal()
    ensures { FollowsJournal }
{}

//! What the definitions say of journals, proved of all of them: functions with empty bodies.

ghost use Rattle.lpt_journal.specs.Abortions.{AbortionIsFinal};
ghost use Rattle.lpt_journal.specs.Headline.{Headline};
ghost use Rattle.lpt_journal.specs.Leavings.{LeavingsAreTold};
ghost use Rattle.lpt_journal.specs.Whole.{NothingIsWithheld};
ghost use Rattle.lpt_journal.specs.Work.{WorkIsOfItsBoot};

/// Over every legal journal, each part that is held, in a hand or heard is that part of the message
/// last opened under its name; each large message that was released is byte for byte the one last
/// opened under its name in its direction, so by the other node, and at most once per opening. Each
/// plain request that was released is the packet of one that ground had asked for; so nothing is
/// executed that ground didn't send. What is delivered is a message that contradicts nothing; it
/// isn't read exactly if the link's noise left it. In strict mode alone a part breaks its
/// reception off, and only one that isn't the next. The memories are their first content, changed
/// by released requests, each executed at most once and in order of release. What leaves the queue
/// without being executed, refused or dropped, was released too, and nothing leaves it twice.
pub fn headline()
    ensures { Headline }
{}

/// Over every legal journal, each reception that expired or was broken off was of an opening that
/// is never released, an opening that was released is never heard again, and nothing is kept of a
/// transaction whose reception has ended.
pub fn abortion_is_final()
    ensures { AbortionIsFinal }
{}

/// Nothing that came whole is withheld. Over every legal journal, take what was last opened under a
/// name. If each of its parts was delivered since then, and since its receiver was last restarted,
/// while there was room, it was released, unless its reception expired, or in strict mode a part
/// out of order broke it off. Nothing is said of parts that don't come.
pub fn nothing_is_withheld()
    ensures { NothingIsWithheld }
{}

/// Over every legal journal, a commit answers that its job is stale exactly if the spacecraft
/// was restarted since the claim, and then changes nothing but that the worker has no job any more;
/// and each request that was executed was released and committed in the same boot.
pub fn work_is_of_its_boot()
    ensures { WorkIsOfItsBoot }
{}

/// Over every legal journal, a request that is refused is reported to its own source as failed,
/// with the code that the program gave; of one that is dropped nothing is put or opened. Neither
/// changes a memory.
pub fn leavings_are_told()
    ensures { LeavingsAreTold }
{}

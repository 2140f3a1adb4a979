//! What is proved of the service, and of it and journals: functions with empty bodies.

ghost use Rattle.std.specs.Prelude.{◌≡◌};
ghost use Rattle.lpt_journal.specs.Jobs.{memories};
ghost use Rattle.lpt_journal_examples.specs.Passes.{IsPass, pass_history, usual, usual_memories, loaded_memories};
ghost use Rattle.lpt_service.specs.Promise.{RunsKeepThePromise};
ghost use Rattle.lpt_service.specs.Served.{EachJournalIsARun, all_steps, view};
ghost use Rattle.lpt_service.specs.Service.{IsRun, start};
ghost use Rattle.lpt_service.specs.Worked.{full_pass, full_steps};
ghost use Rattle.lpt_service.specs.WrongServices.{NoneIsWrong};

/// Every legal journal is a run of the service that `specs/Service` describes on one page. It
/// starts with the first memories. Each event makes no step, one, or two. Each of these can happen
/// then, and they lead from what users saw before the event to what they see after it.
pub fn each_journal_is_a_run()
    ensures { EachJournalIsARun }
{}

/// Over every run of that service, a name is released no more often than it is opened, and only the
/// message that was last opened under it; what leaves the queue was released before, in this order
/// and each release at most once; and the memories are the first ones, changed by the requests that
/// were executed, one after the other. One that is refused or dropped changes none.
pub fn runs_keep_the_promise()
    ensures { RunsKeepThePromise }
{}

/// Two services that would be wrong are refused by that: once an event has released a large
/// message, nothing can be released under its name until the name is opened again; and what an
/// event takes out of the queue is the first request that waits.
pub fn wrong_services_are_refused()
    ensures { NoneIsWrong }
{}

/// A worked pass of 33 events makes fourteen steps, of all eight kinds: a load is executed, another
/// is refused and, as its packet comes again, dropped; a message is given up, its name freed and
/// used again, and that message released; and the spacecraft restarted. The steps are a run of the
/// service. The memory has the octets of the load that was executed.
pub fn full_pass_is_a_run()
    ensures pass { IsPass usual full_pass }
    ensures steps { all_steps usual (pass_history usual full_pass) ≡ full_steps }
    ensures run { IsRun 100 (start usual_memories) full_steps
        (view usual usual_memories (pass_history usual full_pass)) }
    ensures left { memories usual usual_memories (pass_history usual full_pass) ≡ loaded_memories }
{}

//! What ties calls of C to two ends apart: functions with empty bodies.

ghost use Rattle.lpt_c_pair.specs.Answers.{ZeroIsAlwaysDone};
ghost use Rattle.lpt_c_pair.specs.Handed.{ExecutionsAreTold, GivenExecutionsAreTold, MessagesAreHanded, MessagesStay};
ghost use Rattle.lpt_c_pair.specs.Histories.{CarefulProgramsMayBeReset, ResetEndsOfCKeepThePromise, SendingsLeaveTheState};
ghost use Rattle.lpt_c_pair.specs.Loads.{LoadsGoWhereTheySay};
ghost use Rattle.lpt_c_pair.specs.Pairs.{CallsAreMoves};
ghost use Rattle.lpt_c_pair.specs.Programs.{ProgramsKeepTheirMemories};
ghost use Rattle.lpt_c_pair.specs.Redo.{WritesCanBeMadeAgain, WritesCanBeTakenBack};
ghost use Rattle.lpt_c_pair.specs.Resets.{CarefulMachinesMayBeReset, ResetProgramsKeepTheirMemories};
ghost use Rattle.lpt_c_pair.specs.Runs.{EndsOfCKeepThePromise};
ghost use Rattle.lpt_c_pair.specs.Ticks.{ManyTicksAreTicks};
ghost use Rattle.lpt_c_pair.specs.Withheld.{EndsOfCWithholdNothing, ProgramsWithholdNothing};

/// If two ends behind handles are those of two ends apart, and one of them is called, answers 0,
/// and the program keeps what it promises of that call, then its moves can happen, and the ends are
/// those of two ends apart after them.
pub fn calls_are_moves()
    ensures { CallsAreMoves }
{}

/// Take two new ends, one of each side, of one configuration but for the clocks that they begin
/// with, and any list of calls of them that answered 0, also such as restore an end from its saved
/// state, if the programs keep what they promise. Then the ends are two ends apart. Each large
/// message that was released is the one last opened under its name at the other end, and once; each
/// plain request is one that ground asked; and the spacecraft's memories are their first content,
/// changed by the executed requests in order of release.
///
/// It is the same if its program has the memories: those are its own, and what it writes over them
/// is what `lpt_end_access` and `lpt_end_access_octets` told it. If it wrote something ahead of an
/// execution, that stands over them besides; if it owes something, it is missing. Before it drops
/// or refuses a request it puts back what it wrote ahead for it.
pub fn ends_of_c_keep_the_promise()
    ensures in_end { EndsOfCKeepThePromise }
    ensures with_program { ProgramsKeepTheirMemories }
{}

/// Such ends withhold nothing that came whole. Take what was last opened under a name. If
/// `lpt_end_packet` took each of its parts since then, and since its receiver was last restarted or
/// made again, while there was room, it was released since, unless its reception expired or was
/// broken off.
pub fn ends_of_c_withhold_nothing()
    ensures in_end { EndsOfCWithholdNothing }
    ensures with_program { ProgramsWithholdNothing }
{}

/// Ends withhold nothing and keep the promise whenever a machine is reset, once or again and again,
/// also if its program had made calls that it hadn't kept: what is left of all calls comes to the
/// ends that the programs have, and what came whole with it was released. Nothing of what is
/// deleted was handed to the other end.
///
/// If the spacecraft's program has the memories, what is left comes to these and to what it owes
/// too; since it last kept its end, they were changed only by what it owed then, or put back.
///
/// If each call could be made also without what the other program hadn't kept, a machine may be
/// reset at any time. What is sent or finished leaves an end's state as it is, so that no reset
/// need delete it.
pub fn resets_keep_the_promise()
    ensures in_end { ResetEndsOfCKeepThePromise }
    ensures with_program { ResetProgramsKeepTheirMemories }
    ensures at_any_time { CarefulProgramsMayBeReset }
    ensures own_at_any_time { CarefulMachinesMayBeReset }
    ensures sent { SendingsLeaveTheState }
{}

/// If some writes of a load were made, whole or in part and in any order, and then all are made
/// in their order, memories are as if nothing had been written before. So a program that keeps what
/// it was told to write can write it again after a reset, wherever that came. And one that keeps
/// what stood there can put it back.
pub fn writes_can_be_made_again()
    ensures again { WritesCanBeMadeAgain }
    ensures back { WritesCanBeTakenBack }
{}

/// If `lpt_end_packet` answers 0, and `lpt_end_released` copies a message then, the newest fact of
/// the log is that this message was released, of the transaction that the first call told, or of
/// none; and that was due. So what a caller is handed is the message last opened under that name at
/// the other end, or a request that ground asked. It is the same if other calls come in between,
/// but for `lpt_end_packet` and such as restore the end.
pub fn messages_are_handed()
    ensures at_once { MessagesAreHanded }
    ensures later { MessagesStay }
{}

/// If `lpt_end_execute` or `lpt_end_execute_given` answers 0, the newest fact of the log is that
/// the oldest request was executed; one waited, and it is the one that was read at that end, of
/// which `lpt_end_access` tells; and a report whose name the call told was opened under that name.
pub fn executions_are_told()
    ensures in_end { ExecutionsAreTold }
    ensures with_program { GivenExecutionsAreTold }
{}

/// What `lpt_end_tick_many` leaves of an end if it answers 0, as many calls of `lpt_end_tick` leave
/// that answer 0. So what is said of any calls is said of those too: n ticks are n calls.
pub fn many_ticks_are_calls()
    ensures { ManyTicksAreTicks }
{}

/// If a call answers 0, its end didn't refuse it: no refusal has the number 0.
pub fn zero_is_done()
    ensures { ZeroIsAlwaysDone }
{}

/// A load that is executed, once it is the oldest request of all, is carried out or refused. If
/// it is carried out, its areas are written over the memory that it names, in their order, and
/// nothing else is; if it is refused, nothing is.
pub fn loads_go_where_they_say()
    ensures { LoadsGoWhereTheySay }
{}

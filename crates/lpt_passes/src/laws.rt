//! What is proved of two ends apart: functions with empty bodies.

ghost use Rattle.lpt_passes.specs.Asked.{ExecutedWasAsked};
ghost use Rattle.lpt_passes.specs.Passes.{HeardDumpIsMemory, HeardWasExecuted, JoinedDumpIsMemory, PassesLeaveTheImage};

/// Whatever two ends did, a report of start or completion that is on its way down tells of a
/// request that the log has as executed, of the source that it goes to and with its request ID.
pub fn heard_was_executed()
    ensures { HeardWasExecuted }
{}

/// A dump report that is on its way down in one packet holds the octets that the memories had when
/// the dump was executed: those that the requests executed before it leave.
pub fn heard_dump_is_memory()
    ensures { HeardDumpIsMemory }
{}

/// A dump report that came down in parts, and was released to ground, also holds the octets that
/// the memories had when the dump was executed, if the spacecraft's program opened no dump report
/// to this source by itself.
pub fn joined_dump_is_memory()
    ensures { JoinedDumpIsMemory }
{}

/// Each request that the log has as executed is one that ground asked for by a plain request, or
/// opened upwards, if each fact of the log was due, as it is of two ends apart.
pub fn executed_was_asked()
    ensures { ExecutedWasAsked }
{}

/// Take an image and ground's requests to load it, each of a source and request ID that no other
/// request has. If a report of the start or the completion of each could be heard at some moment,
/// as the spacecraft had put it out, and nothing else was loaded into the range since the first of
/// them, the memory has the image there.
pub fn passes_leave_the_image()
    ensures { PassesLeaveTheImage }
{}

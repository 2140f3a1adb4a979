//! What is proved of all legal journals, and of all loads: functions with empty bodies.

ghost use Rattle.lpt_passes.specs.Alone.{CarriedOutIsAlone};
ghost use Rattle.lpt_passes.specs.Images.{LoadsLeaveTheImage, PassLeavesTheImage, RangeStays};
ghost use Rattle.lpt_passes.specs.Reported.{CompletedWasExecuted, DumpedIsMemory, FailedChangedNothing, OpenedDumpIsMemory, OpenedReportsAreOfExecutions, ReportsAreOfExecutions};

/// Over every legal journal, telemetry that was put on the link and is of no part and no abortion
/// is a report of a request that left the queue, executed or refused, one of those that its message
/// and its end ask for. What the link's noise left is none.
pub fn reports_are_of_executions()
    ensures { ReportsAreOfExecutions }
{}

/// Telemetry that was opened as a large message, since it is too long for the link, is a report of
/// a request that left the queue, too.
pub fn opened_reports_are_of_executions()
    ensures { OpenedReportsAreOfExecutions }
{}

/// Over every legal journal, a report of start or completion that stands on the link, of whatever
/// request ID, comes of a request that was executed, whose first four octets are this request ID,
/// and in which no fault was found: what it means was done to the memories.
pub fn completed_was_executed()
    ensures { CompletedWasExecuted }
{}

/// If ground gave a source and a request ID to one message alone, it is that message that was
/// carried out under them.
pub fn carried_out_is_alone()
    ensures { CarriedOutIsAlone }
{}

/// Over every legal journal, a report of a failure that stands on the link comes of a request that
/// left the queue, whose first four octets are its request ID, which failed with this code or was
/// refused with it, and changed no memory.
pub fn failed_changed_nothing()
    ensures { FailedChangedNothing }
{}

/// Over every legal journal, a report of a dump that was put on the link as one packet holds the
/// octets that the memories had when the dump was executed.
pub fn dumped_is_memory()
    ensures { DumpedIsMemory }
{}

/// A report of a dump that the execution opened as a large message holds the octets that the
/// memories had when the dump was executed, too.
pub fn opened_dump_is_memory()
    ensures { OpenedDumpIsMemory }
{}

/// Let each of the requests that are executed load nothing but the image's octets into a range of a
/// memory. If each octet of the range was loaded by one of them, the range is the image,
/// whatever their order and however often each was executed.
pub fn loads_leave_the_image()
    ensures { LoadsLeaveTheImage }
{}

/// If, of all that was executed, those from some place on are such requests, the range is the
/// image: what came before may be anything.
pub fn pass_leaves_the_image()
    ensures { PassLeavesTheImage }
{}

/// If a range of a memory is the image, it stays so through requests that load nothing else into
/// it: what is dumped of it in between, piece by piece, is the image.
pub fn range_stays()
    ensures { RangeStays }
{}

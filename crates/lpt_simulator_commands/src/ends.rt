//! How a command ends that ran a script.

use lpt_io::{Failure, Fault, Machine, Status, name_of, status_of, tell_text};
use lpt_script::ScriptEnd;
use lpt_share::ShareFault;
use lpt_text::LONGEST_TEXT;
use lpt_tool::ToolFault;
use std::io;

/// How the run of a script at this path ends, by the error of a read that failed, if one did.
/// Standard error was told at which line the run ended, if that is unreadable.
pub fn status_at_end<R: Machine>(
    rt: &R,
    error: Option<&io::Error>,
    path: &str,
    ran: Result<ScriptEnd, ToolFault>,
) -> Result<Status, Failure> {
    let name = name_of(path);
    match ran {
        Ok(end) => Ok(status_of(end.refused > 0)),
        Err(ToolFault::Line(number)) => {
            let why = "python3 -m forgesilver lint says why";
            tell_text(
                rt,
                format!(in rt.alloc(); "{name}:{number}: unreadable; {why}"),
            );
            Err(Failure::from(Fault::Line))
        }
        Err(ToolFault::Read) => {
            let place = match error {
                Some(error) => format!(in rt.alloc(); "{name}: {error}"),
                None => format!(in rt.alloc(); "{name}: more than {LONGEST_TEXT} octets"),
            };
            Err(Failure::at(Fault::Read, place))
        }
        Err(ToolFault::Threads(fault)) => {
            let (code, why) = (fault.code(), threads_words(fault));
            let place = format!(in rt.alloc(); "fault {code}: {why}");
            Err(Failure::at(Fault::Threads, place))
        }
        Err(fault) => Err(Failure::from(fault_of(fault))),
    }
}

// Why a run of threads ended by this fault.
fn threads_words(fault: ShareFault) -> &'static str {
    match fault {
        ShareFault::Torn => "something was left to do, or the logs and the journal don't agree",
        ShareFault::Memory => "out of memory",
        ShareFault::NoThread => "a thread couldn't be started",
    }
}

/// The fault by which a command ends whose run ended by this one.
pub fn fault_of(fault: ToolFault) -> Fault {
    match fault {
        ToolFault::Read => Fault::Read,
        ToolFault::Write => Fault::Write,
        ToolFault::Line(_) => Fault::Line,
        ToolFault::Memory => Fault::Memory,
        ToolFault::Config => Fault::Config,
        ToolFault::Threads(_) => Fault::Threads,
    }
}

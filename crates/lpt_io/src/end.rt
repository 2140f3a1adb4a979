//! How the program ends, and what it reports about a fault.

ghost use Rattle.std.specs.Prelude.{◌≡◌};
ghost use Rattle.lpt_io.specs.Ends.{end_status, fault_of};
ghost use Rattle.lpt_io.specs.Faults.{of_settings, of_stream};

use crate::fault::{Fault, Status};
use clap::error::ErrorKind;
use lpt_command_line::{NoCommand, WordFault};
use lpt_settings::SettingsFault;
use lpt_text::StreamFault;
use std::alloc::{AllocError, Global};
use std::io;

/// Why the program ends before its work is done.
#[derive(Drop)]
pub struct Failure {
    fault: Fault,
    // Whether nothing is reported of it.
    quiet: bool,
    // Where it is, and what is wrong there, if that is known.
    place: Option<String>,
}

impl Failure {
    /// A fault with where it is and what is wrong there. If there is no memory for that, it is
    /// reported without.
    pub fn at(fault: Fault, place: Result<String, AllocError>) -> Self
        ensures { fault_of result ≡ fault }
    {
        Failure {
            fault,
            quiet: false,
            place: place.ok(),
        }
    }

    /// The failure that nobody reads the output any more, of which nothing is reported.
    pub fn unread() -> Self
        ensures { fault_of result ≡ Fault.Write }
    {
        Failure {
            fault: Fault::Write,
            quiet: true,
            place: None,
        }
    }

    /// Whether the same is reported of it as of another one.
    pub fn reads_like(&self, other: &Self) -> bool {
        let has_its_place = match (&self.place, &other.place) {
            (Some(place), Some(others)) => place.as_str() == others.as_str(),
            (None, None) => true,
            (Some(_), None) | (None, Some(_)) => false,
        };
        self.fault == other.fault && self.quiet == other.quiet && has_its_place
    }
}

impl From<Fault> for Failure {
    ghost from_gives = { λ fault made. fault_of made ≡ fault };

    fn from(fault: Fault) -> Self {
        Failure {
            fault,
            quiet: false,
            place: None,
        }
    }
}

impl From<StreamFault> for Failure {
    ghost from_gives = { λ fault made. fault_of made ≡ of_stream fault };

    fn from(fault: StreamFault) -> Self {
        Failure::from(match fault {
            StreamFault::Read => Fault::Read,
            StreamFault::Write => Fault::Write,
            StreamFault::Memory => Fault::Memory,
        })
    }
}

impl From<SettingsFault> for Failure {
    ghost from_gives = { λ fault made. fault_of made ≡ of_settings fault };

    fn from(fault: SettingsFault) -> Self {
        Failure::from(match fault {
            SettingsFault::Config => Fault::Config,
            SettingsFault::Memory => Fault::Memory,
        })
    }
}

/// The status by which the program ends. Before that, two lines go to standard error: one names the
/// fault, and if that is known, one says where it is and what is wrong there.
///
/// An unreadable line has been reported on standard output, in its place.
pub fn tell_end(rt: &impl Eprint, ended: Result<Status, Failure>) -> Status
    ensures { result ≡ end_status ended }
{
    let failure = match ended {
        Ok(status) => return status,
        Err(failure) => failure,
    };
    if !failure.quiet {
        let words = failure.fault.words();
        if !words.is_empty() {
            let _ = rt.eprintln(words);
        }
        if let Some(place) = &failure.place {
            tell_place(rt, place.as_str());
        }
    }
    failure.fault.status()
}

/// Says on standard error where a fault is, and what is wrong there. A question mark stands for a
/// character that would move a cursor: a path may have one.
pub fn tell_place(rt: &impl Eprint, place: &str) {
    let _ = rt.eprint("lpt: ");
    let mut pieces = place.split(|letter: char| letter.is_control());
    let _ = rt.eprint(pieces.next().unwrap_or(""));
    for piece in pieces {
        let _ = rt.eprint("?");
        let _ = rt.eprint(piece);
    }
    let _ = rt.eprintln("");
}

/// Says a text on standard error as `tell_place` does, unless there was no memory for it.
pub fn tell_text(rt: &impl Eprint, text: Result<String, AllocError>) {
    if let Ok(text) = text {
        tell_place(rt, text.as_str());
    }
}

/// The status by which the program ends if its words ask for nothing that is to be done, after
/// that was printed: a usage fault, or the help or the version that was asked for.
pub fn explain_words<R: Print + Eprint>(rt: &R, alloc: Global, unasked: &NoCommand<'_>) -> Status {
    let error = match unasked {
        NoCommand::Said(error) => error,
        NoCommand::Fault(fault) => return word_refused(rt, alloc, fault),
    };
    if error.kind() == ErrorKind::OutOfMemory {
        return tell_end(rt, Err(Failure::from(Fault::Memory)));
    }
    let printed = error.print(rt);
    if error.use_stderr() {
        return Status::Unreadable;
    }
    match printed {
        Ok(()) => Status::Done,
        // Nobody reads it, and nothing is reported of that.
        Err(error) if error.kind() == io::ErrorKind::BrokenPipe => Status::Failed,
        Err(error) => {
            let place = format!(in alloc; "standard output: {error}");
            tell_end(rt, Err(Failure::at(Fault::Write, place)))
        }
    }
}

/// The status by which the program ends if a word is refused, after it was told why.
pub fn word_refused(rt: &impl Eprint, alloc: Global, fault: &WordFault<'_>) -> Status {
    match fault.text(alloc) {
        Ok(text) if !matches!(fault, WordFault::Memory) => {
            let _ = rt.eprint("error: ");
            let _ = rt.eprintln(text.as_str());
            let _ = rt.eprintln("\nFor more information, try '--help'.");
            Status::Unreadable
        }
        _ => tell_end(rt, Err(Failure::from(Fault::Memory))),
    }
}

//! Why a command ends before its work is done, and the program's status.

ghost use Rattle.std.specs.Prelude.{◌≡◌};
ghost use Rattle.lpt_io.specs.Ends.{work_status};
ghost use Rattle.lpt_io.specs.Faults.{status_of, words_of};

/// What the program's status says.
#[derive(Clone, Copy)]
pub enum Status {
    /// All was done.
    Done = 0,
    /// An event was refused, a message isn't whole or can't be sent, or the octets are no packet.
    Refused = 1,
    /// The words, a line of the script, HEX or the configuration can't be read.
    Unreadable = 2,
    /// A file can't be read, the output can't be written, or memory runs out.
    Failed = 3,
}

/// The status of work that was done, by whether something of it was refused.
pub fn status_of(refused: bool) -> Status
    ensures { result ≡ work_status refused }
{
    if refused {
        Status::Refused
    } else {
        Status::Done
    }
}

/// The fault by which a command ends.
#[derive(Clone, Copy, Debug, PartialEq, Eq)]
pub enum Fault {
    /// A file or standard input can't be read, or isn't what it should be.
    Read,
    /// A file or standard output can't be written.
    Write,
    /// A line of the script is unreadable, and was told of in its place.
    Line,
    /// Out of memory.
    Memory,
    /// The configuration is refused.
    Config,
    /// A run of threads failed.
    Threads,
}

impl Fault {
    /// What standard error is told of it: nothing of a line.
    pub fn words(self) -> &'static str
        ensures { result.now ≡ words_of self }
    {
        match self {
            Fault::Read => "Read",
            Fault::Write => "Write",
            Fault::Line => "",
            Fault::Memory => "Memory",
            Fault::Config => "config refused",
            Fault::Threads => "Threads",
        }
    }

    /// The status by which the program ends by it.
    pub fn status(self) -> Status
        ensures { result ≡ status_of self }
    {
        match self {
            Fault::Line | Fault::Config => Status::Unreadable,
            Fault::Read | Fault::Write | Fault::Memory | Fault::Threads => Status::Failed,
        }
    }
}

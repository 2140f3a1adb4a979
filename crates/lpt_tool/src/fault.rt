//! Why a run of the tool ends before its work is done.

ghost use Rattle.std.specs.Prelude.{◌≡◌};
ghost use Rattle.lpt_tool.specs.Faults.{code_of, name_of, of_script, of_settings, of_stream};
ghost use Rattle.lpt_tool.specs.declared.fault.ToolFault.TheVariants.{Threads};

use lpt_script::ScriptFault;
use lpt_settings::SettingsFault;
use lpt_share::ShareFault;
use lpt_text::StreamFault;
use thiserror::Error;

/// The fault by which a run of the tool ends.
#[derive(Clone, Copy, Debug, PartialEq, Eq, Error)]
pub enum ToolFault {
    /// A read failed, or the script has more than 16,777,216 octets.
    #[error("the script can't be read")]
    Read,
    /// A write failed or took nothing.
    #[error("the output can't be written")]
    Write,
    /// The line of that number, from 1, is unreadable.
    #[error("line {0} is unreadable")]
    Line(u64),
    /// Out of memory.
    #[error("out of memory")]
    Memory,
    /// The configuration is refused.
    #[error("the configuration is refused")]
    Config,
    /// A run of threads ended by that fault.
    #[error("a run of threads ended by fault {}", .0.code())]
    Threads(ShareFault),
}

impl ToolFault {
    /// The fault's number, 81 to 86.
    pub fn code(self) -> u16
        ensures { result ≡ code_of self }
    {
        match self {
            ToolFault::Read => 81,
            ToolFault::Write => 82,
            ToolFault::Line(_) => 83,
            ToolFault::Memory => 84,
            ToolFault::Config => 85,
            ToolFault::Threads(_) => 86,
        }
    }

    /// The fault's name, as it is printed: without the line's number or the threads' fault.
    pub fn name(self) -> &'static str
        ensures { result.now ≡ name_of self }
    {
        match self {
            ToolFault::Read => "Read",
            ToolFault::Write => "Write",
            ToolFault::Line(_) => "Line",
            ToolFault::Memory => "Memory",
            ToolFault::Config => "Config",
            ToolFault::Threads(_) => "Threads",
        }
    }
}

impl From<StreamFault> for ToolFault {
    ghost from_gives = { λ fault told. told ≡ of_stream fault };

    fn from(fault: StreamFault) -> ToolFault {
        match fault {
            StreamFault::Read => ToolFault::Read,
            StreamFault::Write => ToolFault::Write,
            StreamFault::Memory => ToolFault::Memory,
        }
    }
}

impl From<ScriptFault> for ToolFault {
    ghost from_gives = { λ fault told. told ≡ of_script fault };

    fn from(fault: ScriptFault) -> ToolFault {
        match fault {
            ScriptFault::Stream(fault) => ToolFault::from(fault),
            ScriptFault::Line(number) => ToolFault::Line(number),
            ScriptFault::Config => ToolFault::Config,
        }
    }
}

impl From<SettingsFault> for ToolFault {
    ghost from_gives = { λ fault told. told ≡ of_settings fault };

    fn from(fault: SettingsFault) -> ToolFault {
        match fault {
            SettingsFault::Config => ToolFault::Config,
            SettingsFault::Memory => ToolFault::Memory,
        }
    }
}

impl From<ShareFault> for ToolFault {
    ghost from_gives = { λ fault told. told ≡ Threads fault };

    fn from(fault: ShareFault) -> ToolFault {
        ToolFault::Threads(fault)
    }
}

//! Why the run of a script ends before its work is done.

ghost use Rattle.std.specs.Prelude.{◌≡◌};
ghost use Rattle.lpt_script.specs.declared.fault.ScriptFault.TheVariants.{Stream};

use lpt_text::StreamFault;
use thiserror::Error;

/// The fault by which the run of a script ends.
#[derive(Clone, Copy, Debug, PartialEq, Eq, Error)]
pub enum ScriptFault {
    /// Its text couldn't be read, what it prints couldn't be written, or out of memory.
    #[error(transparent)]
    Stream(StreamFault),
    /// The line of that number, from 1, is unreadable.
    #[error("line {0} is unreadable")]
    Line(u64),
    /// The configuration is refused.
    #[error("the configuration is refused")]
    Config,
}

impl From<StreamFault> for ScriptFault {
    ghost from_gives = { λ fault said. said ≡ Stream fault };

    fn from(fault: StreamFault) -> ScriptFault {
        ScriptFault::Stream(fault)
    }
}

//! Why a configuration isn't read.

use thiserror::Error;

/// The fault by which the reading of a configuration ends.
#[derive(Clone, Copy, Debug, PartialEq, Eq, Error)]
pub enum SettingsFault {
    /// The configuration is refused.
    #[error("the configuration is refused")]
    Config,
    /// Out of memory.
    #[error("out of memory")]
    Memory,
}

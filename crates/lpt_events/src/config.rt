//! The configuration, which both ends share and which never changes.

ghost use Rattle.std.specs.Prelude.{◌≡◌, ◌↔◌, None};

use crate::ConfigFault;
use lpt_part::Mode;

/// What is fixed for a whole pass. A world refuses values that are out of their ranges.
#[derive(Clone, Copy, Debug, PartialEq, Eq)]
pub struct Config {
    /// The application process identifier of all packets, 0 to 2046.
    pub apid: u16,
    /// The source ID that is meant if none is given, of a name and of a plain request.
    pub source: u16,
    /// The part size in octets, 4 to 1024.
    pub part_size: u32,
    /// The timeout of a reception in ticks, 1 to 65,535.
    pub timeout: u32,
    /// How many receptions a node may have open, 1 to 64.
    pub receptions: u32,
    /// How many outgoing transactions a node may have open, 1 to 64.
    pub outgoing: u32,
    /// The first value of both clocks in ticks.
    pub clock: u32,
    /// In which order both nodes take the parts of a message.
    pub mode: Mode,
}

impl Config {
    ghost use Rattle.lpt_events.specs.Configs.{IsConfig, config_fault};

    /// The first value that is out of its range, or none if all are in theirs.
    pub fn fault(&self) -> Option<ConfigFault>
        ensures fault { result ≡ config_fault self.now }
        ensures in_range { (result ≡ None) ↔ IsConfig self.now }
    {
        let _source = self.source;
        let _clock = self.clock;
        let _mode = self.mode;
        if self.apid > 2046 {
            return Some(ConfigFault::Apid);
        }
        if self.part_size < 4 || self.part_size > 1024 {
            return Some(ConfigFault::PartSize);
        }
        if self.timeout == 0 || self.timeout > 65535 {
            return Some(ConfigFault::Timeout);
        }
        if self.receptions == 0 || self.receptions > 64 {
            return Some(ConfigFault::Receptions);
        }
        if self.outgoing == 0 || self.outgoing > 64 {
            return Some(ConfigFault::Outgoing);
        }
        None
    }
}

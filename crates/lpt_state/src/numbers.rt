//! Numbers, runs and octets at the places of a state.

ghost use Rattle.std.specs.Prelude.{◌≡◌, ◌+◌, ◌<◌, ◌≤◌, length};
ghost use Rattle.lpt_packet.specs.Numbers.{word_at};
ghost use Rattle.lpt_pus.specs.Numbers.{long_at};
ghost use Rattle.lpt_state.specs.Verdicts.{great_at, run_at, stands_at};

use lpt_ledger::NameRun;

/// The number of 32 bits at a place.
pub(crate) fn long(octets: &[u8], at: usize) -> u32
    requires { at + 3 < length octets.now }
    ensures { result ≡ long_at octets.now at }
{
    u32::from_be_bytes([octets[at], octets[at + 1], octets[at + 2], octets[at + 3]])
}

/// The number of 64 bits at a place.
pub(crate) fn great(octets: &[u8], at: usize) -> u64
    requires { at + 7 < length octets.now }
    ensures { result ≡ great_at octets.now at }
{
    u64::from(long(octets, at)) * 0x1_0000_0000 + u64::from(long(octets, at + 4))
}

/// The number of 16 bits at a place.
pub(crate) fn word(octets: &[u8], at: usize) -> u16
    requires { at + 1 < length octets.now }
    ensures { result ≡ word_at octets.now at }
{
    u16::from_be_bytes([octets[at], octets[at + 1]])
}

/// The run that six octets say.
pub(crate) fn run_from(octets: &[u8; 6]) -> NameRun
    ensures { result ≡ run_at octets.now }
{
    NameRun {
        source: word(octets, 0),
        first: word(octets, 2),
        last: word(octets, 4),
    }
}

/// Whether these octets stand at a place.
pub(crate) fn stands_at(octets: &[u8], at: usize, expected: &[u8]) -> bool
    requires { at + length expected.now ≤ length octets.now }
    ensures { result ≡ stands_at octets.now at expected.now }
{
    &octets[at..at + expected.len()] == expected
}

//! Sides, directions, names, configurations and outcomes as C writes and reads them.

ghost use Rattle.std.specs.Prelude.{◌≡◌};
ghost use Rattle.lpt_c_end.specs.Words.{applied_words, config_from, direction_from, mode_from, name_from, name_word, side_from, why_word, words};

use lpt_events::{Applied, Config, Outcome, Side, Why};
use lpt_packet::{Direction, Name};
use lpt_part::Mode;

/// What names a transaction within a direction.
#[repr(C)]
#[derive(Clone, Copy)]
pub struct LptName {
    /// The source ID of telecommands up, the destination ID of telemetry down.
    pub source: u16,
    /// The identifier of the transaction.
    pub id: u16,
}

// The name that is told if there is none.
const NO_NAME: Name = Name { source: 0, id: 0 };

/// What is fixed of an end; the ranges are those of a world's configuration.
#[repr(C)]
#[derive(Clone, Copy)]
pub struct LptConfig {
    /// The application process identifier of all packets, 0 to 2046.
    pub apid: u16,
    /// The part size in octets, 4 to 1024.
    pub part_size: u32,
    /// The timeout of a reception in ticks, 1 to 65,535.
    pub timeout: u32,
    /// How many receptions may be open, 1 to 64.
    pub receptions: u32,
    /// How many outgoing transactions may be open, 1 to 64.
    pub outgoing: u32,
    /// The first value of the clock in ticks.
    pub clock: u32,
    /// In which order parts are taken: 0 in any, 1 in that of their numbers.
    pub mode: u32,
}

/// What became of a packet: the kind, 1 to 8, and what it says, by the kind; 0 if it says nothing.
#[repr(C)]
#[derive(Clone, Copy)]
pub struct LptOutcome {
    /// The kind.
    pub kind: u32,
    /// The transaction.
    pub name: LptName,
    /// The number of the part, the length of what was released, the reason of an abortion, the
    /// service type of telemetry, or why nothing was made of the packet.
    pub first: u32,
    /// The message subtype of telemetry.
    pub second: u32,
}

/// What became of a request that was executed: the kind, 1 to 4, and what it says; 0 if it says
/// nothing.
#[repr(C)]
#[derive(Clone, Copy)]
pub struct LptApplied {
    /// The kind.
    pub kind: u32,
    /// The transaction under which its report was opened.
    pub name: LptName,
    /// The failure code.
    pub value: u32,
}

// The side of a number, 0 or 1.
pub(crate) fn side_of(side: u32) -> Side
    ensures { result ≡ side_from side }
{
    if side == 0 { Side::Ground } else { Side::Craft }
}

// The direction of a number, 0 or 1.
pub(crate) fn direction_of(direction: u32) -> Direction
    ensures { result ≡ direction_from direction }
{
    if direction == 0 {
        Direction::Up
    } else {
        Direction::Down
    }
}

// The mode of a number, 0 or 1.
fn mode_of(mode: u32) -> Mode
    ensures { result ≡ mode_from mode }
{
    if mode == 0 { Mode::Any } else { Mode::Strict }
}

// The name that C gives.
pub(crate) fn name_of(name: &LptName) -> Name
    ensures { result ≡ name_from name.now }
{
    Name {
        source: name.source,
        id: name.id,
    }
}

// The name as C is told it.
pub(crate) fn name_word_of(name: Name) -> LptName
    ensures { result ≡ name_word name }
{
    let Name { source, id } = name;
    LptName { source, id }
}

// The configuration.
pub(crate) fn config_of(config: &LptConfig) -> Config
    ensures { result ≡ config_from config.now }
{
    Config {
        apid: config.apid,
        source: 0,
        part_size: config.part_size,
        timeout: config.timeout,
        receptions: config.receptions,
        outgoing: config.outgoing,
        clock: config.clock,
        mode: mode_of(config.mode),
    }
}

// What became of a packet.
pub(crate) fn words_of(outcome: Outcome) -> LptOutcome
    ensures { result ≡ words outcome }
{
    let (kind, name, first, second) = match outcome {
        Outcome::Kept(name, number) => (1, name, u32::from(number), 0),
        Outcome::Again(name, number) => (2, name, u32::from(number), 0),
        Outcome::Released(name, len) => (3, name, len, 0),
        Outcome::PlainReleased(len) => (4, NO_NAME, len, 0),
        Outcome::ReportNoted(service, subtype) => (
            5,
            NO_NAME,
            u32::from(service),
            u32::from(subtype),
        ),
        Outcome::AbortNoted(name, reason) => (6, name, u32::from(reason.code()), 0),
        Outcome::Broken(name, reason) => (7, name, u32::from(reason.code()), 0),
        Outcome::Ignored(why) => (8, NO_NAME, why_of(why), 0),
    };
    LptOutcome {
        kind,
        name: name_word_of(name),
        first,
        second,
    }
}

// Why nothing was made of a packet.
fn why_of(why: Why) -> u32
    ensures { result ≡ why_word why }
{
    match why {
        Why::Unreadable => 1,
        Why::Idle => 2,
        Why::ForeignApid => 3,
        Why::BadPart => 4,
        Why::Closed => 5,
        Why::NoRoom => 6,
    }
}

// What became of a request.
pub(crate) fn applied_words_of(applied: Applied) -> LptApplied
    ensures { result ≡ applied_words applied }
{
    let (kind, name, value) = match applied {
        Applied::Done(None) => (1, NO_NAME, 0),
        Applied::Done(Some(name)) => (2, name, 0),
        Applied::Silent => (3, NO_NAME, 0),
        Applied::Code(code) => (4, NO_NAME, u32::from(code.number())),
    };
    LptApplied {
        kind,
        name: name_word_of(name),
        value,
    }
}

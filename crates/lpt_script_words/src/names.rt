//! The words of a line that name something, each by itself.

ghost use Rattle.std.specs.Prelude.{◌≡◌, map, option_map};
ghost use Rattle.lpt_script_words.specs.Names.{count_of, cut_source, direction_of, flags_of, keyword_in, keyword_of, lane_of, name_of, node_of, packet_number_of, sent_flags_of, source_of, transaction_of, u8_of, u16_of, u32_of, worker_of};

use crate::numbers::read_number;
use lpt_events::{Lane, Side, Worker};
use lpt_packet::{Direction, Name};
use lpt_pus::AckFlags;
use lpt_text::first_place;

/// The greatest number that a line can name: of ten digits.
pub const GREATEST_NUMBER: u64 = 9_999_999_999;

/// The greatest number of acknowledgement flags.
const GREATEST_FLAGS: u64 = 15;

/// The most ticks that one line can ask for.
const MOST_TICKS: u64 = 100_000;

/// What the first word of a line names.
#[derive(Clone, Copy)]
pub(crate) enum Keyword {
    Open,
    Send,
    Lose,
    Damage,
    Take,
    Deliver,
    Pass,
    Show,
    Tick,
    Expire,
    Finish,
    Plain,
    Load,
    Claim,
    Commit,
    Apply,
    Work,
    Retire,
    Restart,
}

/// The first words of lines, with what each names; those that a script has most of stand first.
static KEYWORDS: [(&str, Keyword); 19] = [
    ("pass", Keyword::Pass),
    ("send", Keyword::Send),
    ("take", Keyword::Take),
    ("deliver", Keyword::Deliver),
    ("tick", Keyword::Tick),
    ("expire", Keyword::Expire),
    ("finish", Keyword::Finish),
    ("open", Keyword::Open),
    ("show", Keyword::Show),
    ("lose", Keyword::Lose),
    ("retire", Keyword::Retire),
    ("plain", Keyword::Plain),
    ("work", Keyword::Work),
    ("claim", Keyword::Claim),
    ("commit", Keyword::Commit),
    ("apply", Keyword::Apply),
    ("load", Keyword::Load),
    ("damage", Keyword::Damage),
    ("restart", Keyword::Restart),
];

// What the first word of a line asks for.
pub(crate) fn read_keyword(word: &[u8]) -> Option<Keyword>
    ensures { result ≡ keyword_of word.now }
{
    keyword_in(&KEYWORDS, word)
}

// What a word names by the first of these rows that has it.
fn keyword_in(rows: &[(&str, Keyword)], word: &[u8]) -> Option<Keyword>
    ensures { result ≡ keyword_in (map (λ row. (row.0.now, row.1)) rows.now) word.now }
{
    for row in rows {
        if word == row.0.as_bytes() {
            return Some(row.1);
        }
    }
    None
}

// A direction.
pub(crate) fn read_direction(word: &[u8]) -> Option<Direction>
    ensures { result ≡ direction_of word.now }
{
    if word == b"up".as_slice() {
        Some(Direction::Up)
    } else if word == b"down".as_slice() {
        Some(Direction::Down)
    } else {
        None
    }
}

// A lane.
pub(crate) fn read_lane(word: &[u8]) -> Option<Lane>
    ensures { result ≡ lane_of word.now }
{
    if word == b"s1".as_slice() {
        Some(Lane::S1)
    } else if word == b"s2".as_slice() {
        Some(Lane::S2)
    } else if word == b"g1".as_slice() {
        Some(Lane::G1)
    } else if word == b"g2".as_slice() {
        Some(Lane::G2)
    } else {
        None
    }
}

// The number of a transaction or a part.
pub(crate) fn read_u16(word: &[u8]) -> Option<u16>
    ensures { result ≡ u16_of word.now }
{
    let number = read_number(word, u64::from(u16::MAX))?;
    Some(number as u16)
}

/// Cuts a word at its first slash: what stands before that, if the word has one, and what stands
/// behind. So a source stands before what is of it.
pub fn cut_source(word: &[u8]) -> (Option<&[u8]>, &[u8])
    ensures before { option_map (λ w. w.now) result.0 ≡ (cut_source word.now).0 }
    ensures behind { result.1.now ≡ (cut_source word.now).1 }
{
    match first_place(word, b'/') {
        Some(end) => (Some(&word[..end]), &word[end + 1..]),
        None => (None, word),
    }
}

// The source that a word names; if there is none, it is the configured one.
fn read_source(source: u16, word: Option<&[u8]>) -> Option<u16>
    ensures { result ≡ source_of source (option_map (λ w. w.now) word.entry) }
{
    match word {
        Some(word) => read_u16(word),
        None => Some(source),
    }
}

// The name of a transaction: `ID`, if this source is configured, or `SOURCE/ID`.
pub(crate) fn read_name(source: u16, word: &[u8]) -> Option<Name>
    ensures { result ≡ name_of source word.now }
{
    let (before, id) = cut_source(word);
    let source = read_source(source, before)?;
    let id = read_u16(id)?;
    Some(Name { source, id })
}

// The direction and the name of a transaction.
pub(crate) fn read_transaction(
    source: u16,
    direction: &[u8],
    name: &[u8],
) -> Option<(Direction, Name)>
    ensures { result ≡ transaction_of source direction.now name.now }
{
    read_direction(direction).zip(read_name(source, name))
}

// Acknowledgement flags.
pub(crate) fn read_flags(word: &[u8]) -> Option<AckFlags>
    ensures { result ≡ flags_of word.now }
{
    let number = read_number(word, GREATEST_FLAGS)?;
    AckFlags::new(number as u8)
}

// The source of a request and its acknowledgement flags: `FLAGS`, if this source is configured,
// or `SOURCE/FLAGS`.
pub(crate) fn read_sent_flags(source: u16, word: &[u8]) -> Option<(u16, AckFlags)>
    ensures { result ≡ sent_flags_of source word.now }
{
    let (before, flags) = cut_source(word);
    read_source(source, before).zip(read_flags(flags))
}

// A service type, a message subtype or the identifier of a memory.
pub(crate) fn read_u8(word: &[u8]) -> Option<u8>
    ensures { result ≡ u8_of word.now }
{
    let number = read_number(word, u64::from(u8::MAX))?;
    Some(number as u8)
}

// An address in a memory, or how many octets of it.
pub(crate) fn read_u32(word: &[u8]) -> Option<u32>
    ensures { result ≡ u32_of word.now }
{
    let number = read_number(word, u64::from(u32::MAX))?;
    Some(number as u32)
}

// The number of a packet.
pub(crate) fn read_packet_number(word: &[u8]) -> Option<u64>
    ensures { result ≡ packet_number_of word.now }
{
    read_number(word, GREATEST_NUMBER)
}

// A node.
pub(crate) fn read_node(word: &[u8]) -> Option<Side>
    ensures { result ≡ node_of word.now }
{
    if word == b"craft".as_slice() {
        Some(Side::Craft)
    } else if word == b"ground".as_slice() {
        Some(Side::Ground)
    } else {
        None
    }
}

// A worker.
pub(crate) fn read_worker(word: &[u8]) -> Option<Worker>
    ensures { result ≡ worker_of word.now }
{
    if word == b"w1".as_slice() {
        Some(Worker::W1)
    } else if word == b"w2".as_slice() {
        Some(Worker::W2)
    } else {
        None
    }
}

// How many ticks, 1 to 100,000.
pub(crate) fn read_count(word: &[u8]) -> Option<u32>
    ensures { result ≡ count_of word.now }
{
    let count = read_number(word, MOST_TICKS)?;
    if count == 0 {
        return None;
    }
    Some(count as u32)
}

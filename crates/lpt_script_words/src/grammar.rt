//! What each line of a script asks for.

ghost use Rattle.std.specs.Prelude.{◌≡◌, ◌⊎◌, IsSome, IfOk, OnErr};
ghost use Rattle.lpt_script_words.specs.Words.{words};
ghost use Rattle.lpt_script_words.specs.Grammar.{arguments_of, is_comment, reading_of, IsAsked, TakesMemory};

use crate::load::{Load, read_load};
use crate::messages::{read_finish, read_open, read_plain, read_retire, read_send};
use crate::names::{Keyword, read_keyword};
use crate::nodes::{read_claim, read_commit, read_expire, read_restart, read_tick};
use crate::packets::{read_damage, read_deliver, read_lose, read_pass, read_take};
use crate::showing::{Show, read_show};
use crate::words::{is_blank, split_word};
use lpt_events::{Event, Lane, Side};
use lpt_text::LONGEST_LINE;
use std::alloc::{AllocError, Global};

/// What a line asks for.
#[derive(Drop, PartialEq, Eq)]
pub enum Command {
    /// The event that the line names: `open DIRECTION ID HEX`, `send DIRECTION ID K`,
    /// `plain FLAGS SERVICE SUBTYPE HEX`, `finish DIRECTION ID`, `lose N`, `damage DIRECTION HEX`,
    /// `take LANE N`, `deliver LANE`, `expire NODE`, `claim WORKER`, `commit WORKER`, `apply`,
    /// `retire DIRECTION ID` or `restart NODE`.
    Event(Event),
    /// `load ID SEQ FLAGS MEM ADDR HEX [ADDR HEX ..]`: opens the packet of a load as a message up.
    Load(Load),
    /// `pass LANE N`: takes the packet of this number, and then delivers it.
    Pass(Lane, u64),
    /// `tick NODE [COUNT]`: so many ticks of the node's clock, at least 1.
    Tick(Side, u32),
    /// `work`: claims and commits a request with the first worker, and executes the oldest.
    Work,
    /// `show ..`: prints what is there, and changes nothing.
    Show(Show),
}

/// What a line says.
#[derive(Drop, PartialEq, Eq)]
pub enum Reading {
    /// Nothing: the line is blank or a comment.
    Skipped,
    /// It asks for this.
    Asks(Command),
    /// It has no meaning, which ends a run.
    Unreadable,
}

/// Reads a line, given without its line feed and the carriage return dropped with that. A
/// transaction that it names is one of `source`, the configured one, unless the line says SOURCE/ID
/// in place of ID; and so is a plain request, unless the line says SOURCE/FLAGS in place of FLAGS.
///
/// A blank line and one whose first word begins with `#` are skipped, whatever else they hold. A
/// line of more than 140,000 octets is unreadable, even one that would be skipped. The words of a
/// command are in lower case: DIRECTION is `up` or `down`, LANE is `s1`, `s2`, `g1` or `g2`, NODE
/// is `craft` or `ground`, WORKER is `w1` or `w2`, ID, SOURCE and K are numbers to 65,535, SEQ is
/// one to 16,383, FLAGS one to 15, SERVICE, SUBTYPE, MEM and the ID of a memory are numbers to 255,
/// ADDR and LEN to 4,294,967,295, N is one of at most ten digits, and HEX is as `read_hex` reads it.
/// A load has at least one pair of ADDR and HEX, and is unreadable if it can't be written
/// (`Load::new`).
/// Nothing may follow the last word.
/// Errors: out of memory, only at a line that asks for an `open`, a `damage`, a `plain` or a `load`.
#[tactic(auto, unfolding(crate::specs::Grammar::reading_of))]
#[inline(always)]
pub fn read_line(alloc: Global, source: u16, line: &[u8]) -> Result<Reading, AllocError>
    ensures says { IfOk result (λ r. r ≡ reading_of source line.now) }

    // Only the octets of a message, of damage, of a request or of a load take memory, once all else
    // is judged.
    ensures asked { OnErr result (IsAsked (reading_of source line.now)) }
    ensures memory { OnErr result (TakesMemory (words line.now)) }
{
    if line.len() > LONGEST_LINE {
        return Ok(Reading::Unreadable);
    }
    let Some((word, rest)) = split_word(line) else {
        return Ok(Reading::Skipped);
    };
    if begins_comment(word) {
        return Ok(Reading::Skipped);
    }
    let Some(keyword) = read_keyword(word) else {
        return Ok(Reading::Unreadable);
    };
    match read_arguments(alloc, source, keyword, rest)? {
        Some(command) => Ok(Reading::Asks(command)),
        None => Ok(Reading::Unreadable),
    }
}

// Whether a word begins a comment.
fn begins_comment(word: &[u8]) -> bool
    ensures { result ≡ is_comment word.now }
{
    matches!(word, [b'#', ..])
}

// The command of a keyword and of the words after it.
fn read_arguments(
    alloc: Global,
    source: u16,
    keyword: Keyword,
    rest: &[u8],
) -> Result<Option<Command>, AllocError>
    ensures says { IfOk result (λ r. r ≡ arguments_of source keyword (words rest.now)) }
    ensures asked { OnErr result (IsSome (arguments_of source keyword (words rest.now))) }
    ensures memory { OnErr result ((keyword ≡ Keyword.Open) ⊎ (keyword ≡ Keyword.Damage)
        ⊎ (keyword ≡ Keyword.Plain) ⊎ (keyword ≡ Keyword.Load)) }
{
    match keyword {
        Keyword::Open => read_open(alloc, source, rest),
        Keyword::Send => Ok(read_send(source, rest)),
        Keyword::Lose => Ok(read_lose(rest)),
        Keyword::Damage => read_damage(alloc, rest),
        Keyword::Take => Ok(read_take(rest)),
        Keyword::Deliver => Ok(read_deliver(rest)),
        Keyword::Pass => Ok(read_pass(rest)),
        Keyword::Show => Ok(read_show(source, rest).map(Command::Show)),
        Keyword::Finish => Ok(read_finish(source, rest)),
        Keyword::Tick => Ok(read_tick(rest)),
        Keyword::Expire => Ok(read_expire(rest)),
        Keyword::Plain => read_plain(alloc, source, rest),
        Keyword::Load => Ok(read_load(alloc, source, rest)?.map(Command::Load)),
        Keyword::Claim => Ok(read_claim(rest)),
        Keyword::Commit => Ok(read_commit(rest)),
        Keyword::Apply => Ok(is_blank(rest).then_some(Command::Event(Event::Apply))),
        Keyword::Work => Ok(is_blank(rest).then_some(Command::Work)),
        Keyword::Retire => Ok(read_retire(source, rest)),
        Keyword::Restart => Ok(read_restart(rest)),
    }
}

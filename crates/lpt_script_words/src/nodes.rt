//! What the lines ask for that speak of a node or of a worker.

ghost use Rattle.std.specs.Prelude.{◌≡◌};
ghost use Rattle.lpt_script_words.specs.Grammar.{claim_of, commit_of, expire_of, restart_of, tick_of, ticks_of};
ghost use Rattle.lpt_script_words.specs.Words.{words};

use crate::grammar::Command;
use crate::names::{read_count, read_node, read_worker};
use crate::words::{is_blank, one_word, split_word};
use lpt_events::Event;

// The words after `tick`.
pub(crate) fn read_tick(rest: &[u8]) -> Option<Command>
    ensures { result ≡ tick_of (words rest.now) }
{
    let (node, rest) = split_word(rest)?;
    let node = read_node(node)?;
    let count = read_ticks(rest)?;
    Some(Command::Tick(node, count))
}

// How many ticks the words after a node ask for: one, unless they say.
fn read_ticks(rest: &[u8]) -> Option<u32>
    ensures { result ≡ ticks_of (words rest.now) }
{
    let Some((count, rest)) = split_word(rest) else {
        return Some(1);
    };
    if is_blank(rest) {
        read_count(count)
    } else {
        None
    }
}

// The words after `expire`.
pub(crate) fn read_expire(rest: &[u8]) -> Option<Command>
    ensures { result ≡ expire_of (words rest.now) }
{
    let node = read_node(one_word(rest)?)?;
    Some(Command::Event(Event::Expire(node)))
}

// The words after `restart`.
pub(crate) fn read_restart(rest: &[u8]) -> Option<Command>
    ensures { result ≡ restart_of (words rest.now) }
{
    let node = read_node(one_word(rest)?)?;
    Some(Command::Event(Event::Restart(node)))
}

// The words after `claim`.
pub(crate) fn read_claim(rest: &[u8]) -> Option<Command>
    ensures { result ≡ claim_of (words rest.now) }
{
    let worker = read_worker(one_word(rest)?)?;
    Some(Command::Event(Event::Claim(worker)))
}

// The words after `commit`.
pub(crate) fn read_commit(rest: &[u8]) -> Option<Command>
    ensures { result ≡ commit_of (words rest.now) }
{
    let worker = read_worker(one_word(rest)?)?;
    Some(Command::Event(Event::Commit(worker)))
}

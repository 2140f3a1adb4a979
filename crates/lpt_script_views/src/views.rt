//! The lines that ask for a view, and what they print.

ghost use Rattle.std.specs.Prelude.{◌≡◌, ◌++◌, IfOk, OnOk, is_some, string_bytes};
ghost use Rattle.lpt_script_words.specs.Words.{is_empty, words};
ghost use Rattle.lpt_script_views.specs.Views.{asked_view, hand_text, hands_text, shown_text, ticket_text, view_of, view_text, whole_view, words_ask};

use crate::jobs::add_jobs;
use crate::rows::{Half, add_held, add_messages};
use lpt_events::{Lane, Worker};
use lpt_script_words::split_word;
use lpt_text::LONGEST_LINE;
use lpt_world::World;
use std::alloc::{AllocError, Global};

/// What a line asks to be shown.
#[derive(Clone, Copy)]
pub(crate) enum View {
    /// `show link`: the packets that the link holds, and those in the lanes' hands.
    Link,
    /// `show senders`: the messages that are open.
    Senders,
    /// `show receptions`: the receptions that are open.
    Receptions,
    /// `show jobs`: the jobs that aren't executed, and what the workers have.
    Jobs,
}

/// Whether a line asks for a view.
pub fn is_view(line: &[u8]) -> bool
    ensures { result ≡ is_some (asked_view line.now) }
{
    asked_view(line).is_some()
}

// What a line asks to be shown; one that is too long isn't looked at.
pub(crate) fn asked_view(line: &[u8]) -> Option<View>
    ensures { result ≡ asked_view line.now }
{
    if line.len() > LONGEST_LINE {
        return None;
    }
    words_ask(line)
}

// What the words of a line ask to be shown.
fn words_ask(line: &[u8]) -> Option<View>
    ensures { result ≡ words_ask (words line.now) }
{
    let (word, rest) = split_word(line)?;
    if word != b"show".as_slice() {
        return None;
    }
    read_view(rest)
}

// Whether a line has no word.
fn is_blank(line: &[u8]) -> bool
    ensures { result ≡ is_empty (words line.now) }
{
    split_word(line).is_none()
}

// What the words after `show` ask for.
fn read_view(line: &[u8]) -> Option<View>
    ensures { result ≡ view_of (words line.now) }
{
    let (word, rest) = split_word(line)?;
    if !is_blank(rest) {
        return None;
    }
    whole_view(word)
}

// What this word asks for, alone after `show`.
fn whole_view(word: &[u8]) -> Option<View>
    ensures { result ≡ whole_view word.now }
{
    if word == b"link".as_slice() {
        Some(View::Link)
    } else if word == b"receptions".as_slice() {
        Some(View::Receptions)
    } else if word == b"senders".as_slice() {
        Some(View::Senders)
    } else if word == b"jobs".as_slice() {
        Some(View::Jobs)
    } else {
        None
    }
}

// What is shown, or `none` in place of nothing.
pub(crate) fn print_view(alloc: Global, world: &World, view: View) -> Result<String, AllocError>
    ensures { IfOk result (λ t. string_bytes t ≡ view_text world.now view) }
{
    let mut text = String::new(alloc);
    add_view(alloc, &mut text, world, view)?;
    if text.is_empty() {
        text.push_str("none\n")?;
    }
    Ok(text)
}

// Adds what is shown to a text.
fn add_view(alloc: Global, text: &mut String, world: &World, view: View) -> Result<(), AllocError>
    ensures { OnOk result (string_bytes text.new ≡ string_bytes text.old ++ shown_text world.now view) }
{
    match view {
        View::Link => {
            add_held(text, world)?;
            add_hands(text, world)
        }
        View::Senders => add_messages(alloc, text, world, Half::Sender),
        View::Receptions => add_messages(alloc, text, world, Half::Receiver),
        View::Jobs => {
            add_jobs(text, world)?;
            add_ticket(text, "w1", world.ticket(Worker::W1))?;
            add_ticket(text, "w2", world.ticket(Worker::W2))
        }
    }
}

// Adds the packets in the lanes' hands.
fn add_hands(text: &mut String, world: &World) -> Result<(), AllocError>
    ensures { OnOk result (string_bytes text.new ≡ string_bytes text.old ++ hands_text world.now) }
{
    add_hand(text, "s1", world.hand(Lane::S1))?;
    add_hand(text, "s2", world.hand(Lane::S2))?;
    add_hand(text, "g1", world.hand(Lane::G1))?;
    add_hand(text, "g2", world.hand(Lane::G2))
}

// Adds the packet in the hand of the lane of this name.
fn add_hand(text: &mut String, lane: &str, hand: Option<u64>) -> Result<(), AllocError>
    ensures { OnOk result (string_bytes text.new ≡ string_bytes text.old ++ hand_text lane.now hand) }
{
    match hand {
        Some(number) => write!(text, "hand {lane} {number}\n"),
        None => Ok(()),
    }
}

// Adds the job that the worker of this name has, by its boot and its number in it.
fn add_ticket(text: &mut String, worker: &str, ticket: Option<(u64, u64)>) -> Result<(), AllocError>
    ensures { OnOk result (string_bytes text.new ≡ string_bytes text.old ++ ticket_text worker.now ticket) }
{
    match ticket {
        Some((boot, job)) => write!(text, "{worker} {boot} {job}\n"),
        None => Ok(()),
    }
}

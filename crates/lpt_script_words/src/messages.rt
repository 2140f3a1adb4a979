//! What the lines ask for that hand messages and requests to a node.

ghost use Rattle.std.specs.Prelude.{◌≡◌, IsSome, IfOk, OnErr};
ghost use Rattle.lpt_script_words.specs.Grammar.{finish_of, lone_transaction_of, open_of, plain_of, retire_of, send_of};
ghost use Rattle.lpt_script_words.specs.Words.{words};

use crate::grammar::Command;
use crate::names::{read_sent_flags, read_transaction, read_u8, read_u16};
use crate::numbers::read_hex;
use crate::words::{split_word, three_words, two_words};
use lpt_events::Event;
use lpt_packet::{Direction, Name};
use std::alloc::{AllocError, Global};

// The words after `open`.
pub(crate) fn read_open(
    alloc: Global,
    source: u16,
    rest: &[u8],
) -> Result<Option<Command>, AllocError>
    ensures says { IfOk result (λ r. r ≡ open_of source (words rest.now)) }
    ensures asked { OnErr result (IsSome (open_of source (words rest.now))) }
{
    let Some((direction, name, message)) = three_words(rest) else {
        return Ok(None);
    };
    let Some((direction, name)) = read_transaction(source, direction, name) else {
        return Ok(None);
    };
    let Some(message) = read_hex(alloc, message)? else {
        return Ok(None);
    };
    Ok(Some(Command::Event(Event::Open(direction, name, message))))
}

// The words after `send`.
pub(crate) fn read_send(source: u16, rest: &[u8]) -> Option<Command>
    ensures { result ≡ send_of source (words rest.now) }
{
    let (direction, name, part) = three_words(rest)?;
    let (direction, name) = read_transaction(source, direction, name)?;
    let part = read_u16(part)?;
    Some(Command::Event(Event::Send(direction, name, part)))
}

// The words after `finish`.
pub(crate) fn read_finish(source: u16, rest: &[u8]) -> Option<Command>
    ensures { result ≡ finish_of source (words rest.now) }
{
    let (direction, name) = read_lone_transaction(source, rest)?;
    Some(Command::Event(Event::Finish(direction, name)))
}

// The words after `retire`.
pub(crate) fn read_retire(source: u16, rest: &[u8]) -> Option<Command>
    ensures { result ≡ retire_of source (words rest.now) }
{
    let (direction, name) = read_lone_transaction(source, rest)?;
    Some(Command::Event(Event::Retire(direction, name)))
}

// The direction and the name of a transaction, and no further word.
pub(crate) fn read_lone_transaction(source: u16, rest: &[u8]) -> Option<(Direction, Name)>
    ensures { result ≡ lone_transaction_of source (words rest.now) }
{
    let (direction, name) = two_words(rest)?;
    read_transaction(source, direction, name)
}

// The words after `plain`.
pub(crate) fn read_plain(
    alloc: Global,
    source: u16,
    rest: &[u8],
) -> Result<Option<Command>, AllocError>
    ensures says { IfOk result (λ r. r ≡ plain_of source (words rest.now)) }
    ensures asked { OnErr result (IsSome (plain_of source (words rest.now))) }
{
    let Some((flags, rest)) = split_word(rest) else {
        return Ok(None);
    };
    let Some((service, subtype, body)) = three_words(rest) else {
        return Ok(None);
    };
    let (Some((source, flags)), Some(service), Some(subtype)) = (
        read_sent_flags(source, flags),
        read_u8(service),
        read_u8(subtype),
    ) else {
        return Ok(None);
    };
    let Some(body) = read_hex(alloc, body)? else {
        return Ok(None);
    };
    Ok(Some(Command::Event(Event::Plain(source, flags, service, subtype, body))))
}

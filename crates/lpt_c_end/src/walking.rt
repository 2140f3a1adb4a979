//! What is open at an end, one by one: receptions, what is missing of them, messages to be sent.

ghost use Rattle.std.specs.Prelude.{◌≡◌, None, Some, MatchOption, slice_get};
ghost use Rattle.std.specs.FinMap as map;
ghost use Rattle.lpt_c_end.specs.Calls.{IfHeld};
ghost use Rattle.lpt_c_end.specs.Codes.{answer};
ghost use Rattle.lpt_c_end.specs.Refusals.{refusal_by};
ghost use Rattle.lpt_c_end.specs.Walks.{IsMissingTold, IsReceptionTold, reception_name, reception_refusal, sender_of, sender_refusal, sender_told};
ghost use Rattle.lpt_c_end.specs.Words.{name_from};

use crate::codes::{DONE, EMPTY, NOT_OPEN, NOTHING};
use crate::end::End;
use crate::handle::{LptEnd, put, take};
use crate::words::{LptName, name_of, name_word_of};
use lpt_node::Node;
use lpt_packet::Name;
use lpt_part::count;
use lpt_table::Table;
use std::alloc::Global;

/// An open reception.
#[repr(C)]
#[derive(Clone, Copy)]
pub struct LptReception {
    /// The transaction.
    pub name: LptName,
    /// How many parts were kept.
    pub kept: u32,
    /// The number of the last part, 0 if that hasn't come.
    pub last: u32,
    /// The value of the clock from which on it is overdue.
    pub due: u64,
}

/// A message that is open to be sent.
#[repr(C)]
#[derive(Clone, Copy)]
pub struct LptSender {
    /// The transaction.
    pub name: LptName,
    /// How many parts it has.
    pub parts: u32,
    /// Its octets.
    pub len: usize,
}

/// Tells an open reception by its number, from 0, in the order of names: of sources, and of one
/// source of identifiers.
///
/// It answers 0; 106 if the handle is empty; 109 if no more are open: nothing is written then. The
/// end stays as it is.
pub fn lpt_end_reception(
    alloc: Global,
    end: &mut LptEnd,
    number: usize,
    reception: &mut LptReception,
) -> u32
    ensures code { result ≡ answer (refusal_by (reception_refusal number) end.old.held.value) }
    ensures told { result ≡ 0 → IfHeld (IsReceptionTold number reception.new) end.old.held.value }
    ensures untold { ¬ (result ≡ 0) → reception.new ≡ reception.old }
    ensures same { end.new.held.value ≡ end.old.held.value }
{
    let Some(held) = take(alloc, end) else {
        return EMPTY;
    };
    let told = held.reception(number);
    put(end, held);
    match told {
        None => NOTHING,
        Some(word) => {
            *reception = word;
            DONE
        }
    }
}

/// Tells the least number from `from` on of a part that is missing of an open reception: one that
/// wasn't kept, from 1 on and before the last part, if that has come.
///
/// It answers 0; 106 if the handle is empty; 45 if no reception of the name is open; 109 if none is
/// missing from there on: nothing is written then. The end stays as it is.
pub fn lpt_end_missing(
    alloc: Global,
    end: &mut LptEnd,
    name: &LptName,
    from: u16,
    number: &mut u16,
) -> u32
    ensures told { IsMissingTold (name_from name.now) from end.old.held.value result
        number.old number.new }
    ensures same { end.new.held.value ≡ end.old.held.value }
{
    let Some(held) = take(alloc, end) else {
        return EMPTY;
    };
    let code = held.missing(name_of(name), from, number);
    put(end, held);
    code
}

/// Tells a message that is open to be sent by its number, from 0, in the order of names.
///
/// It answers 0; 106 if the handle is empty; 109 if no more are open: nothing is written then. The
/// end stays as it is.
pub fn lpt_end_sender(alloc: Global, end: &mut LptEnd, number: usize, sender: &mut LptSender) -> u32
    ensures code { result ≡ answer (refusal_by (sender_refusal number) end.old.held.value) }
    ensures sender { sender.new ≡ sender_told number end.old.held.value sender.old }
    ensures same { end.new.held.value ≡ end.old.held.value }
{
    let Some(held) = take(alloc, end) else {
        return EMPTY;
    };
    let told = held.sender(number);
    put(end, held);
    match told {
        None => NOTHING,
        Some(word) => {
            *sender = word;
            DONE
        }
    }
}

impl End {
    // The open reception of a number.
    fn reception(&self, number: usize) -> Option<LptReception>
        ensures { MatchOption result (reception_name number self.now ≡ None)
            (λ r. IsReceptionTold number r self.now) }
    {
        let (_config, table) = (self.node.config(), self.node.receptions());
        let name = open_name(table, number)?;
        let Some(filling) = table.reception(name) else {
            unreachable!()
        };
        let Some(due) = table.due_at(name) else {
            unreachable!()
        };
        Some(LptReception {
            name: name_word_of(name),
            kept: filling.kept_count(),
            last: u32::from(filling.last_number().unwrap_or(0)),
            due,
        })
    }

    // What is missing next of the reception of a name.
    fn missing(&self, name: Name, from: u16, number: &mut u16) -> u32
        ensures { IsMissingTold name from (Some self.now) result number.old number.new }
    {
        let Some(filling) = self.node.receptions().reception(name) else {
            return NOT_OPEN;
        };
        match filling.next_missing(from) {
            None => NOTHING,
            Some(missing) => {
                *number = missing;
                DONE
            }
        }
    }

    // The message of a number.
    fn sender(&self, number: usize) -> Option<LptSender>
        ensures { result ≡ sender_of number self.now }
    {
        let name = sender_name(&self.node, number)?;
        let message = self.node.message(name)?;
        Some(LptSender {
            name: name_word_of(name),
            parts: count(message.len() as u32, self.config.part_size),
            len: message.len(),
        })
    }
}

// The name of a number, from 0, among those of open receptions, in the order of names.
fn open_name(table: &Table, number: usize) -> Option<Name>
    requires { table.now.out ≡ None }
    ensures { result ≡ slice_get (map.keys table.now.entries) number }
{
    let mut name = table.open_behind(None)?;
    for _at in 0..number {
        name = table.open_behind(Some(name))?;
    }
    Some(name)
}

// The same of messages.
fn sender_name(node: &Node, number: usize) -> Option<Name>
    ensures { result ≡ slice_get (map.keys node.now.at.sending.messages) number }
{
    let mut name = node.sender_behind(None)?;
    for _at in 0..number {
        name = node.sender_behind(Some(name))?;
    }
    Some(name)
}

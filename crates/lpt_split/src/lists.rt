//! Lists of parts, as a word spells them.
//!
//! Items stand between commas: `7` is that part, `7-9` parts 7 to 9, and `7-` part 7 and all behind
//! it. Numbers have 1 to 10 decimal digits.

ghost use Rattle.std.specs.Prelude.{◌≡◌, ◌≤◌, ◌++◌, option_map, IfOk, IfSome, OnOk};
ghost use Rattle.lpt_split.specs.Lists.{end_of, in_order, numbers_in, numbers_of, range_of};
ghost use Rattle.lpt_split.specs.Splits.{AreNumbers};
ghost use Rattle.lpt_script_words.specs.Numbers.{number_of};

use lpt_script_words::read_number;
use lpt_text::{cut_item, first_place};
use std::alloc::{AllocError, Global};

/// The parts that a list names, of a message of `last` parts (at most 65,535), in its order and as
/// often as it names them.
///
/// There are none if an item is none of the three, names part 0 or one above `last`, or ends
/// before it begins. The only error is out of memory.
pub fn read_parts(alloc: Global, list: &[u8], last: u32) -> Result<Option<Vec<u16>>, AllocError>
    requires { last ≤ 65535 }
    ensures parts { IfOk result (λ r. option_map (λ ns. ns.items) r ≡ numbers_of last list.now) }
    ensures numbers { IfOk result (λ r. IfSome r (λ ns. AreNumbers last ns.items)) }
{
    let mut parts = Vec::new(alloc);
    let mut left = list;
    while let Some((item, behind)) = cut_item(left) {
        let Some((from, to)) = read_range(item, last) else {
            return Ok(None);
        };
        push_run(&mut parts, from, to)?;
        left = behind;
    }
    let Some((from, to)) = read_range(left, last) else {
        return Ok(None);
    };
    push_run(&mut parts, from, to)?;
    Ok(Some(parts))
}

// The first and the last part of an item.
#[tactic(auto, unfolding(crate::specs::Lists::range_of))]
fn read_range(item: &[u8], last: u32) -> Option<(u32, u32)>
    requires { last ≤ 65535 }
    ensures range { result ≡ range_of last item.now }
    ensures within { IfSome result (λ r. (1 ≤ r.0) × (r.0 ≤ r.1) × (r.1 ≤ last)) }
{
    match first_place(item, b'-') {
        None => {
            let part = read_bounded(item, last);
            in_order(part, part)
        }
        Some(place) => {
            let from = read_bounded(&item[..place], last);
            in_order(from, read_end(&item[place + 1..], last))
        }
    }
}

// Two numbers, if both are there and in order.
fn in_order(from: Option<u32>, to: Option<u32>) -> Option<(u32, u32)>
    ensures { result ≡ in_order from to }
{
    let (from, to) = (from?, to?);
    if from < 1 || to < from {
        return None;
    }
    Some((from, to))
}

// The number behind a hyphen; the last part's if there is none.
fn read_end(digits: &[u8], last: u32) -> Option<u32>
    ensures value { result ≡ end_of last digits.now }
    ensures bound { IfSome result (λ n. n ≤ last) }
{
    if digits.is_empty() {
        return Some(last);
    }
    read_bounded(digits, last)
}

// The number that digits spell, if it is at most the last part's.
fn read_bounded(digits: &[u8], last: u32) -> Option<u32>
    ensures value { result ≡ number_of last digits.now }
    ensures bound { IfSome result (λ n. n ≤ last) }
{
    let number = read_number(digits, u64::from(last))?;
    Some(number as u32)
}

// Adds the numbers from the first to the last. The only error is out of memory.
fn push_run(parts: &mut Vec<u16>, from: u32, to: u32) -> Result<(), AllocError>
    requires order { from ≤ to }
    requires small { to ≤ 65535 }
    ensures { OnOk result (parts.new.items ≡ parts.old.items ++ numbers_in (from, to)) }
{
    for number in from..to + 1 {
        parts.push(number as u16)?;
    }
    Ok(())
}

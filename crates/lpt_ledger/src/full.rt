//! Which pages are full: a bit for each in words of 64, so that the least free name is found without
//! a look at each page.

ghost use Rattle.std.specs.Prelude.{◌≡◌, ◌≢◌, ℕ, ◌<◌, true, None, cond, is_some, OnOk, OnErr};
ghost use Rattle.std.specs.BTreeMap.{is_at};
ghost use Rattle.std.specs.Map.{lookup};
ghost use Rattle.lpt_packet.specs.Names.{name_cmp};
ghost use Rattle.lpt_ledger.specs.LedgerInside.{full_bit, page_first, page_mark, word_first, word_in};

use crate::bits::{has_bit, with_bit};
use crate::page::{PAGE, Page, first_among};
use lpt_packet::Name;
use std::alloc::AllocError;
use std::collections::BTreeMap;

/// How many pages have a bit in one word.
pub(crate) const WORD: u16 = 64;

/// How many names these pages have.
pub(crate) const WORD_NAMES: u16 = 4_096;

/// The words, by the first names of their pages. A word has a place in memory if one of its bits
/// is set.
pub(crate) type Words = BTreeMap<Name, u64>;

/// The word of the 64 pages that begin with a name.
pub(crate) fn word_of(words: &Words, first: Name) -> u64
    ensures { result ≡ word_in words.now.entries first }
{
    match words.get(&first) {
        None => 0,
        Some(word) => *word,
    }
}

/// Makes the place in memory that the bit of a name's page takes, if the page gets full. No bit
/// changes. The only error is out of memory.
pub(crate) fn keep_place(
    words: &mut Words,
    name: Name,
    before: Page,
    page: Page,
) -> Result<(), AllocError>
    ensures words { (q : Name) → word_in words.new.entries q ≡ word_in words.old.entries q }
    ensures before { OnErr result ((b : ℕ) × (b < 64) × (page_mark before b ≡ None)) }
    ensures full { OnErr result ((b : ℕ) → b < 64 → is_some (page_mark page b) ≡ true) }
{
    if !page.is_full() || before.is_full() {
        return Ok(());
    }
    let first = first_among(name, WORD_NAMES);
    if words.contains_key(&first) {
        return Ok(());
    }
    match words.insert(first, 0) {
        Ok(_) => Ok(()),
        Err(_) => Err(AllocError),
    }
}

/// Sets the bit of a name's page if the page is full, or clears it. It takes no memory: a bit
/// without a place stays clear.
pub(crate) fn put_bit(words: &mut Words, name: Name, is_full: bool)
    ensures this { (q : Name) → page_first q ≡ page_first name
        → full_bit words.new.entries q ≡ 1 → is_full ≡ true }
    ensures others { (q : Name) → page_first q ≢ page_first name
        → full_bit words.new.entries q ≡ full_bit words.old.entries q }
{
    let first = first_among(name, WORD_NAMES);
    let word = word_of(words, first);
    let bit = u32::from(name.id / PAGE % WORD);
    if has_bit(word, bit) == is_full {
        return;
    }
    if !words.contains_key(&first) {
        return;
    }
    match put_word(words, first, with_bit(word, bit, is_full)) {
        Ok(()) => {}
        Err(AllocError) => unreachable!(),
    }
}

// Puts a word in its place, or takes its place out if no bit is set. The only error is out of
// memory, which comes only if there was no place.
fn put_word(words: &mut Words, first: Name, word: u64) -> Result<(), AllocError>
    ensures ok { OnOk result ((q : Name) → word_in words.new.entries q
        ≡ cond (is_at (name_cmp first) q) word (word_in words.old.entries q)) }
    ensures none { OnErr result (lookup (is_at (name_cmp first)) words.old.entries ≡ None) }
{
    if word == 0 {
        let _ = words.remove(&first);
        return Ok(());
    }
    match words.insert(first, word) {
        Ok(_) => Ok(()),
        Err(_) => Err(AllocError),
    }
}

//! Numbers and octets as a word spells them.

ghost use Rattle.std.specs.Prelude.{◌≡◌, ◌+◌, ◌*◌, ◌%◌, ◌<◌, ◌≤◌, length, Some, Ok, is_some, option_map, IsSome, IsTrue, IfOk, IfSome, OnErr};
ghost use Rattle.std.specs.List.{AllPass, list_all};
ghost use Rattle.std.specs.Char.{is_ascii_digit, is_ascii_hexdigit};
ghost use Rattle.hex.specs.Hex.{decode_of, hex_digit_value, is_hex_digit};
ghost use Rattle.lpt_script_words.specs.Numbers.{is_numeral, number_spelled, number_of, octets_decoded, octets_of};

use lpt_packet::Octets;
use std::alloc::{AllocError, Global};

/// Reads a number of 1 to 10 decimal digits that is at most `greatest`.
///
/// Leading zeros count as digits. There is none if the word is anything else.
#[tactic(auto, unfolding(crate::specs::Numbers::number_of))]
#[inline(always)]
pub fn read_number(word: &[u8], greatest: u64) -> Option<u64>
    ensures value { result ≡ number_of greatest word.now }
    ensures bound { IfSome result (λ n. n ≤ greatest) }
{
    if !spells_number(word) {
        return None;
    }
    let number = value_of(word);
    (number <= greatest).then_some(number)
}

/// Reads octets, each as two hexadecimal digits of either case; `-` stands for no octets.
///
/// There are none if the word is empty, has an odd number of digits or another octet.
/// Errors: out of memory, only if the word spells at least one octet.
#[tactic(auto, using(crate::proofs::Hexes::none_of), unfolding(crate::specs::Numbers::octets_of))]
pub fn read_hex(alloc: Global, word: &[u8]) -> Result<Option<Octets>, AllocError>
    ensures octets { IfOk result (λ r. r ≡ octets_of word.now) }

    // All digits are judged before memory is taken.
    ensures memory { OnErr result (IsSome (octets_of word.now) × (length word.now % 2 ≡ 0)) }
{
    if word == b"-".as_slice() {
        return Ok(Some(Octets::from_vec(Vec::new(alloc))));
    }
    if word.is_empty() || !has_pairs(word) {
        return Ok(None);
    }
    let mut octets = vec![in alloc; 0; word.len() / 2]?;
    write_octets(word, &mut octets);
    Ok(Some(Octets::from_vec(octets)))
}

// How many octets `read_hex` reads of a word, without memory.
#[tactic(auto, using(crate::proofs::Hexes::none_of), unfolding(crate::specs::Numbers::octets_of))]
pub(crate) fn octets_spelled(word: &[u8]) -> Option<usize>
    ensures len { result ≡ option_map length (octets_of word.now) }
    ensures bound { IfSome result (λ n. n + n ≤ length word.now) }
{
    if word == b"-".as_slice() {
        return Some(0);
    }
    if word.is_empty() || !has_pairs(word) {
        return None;
    }
    Some(word.len() / 2)
}

// Whether the word is pairs of hexadecimal digits.
#[tactic(auto, using(crate::proofs::Hexes::are_pairs))]
fn has_pairs(word: &[u8]) -> bool
    ensures { result ≡ is_some (octets_decoded (decode_of word.now)) }
{
    word.len() % 2 == 0 && are_digits(word)
}

// Whether all octets are hexadecimal digits. No octet ends the loop, so that many are judged at a time.
fn are_digits(word: &[u8]) -> bool
    ensures { result ≡ list_all is_ascii_hexdigit word.now }
{
    let mut all = true;
    for octet in word {
        all &= octet.is_ascii_hexdigit();
    }
    all
}

// Writes the octets that pairs of digits spell.
fn write_octets(word: &[u8], octets: &mut [u8])
    requires digits { AllPass is_hex_digit word.now }
    requires len { length word.now ≡ 2 * length octets.old }
    ensures { decode_of word.now ≡ Ok octets.new }
{
    'pairs: for i in 0..octets.len() {
        octets[i] = value_of_digit(word[2 * i]) * 16 + value_of_digit(word[2 * i + 1]);
    }
}

// The value of a hexadecimal digit, without a branch: its lower four bits, and 9 more for a letter.
fn value_of_digit(digit: u8) -> u8
    requires { IsTrue (is_hex_digit digit) }
    ensures value { hex_digit_value digit ≡ Some result }
    ensures bound { result < 16 }
{
    digit % 16 + digit / 64 * 9
}

// Whether the word has 1 to 10 octets, all of them decimal digits.
fn spells_number(word: &[u8]) -> bool
    ensures { result ≡ is_numeral word.now }
{
    (1..=10).contains(&word.len()) && has_digits_alone(word)
}

fn has_digits_alone(word: &[u8]) -> bool
    ensures { result ≡ list_all is_ascii_digit word.now }
{
    word.iter().all(|octet| octet.is_ascii_digit())
}

// The number that the digits spell.
#[tactic(auto, using(crate::proofs::Spellings::places_fit))]
fn value_of(digits: &[u8]) -> u64
    requires few { length digits.now ≤ 10 }
    requires digits { IsTrue (list_all is_ascii_digit digits.now) }
    ensures { result ≡ number_spelled digits.now }
{
    let mut value = 0;
    for digit in digits {
        value = value * 10 + u64::from(*digit - b'0');
    }
    value
}

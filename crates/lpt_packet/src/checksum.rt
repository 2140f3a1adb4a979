//! The packet error control (CCSDS 133.0-B; the CRC of ECSS-E-ST-70-41C): few octets by tables,
//! eight at a time, and many by words.

ghost use Rattle.std.specs.Prelude.{◌≡◌, ◌∷◌, []};
ghost use Rattle.lpt_packet.specs.Checksums.{bits, shift_all, octets_in, checksum};
ghost use Rattle.lpt_packet.specs.Words.{word_in, words_in};

use crate::table::of_octet;
use crate::words::{first_word, with_block};

// From so many octets behind the first eight on, words are faster than tables.
const MANY: usize = 256;

/// The checksum of these octets: a register of sixteen ones, into which each octet is shifted
/// with its most significant bit first. Nothing is added at the end.
pub fn crc16(octets: &[u8]) -> u16
    ensures { result ≡ checksum octets.now }
{
    crc16_more(0xffff, octets)
}

/// The checksum of octets that come in pieces: that of those before is `register`, and these
/// follow. Of no octets it is 0xffff.
pub fn crc16_more(register: u16, octets: &[u8]) -> u16
    ensures { result ≡ octets_in register octets.now }
{
    match octets.split_first_chunk::<8>() {
        Some((first, others)) if others.len() >= MANY => {
            by_words(first_word(register, first), others)
        }
        _ => by_tables(register, octets),
    }
}

// Shifts octets in, eight at a time.
fn by_tables(first: u16, octets: &[u8]) -> u16
    ensures { result ≡ octets_in first octets.now }
{
    let mut register = first;
    let mut left = octets;
    while let Some((eight, others)) = left.split_first_chunk::<8>() {
        register = eight_in(register, eight);
        left = others;
    }
    for octet in left {
        register = octet_in(register, *octet);
    }
    register
}

// Shifts a word into a register of zeros, and octets behind it. Words of zeros do nothing to such a
// register, so fifteen may stand in front. As a call of its own it takes no time of short octets.
#[inline(never)]
fn by_words(first: u64, octets: &[u8]) -> u16
    ensures { result ≡ octets_in (word_in 0 first) octets.now }
{
    let mut words = [0; 16];
    words[15] = first;
    let mut left = octets;
    while let Some((block, others)) = left.split_first_chunk::<128>() {
        words = with_block(&words, block);
        left = others;
    }
    by_tables(register_of(&words), left)
}

// The register for which these words stand.
fn register_of(words: &[u64; 16]) -> u16
    ensures { result ≡ words_in 0 words.now }
{
    let mut register = 0;
    for word in words {
        register = eight_in(register, &word.to_le_bytes());
    }
    register
}

// Shifts an octet in, its most significant bit first. The register moves by an octet, and what its
// upper octet and this one make together of a register of zeros is added without carry.
fn octet_in(register: u16, octet: u8) -> u16
    ensures { result ≡ shift_all register (bits octet) }
{
    let upper = (register >> 8) as u8;
    (register << 8) ^ of_octet(upper ^ octet, 0)
}

// Shifts eight octets in. The register falls out with the first two of them, which it is added to;
// then what each makes of a register of zeros, with the others behind it, is added without carry. The
// six that don't wait for the register come first, so that a processor has their sum before it.
fn eight_in(register: u16, octets: &[u8; 8]) -> u16
    ensures { result ≡ octets_in register octets.now }
{
    let upper = (register >> 8) as u8;
    let lower = (register % 256) as u8;
    (of_octet(octets[2], 5)
        ^ of_octet(octets[3], 4)
        ^ of_octet(octets[4], 3)
        ^ of_octet(octets[5], 2)
        ^ of_octet(octets[6], 1)
        ^ of_octet(octets[7], 0))
        ^ (of_octet(upper ^ octets[0], 7) ^ of_octet(lower ^ octets[1], 6))
}

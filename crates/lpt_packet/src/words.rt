//! Octets by 64 bits at a time, with no table: sixteen words stand for the checksum's register.
//!
//! With y for x^64, the polynomial's 64th power is y^16 + y^12 + y^5 + 1. So a word may go if it is
//! added to those 4, 11 and 16 places behind it: that leaves the register as it is. All sums are
//! without carry, so a word can have its octets in any order.

ghost use Rattle.std.specs.Prelude.{◌≡◌};
ghost use Rattle.std.specs.Int.{w64, to_le_bytes};
ghost use Rattle.lpt_packet.specs.Checksums.{octets_in};
ghost use Rattle.lpt_packet.specs.Words.{word_in, words_in};

// The octets as a word.
fn word_of(octets: &[u8; 8]) -> u64
    ensures { to_le_bytes w64 result ≡ octets.now }
{
    u64::from_le_bytes(*octets)
}

// The octets as a word, with the register added to the first two of them, with which it falls out.
pub(crate) fn first_word(register: u16, octets: &[u8; 8]) -> u64
    ensures { word_in 0 result ≡ octets_in register octets.now }
{
    let upper = (register >> 8) as u8;
    let lower = (register % 256) as u8;
    word_of(&[
        upper ^ octets[0],
        lower ^ octets[1],
        octets[2],
        octets[3],
        octets[4],
        octets[5],
        octets[6],
        octets[7],
    ])
}

// The words that stand for the register after one word more. The first of them goes.
fn with_word(words: &[u64; 16], next: u64) -> [u64; 16]
    ensures { words_in 0 result ≡ word_in (words_in 0 words.now) next }
{
    let gone = words[0];
    [
        words[1],
        words[2],
        words[3],
        words[4] ^ gone,
        words[5],
        words[6],
        words[7],
        words[8],
        words[9],
        words[10],
        words[11] ^ gone,
        words[12],
        words[13],
        words[14],
        words[15],
        next ^ gone,
    ]
}

// The words that stand for the register after these octets. After sixteen words each has its place
// again, so that a compiled program moves none.
pub(crate) fn with_block(first: &[u64; 16], block: &[u8; 128]) -> [u64; 16]
    ensures { words_in 0 result ≡ octets_in (words_in 0 first.now) block.now }
{
    let (eights, _) = block.as_chunks::<8>();
    let mut words = *first;
    for eight in eights {
        words = with_word(&words, word_of(eight));
    }
    words
}

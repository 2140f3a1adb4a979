//! Lines cut into words.

ghost use Rattle.std.specs.Prelude.{◌≡◌, ◌≢◌, ◌<◌, ◌≤◌, [], ◌∷◌, length, slice_index, Some, None, MatchOption, IfSome};
ghost use Rattle.lpt_script_words.specs.Words.{is_empty, one_of, three_of, two_of, words};

use lpt_text::first_place;

/// Splits the first word of a line from what follows it.
///
/// Words are the pieces between spaces that aren't empty, so any number of spaces may stand before,
/// between and after them. No other octet separates, a tab doesn't either. There is none if the
/// line has no word.
#[inline(always)]
pub fn split_word(line: &[u8]) -> Option<(&[u8], &[u8])>
    ensures words { MatchOption result (words line.now ≡ [])
        (λ cut. words line.now ≡ cut.0.now ∷ words cut.1.now) }
    ensures shorter { IfSome result (λ cut. length cut.1.now < length line.now) }
{
    let mut rest = line;
    while let [b' ', more @ ..] = rest {
        rest = more;
    }
    if rest.is_empty() {
        return None;
    }
    Some(cut_word(rest))
}

// Whether a line has no word.
pub(crate) fn is_blank(line: &[u8]) -> bool
    ensures { result ≡ is_empty (words line.now) }
{
    split_word(line).is_none()
}

// The word of a line that has no other.
#[inline(always)]
pub(crate) fn one_word(line: &[u8]) -> Option<&[u8]>
    ensures { MatchOption result (one_of (words line.now) ≡ None)
        (λ word. one_of (words line.now) ≡ Some word.now) }
{
    let (word, rest) = split_word(line)?;
    is_blank(rest).then_some(word)
}

// The words of a line that has two.
#[inline(always)]
pub(crate) fn two_words(line: &[u8]) -> Option<(&[u8], &[u8])>
    ensures { MatchOption result (two_of (words line.now) ≡ None)
        (λ two. two_of (words line.now) ≡ Some (two.0.now, two.1.now)) }
{
    let (first, rest) = split_word(line)?;
    let second = one_word(rest)?;
    Some((first, second))
}

// The words of a line that has three.
#[inline(always)]
pub(crate) fn three_words(line: &[u8]) -> Option<(&[u8], &[u8], &[u8])>
    ensures { MatchOption result (three_of (words line.now) ≡ None)
        (λ three. three_of (words line.now) ≡ Some (three.0.now, three.1.now, three.2.now)) }
{
    let (first, rest) = split_word(line)?;
    let (second, third) = two_words(rest)?;
    Some((first, second, third))
}

// The word that a text begins with, and what follows the space after it.
#[inline(always)]
fn cut_word(text: &[u8]) -> (&[u8], &[u8])
    requires some { 0 < length text.now }
    requires begins { slice_index text.now 0 ≢ 32 }
    ensures words { words text.now ≡ result.0.now ∷ words result.1.now }
    ensures shorter { length result.1.now < length text.now }
{
    match first_place(text, b' ') {
        Some(end) => (&text[..end], &text[end + 1..]),
        None => (text, &[]),
    }
}

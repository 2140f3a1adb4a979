//! Texts cut into lines.

ghost use Rattle.std.specs.Prelude.{◌≡◌, ◌<◌, [], ◌∷◌, length, MatchOption, IfSome};
ghost use Rattle.std.specs.Str.Lines.{strip_carriage_return};
ghost use Rattle.lpt_text.specs.Texts.{ended_line, lines};

use crate::line_end::first_place;

/// The most octets of a line, with the carriage return that its line feed drops.
pub const LONGEST_LINE: usize = 140_000;

/// The most octets of a text.
pub const LONGEST_TEXT: usize = 16_777_216;

/// Splits the first line of a text from what follows it.
///
/// A line feed ends a line, and one carriage return directly before it is dropped, but it counts: a
/// line that has more than 140,000 octets with it keeps it, and is too long to be read. A last line
/// may lack its line feed, and then keeps its carriage return. There is none if the text is
/// empty.
pub fn split_line(text: &[u8]) -> Option<(&[u8], &[u8])>
    ensures lines { MatchOption result (lines text.now ≡ [])
        (λ cut. lines text.now ≡ cut.0.now ∷ lines cut.1.now) }
    ensures shorter { IfSome result (λ cut. length cut.1.now < length text.now) }
{
    if text.is_empty() {
        return None;
    }
    match first_place(text, b'\n') {
        Some(end) => Some((ended_line(&text[..end]), &text[end + 1..])),
        None => Some((text, &[])),
    }
}

/// The line that a line feed ends: the octets before it, without one carriage return directly
/// before it; what has more than 140,000 octets with that keeps it, and is too long to be read.
pub fn ended_line(piece: &[u8]) -> &[u8]
    ensures { result.now ≡ ended_line piece.now }
{
    if piece.len() > LONGEST_LINE {
        piece
    } else {
        without_return(piece)
    }
}

// The line without the one carriage return at its end, if it has one.
fn without_return(line: &[u8]) -> &[u8]
    ensures { result.now ≡ strip_carriage_return line.now }
{
    match line {
        [rest @ .., b'\r'] => rest,
        _ => line,
    }
}

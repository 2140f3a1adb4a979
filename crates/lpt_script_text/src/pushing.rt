//! Words and numbers pushed into a text that is made anew, so that one text serves for all lines.

ghost use Rattle.std.specs.Prelude.{◌≡◌, ◌++◌, ◌∷◌, [], OnOk, decimal};
ghost use Rattle.std.specs.String.{string_bytes};
ghost use Rattle.lpt_packet.specs.Directions.{direction_word};
ghost use Rattle.lpt_events.specs.NameTexts.{name_text};

use itoa::Buffer;
use lpt_packet::{Direction, Name};
use std::alloc::AllocError;

/// For how many octets a new text has room: most lines are shorter.
const ROOM: usize = 48;

// Makes a text anew that begins so.
#[inline(always)]
pub(crate) fn begin(text: &mut String, front: &str) -> Result<(), AllocError>
    ensures { OnOk result (string_bytes text.new ≡ front.now) }
{
    text.clear();
    text.reserve(ROOM)?;
    text.push_str(front)
}

// Pushes a number in decimal digits.
#[inline(always)]
pub(crate) fn push_number(text: &mut String, n: u64) -> Result<(), AllocError>
    ensures { OnOk result (string_bytes text.new ≡ string_bytes text.old ++ decimal n) }
{
    text.push_str(Buffer::new().format(n))
}

// Pushes a number and the line's end.
pub(crate) fn end(text: &mut String, n: u64) -> Result<(), AllocError>
    ensures { OnOk result (string_bytes text.new
        ≡ string_bytes text.old ++ (decimal n ++ (10 ∷ []))) }
{
    push_number(text, n)?;
    text.push_str("\n")
}

// A line of this front part and a number.
pub(crate) fn number_line(text: &mut String, front: &str, n: u64) -> Result<(), AllocError>
    ensures { OnOk result (string_bytes text.new ≡ front.now ++ (decimal n ++ (10 ∷ []))) }
{
    begin(text, front)?;
    end(text, n)
}

// A line of this front part and two numbers.
pub(crate) fn two_numbers(text: &mut String, front: &str, a: u64, b: u64) -> Result<(), AllocError>
    ensures { OnOk result (string_bytes text.new
        ≡ front.now ++ (decimal a ++ (32 ∷ (decimal b ++ (10 ∷ []))))) }
{
    begin(text, front)?;
    push_number(text, a)?;
    text.push_str(" ")?;
    end(text, b)
}

// Pushes a name: its identifier alone if it is of the configured source.
#[inline(always)]
pub(crate) fn push_name(text: &mut String, source: u16, name: Name) -> Result<(), AllocError>
    ensures { OnOk result (string_bytes text.new ≡ string_bytes text.old ++ name_text source name) }
{
    if name.source != source {
        push_number(text, u64::from(name.source))?;
        text.push_str("/")?;
    }
    push_number(text, u64::from(name.id))
}

// The front part of a line that names a transaction.
pub(crate) fn begin_named(
    text: &mut String,
    front: &str,
    source: u16,
    direction: Direction,
    name: Name,
) -> Result<(), AllocError>
    ensures { OnOk result (string_bytes text.new
        ≡ front.now ++ (direction_word direction ++ (32 ∷ name_text source name))) }
{
    begin(text, front)?;
    text.push_str(direction.word())?;
    text.push_str(" ")?;
    push_name(text, source, name)
}

// A line that names a transaction.
pub(crate) fn named_line(
    text: &mut String,
    front: &str,
    source: u16,
    direction: Direction,
    name: Name,
) -> Result<(), AllocError>
    ensures { OnOk result (string_bytes text.new
        ≡ front.now ++ (direction_word direction ++ (32 ∷ (name_text source name ++ (10 ∷ []))))) }
{
    begin_named(text, front, source, direction, name)?;
    text.push_str("\n")
}

// A line that names a transaction, and a number behind these words.
pub(crate) fn transaction_line(
    text: &mut String,
    front: &str,
    source: u16,
    direction: Direction,
    name: Name,
    words: &str,
    n: u64,
) -> Result<(), AllocError>
    ensures { OnOk result (string_bytes text.new
        ≡ front.now ++ (direction_word direction ++ (32 ∷ (name_text source name
        ++ (words.now ++ (decimal n ++ (10 ∷ []))))))) }
{
    begin_named(text, front, source, direction, name)?;
    text.push_str(words)?;
    end(text, n)
}

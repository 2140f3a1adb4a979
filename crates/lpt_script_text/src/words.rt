//! Words of a line.

ghost use Rattle.std.specs.Prelude.{◌≡◌, ◌*◌, ◌<◌, length, slice_index, IfOk, IfSome};
ghost use Rattle.hex.specs.Hex.{encode_lower, lower_digits};
ghost use Rattle.std.specs.String.{string_bytes};
ghost use Rattle.lpt_script_text.specs.Printing.{octets_text};

use std::alloc::{AllocError, Global};
use std::fmt::Display;

/// For how many octets a new text has room, beside those of long digits: most lines are shorter.
const ROOM: usize = 48;

// What is written of a value, in a text that mostly takes memory once.
pub(crate) fn text_of<D: Display + Drop>(alloc: Global, value: D) -> Result<String, AllocError>
    ensures { IfOk result (λ t. IfSome (D.output value) (λ o. string_bytes t ≡ o)) }
{
    text_around(alloc, 0, value)
}

// What is written of a value that has so many octets of digits in it, in a text that mostly takes memory
// once.
pub(crate) fn text_around<D: Display + Drop>(
    alloc: Global,
    digits: usize,
    value: D,
) -> Result<String, AllocError>
    ensures { IfOk result (λ t. IfSome (D.output value) (λ o. string_bytes t ≡ o)) }
{
    let mut text = String::with_capacity(alloc, digits.saturating_add(ROOM))?;
    text.write(value)?;
    Ok(text)
}

// Octets in hexadecimal digits.
pub(crate) fn octets_word(alloc: Global, octets: &[u8]) -> Result<String, AllocError>
    ensures { IfOk result (λ t. string_bytes t ≡ octets_text octets.now) }
{
    if octets.is_empty() {
        return String::from_str(alloc, "-");
    }
    let Some(len) = octets.len().checked_mul(2) else {
        return Err(AllocError);
    };
    let mut digits = vec![in alloc; 0; len]?;
    write_digits(octets, &mut digits);
    Ok(unsafe { String::from_utf8_unchecked(digits) })
}

/// Writes two digits for each octet.
pub fn write_digits(octets: &[u8], digits: &mut [u8])
    requires { length digits.old ≡ 2 * length octets.now }
    ensures { digits.new ≡ encode_lower octets.now }
{
    'octets: for i in 0..octets.len() {
        digits[2 * i] = digit_of(octets[i] / 16);
        digits[2 * i + 1] = digit_of(octets[i] % 16);
    }
}

// The digit of a value, without looking it up, so that many are made at a time.
fn digit_of(value: u8) -> u8
    requires { value < 16 }
    ensures { result ≡ slice_index lower_digits value }
{
    if value < 10 {
        b'0' + value
    } else {
        b'a' - 10 + value
    }
}

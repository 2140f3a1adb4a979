//! Items pushed behind a line, piece by piece, which takes less than a format does.

ghost use Rattle.std.specs.Prelude.{◌≡◌, ◌++◌, ◌∷◌, [], OnOk, decimal};
ghost use Rattle.std.specs.String.{string_bytes};
ghost use Rattle.lpt_list.specs.Items.{Alone, Number, Word, items_text};

use crate::Form;
use itoa::Buffer;
use std::alloc::AllocError;

// Pushes a number in decimal digits.
#[inline(always)]
pub(crate) fn push_number(text: &mut String, n: u64) -> Result<(), AllocError>
    ensures { OnOk result (string_bytes text.new ≡ string_bytes text.old ++ decimal n) }
{
    text.push_str(Buffer::new().format(n))
}

// Adds a number behind its word.
#[inline(always)]
pub(crate) fn add_number(
    text: &mut String,
    form: Form,
    word: &str,
    name: &str,
    number: u64,
) -> Result<(), AllocError>
    ensures { OnOk result (string_bytes text.new ≡ string_bytes text.old
        ++ items_text form (Number word.now name.now number ∷ [])) }
{
    match form {
        Form::Text => {
            text.push_str(" ")?;
            text.push_str(word)?;
            text.push_str(" ")?;
        }
        Form::Json => {
            text.push_str(",\"")?;
            text.push_str(name)?;
            text.push_str("\":")?;
        }
    }
    push_number(text, number)
}

// Adds a word behind another, which is its name too.
#[inline(always)]
pub(crate) fn add_word(
    text: &mut String,
    form: Form,
    word: &str,
    value: &str,
) -> Result<(), AllocError>
    ensures { OnOk result (string_bytes text.new ≡ string_bytes text.old
        ++ items_text form (Word word.now word.now value.now ∷ [])) }
{
    match form {
        Form::Text => {
            text.push_str(" ")?;
            text.push_str(word)?;
            text.push_str(" ")?;
            text.push_str(value)
        }
        Form::Json => {
            text.push_str(",\"")?;
            text.push_str(word)?;
            text.push_str("\":\"")?;
            text.push_str(value)?;
            text.push_str("\"")
        }
    }
}

// Adds a word alone, which has a name in JSON.
#[inline(always)]
pub(crate) fn add_named(
    text: &mut String,
    form: Form,
    name: &str,
    value: &str,
) -> Result<(), AllocError>
    ensures { OnOk result (string_bytes text.new ≡ string_bytes text.old
        ++ items_text form (Alone name.now value.now ∷ [])) }
{
    match form {
        Form::Text => {
            text.push_str(" ")?;
            text.push_str(value)
        }
        Form::Json => {
            text.push_str(",\"")?;
            text.push_str(name)?;
            text.push_str("\":\"")?;
            text.push_str(value)?;
            text.push_str("\"")
        }
    }
}

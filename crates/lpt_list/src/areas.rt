//! What a message of the memory service names, as items that are added to a line.

ghost use Rattle.std.specs.Prelude.{◌≡◌, ◌++◌, Some, IfOk, OnOk};
ghost use Rattle.std.specs.String.{string_bytes};
ghost use Rattle.lpt_list.specs.Items.{areas_said, items_text};

use crate::Form;
use lpt_script_text::Areas;
use std::alloc::{AllocError, Global};

/// The areas that a message names, as items behind others: the memory, how many areas, and the
/// address and the length of the first; nothing if it names none. The only error is out of
/// memory.
pub fn print_areas(alloc: Global, form: Form, areas: Option<Areas>) -> Result<String, AllocError>
    ensures { IfOk result (λ t. string_bytes t ≡ items_text form (areas_said areas)) }
{
    let mut text = String::new(alloc);
    add_areas(&mut text, form, areas)?;
    Ok(text)
}

// Adds them.
pub(crate) fn add_areas(
    text: &mut String,
    form: Form,
    areas: Option<Areas>,
) -> Result<(), AllocError>
    ensures { OnOk result (string_bytes text.new
        ≡ string_bytes text.old ++ items_text form (areas_said areas)) }
{
    match areas {
        Some(areas) => add_named(text, form, &areas),
        None => Ok(()),
    }
}

// The same if it names some.
fn add_named(text: &mut String, form: Form, areas: &Areas) -> Result<(), AllocError>
    ensures { OnOk result (string_bytes text.new
        ≡ string_bytes text.old ++ items_text form (areas_said (Some areas.now))) }
{
    let (memory, count) = (areas.memory, areas.count);
    let (address, len) = (areas.address, areas.len);
    match form {
        Form::Text => write!(
            text,
            " memory {memory} areas {count} address {address} length {len}"
        ),
        Form::Json => write!(
            text,
            ",\"memory_id\":{memory},\"areas\":{count},\
            \"start_address\":{address},\"area_length\":{len}"
        ),
    }
}

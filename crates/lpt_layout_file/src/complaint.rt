//! What is reported of a layout file that is refused.

ghost use Rattle.std.specs.Prelude.{◌≡◌, not, is_some, option_and_then, IfOk};
ghost use Rattle.toml.specs.Parse.{parse_document};
ghost use Rattle.lpt_layout_file.specs.Tables.{layouts_of};

use crate::reading::judge;
use lpt_settings::{Complaint, complain, complain_of_toml};
use std::alloc::{AllocError, Global};

/// The first thing for which `read_layouts` refuses a text; `None` if it means layouts.
///
/// The only error is out of memory.
pub fn why_refused(alloc: Global, text: &str) -> Result<Option<Complaint>, AllocError>
    // There is one exactly if the text isn't a TOML document, or its table means no layouts.
    ensures found { IfOk result (λ c. not (is_some c)
        ≡ is_some (option_and_then layouts_of (parse_document text.now))) }
{
    match toml::table_from_str(alloc, text) {
        Ok(table) => match judge(&table) {
            Ok(_) => Ok(None),
            Err(wrong) => Ok(Some(complain(alloc, text, wrong)?)),
        },
        Err(error) => Ok(Some(complain_of_toml(alloc, text, &error)?)),
    }
}

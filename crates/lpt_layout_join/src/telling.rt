//! The parts that are missing, as a part list.

ghost use Rattle.std.specs.Prelude.{◌≡◌, ℕ, List, [], IfOk};
ghost use Rattle.std.specs.String.{string_bytes};
ghost use Rattle.lpt_layout_join.specs.PartNumbersInside.{has, is_ended};
ghost use Rattle.lpt_layout_join.specs.Missing.{AreGaps, IsHighest};
ghost use Rattle.lpt_layout_join.specs.MissingLists.{item_text, items_text, list_text, open_text, with_item};

use crate::{PartNumbers, missing};
use std::alloc::{AllocError, Global};

/// The parts that are missing, as a part list: `3,7-9`, and if the last part hasn't come, all
/// behind the highest that came too, as `3,7-9,12-`. It is empty if none is missing.
///
/// The only error is out of memory.
pub fn missing_list(alloc: Global, came: &PartNumbers) -> Result<String, AllocError>
    ensures { IfOk result (λ text. (last : ℕ) × (gaps : List (ℕ × ℕ))
        × IsHighest (has came.now) last × AreGaps (has came.now) 1 last gaps
        × (string_bytes text ≡ list_text gaps last (is_ended came.now))) }
{
    let last = came.highest();
    let gaps = missing(alloc, came, last)?;
    let text = gaps_text(alloc, &gaps)?;
    if came.is_ended() {
        return Ok(text);
    }
    let open = open_item(alloc, last + 1)?;
    behind(text, open.as_str())
}

// The gaps as items of a list.
fn gaps_text(alloc: Global, gaps: &[(u32, u32)]) -> Result<String, AllocError>
    ensures { IfOk result (λ text. string_bytes text ≡ items_text [] gaps.now) }
{
    let mut text = String::new(alloc);
    for gap in gaps {
        let item = gap_item(alloc, *gap)?;
        text = behind(text, item.as_str())?;
    }
    Ok(text)
}

// A gap as an item.
fn gap_item(alloc: Global, gap: (u32, u32)) -> Result<String, AllocError>
    ensures { IfOk result (λ text. string_bytes text ≡ item_text gap) }
{
    let from = gap.0;
    let to = gap.1;
    if from == to {
        return format!(in alloc; "{from}");
    }
    format!(in alloc; "{from}-{to}")
}

// All parts from a number on, as an item.
fn open_item(alloc: Global, from: u32) -> Result<String, AllocError>
    ensures { IfOk result (λ text. string_bytes text ≡ open_text from) }
{
    format!(in alloc; "{from}-")
}

// The list with one item more.
fn behind(mut list: String, item: &str) -> Result<String, AllocError>
    ensures { IfOk result (λ text. string_bytes text ≡ with_item (string_bytes list) item.now) }
{
    if !list.is_empty() {
        list.push_str(",")?;
    }
    list.push_str(item)?;
    Ok(list)
}

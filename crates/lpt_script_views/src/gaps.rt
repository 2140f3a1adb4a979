//! Which parts of a message are missing, by which are kept: one look at each.

ghost use Rattle.std.specs.Prelude.{◌≡◌, ◌<◌, ◌≤◌, ◌++◌, ℕ, false, true, IfOk, OnOk, length, replicate, slice_index_or, slice_set, string_bytes};
ghost use Rattle.lpt_script_views.specs.Gaps.{gaps_text, is_missing, is_unmarked, part_gap};
ghost use Rattle.lpt_script_views.specs.Kept.{has_number};

use std::alloc::{AllocError, Global};

// Adds the parts that are missing, of so many, to a text, if those of these numbers are kept.
#[tactic(auto, using(crate::proofs::GapLemmas::same_gaps))]
pub(crate) fn add_gaps(
    alloc: Global,
    text: &mut String,
    kept: &[u64],
    parts: usize,
) -> Result<(), AllocError>
    ensures { OnOk result (string_bytes text.new
        ≡ string_bytes text.old ++ gaps_text (is_missing kept.now parts) parts) }
{
    let many = parts.checked_add(1).ok_or(AllocError)?;
    let marks = marks_of(alloc, kept, many)?;
    add_unmarked(text, &marks, parts as u64)
}

// Of each number below so many, whether it is among these. The only error is out of memory.
fn marks_of(alloc: Global, kept: &[u64], many: usize) -> Result<Vec<bool>, AllocError>
    ensures all { IfOk result (λ v. length v.items ≡ many) }
    ensures marked { IfOk result (λ v. (k : ℕ) → k < many
        → slice_index_or v.items k false ≡ has_number kept.now k) }
{
    let mut marks = none_marked(alloc, many)?;
    for number in kept {
        mark(&mut marks, *number);
    }
    Ok(marks)
}

// That none of so many is. The only error is out of memory.
fn none_marked(alloc: Global, many: usize) -> Result<Vec<bool>, AllocError>
    ensures { IfOk result (λ v. v.items ≡ replicate many false) }
{
    let mut marks = Vec::new(alloc);
    marks.resize(many, false)?;
    Ok(marks)
}

// This number is among them, if it is one of those.
fn mark(marks: &mut [bool], number: u64)
    ensures { marks.new ≡ slice_set marks.old number true }
{
    let place = number as usize;
    if place < marks.len() {
        marks[place] = true;
    }
}

// Adds the parts that aren't marked, of so many, to a text.
fn add_unmarked(text: &mut String, marks: &[bool], parts: u64) -> Result<(), AllocError>
    requires { parts < length marks.now }
    ensures { OnOk result (string_bytes text.new
        ≡ string_bytes text.old ++ gaps_text (is_unmarked marks.now parts) parts) }
{
    for number in 0..parts {
        add_gap(text, marks, parts, number + 1)?;
    }
    Ok(())
}

// Adds what the number of a part adds to the list of those that aren't marked.
fn add_gap(text: &mut String, marks: &[bool], parts: u64, number: u64) -> Result<(), AllocError>
    requires within { number ≤ parts }
    requires all { parts < length marks.now }
    ensures { OnOk result (string_bytes text.new
        ≡ string_bytes text.old ++ part_gap (is_unmarked marks.now parts) number) }
{
    if !is_unmarked(marks, parts, number) {
        Ok(())
    } else if !is_unmarked(marks, parts, number.saturating_sub(1)) {
        write!(text, " {number}")
    } else if number == parts || !is_unmarked(marks, parts, number + 1) {
        write!(text, "-{number}")
    } else {
        Ok(())
    }
}

// Whether the part of this number isn't marked.
fn is_unmarked(marks: &[bool], parts: u64, number: u64) -> bool
    requires { parts < length marks.now }
    ensures { result ≡ is_unmarked marks.now parts number }
{
    1 <= number && number <= parts && !marks[number as usize]
}

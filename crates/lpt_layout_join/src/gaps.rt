//! Which parts are missing.

ghost use Rattle.std.specs.Prelude.{◌≡◌, ◌≤◌, ◌<◌, ◌+◌, ◌↔◌, true, not, None, IfOk, IfSome};
ghost use Rattle.lpt_layout_join.specs.PartNumbersInside.{has};
ghost use Rattle.lpt_layout_join.specs.Missing.{AreAll, IsGap, AreGaps};

use crate::PartNumbers;
use std::alloc::{AllocError, Global};

/// The numbers from 1 to `last` (at most 65,542) of which no part came: the first and the last of
/// each run of them, in order. The only error is out of memory.
pub fn missing(alloc: Global, came: &PartNumbers, last: u32) -> Result<Vec<(u32, u32)>, AllocError>
    requires { last ≤ 65542 }
    ensures { IfOk result (λ gaps. AreGaps (has came.now) 1 last gaps.items) }
{
    let mut gaps = Vec::new(alloc);
    let mut from = 1;
    while let Some(gap) = gap_from(came, from, last) {
        gaps.push(gap)?;
        from = gap.1 + 1;
    }
    Ok(gaps)
}

// The first run of missing numbers among those from `from` to `last`.
fn gap_from(came: &PartNumbers, from: u32, last: u32) -> Option<(u32, u32)>
    requires last { last ≤ 65542 }
    requires from { from ≤ last + 1 }
    ensures gap { IfSome result (IsGap (has came.now) from last) }
    ensures none { (result ≡ None) ↔ AreAll (has came.now) true from (last + 1) }
{
    let start = first_from(came, false, from, last);
    if start > last {
        return None;
    }
    let end = first_from(came, true, start, last);
    Some((start, end - 1))
}

// The first number from `from` on of which a part came, or didn't; one more than `last` if there
// is none up to that.
fn first_from(came: &PartNumbers, wanted: bool, from: u32, last: u32) -> u32
    requires last { last ≤ 65542 }
    requires from { from ≤ last + 1 }
    ensures from { from ≤ result }
    ensures within { result ≤ last + 1 }
    ensures before { AreAll (has came.now) (not wanted) from result }
    ensures there { result ≤ last → has came.now result ≡ wanted }
{
    let mut number = from;
    while number <= last && came.has(number) != wanted {
        number += 1;
    }
    number
}

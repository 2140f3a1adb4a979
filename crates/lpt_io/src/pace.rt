//! How far a reading is, and how long it still takes.

ghost use Rattle.std.specs.Prelude.{◌≡◌};
ghost use Rattle.lpt_io.specs.Paces.{percent, seconds_left};

use std::alloc::{AllocError, Global};

/// Clears what stands on the terminal's line, from the cursor on.
pub(crate) const CLEAR: &str = "\x1b[K";

/// In the first so many milliseconds it isn't said how long a reading still takes.
const QUIET_MILLIS: u64 = 2_000;

// How many of a hundred parts of so many octets came.
fn percent_of(done: u64, whole: u64) -> u128
    ensures { result ≡ percent done whole }
{
    if whole == 0 {
        return 100;
    }
    u128::from(done) * 100 / u128::from(whole)
}

// How many seconds are left of a reading of so many octets, of which so many came in so many
// milliseconds.
fn seconds_of(done: u64, whole: u64, millis: u64) -> Option<u128>
    ensures { result ≡ seconds_left done whole millis }
{
    if millis < QUIET_MILLIS {
        return None;
    }
    let rate = u128::from(done) * 1_000 / u128::from(millis);
    if rate == 0 {
        return None;
    }
    Some(u128::from(whole.saturating_sub(done)) / rate)
}

/// The line that tells of a reading of which so many octets came in so many milliseconds, of so many
/// if that is known. It clears what stands behind it, and leaves the cursor at the line's front. The
/// only error is out of memory.
pub(crate) fn pace_line(
    alloc: Global,
    done: u64,
    whole: Option<u64>,
    millis: u64,
) -> Result<String, AllocError> {
    let Some(whole) = whole else {
        return format!(in alloc; "lpt: {done} octets{CLEAR}\r");
    };
    let percent = percent_of(done, whole);
    let Some(seconds) = seconds_of(done, whole, millis) else {
        return format!(in alloc; "lpt: {done} of {whole} octets, {percent}%{CLEAR}\r");
    };
    let (minutes, rest) = (seconds / 60, seconds % 60);
    if minutes == 0 {
        return format!(in alloc;
            "lpt: {done} of {whole} octets, {percent}%, {rest} s left{CLEAR}\r"
        );
    }
    format!(in alloc;
        "lpt: {done} of {whole} octets, {percent}%, {minutes}:{rest:02} min left{CLEAR}\r"
    )
}

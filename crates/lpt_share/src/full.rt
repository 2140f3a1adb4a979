//! Whose log is full: what such a seat left isn't asked for.

ghost use Rattle.std.specs.Prelude.{◌≡◌};
ghost use Rattle.lpt_share.specs.Finished.{is_full, are_full};

use lpt_events::SeatLog;

/// Whether the log of this seat has so many calls.
pub(crate) fn is_full(limit: u32, logs: &[SeatLog], seat: u8) -> bool
    ensures { result ≡ is_full limit logs.now seat }
{
    let mut rest = logs;
    while let Some((log, tail)) = rest.split_first() {
        if log.seat == seat && u64::from(limit) <= log.calls.len() as u64 {
            return true;
        }
        rest = tail;
    }
    false
}

/// Whether the logs of both seats have so many calls.
pub(crate) fn are_full(limit: u32, logs: &[SeatLog], a: u8, b: u8) -> bool
    ensures { result ≡ are_full limit logs.now a b }
{
    is_full(limit, logs, a) && is_full(limit, logs, b)
}

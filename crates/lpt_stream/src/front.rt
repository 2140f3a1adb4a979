//! The piece in front of octets of a stream that somebody else holds.

ghost use Rattle.std.specs.Prelude.{◌≡◌, ◌<◌, ◌≤◌, length, option_map, take, None, IfSome, true, false};
ghost use Rattle.lpt_stream.specs.Fronts.{found_in, shown_piece, Stays};
ghost use Rattle.lpt_stream.specs.Pieces.{begins, lookahead};

use crate::found::{Found, other_in_front, packet_unless};
use crate::waiting::waits;
use crate::{Cut, PieceKind};

/// So many octets show what begins in front of them: those of the two longest packets.
pub(crate) const LOOKAHEAD: usize = 131_084;

/// The piece in front of these octets of a stream, by the rule of `PacketBuffer`. `in_step` says
/// that they come right behind a packet or a damaged one, or at the stream's beginning; `is_end`
/// that nothing comes behind them.
///
/// None if there are no octets, or what is in front depends on octets that may still come. If
/// 131,084 octets are given that isn't so.
pub fn piece_in_front(octets: &[u8], in_step: bool, is_end: bool) -> Option<Found>
    ensures piece { option_map (found_in octets.now) result
        ≡ shown_piece in_step is_end octets.now }

    // What comes behind the octets doesn't change it.
    ensures stays { IfSome result (λ f. Stays in_step is_end octets.now (found_in octets.now f)) }
    ensures least { IfSome result (λ f. 0 < f.len) }
    ensures within { IfSome result (λ f. f.len ≤ length octets.now) }
    ensures few { result ≡ None → length octets.now < lookahead }
{
    piece_unless(false, octets, in_step, is_end)
}

// The same, if it isn't judged already that no packet is there.
pub(crate) fn piece_unless(
    is_judged: bool,
    octets: &[u8],
    in_step: bool,
    is_end: bool,
) -> Option<Found>
    requires { is_judged ≡ true → begins in_step (take lookahead octets.now) ≡ false }
    ensures piece { option_map (found_in octets.now) result
        ≡ shown_piece in_step is_end octets.now }

    // What comes behind the octets doesn't change it.
    ensures stays { IfSome result (λ f. Stays in_step is_end octets.now (found_in octets.now f)) }
    ensures least { IfSome result (λ f. 0 < f.len) }
    ensures within { IfSome result (λ f. f.len ≤ length octets.now) }
    ensures few { result ≡ None → length octets.now < lookahead }
{
    if octets.is_empty() {
        return None;
    }
    let near = &octets[..LOOKAHEAD.min(octets.len())];
    match packet_unless(is_judged, Cut::Sealed, near, in_step) {
        Some(len) => {
            return Some(Found {
                kind: PieceKind::Whole,
                len,
            });
        }
        None => {}
    }
    if !is_end && waits(Cut::Sealed, near, in_step) {
        return None;
    }
    Some(other_in_front(Cut::Sealed, near, in_step))
}

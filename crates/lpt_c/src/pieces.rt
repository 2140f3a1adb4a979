//! The pieces of a stream, if not all of it is packets.

ghost use Rattle.std.specs.Prelude.{◌≡◌, ◌≤◌, length, min, IfOk};
ghost use Rattle.lpt_packet.specs.Sizes.{longest_packet};
ghost use Rattle.lpt_stream.specs.Fronts.{Stays};
ghost use Rattle.lpt_stream.specs.Pieces.{lookahead};
ghost use Rattle.lpt_stream.specs.Strays.{strays_in};
ghost use Rattle.lpt_c.specs.Codes.{all_done};
ghost use Rattle.lpt_c.specs.Pieces.{is_set, kind_number, piece_read};
ghost use Rattle.lpt_c.specs.Readings.{code_read, left_in};

use crate::codes::{DONE, MORE};
use lpt_stream::{PieceKind, piece_in_front, strays_in_front};

/// Finds the piece in front of octets of a stream: its kind, 1 a packet, 2 a damaged one, 3 an
/// octet with which none of these begins; and how many octets it has. In step an idle packet counts
/// as a packet, and so does one with a right checksum that has no secondary header or is a segment.
///
/// `in_step` isn't 0 if the octets begin the stream, or come right behind a piece of kind 1 or 2;
/// `is_end` isn't 0 if nothing comes behind them. It answers 0, and kind and size are written; 104
/// if there are no octets, or the piece depends on those that may still come.
pub fn lpt_find_piece(
    octets: &[u8],
    in_step: u32,
    is_end: u32,
    kind: &mut u32,
    size: &mut usize,
) -> u32
    ensures code { result ≡ code_read (piece_read in_step is_end octets.now) }
    ensures kind { kind.new
        ≡ left_in (λ p. kind_number p.kind) (piece_read in_step is_end octets.now) kind.old }
    ensures size { size.new
        ≡ left_in (λ p. length p.octets) (piece_read in_step is_end octets.now) size.old }

    // It stands in front, whatever comes behind. Octets of two packets always show it.
    ensures stays { IfOk (piece_read in_step is_end octets.now)
        (Stays (is_set in_step) (is_set is_end) octets.now) }
    ensures enough { lookahead ≤ length octets.now → result ≡ all_done }
{
    let Some(found) = piece_in_front(octets, in_step != 0, is_end != 0) else {
        return MORE;
    };
    *kind = number_of(found.kind);
    *size = found.len;
    DONE
}

/// Counts the octets in front of a stream that are none of a packet, one behind the other, right
/// behind such an octet: that many times `lpt_find_piece` with `in_step` 0 would tell kind 3. At
/// most 65,542. `is_end` isn't 0 if nothing comes behind the octets.
///
/// What it works out goes into `room`: with 2,049 numbers in it an octet takes a bounded time,
/// however long the packets are that headers announce. With fewer the answer is the same.
pub fn lpt_count_strays(octets: &[u8], is_end: u32, room: &mut [u16]) -> usize
    ensures { result ≡ min longest_packet (strays_in (is_set is_end) octets.now) }
{
    strays_in_front(octets, is_end != 0, room)
}

// The number of a kind.
fn number_of(kind: PieceKind) -> u32
    ensures { result ≡ kind_number kind }
{
    match kind {
        PieceKind::Whole => 1,
        PieceKind::Damaged => 2,
        PieceKind::Stray => 3,
    }
}

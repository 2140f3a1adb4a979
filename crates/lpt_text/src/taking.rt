//! The lines of a text, taken one by one as they come.

ghost use Rattle.std.specs.Prelude.{◌≡◌, ◌<◌, ◌<◌, ◌≤◌, ◌⊎◌, ⊤, false, is_none, length, true, IfErr, IfOk, IfSome};
ghost use Rattle.std.specs.Int.{from_bool};
ghost use Rattle.lpt_text.specs.Reading.{IsWithin};
ghost use Rattle.lpt_text.specs.Streams.{ReadEnds, WriteEnds};
ghost use Rattle.lpt_text.specs.Taking.{BreaksLine, LinesTaken, failures, is_last};
ghost use Rattle.lpt_text.specs.TakingInside.{IsPiece, TakesPiece};

use crate::fault::StreamFault;
use crate::lines::LineBuffer;
use crate::stream::{Sink, Source};
use crate::texts::{LONGEST_LINE, ended_line};
use std::alloc::Global;

/// What became of a line.
#[derive(Clone, Copy)]
pub enum Taken {
    /// It was taken, and so is the next one.
    Done,
    /// It was taken, and counts as one that failed; the next one is taken too.
    Failed,
    /// It was the last one that is taken.
    Over,
}

impl Taken {
    /// What became of a line that was taken and failed, or didn't.
    pub fn counting(failed: bool) -> Self
        ensures failures { failures result ≡ from_bool failed }
        ensures last { is_last result ≡ false }
    {
        if failed { Taken::Failed } else { Taken::Done }
    }

    /// Whether none is taken behind it.
    pub fn is_last(self) -> bool
        ensures { result ≡ is_last self }
    {
        match self {
            Taken::Done | Taken::Failed => false,
            Taken::Over => true,
        }
    }

    // How many lines failed with it.
    fn failures(self) -> u64
        ensures { result ≡ failures self }
    {
        match self {
            Taken::Done | Taken::Over => 0,
            Taken::Failed => 1,
        }
    }
}

/// Who takes the lines of a text, one by one.
pub trait LineTaker {
    ghost use Rattle.std.specs.Prelude.{◌≡◌, ◌⊎◌, ℕ, List, Bool, false, IfErr, IfOk};
    ghost use Rattle.lpt_text.specs.Streams.{WriteEnds};
    ghost use Rattle.lpt_text.specs.Taking.{BreaksLine, Story, TakesLine, is_last};

    // What lines leave.
    ghost Left: { Type 0 };

    // What lines do from here on, of which the first has this number, with so many failed before.
    ghost story: { Self → List (List ℕ) → (number failed : ℕ) → Story Left };

    // Whether no more lines are taken.
    ghost is_over: { Self → Bool };

    /// Takes the line of this number, from 1, without its line end. Of a line that is too long it
    /// is given a front of more than 140,000 octets, and what is behind that isn't taken.
    ///
    /// Errors: `Write` if a write failed or took nothing; `Memory`.
    fn take<K: Sink>(&mut self, number: u64, line: &[u8], out: &mut K) -> Result<Taken, StreamFault>
        requires { is_over self.old ≡ false }
        ensures over { IfOk result (λ taken. is_over self.new ≡ is_last taken) }
        ensures takes { IfOk result (λ taken. TakesLine story self.old self.new number line.now taken
            (K.contents out.old) (K.contents out.new)) }
        ensures breaks { IfErr result (λ _. BreaksLine story self.old number line.now
            (K.contents out.old) (K.contents out.new)) }
        ensures fault { IfErr result (λ e. (e ≡ StreamFault.Write) ⊎ (e ≡ StreamFault.Memory)) }
        ensures writer { WriteEnds result (K.failed out.old) (K.failed out.new) };
}

/// Takes the lines of a text one by one, the first of which has number 1, up to one behind which
/// none is taken, and counts those that failed.
///
/// Each line is taken as it comes: before more is read, every line that came was taken, and `out`
/// has passed on what was written. A text has 16,777,216 octets at most; what it takes of memory
/// depends on its longest line alone. A line that is too long is taken as soon as it is seen to be.
///
/// Errors: `Read` if a read failed or more octets came than a text may have, after the lines
/// before that; `Memory`; those of the taker.
pub fn each_line<S: Source, K: Sink, T: LineTaker>(
    alloc: Global,
    source: &mut S,
    out: &mut K,
    taker: &mut T,
) -> Result<u64, StreamFault>
    requires { T.is_over taker.old ≡ false }
    ensures ends { LinesTaken T.story taker.old taker.new (T.is_over taker.new) result
        (S.remaining source.old) (S.remaining source.new) (K.contents out.old) (K.contents out.new)
        (S.failed source.new) }
    ensures within { IfOk result (λ _. IsWithin (S.remaining source.old) (S.remaining source.new)) }
    ensures reader { ReadEnds ⊤ result (S.failed source.old) (S.failed source.new) }
    ensures writer { WriteEnds result (K.failed out.old) (K.failed out.new) }
{
    let mut lines = LineBuffer::new(alloc);
    let mut number = 1;
    let mut failed = 0;
    // Whether what is held goes on a line that was taken by its front.
    let mut is_taken = false;
    loop {
        let place = match lines.find_line(source, out) {
            Ok(place) => place,
            Err(fault) => return Err(fault),
        };
        let held = lines.octets_held();
        if held.is_empty() {
            return Ok(failed);
        }
        let (line, len) = front_line(held, place);
        match take_front(taker, number, line, is_taken, out) {
            Ok(taken) => {
                failed += taken.failures();
                if is_at_end(taken, place, len) {
                    return Ok(failed);
                }
            }
            Err(fault) => return Err(fault),
        }
        number += u64::from(!is_taken);
        is_taken = place.is_none();
        lines.skip(len);
    }
}

// Takes the line in front, unless it was taken by its front.
fn take_front<K: Sink, T: LineTaker>(
    taker: &mut T,
    number: u64,
    line: &[u8],
    is_taken: bool,
    out: &mut K,
) -> Result<Taken, StreamFault>
    requires { T.is_over taker.old ≡ false }
    ensures over { IfOk result (λ taken. T.is_over taker.new ≡ is_last taken) }
    ensures takes { IfOk result (λ taken. TakesPiece T.story is_taken taker.old taker.new number
        line.now taken (K.contents out.old) (K.contents out.new)) }
    ensures breaks { IfErr result (λ _. (is_taken ≡ false) × BreaksLine T.story taker.old number
        line.now (K.contents out.old) (K.contents out.new)) }
    ensures fault { IfErr result (λ e. (e ≡ StreamFault.Write) ⊎ (e ≡ StreamFault.Memory)) }
    ensures writer { WriteEnds result (K.failed out.old) (K.failed out.new) }
{
    if is_taken {
        return Ok(Taken::Done);
    }
    taker.take(number, line, out)
}

// Whether no more is taken behind a piece of so many octets that was taken so: behind the last line
// that is, or at the text's end.
fn is_at_end(taken: Taken, place: Option<usize>, len: usize) -> bool
    ensures yes { result ≡ true → (is_last taken ≡ true)
        ⊎ ((is_none place ≡ true) × (len ≤ 140000)) }
    ensures no { result ≡ false → (is_last taken ≡ false) × (is_none place ≡ true → 140000 < len) }
{
    taken.is_last() || (place.is_none() && len <= LONGEST_LINE)
}

// The line in front of what is held, and its octets with its line end, if that is there.
fn front_line(held: &[u8], place: Option<usize>) -> (&[u8], usize)
    requires { IfSome place (λ n. n < length held.now) }
    ensures { IsPiece place held.now result.0.now result.1 }
{
    match place {
        Some(len) => (ended_line(&held[..len]), len + 1),
        None => (held, held.len()),
    }
}

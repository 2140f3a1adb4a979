//! The requests of a stream.

ghost use Rattle.std.specs.Prelude.{◌≡◌, ◌⊎◌, true, IfErr, IfOk};
ghost use Rattle.lpt_text.specs.Streams.{ReadEnds};
ghost use Rattle.lpt_carried.specs.Carried.{cut_for};
ghost use Rattle.lpt_stream.specs.Reads.{IsEndlessBy};
ghost use Rattle.lpt_stream.specs.Takes.{ReadsBy};
ghost use Rattle.lpt_outcomes.specs.Passing.{passed_over, IsPassed};
ghost use Rattle.lpt_outcomes.specs.Requests.{request_in, requests_in};

use crate::reading::{cut_for, request_in_piece};
use crate::{Asked, Layout, Passed};
use lpt_stream::{Cut, PieceKind, Taker, take_pieces};
use lpt_text::{FromStd, Sink, Source, StreamFault};
use std::alloc::Global;

/// The requests of a stream, and what was passed over.
#[derive(Drop)]
pub struct Requests {
    /// The telecommands that are no parts, in their order.
    pub asked: Vec<Asked>,
    /// How much else there was.
    pub passed: Passed,
}

/// The telecommands of this layout among the packets of a stream, in their order, before any report
/// on them. A part of a large message is none: what was split may be one. What else there is is
/// counted.
///
/// Errors: `Read` if a read failed, or if 2^64 - 1 pieces came; `Memory`.
pub fn read_requests<S: Source>(
    alloc: Global,
    layout: &Layout,
    source: &mut S,
) -> Result<Requests, StreamFault>
    // The stream is read to its end.
    ensures requests { IfOk result (λ r. ReadsBy (cut_for layout.now.has_checksum)
        (S.remaining source.old) (S.remaining source.new) true (λ pieces.
        (r.asked.items ≡ requests_in layout.now pieces)
        × IsPassed (passed_over (request_in layout.now) pieces) r.passed)) }
    ensures reader { ReadEnds (IsEndlessBy (cut_for layout.now.has_checksum)
        (S.remaining source.old) (S.remaining source.new)) result
        (S.failed source.old) (S.failed source.new) }
    ensures fault { IfErr result (λ e. (e ≡ StreamFault.Read) ⊎ (e ≡ StreamFault.Memory)) }
{
    let first = RequestTaker {
        layout: *layout,
        asked: Vec::new(alloc),
        passed: Passed::new(),
    };
    let mut out = FromStd::new(Vec::new(alloc));
    match take_pieces(alloc, 0, source, first, &mut out, &mut ()) {
        Ok(last) => Ok(Requests {
            asked: last.asked,
            passed: last.passed,
        }),
        Err(StreamFault::Read) => Err(StreamFault::Read),
        // Nothing is written, so no write fails.
        Err(StreamFault::Write | StreamFault::Memory) => Err(StreamFault::Memory),
    }
}

// The requests of the pieces so far, read by a layout, and what was passed over.
#[derive(Drop)]
struct RequestTaker {
    layout: Layout,
    asked: Vec<Asked>,
    passed: Passed,
}

impl<K: Sink> Taker<K, ()> for RequestTaker {
    ghost use Rattle.std.specs.Prelude.{◌≡◌, [], true, ⊤};
    ghost use Rattle.lpt_carried.specs.Carried.{cut_for};
    ghost use Rattle.lpt_outcomes.specs.Passing.{passed_over, IsPassed};
    ghost use Rattle.lpt_outcomes.specs.Requests.{request_in, requests_in};

    ghost cut = { λ t. cut_for t.layout.has_checksum };

    ghost is_open = { λ _. true };

    ghost takes = { λ from first now old new pieces. (now.layout ≡ first.layout)
        × (now.asked.items ≡ requests_in first.layout pieces)
        × IsPassed (passed_over (request_in first.layout) pieces) now.passed };

    ghost leaves = { λ from first old new pieces. ⊤ };

    ghost writes = { λ from first pieces. [] };

    ghost others = { λ e. ⊤ };

    fn cut(&self) -> Cut {
        cut_for(&self.layout)
    }

    fn is_open(&self) -> bool {
        true
    }

    fn take(
        self,
        _alloc: Global,
        _out: &mut K,
        _lent: &mut (),
        _place: u64,
        kind: PieceKind,
        octets: &[u8],
    ) -> Result<RequestTaker, StreamFault> {
        let RequestTaker {
            layout,
            mut asked,
            mut passed,
        } = self;
        match request_in_piece(&layout, kind, octets) {
            Err(beside) => {
                passed.count(beside);
                Ok(RequestTaker {
                    layout,
                    asked,
                    passed,
                })
            }
            Ok(request) => match asked.push(request) {
                Ok(()) => Ok(RequestTaker {
                    layout,
                    asked,
                    passed,
                }),
                Err(_) => Err(StreamFault::Memory),
            },
        }
    }
}

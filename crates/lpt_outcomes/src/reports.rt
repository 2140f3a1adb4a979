//! What the reports of a stream tell of requests.

ghost use Rattle.std.specs.Prelude.{◌≡◌, ◌⊎◌, true, IfErr, IfOk};
ghost use Rattle.lpt_text.specs.Streams.{ReadEnds};
ghost use Rattle.lpt_carried.specs.Carried.{cut_for};
ghost use Rattle.lpt_stream.specs.Reads.{IsEndlessBy};
ghost use Rattle.lpt_stream.specs.Takes.{ReadsBy};
ghost use Rattle.lpt_outcomes.specs.Passing.{passed_over, IsPassed};
ghost use Rattle.lpt_outcomes.specs.Reports.{all_heard, news_in, news_of};

use crate::answers::{answer, hear, untold};
use crate::key::Key;
use crate::reading::{cut_for, news_in_piece};
use crate::{Asked, Layout, Outcome, Passed};
use lpt_stream::{Cut, PieceKind, Taker, take_pieces};
use lpt_text::{FromStd, Sink, Source, StreamFault};
use std::alloc::Global;
use std::collections::BTreeMap;

/// Tells requests of the verification reports of this layout among the packets of a stream, one
/// after the other: a report counts for all requests whose source is its destination and that have
/// its request ID, by which they are looked up. What is no such report is counted as passed over,
/// but for idle packets and other telemetry.
///
/// Errors: `Read` if a read failed, or if 2^64 - 1 pieces came; `Memory`. The requests are
/// unchanged.
pub fn read_reports<S: Source>(
    alloc: Global,
    layout: &Layout,
    requests: &mut [Asked],
    source: &mut S,
) -> Result<Passed, StreamFault>
    // The stream is read to its end.
    ensures heard { IfOk result (λ passed. ReadsBy (cut_for layout.now.has_checksum)
        (S.remaining source.old) (S.remaining source.new) true (λ pieces.
        (requests.new ≡ all_heard requests.old (news_of layout.now pieces))
        × IsPassed (passed_over (news_in layout.now) pieces) passed)) }
    ensures unchanged { IfErr result (λ _. requests.new ≡ requests.old) }
    ensures reader { ReadEnds (IsEndlessBy (cut_for layout.now.has_checksum)
        (S.remaining source.old) (S.remaining source.new)) result
        (S.failed source.old) (S.failed source.new) }
    ensures fault { IfErr result (λ e. (e ≡ StreamFault.Read) ⊎ (e ≡ StreamFault.Memory)) }
{
    let first = ReportTaker {
        layout: *layout,
        outcomes: untold(alloc, requests)?,
        passed: Passed::new(),
    };
    let mut out = FromStd::new(Vec::new(alloc));
    match take_pieces(alloc, 0, source, first, &mut out, &mut ()) {
        Ok(last) => {
            answer(requests, &last.outcomes);
            Ok(last.passed)
        }
        Err(StreamFault::Read) => Err(StreamFault::Read),
        // Nothing is written, so no write fails.
        Err(StreamFault::Write | StreamFault::Memory) => Err(StreamFault::Memory),
    }
}

// What was told so far on each key of the requests, and what was passed over.
#[derive(Drop)]
struct ReportTaker {
    layout: Layout,
    outcomes: BTreeMap<Key, Outcome>,
    passed: Passed,
}

impl<K: Sink> Taker<K, ()> for ReportTaker {
    ghost use Rattle.std.specs.Prelude.{◌≡◌, [], true, ⊤};
    ghost use Rattle.std.specs.BTreeMap.{get};
    ghost use Rattle.lpt_carried.specs.Carried.{cut_for};
    ghost use Rattle.lpt_outcomes.specs.Answers.{told_at};
    ghost use Rattle.lpt_outcomes.specs.Keys.{Key, key_cmp};
    ghost use Rattle.lpt_outcomes.specs.Passing.{passed_over, IsPassed};
    ghost use Rattle.lpt_outcomes.specs.Reports.{news_in, news_of};

    ghost cut = { λ t. cut_for t.layout.has_checksum };

    ghost is_open = { λ _. true };

    ghost takes = { λ from first now old new pieces. (now.layout ≡ first.layout)
        × ((k : Key) → get key_cmp now.outcomes k
        ≡ told_at k (news_of first.layout pieces) (get key_cmp first.outcomes k))
        × IsPassed (passed_over (news_in first.layout) pieces) now.passed };

    ghost leaves = { λ from first old new pieces. ⊤ };

    ghost writes = { λ from first pieces. [] };

    ghost others = { λ e. ⊥ };

    fn cut(&self) -> Cut {
        cut_for(&self.layout)
    }

    fn is_open(&self) -> bool {
        true
    }

    fn take(
        self,
        _alloc: Global,
        _out: &mut K,
        _lent: &mut (),
        _place: u64,
        kind: PieceKind,
        octets: &[u8],
    ) -> Result<ReportTaker, StreamFault> {
        let ReportTaker {
            layout,
            mut outcomes,
            mut passed,
        } = self;
        match news_in_piece(&layout, kind, octets) {
            Err(beside) => {
                passed.count(beside);
                Ok(ReportTaker {
                    layout,
                    outcomes,
                    passed,
                })
            }
            Ok(news) => {
                hear(&mut outcomes, &news);
                Ok(ReportTaker {
                    layout,
                    outcomes,
                    passed,
                })
            }
        }
    }
}

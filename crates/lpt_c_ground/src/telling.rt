//! What became of a pass's requests, and the packets that settled them.

ghost use Rattle.std.specs.Prelude.{◌≡◌, None, Ok, Err, MatchOption};
ghost use Rattle.std.specs.List.{count_by};
ghost use Rattle.lpt_ground.specs.Answers.{octets_in};
ghost use Rattle.lpt_c_ground.specs.Codes.{answer, nothing, refusal_by};
ghost use Rattle.lpt_c_ground.specs.Copies.{code_for, left_by, needed_by};
ghost use Rattle.lpt_c_ground.specs.Told.{agrees_told, agrees_word, dump_in, fate_of, fate_refusal, fate_told, fate_word, has_state, notice_word, progress_of, progress_told, report_by, report_told};

use crate::codes::{DONE, EMPTY, NOTHING};
use crate::copying::copy_out;
use crate::grounds::Ground;
use crate::handle::{LptGround, put, take};
use lpt_ground::{Asked, FailureNotice, Fate, checks_agree};
use std::alloc::Global;

/// How many requests a pass has, and what became of them.
#[repr(C)]
#[derive(Clone, Copy)]
pub struct LptProgress {
    /// How many there are.
    pub requests: usize,
    /// How many were carried out and, if something was asked, answered.
    pub completed: usize,
    /// How many failed.
    pub failed: usize,
    /// Of how many nothing is known.
    pub left: usize,
}

/// What became of a request.
#[repr(C)]
#[derive(Clone, Copy)]
pub struct LptFate {
    /// 0 if nothing is known, 1 if it was carried out, 2 if it failed.
    pub state: u32,
    /// The failure code, or 65536 if its report has none of 16 bits; 0 if it didn't fail.
    pub code: u32,
}

/// What is told of a failure whose code isn't read.
const UNREAD: u32 = 65_536;

/// How many octets of a report's packet stand in front of a dump's octets, and how many behind
/// them.
const DUMP_FRONT: usize = 25;

const DUMP_END: usize = 4;

/// Tells how many requests the pass has, and how many of them were carried out, failed, and are
/// open.
///
/// It answers 0; 106 if the handle is empty. The pass stays as it is.
pub fn lpt_ground_progress(alloc: Global, pass: &mut LptGround, progress: &mut LptProgress) -> u32
    ensures code { result ≡ answer (refusal_by (λ g. None) pass.old.held.value) }
    ensures told { progress.new ≡ progress_told pass.old.held.value progress.old }
    ensures same { pass.new.held.value ≡ pass.old.held.value }
{
    let Some(held) = take(alloc, pass) else {
        return EMPTY;
    };
    *progress = progress_of(held.pass.requests_asked());
    put(pass, held);
    DONE
}

/// Tells what became of the request of a number, from 0, in the order in which they were made.
///
/// It answers 0; 106 if the handle is empty; 109 if there is no such request: nothing is written
/// then. The pass stays as it is.
pub fn lpt_ground_fate(
    alloc: Global,
    pass: &mut LptGround,
    number: usize,
    fate: &mut LptFate,
) -> u32
    ensures code { result ≡ answer (refusal_by (fate_refusal number) pass.old.held.value) }
    ensures told { fate.new ≡ fate_told number pass.old.held.value fate.old }
    ensures same { pass.new.held.value ≡ pass.old.held.value }
{
    let Some(held) = take(alloc, pass) else {
        return EMPTY;
    };
    let code = match held.pass.requests_asked().get(number) {
        Some(one) => {
            *fate = fate_word_of(&one.fate);
            DONE
        }
        None => NOTHING,
    };
    put(pass, held);
    code
}

/// Copies the packet that settled the request of a number to the front of a buffer.
///
/// It answers 0; 106 if the handle is empty; 109 if there is no such request, or it is open or
/// failed; 103 if the buffer is too short. At 0 and at 103 `needed` says how many octets the packet
/// has.
pub fn lpt_ground_report(
    alloc: Global,
    pass: &mut LptGround,
    number: usize,
    out: &mut [u8],
    needed: &mut usize,
) -> u32
    ensures code { result ≡ code_for (report_told number pass.old.held.value) out.old }
    ensures buffer { out.new ≡ left_by (report_told number pass.old.held.value) out.old }
    ensures needed { needed.new ≡ needed_by (report_told number pass.old.held.value) needed.old }
    ensures same { pass.new.held.value ≡ pass.old.held.value }
{
    let Some(held) = take(alloc, pass) else {
        return EMPTY;
    };
    let code = match held.report(number) {
        Some(report) => copy_out(report, out, needed),
        None => NOTHING,
    };
    put(pass, held);
    code
}

/// Copies the octets of memory that the dump of a number got to the front of a buffer.
///
/// It answers 0; 106 if the handle is empty; 109 if there is no such request, or it is open or
/// failed; 103 if the buffer is too short. At 0 and at 103 `needed` says how many octets there are;
/// of a request that is no dump none.
pub fn lpt_ground_dumped(
    alloc: Global,
    pass: &mut LptGround,
    number: usize,
    out: &mut [u8],
    needed: &mut usize,
) -> u32
    ensures code { result ≡ code_for (dump_in (report_told number pass.old.held.value)) out.old }
    ensures buffer { out.new
        ≡ left_by (dump_in (report_told number pass.old.held.value)) out.old }
    ensures needed { needed.new
        ≡ needed_by (dump_in (report_told number pass.old.held.value)) needed.old }
    ensures same { pass.new.held.value ≡ pass.old.held.value }
{
    let Some(held) = take(alloc, pass) else {
        return EMPTY;
    };
    let code = match held.report(number) {
        Some(report) => copy_out(octets_in(report), out, needed),
        None => NOTHING,
    };
    put(pass, held);
    code
}

/// Tells whether the checksums that the reports of checks hold are those of this content, whose
/// octets the requests check in their order, and of all of it: 1 if they are, otherwise 0.
///
/// It answers 0; 106 if the handle is empty. The pass stays as it is.
pub fn lpt_ground_agrees(
    alloc: Global,
    pass: &mut LptGround,
    content: &[u8],
    agrees: &mut u32,
) -> u32
    ensures code { result ≡ answer (refusal_by (λ g. None) pass.old.held.value) }
    ensures told { agrees.new ≡ agrees_told content.now pass.old.held.value agrees.old }
    ensures same { pass.new.held.value ≡ pass.old.held.value }
{
    let Some(held) = take(alloc, pass) else {
        return EMPTY;
    };
    *agrees = agrees_word_of(held.pass.requests_asked(), content);
    put(pass, held);
    DONE
}

impl Ground {
    // The packet that settled the request of a number.
    fn report(&self, number: usize) -> Option<&[u8]>
        ensures { MatchOption result (report_by (fate_of number self.now) ≡ Err nothing)
            (λ o. report_by (fate_of number self.now) ≡ Ok o.now) }
    {
        match &self.pass.requests_asked().get(number)?.fate {
            Fate::Done(octets) => Some(octets.as_slice()),
            Fate::Waiting => None,
            Fate::Failed(_) => None,
        }
    }
}

// How many requests there are, and of each state.
fn progress_of(asked: &[Asked]) -> LptProgress
    ensures { result ≡ progress_of asked.now }
{
    LptProgress {
        requests: asked.len(),
        completed: count_of(asked, 1),
        failed: count_of(asked, 2),
        left: count_of(asked, 0),
    }
}

// How many requests have this state.
fn count_of(asked: &[Asked], state: u32) -> usize
    ensures { result ≡ count_by (has_state state) asked.now }
{
    asked
        .iter()
        .filter(|one| fate_word_of(&one.fate).state == state)
        .count()
}

// What became of a request, as C is told it.
fn fate_word_of(fate: &Fate) -> LptFate
    ensures { result ≡ fate_word fate.now }
{
    let (state, code) = match fate {
        Fate::Waiting => (0, 0),
        Fate::Done(_) => (1, 0),
        Fate::Failed(notice) => (2, notice_word_of(*notice)),
    };
    LptFate { state, code }
}

// Why a request failed, as C is told it.
fn notice_word_of(notice: FailureNotice) -> u32
    ensures { result ≡ notice_word notice }
{
    match notice {
        FailureNotice::Code(code) | FailureNotice::Foreign(code) => u32::from(code),
        FailureNotice::Unread => UNREAD,
    }
}

// The octets of a dump in its report's packet.
fn octets_in(report: &[u8]) -> &[u8]
    ensures { result.now ≡ octets_in report.now }
{
    if report.len() < DUMP_FRONT + DUMP_END {
        return &[];
    }
    &report[DUMP_FRONT..report.len() - DUMP_END]
}

// Whether checksums are those of a content, as a number.
fn agrees_word_of(asked: &[Asked], content: &[u8]) -> u32
    ensures { result ≡ agrees_word asked.now content.now }
{
    if checks_agree(asked, content) { 1 } else { 0 }
}

//! Requests, and whether they are done.

ghost use Rattle.std.specs.Prelude.{◌↔◌, IsTrue, All};
ghost use Rattle.lpt_outcomes.specs.Done.{is_done, AreDone};

use crate::key::Key;
use crate::{Outcome, Passed};
use lpt_pus::RequestId;
use lpt_script_text::Areas;
use std::collections::BTreeMap;

/// A telecommand of a stream, and what reports have told of it.
#[derive(Clone, Copy)]
pub struct Asked {
    /// The source ID, the destination of reports on it; 0 if the layout has none.
    pub source: u32,
    /// Its request ID.
    pub request: RequestId,
    /// The application process identifier, 0 to 2046.
    pub apid: u16,
    /// The packet sequence count, 0 to 16,383.
    pub count: u16,
    /// The acknowledgement flags, 0 to 15, a sum of: 1 acceptance, 2 start, 4 progress and
    /// 8 completion of execution.
    pub flags: u8,
    /// The service type.
    pub service: u8,
    /// The message subtype.
    pub subtype: u8,
    /// The areas that it names, if it is a load, a dump or a check.
    pub areas: Option<Areas>,
    /// What reports have told of it.
    pub outcome: Outcome,
}

impl Asked {
    ghost use Rattle.std.specs.Prelude.{◌≡◌};
    ghost use Rattle.lpt_outcomes.specs.Answers.{answered_by};
    ghost use Rattle.lpt_outcomes.specs.Keys.{key_of};
    ghost use Rattle.lpt_outcomes.specs.Opened.{is_open};
    ghost use Rattle.lpt_outcomes.specs.Done.{is_acknowledged, is_done};

    // What names it.
    pub(crate) fn key(&self) -> Key
        ensures { result ≡ key_of self.now }
    {
        Key {
            source: self.source,
            id: self.request.value,
        }
    }

    // Takes what was told on it, if that is there.
    pub(crate) fn answer(&mut self, outcomes: &BTreeMap<Key, Outcome>)
        ensures { self.new ≡ answered_by outcomes.now self.old }
    {
        if let Some(outcome) = outcomes.get(&self.key()) {
            self.outcome = self.outcome.with_later(outcome);
        }
    }

    // Whether it asks for a report of success.
    pub(crate) fn is_acknowledged(&self) -> bool
        ensures { result ≡ is_acknowledged self.now.flags }
    {
        self.flags % 2 == 1 || self.flags / 2 % 2 == 1 || self.flags / 8 % 2 == 1
    }

    // Whether it didn't fail, and the last report of success that it asks for has come.
    pub(crate) fn is_done(&self) -> bool
        ensures { result ≡ is_done self.now }
    {
        self.outcome.failure.is_none() && self.outcome.has_last(self.flags)
    }

    // Whether nothing tells its end: neither that it failed, nor the last success that it asks for.
    pub(crate) fn is_open(&self) -> bool
        ensures { result ≡ is_open self.now }
    {
        self.outcome.failure.is_none() && !self.outcome.has_last(self.flags)
    }
}

/// Whether nothing is open: there are requests, all of them are done, and nothing is to be told
/// that was passed over among them or among the reports.
///
/// A request is done if it didn't fail, and the last report of its execution's success has come
/// that its acknowledgement flags ask for: of completion, or of start. That it was accepted says
/// nothing of its end: one that asks for acceptance alone is done if a report of completion came
/// all the same, and one that asks for nothing is never done. No report of progress is waited for.
pub fn are_done(requests: &[Asked], of_requests: &Passed, of_reports: &Passed) -> bool
    ensures { IsTrue result ↔ AreDone requests.now of_requests.now of_reports.now }
{
    !requests.is_empty()
        && all_done(requests)
        && of_requests.is_nothing()
        && of_reports.is_nothing()
}

// Whether each of these is done.
fn all_done(requests: &[Asked]) -> bool
    ensures { IsTrue result ↔ All (λ a. IsTrue (is_done a)) requests.now }
{
    requests.iter().all(|asked| asked.is_done())
}

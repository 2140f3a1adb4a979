//! What verification reports have told of a request.

use crate::news::ReportNews;
use lpt_requests::FailureNotice;

/// What verification reports have told of a request.
#[derive(Clone, Copy)]
pub struct Outcome {
    /// Whether its acceptance succeeded.
    pub accepted: bool,
    /// Whether the start of its execution succeeded.
    pub started: bool,
    /// Whether the completion of its execution succeeded.
    pub completed: bool,
    /// The notice of the first report that its acceptance, or the start, the progress or the
    /// completion of its execution failed.
    pub failure: Option<FailureNotice>,
}

impl Outcome {
    ghost use Rattle.std.specs.Prelude.{◌≡◌};
    ghost use Rattle.lpt_outcomes.specs.Requests.{nothing_told};
    ghost use Rattle.lpt_outcomes.specs.Reports.{outcome_told};
    ghost use Rattle.lpt_outcomes.specs.Answers.{outcomes_joined};
    ghost use Rattle.lpt_outcomes.specs.Lines.{is_told};
    ghost use Rattle.lpt_outcomes.specs.Done.{has_last};

    // The outcome before any report.
    pub(crate) fn new() -> Outcome
        ensures { result ≡ nothing_told }
    {
        Outcome {
            accepted: false,
            started: false,
            completed: false,
            failure: None,
        }
    }

    // The outcome with what one more report tells.
    pub(crate) fn with_news(self, news: &ReportNews) -> Outcome
        ensures { result ≡ outcome_told self news.now }
    {
        let mut outcome = self;
        match (news.report.failure, news.subtype) {
            (Some(notice), _) => outcome.failure = outcome.failure.or(Some(notice)),
            (None, 1) => outcome.accepted = true,
            (None, 3) => outcome.started = true,
            (None, _) => outcome.completed = true,
        }
        outcome
    }

    // The outcome with what was told after.
    pub(crate) fn with_later(self, after: &Outcome) -> Outcome
        ensures { result ≡ outcomes_joined self after.now }
    {
        Outcome {
            accepted: self.accepted || after.accepted,
            started: self.started || after.started,
            completed: self.completed || after.completed,
            failure: self.failure.or(after.failure),
        }
    }

    // Whether anything was reported.
    pub(crate) fn is_told(&self) -> bool
        ensures { result ≡ is_told self.now }
    {
        self.accepted || self.started || self.completed || self.failure.is_some()
    }

    // Whether the last report of the execution's success that these flags ask for has come. If they
    // ask for acceptance alone, one of completion that came all the same says it.
    pub(crate) fn has_last(&self, flags: u8) -> bool
        ensures { result ≡ has_last flags self.now }
    {
        if flags / 8 % 2 == 1 {
            self.completed
        } else if flags / 2 % 2 == 1 {
            self.started
        } else {
            flags % 2 == 1 && self.completed
        }
    }
}

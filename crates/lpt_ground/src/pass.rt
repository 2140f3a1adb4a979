//! A pass: what it does next, by what it heard.

ghost use Rattle.std.specs.Prelude.{◌≡◌, ◌≤◌, length};
ghost use Rattle.std.specs.List.{position_or_len};
ghost use Rattle.lpt_ground.specs.Telling.{is_waiting};

use crate::finding::{are_done, first_from, first_settled, first_waiting, settle};
use crate::telling::Said;
use crate::{Asked, Terms};
use lpt_packet::Octets;

/// So many requests are put at least in each round but the first: packets that a link delays stand
/// in it until others push them.
const LEAST: u32 = 8;

/// How a pass ends.
#[derive(Clone, Copy, Debug, PartialEq, Eq)]
pub enum End {
    /// A packet was heard that settles each request.
    Done,
    /// Each request is settled, and some failed.
    Failed,
    /// Some still wait, and too many waits in a row settled nothing.
    Given,
    /// Some still wait, and nothing more will be heard.
    Ended,
}

/// What a pass does next.
#[derive(Clone, Copy, Debug, PartialEq, Eq)]
pub enum Step {
    /// It puts the request at this place.
    Put(usize),
    /// It listens, until a packet comes, or none does for the wait.
    Listen,
    /// It is at its end.
    Stop(End),
}

/// Requests that are sent by rounds until each is settled.
///
/// In a round each request that waits is put once; in all but the first at least 8 packets, if
/// one waits. Behind a round the pass listens, and once nothing was heard for the wait the next
/// round begins.
#[derive(Drop)]
pub struct Pass {
    terms: Terms,
    asked: Vec<Asked>,
    // The place of the first that waits; how many they are, if none waits.
    first: usize,
    // The place behind the request that was put last in this round.
    at: usize,
    // How many are still to be put in this round at least.
    owed: u32,
    // How many more waits in a row may settle nothing.
    left: u32,
    // Whether something was settled since the last wait.
    news: bool,
    // Whether nothing more will be heard.
    ended: bool,
    ghost is_first: { first ≡ position_or_len is_waiting asked.items },
    ghost first_within: { first ≤ length asked.items },
    ghost within: { at ≤ length asked.items },
}

impl Pass {
    ghost use Rattle.std.specs.Prelude.{◌<◌, ℕ, drop, position, slice_get};
    ghost use Rattle.lpt_packet.specs.Numbers.{IsOctets};
    ghost use Rattle.lpt_ground.specs.Carrying.{octets_of};
    ghost use Rattle.lpt_ground.specs.Passes.{pass_begun, pass_closed, end_of, octets_heard, next_step, put, put_from, state_of, pass_waited};
    ghost use Rattle.lpt_ground.specs.Telling.{said_in};

    /// A pass of these requests that begins.
    pub fn new(terms: Terms, asked: Vec<Asked>) -> Pass
        ensures state { state_of result ≡ pass_begun terms asked.items }
        ensures terms { result.terms ≡ terms }
    {
        let first = first_from(&asked, 0);
        Pass {
            terms,
            asked,
            first,
            at: 0,
            owed: 0,
            left: terms.tries,
            news: false,
            ended: false,
        }
    }

    /// Whose reports count, and when it is given up.
    pub fn terms(&self) -> Terms
        ensures { result ≡ self.now.terms }
    {
        let Pass { terms, .. } = self;
        *terms
    }

    /// The requests, with what became of them.
    pub fn requests_asked(&self) -> &[Asked]
        ensures { result.now ≡ self.now.asked.items }
    {
        &self.asked
    }

    /// The requests, with what became of them, of a pass that is no more.
    pub fn into_requests(self) -> Vec<Asked>
        ensures { result.items ≡ self.asked.items }
    {
        let Pass { asked, .. } = self;
        asked
    }

    /// The packet of the request at this place.
    pub fn octets(&self, k: usize) -> &[u8]
        requires { k < length self.now.asked.items }
        ensures { result.now ≡ octets_of (slice_get self.now.asked.items k) }
    {
        self.asked[k].octets.as_slice()
    }

    /// What the pass does next. It stops if no request waits any more, if nothing more will be
    /// heard, or if too many waits settled nothing. Otherwise it puts the next that waits in this
    /// round, or listens if there is none.
    #[tactic(auto, unfolding(crate::specs::Passes::next_step))]
    pub fn next(&self) -> Step
        ensures step { result ≡ next_step (state_of self.now) }
        ensures within { (k : ℕ) → result ≡ Step.Put k → k < length self.now.asked.items }
    {
        if self.first >= self.asked.len() {
            return Step::Stop(self.end());
        }
        if self.ended {
            return Step::Stop(End::Ended);
        }
        if self.left == 0 {
            return Step::Stop(End::Given);
        }
        self.put_from(self.first)
    }

    // How a pass ends of which none waits.
    fn end(&self) -> End
        ensures { result ≡ end_of self.now.asked.items }
    {
        if are_done(&self.asked) {
            End::Done
        } else {
            End::Failed
        }
    }

    // What a pass does next if this is the first that waits.
    fn put_from(&self, first: usize) -> Step
        requires { first < length self.now.asked.items }
        ensures step { result ≡ put_from (state_of self.now) first
            (position is_waiting (drop self.now.at self.now.asked.items)) }
        ensures within { (k : ℕ) → result ≡ Step.Put k → k < length self.now.asked.items }
    {
        match first_waiting(&self.asked[self.at..]) {
            Some(k) => Step::Put(self.at + k),
            None if self.owed == 0 => Step::Listen,
            None => Step::Put(first),
        }
    }

    /// Takes it that the request at this place was put.
    pub fn request_sent(&mut self, k: usize)
        requires { k < length self.old.asked.items }
        ensures state { state_of self.new ≡ put (state_of self.old) k }
        ensures terms { self.new.terms ≡ self.old.terms }
    {
        self.at = k + 1;
        self.owed = self.owed.saturating_sub(1);
    }

    /// Takes a packet that was heard. The first request that it settles has its fate then.
    #[tactic(auto, unfolding(crate::specs::Passes::octets_heard))]
    pub fn hear(&mut self, octets: Octets)
        ensures state { state_of self.new ≡ octets_heard self.old.terms (state_of self.old) octets }
        ensures terms { self.new.terms ≡ self.old.terms }
    {
        let Some((k, said)) = self.said_in(octets.as_slice()) else {
            return;
        };
        self.first = settle(&mut self.asked, self.first, k, said, octets);
        self.news = true;
    }

    // The first request that octets settle, and what they say of it.
    #[tactic(auto, unfolding(crate::specs::Telling::said_in))]
    fn said_in(&self, octets: &[u8]) -> Option<(usize, Said)>
        requires { IsOctets octets.now }
        ensures { result ≡ said_in self.now.terms self.now.asked.items octets.now }
    {
        let (head, body) = self.terms.report_of(octets)?;
        let starts = self.terms.starts;
        let k = first_settled(&self.asked, self.first, starts, &head, body)?;
        let said = self.asked.get(k)?.telemetry_said(starts, &head, body)?;
        Some((k, said))
    }

    /// Takes it that nothing was heard for the wait: a new round begins.
    pub fn quiet(&mut self)
        ensures state { state_of self.new ≡ pass_waited self.old.terms (state_of self.old) }
        ensures terms { self.new.terms ≡ self.old.terms }
    {
        self.at = 0;
        self.owed = LEAST;
        self.left = if self.news {
            self.terms.tries
        } else {
            self.left.saturating_sub(1)
        };
        self.news = false;
    }

    /// Takes it that nothing more will be heard.
    pub fn close(&mut self)
        ensures state { state_of self.new ≡ pass_closed (state_of self.old) }
        ensures terms { self.new.terms ≡ self.old.terms }
    {
        self.ended = true;
    }
}

//! What was told by source and request ID.

ghost use Rattle.std.specs.Prelude.{◌≡◌, map, IfOk};
ghost use Rattle.std.specs.BTreeMap.{get};
ghost use Rattle.std.specs.Map.{count_at};
ghost use Rattle.lpt_outcomes.specs.Answers.{answered_by, heard_at, untold};
ghost use Rattle.lpt_outcomes.specs.Keys.{Key, key_cmp, key_of};
ghost use Rattle.lpt_outcomes.specs.Lines.{with_key};
ghost use Rattle.lpt_outcomes.specs.Shared.{shared_in};

use crate::key::Key;
use crate::news::ReportNews;
use crate::{Asked, Outcome};
use std::alloc::{AllocError, Global};
use std::collections::BTreeMap;

// The key of each of these requests, of which nothing was told. The only error is out of memory.
pub(crate) fn untold(
    alloc: Global,
    requests: &[Asked],
) -> Result<BTreeMap<Key, Outcome>, AllocError>
    ensures { IfOk result (λ m. (k : Key) → get key_cmp m k ≡ untold requests.now k) }
{
    let mut outcomes = BTreeMap::new(alloc);
    for asked in requests {
        outcomes.insert(asked.key(), Outcome::new())?;
    }
    Ok(outcomes)
}

// Takes what a report tells, if the request that it is on is there.
pub(crate) fn hear(outcomes: &mut BTreeMap<Key, Outcome>, news: &ReportNews)
    ensures { (k : Key) → get key_cmp outcomes.new k
        ≡ heard_at k news.now (get key_cmp outcomes.old k) }
{
    if let Some(outcome) = outcomes.get_mut(&news.key()) {
        *outcome = outcome.with_news(news);
    }
}

// Tells each request what was told on it.
pub(crate) fn answer(requests: &mut [Asked], outcomes: &BTreeMap<Key, Outcome>)
    ensures { requests.new ≡ map (answered_by outcomes.now) requests.old }
{
    for asked in requests.iter_mut() {
        asked.answer(outcomes);
    }
}

// How many of these requests have each key. The only error is out of memory.
pub(crate) fn count_sharers(
    alloc: Global,
    requests: &[Asked],
) -> Result<BTreeMap<Key, u64>, AllocError>
    ensures { IfOk result (λ m. (k : Key) → count_at (get key_cmp m) k ≡ with_key requests.now k) }
{
    let mut counts = BTreeMap::new(alloc);
    for asked in requests {
        let count = sharers(&counts, asked);
        counts.insert(asked.key(), count + 1)?;
    }
    Ok(counts)
}

/// How many of these requests have the source and the request ID of another one, so that no report
/// tells which of them it is on: it is told of each. The only error is out of memory.
pub fn count_shared(alloc: Global, requests: &[Asked]) -> Result<usize, AllocError>
    ensures { IfOk result (λ n. n ≡ shared_in requests.now) }
{
    let counts = count_sharers(alloc, requests)?;
    let mut shared = 0;
    for asked in requests {
        if sharers(&counts, asked) > 1 {
            shared += 1;
        }
    }
    Ok(shared)
}

// How many of the requests that were counted have the key of this one.
pub(crate) fn sharers(counts: &BTreeMap<Key, u64>, asked: &Asked) -> u64
    ensures { result ≡ count_at (get key_cmp counts.now) (key_of asked.now) }
{
    match counts.get(&asked.key()) {
        Some(count) => *count,
        None => 0,
    }
}

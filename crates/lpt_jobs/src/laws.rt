//! What the definitions say of all queues: functions with empty bodies.

ghost use Rattle.std.specs.Prelude.{◌≡◌, ◌≢◌, ℕ, List, ◌+◌, IsSome, IsTrue};
ghost use Rattle.lpt_memory.specs.Readings.{Source};
ghost use Rattle.lpt_jobs.specs.Jobs.{Jobs, AreInOrder, job_at, next_claim, oldest_unclaimed, is_claimed, head_of, is_ready, after_push, after_claim, after_commit, without_front};

/// Jobs are claimed in the order of their numbers: a claim is of the number after the last one, and
/// no other call changes which is next.
pub fn claims_go_in_order()
    ensures claim { (q : Jobs) → AreInOrder q.jobs → IsSome (oldest_unclaimed q)
        → next_claim (after_claim q) ≡ next_claim q + 1 }
    ensures push { (q : Jobs) (message : List ℕ)
        → next_claim (after_push q message) ≡ next_claim q }
    ensures commit { (q : Jobs) (n : ℕ) (reading : Source) → IsTrue (is_claimed q n)
        → next_claim (after_commit q n reading) ≡ next_claim q }
    ensures pop { (q : Jobs) → IsTrue (is_ready (head_of q.jobs))
        → next_claim (without_front q) ≡ next_claim q }
{}

/// A claim and a commit change one job, and leave each other one as it was.
pub fn changes_one_job()
    ensures claim { (q : Jobs) (n : ℕ) → n ≢ next_claim q
        → job_at (after_claim q) n ≡ job_at q n }
    ensures commit { (q : Jobs) (n k : ℕ) (reading : Source) → IsTrue (is_claimed q n) → k ≢ n
        → job_at (after_commit q n reading) k ≡ job_at q k }
{}

//! What the definitions say of requests and reports: functions with empty bodies.

ghost use Rattle.std.specs.Prelude.{◌≡◌, ℕ, ◌<◌, ◌^◌, ◌∷◌, ◌&&◌, [], map, not, is_some, Option, IfSome};
ghost use Rattle.lpt_outcomes.specs.declared.asked.Asked.{Asked};
ghost use Rattle.lpt_outcomes.specs.Requests.{nothing_told};
ghost use Rattle.lpt_outcomes.specs.Done.{requests_answered, asks_of_execution, is_done};

/// Once all reports on a request have come that are sent on it, it is done exactly if it asks for a
/// report of its execution's start or completion and was carried out: if it failed, with whatever
/// code, or if it asks for acceptance alone, it isn't.
pub fn answered_is_done()
    ensures { (a : Asked) (code : Option ℕ) → a.request.value < 2 ^ 32
        → IfSome code (λ c. c < 2 ^ 16) → a.outcome ≡ nothing_told
        → map is_done (requests_answered a.source a.request.value a.flags code (a ∷ []))
        ≡ (not (is_some code) && asks_of_execution a.flags) ∷ [] }
{}

//! What the definitions say of all ledgers: functions with empty bodies.

ghost use Rattle.std.specs.Prelude.{◌≡◌, ◌≤◌, ℕ, IsTrue, List, Option, length};
ghost use Rattle.std.specs.FinMap as map;
ghost use Rattle.lpt_packet.specs.Names.{Name};
ghost use Rattle.lpt_ledger.specs.Marks.{Marks, all_closed, shut_mark};
ghost use Rattle.lpt_ledger.specs.States.{state_at, closed_state};
ghost use Rattle.lpt_ledger.specs.LeastFree.{least_free_in, IsLeastFree};
ghost use Rattle.lpt_ledger.specs.Runs.{ascend, closed_by, runs_of};
ghost use Rattle.lpt_ledger.specs.declared.run.NameRun.{NameRun};

/// To close all is to close each open name and to change no other.
pub fn closes_each()
    ensures marks { (m : Marks) (name : Name) → map.get (all_closed m) name
        ≡ shut_mark (map.get m name) }
    ensures states { (m : Marks) (name : Name) →
        state_at (all_closed m) name ≡ closed_state (state_at m name) }
{}

/// There is one least free name of a source, or none, and no second answer.
pub fn has_one_least_free()
    ensures exists { (m : Marks) (source : ℕ) →
        IsLeastFree m source (least_free_in m source) }
    ensures unique { (m : Marks) (source : ℕ) (a b : Option Name) →
        IsLeastFree m source a → IsLeastFree m source b → a ≡ b }
{}

/// The runs of a ledger say which names it has in use, and nothing else says it as runs that
/// ascend: to close them in an empty ledger is to close each name of the first one. There are no
/// more runs than names.
pub fn runs_tell_names()
    ensures closed { (m : Marks) → closed_by (runs_of m) ≡ all_closed m }
    ensures ascend { (m : Marks) → IsTrue (ascend (runs_of m)) }
    ensures only { (rs : List NameRun) → IsTrue (ascend rs) → runs_of (closed_by rs) ≡ rs }
    ensures few { (m : Marks) → length (runs_of m) ≤ map.len m }
{}

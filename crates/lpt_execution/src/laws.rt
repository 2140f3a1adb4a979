//! What the definitions say of all executions: functions with empty bodies.

ghost use Rattle.std.specs.Prelude.{◌≤◌, ℕ, List, length};
ghost use Rattle.lpt_execution.specs.declared.ending.Ending.{Ending};
ghost use Rattle.lpt_execution.specs.Ranges.{large_reports};
ghost use Rattle.lpt_execution.specs.Reporting.{message_reports};

/// At most one report is too long for the link: the report of data. A part has 4 octets at least,
/// and the body of a verification report 6 at most.
pub fn one_is_long()
    ensures { (p apid : ℕ) (message : List ℕ) (end : Ending) → 4 ≤ p
        → length (large_reports p (message_reports apid message end)) ≤ 1 }
{}

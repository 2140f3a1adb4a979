//! What the definitions say of reports, proved of all requests and bodies: functions with empty
//! bodies.

ghost use Rattle.std.specs.Prelude.{◌≡◌, ◌↔◌, ℕ, ◌<◌, ◌^◌, List, map, Option, Some, IfSome, All};
ghost use Rattle.std.specs.List.Sorted.{IsStrictlyIncreasing};
ghost use Rattle.lpt_packet.specs.Numbers.{IsOctets};
ghost use Rattle.lpt_pus.specs.declared.request.RequestId.{RequestId};
ghost use Rattle.lpt_verify.specs.declared.report.Report.{Report};
ghost use Rattle.lpt_verify.specs.Reports.{all_reports};
ghost use Rattle.lpt_verify.specs.Reading.{IsReport, Names, report_in};

/// What is written is read again: each report of a request is read as one that names the request
/// and, if it is one of failure, the failure code.
pub fn written_is_read()
    ensures { (request : RequestId) (flags : ℕ) (code : Option ℕ) → request.value < 2 ^ 32
        → IfSome code (λ c. c < 2 ^ 16)
        → All (Names request code) (all_reports request.value flags code) }
{}

/// A list of octets reads as a report exactly if it is one.
pub fn read_is_spelled()
    ensures { (subtype : ℕ) (body : List ℕ) (r : Report) → IsOctets body
        → (report_in subtype body ≡ Some r) ↔ IsReport subtype body r }
{}

/// A body is read in one way at most.
pub fn is_read_one_way()
    ensures { (subtype : ℕ) (body : List ℕ) (q r : Report) → IsReport subtype body q
        → IsReport subtype body r → q ≡ r }
{}

/// The message subtypes of a request's reports rise from each to the next, so that there are
/// never two of one subtype.
pub fn subtypes_rise()
    ensures { (request flags : ℕ) (code : Option ℕ)
        → IsStrictlyIncreasing (map (λ e. e.subtype) (all_reports request flags code)) }
{}

//! What the definitions say of reports, proved of all bodies: functions with empty bodies.

ghost use Rattle.std.specs.Prelude.{◌≡◌, ℕ, ◌<◌, ◌^◌, ◌++◌, if◌then◌else◌, nat_le, List, IsTrue, Some, None};
ghost use Rattle.lpt_packet.specs.Numbers.{be};
ghost use Rattle.lpt_pus.specs.declared.failure_code.FailureCode.{FailureCode};
ghost use Rattle.lpt_pus.specs.Codes.{number_of};
ghost use Rattle.lpt_verify.specs.declared.report.Report.{Report};
ghost use Rattle.lpt_verify.specs.Reading.{report_in};
ghost use Rattle.lpt_requests.specs.declared.reading_failures.RequestReport.{RequestReport};
ghost use Rattle.lpt_requests.specs.declared.notice.FailureNotice.TheVariants.{Code};
ghost use Rattle.lpt_requests.specs.Failures.{any_report_in, as_own, failure_of, fails, notice_of, success_of};

/// A report of this project's form says what it says there; and one that reports no failure is of
/// that form. This service's failure codes are known as its own.
pub fn own_reports_are_read()
    ensures read { (subtype : ℕ) (body : List ℕ) (r : Report)
        → report_in subtype body ≡ Some r → any_report_in subtype body ≡ Some (as_own subtype r) }
    ensures success { (subtype : ℕ) (body : List ℕ) (r : RequestReport)
        → any_report_in subtype body ≡ Some r → r.failure ≡ None
        → report_in subtype body ≡ Some (success_of r) }
    // In the report in which this service sends it, each failure code is known as its own: 1 and 2
    // in one of failed acceptance (2), the others in one of failed start of execution (4).
    ensures codes { (code : FailureCode)
        → notice_of (if nat_le (number_of code) 2 then 2 else 4) (number_of code)
        ≡ Code (number_of code) }
{}

/// A report of failure is read as one of its request, whatever stands behind the request ID.
pub fn failures_name_their_request()
    ensures { (subtype id : ℕ) (rest : List ℕ) → IsTrue (fails subtype) → id < 2 ^ 32
        → any_report_in subtype (be id 4 ++ rest) ≡ Some (failure_of subtype id (be id 4 ++ rest)) }
{}

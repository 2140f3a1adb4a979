//! The reports of a request.

ghost use Rattle.std.specs.Prelude.{◌≡◌, ◌≤◌, ◌≢◌, ◌↔◌, IsTrue, [], Some, None, IfOk, OnErr, option_map};
ghost use Rattle.lpt_pus.specs.Codes.{number_of};
ghost use Rattle.lpt_verify.specs.Reports.{IsFlag, asks, success, failure, reports_before, reports_after, all_reports};

use crate::{EncodedReport, Reports};
use lpt_packet::Octets;
use lpt_pus::{FailureCode, RequestId};
use std::alloc::{AllocError, Global};

// The acknowledgement flags.
const ACCEPTANCE: u8 = 1;

const START: u8 = 2;

const COMPLETION: u8 = 8;

// The message subtypes.
const ACCEPTED: u8 = 1;

const NOT_ACCEPTED: u8 = 2;

const STARTED: u8 = 3;

const NOT_STARTED: u8 = 4;

const COMPLETED: u8 = 7;

/// The reports of one request, without its data report.
///
/// `flags` are the request's acknowledgement flags, a sum of: 1 acceptance, 2 start, 4 progress
/// and 8 completion of execution. No progress is reported. `code` is why the request failed, or
/// none if it was carried out.
///
/// A report of success is sent only if its flag asks for it, one of failure always, and none
/// after it. A request that isn't known or has a malformed body has failed its acceptance; any
/// other failure is one of the start of its execution.
///
/// The only error is out of memory, for a report.
pub fn reports(
    alloc: Global,
    request: RequestId,
    flags: u8,
    code: Option<FailureCode>,
) -> Result<Reports, AllocError>
    ensures before { IfOk result (λ r. r.before.items
        ≡ reports_before request.value flags (option_map number_of code)) }
    ensures after { IfOk result (λ r. r.after.items
        ≡ reports_after request.value flags (option_map number_of code)) }

    // Memory runs out only if there is a report.
    ensures memory { OnErr result
        (all_reports request.value flags (option_map number_of code) ≢ []) }
{
    match code {
        None => success_reports(alloc, request, flags),
        Some(code) => failure_reports(alloc, request, flags, code),
    }
}

// The reports of a request that was carried out.
fn success_reports(alloc: Global, request: RequestId, flags: u8) -> Result<Reports, AllocError>
    ensures before { IfOk result (λ r. r.before.items ≡ reports_before request.value flags None) }
    ensures after { IfOk result (λ r. r.after.items ≡ reports_after request.value flags None) }
    ensures memory { OnErr result (all_reports request.value flags None ≢ []) }
{
    let mut before = Vec::new(alloc);
    let mut after = Vec::new(alloc);
    if is_asked(flags, ACCEPTANCE) {
        before.push(success(alloc, request, ACCEPTED)?)?;
    }
    if is_asked(flags, START) {
        before.push(success(alloc, request, STARTED)?)?;
    }
    if is_asked(flags, COMPLETION) {
        after.push(success(alloc, request, COMPLETED)?)?;
    }
    Ok(Reports { before, after })
}

// The reports of a request that failed.
fn failure_reports(
    alloc: Global,
    request: RequestId,
    flags: u8,
    code: FailureCode,
) -> Result<Reports, AllocError>
    ensures before { IfOk result (λ r. r.before.items
        ≡ reports_before request.value flags (Some (number_of code))) }
    ensures after { IfOk result (λ r. r.after.items ≡ []) }
{
    let mut before = Vec::new(alloc);
    if is_of_acceptance(code) {
        before.push(failure(alloc, request, NOT_ACCEPTED, code)?)?;
    } else {
        if is_asked(flags, ACCEPTANCE) {
            before.push(success(alloc, request, ACCEPTED)?)?;
        }
        before.push(failure(alloc, request, NOT_STARTED, code)?)?;
    }
    Ok(Reports {
        before,
        after: Vec::new(alloc),
    })
}

// Whether it is the acceptance that failed; otherwise it is the start of execution.
fn is_of_acceptance(code: FailureCode) -> bool
    ensures { IsTrue result ↔ (number_of code ≤ 2) }
{
    matches!(
        code,
        FailureCode::UnknownRequest | FailureCode::MalformedBody
    )
}

// Whether a sum of flags has this one.
fn is_asked(flags: u8, flag: u8) -> bool
    requires { IsFlag flag }
    ensures { result ≡ asks flags flag }
{
    flags & flag != 0
}

// The report of a success.
fn success(alloc: Global, request: RequestId, subtype: u8) -> Result<EncodedReport, AllocError>
    ensures { IfOk result (λ r. r ≡ success request.value subtype) }
{
    let body = request.value.to_be_bytes().to_vec(alloc)?;
    Ok(EncodedReport {
        subtype,
        body: Octets::from_vec(body),
    })
}

// The report of a failure.
fn failure(
    alloc: Global,
    request: RequestId,
    subtype: u8,
    code: FailureCode,
) -> Result<EncodedReport, AllocError>
    ensures { IfOk result (λ r. r ≡ failure request.value subtype (number_of code)) }
{
    let mut body = Vec::with_capacity(alloc, 6)?;
    body.extend_from_slice(&request.value.to_be_bytes())?;
    body.extend_from_slice(&code.number().to_be_bytes())?;
    Ok(EncodedReport {
        subtype,
        body: Octets::from_vec(body),
    })
}

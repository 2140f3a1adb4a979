//! The reports of an execution.

ghost use Rattle.std.specs.Prelude.{◌≡◌, ◌≢◌, [], ◌++◌, map, option_map, IfOk, OnOk, OnErr, All};
ghost use Rattle.lpt_pus.specs.Codes.{number_of};
ghost use Rattle.lpt_verify.specs.Reports.{reports_before, reports_after, all_reports};
ghost use Rattle.lpt_execution.specs.Ranges.{EndingFits, ReportFits};
ghost use Rattle.lpt_execution.specs.Reporting.{data_report, message_reports, request_source, verification, verification_kind};

use crate::{Ending, Report};
use lpt_events::TelemetryKind;
use lpt_memory::Reading;
use lpt_pus::{FailureCode, RequestId};
use lpt_verify::{EncodedReport, Reports};
use std::alloc::{AllocError, Global};

/// The source that the reports of a request go to: that of its own header, under whatever name it
/// came. 0 if the message is no telecommand for the APID, which has no reports. It takes no
/// memory.
pub fn request_source(reading: &Reading) -> u16
    ensures { result ≡ request_source reading.now.apid reading.now.message }
{
    match reading.head() {
        Some(head) => head.source,
        None => 0,
    }
}

/// The reports of a request whose execution ends so, in the order in which they are sent.
///
/// The only error is out of memory, for a report.
pub fn reports(alloc: Global, reading: &Reading, ending: Ending) -> Result<Vec<Report>, AllocError>
    ensures reports { IfOk result (λ v.
        v.items ≡ message_reports reading.now.apid reading.now.message ending) }

    // The body of each fits a packet, if that of the data report does.
    ensures fits { EndingFits ending → IfOk result (λ v. All ReportFits v.items) }

    // Memory runs out only if there is a report.
    ensures memory { OnErr result
        (message_reports reading.now.apid reading.now.message ending ≢ []) }
{
    let Some(head) = reading.head() else {
        return Ok(Vec::new(alloc));
    };
    let request = head.request();
    match ending {
        Ending::Silent => Ok(Vec::new(alloc)),
        Ending::Refused(code) => reports_around(alloc, request, head.flags, Some(code), None),
        Ending::Carried(report) => reports_around(alloc, request, head.flags, None, report),
    }
}

// The reports of a request around its report of data, if it has one.
fn reports_around(
    alloc: Global,
    request: RequestId,
    flags: u8,
    code: Option<FailureCode>,
    report: Option<Report>,
) -> Result<Vec<Report>, AllocError>
    ensures reports { IfOk result (λ v. v.items
        ≡ map verification (reports_before request.value flags (option_map number_of code))
        ++ data_report report
        ++ map verification (reports_after request.value flags (option_map number_of code))) }
    ensures memory { OnErr result
        (map verification (reports_before request.value flags (option_map number_of code))
        ++ data_report report
        ++ map verification (reports_after request.value flags (option_map number_of code)) ≢ []) }
{
    let Reports { before, after } = lpt_verify::reports(alloc, request, flags, code)?;
    let mut reports = Vec::new(alloc);
    push_verifications(&mut reports, before)?;
    if let Some(report) = report {
        reports.push(report)?;
    }
    push_verifications(&mut reports, after)?;
    Ok(reports)
}

// Adds verification reports. The only error is out of memory.
fn push_verifications(
    reports: &mut Vec<Report>,
    verifications: Vec<EncodedReport>,
) -> Result<(), AllocError>
    ensures reports { OnOk result (reports.new.items
        ≡ reports.old.items ++ map verification verifications.items) }
    ensures memory { OnErr result (verifications.items ≢ []) }
{
    for EncodedReport { subtype, body } in verifications {
        let kind = verification_kind(subtype);
        reports.push(Report { kind, body })?;
    }
    Ok(())
}

// The kind of the verification report of a message subtype.
fn verification_kind(subtype: u8) -> TelemetryKind
    ensures { result ≡ verification_kind subtype }
{
    match subtype {
        1 => TelemetryKind::Accepted,
        2 => TelemetryKind::NotAccepted,
        3 => TelemetryKind::Started,
        4 => TelemetryKind::NotStarted,
        _ => TelemetryKind::Completed,
    }
}

//! What reports say, as items that are added to a line.

ghost use Rattle.std.specs.Prelude.{◌≡◌, ◌++◌, OnOk};
ghost use Rattle.std.specs.String.{string_bytes};
ghost use Rattle.lpt_list.specs.Items.{abort_items, abort_said, code_items, items_text, report_items, report_said, telemetry_items, request_items};

use crate::Form;
use crate::areas::add_areas;
use lpt_packet::Direction;
use lpt_part::{ABORT, Reason, TRANSFER, read_abort};
use lpt_script_text::read_areas;
use lpt_verify::{Report, read_report};
use std::alloc::{AllocError, Global};

/// The service type of request verification (ECSS-E-ST-70-41C).
const VERIFICATION: u8 = 1;

// Adds what telemetry of this message type carries that is no part, if that is a report.
pub(crate) fn add_reported(
    alloc: Global,
    text: &mut String,
    form: Form,
    service: u8,
    subtype: u8,
    body: &[u8],
) -> Result<(), AllocError>
    ensures { OnOk result (string_bytes text.new
        ≡ string_bytes text.old ++ items_text form (telemetry_items service subtype body.now)) }
{
    match (service, subtype) {
        (VERIFICATION, _) => add_report(alloc, text, form, subtype, body),
        (TRANSFER, ABORT) => add_abort(text, form, body),
        _ => add_areas(
            text,
            form,
            read_areas(Direction::Down, service, subtype, body),
        ),
    }
}

// Adds the abortion report that a body is; nothing if it isn't read as one.
fn add_abort(text: &mut String, form: Form, body: &[u8]) -> Result<(), AllocError>
    ensures { OnOk result (string_bytes text.new
        ≡ string_bytes text.old ++ items_text form (abort_said body.now)) }
{
    match read_abort(body) {
        Ok((id, reason)) => add_reason(text, form, id, reason),
        Err(_) => Ok(()),
    }
}

// Adds what an abortion report says.
fn add_reason(text: &mut String, form: Form, id: u16, reason: Reason) -> Result<(), AllocError>
    ensures { OnOk result (string_bytes text.new
        ≡ string_bytes text.old ++ items_text form (abort_items (id, reason))) }
{
    let reason = reason.code();
    match form {
        Form::Text => write!(text, " abort id {id} reason {reason}"),
        Form::Json => write!(
            text,
            ",\"large_message_transaction_identifier\":{id},\"failure_reason\":{reason}"
        ),
    }
}

// Adds the verification report that a body is; nothing if it isn't read as one.
fn add_report(
    alloc: Global,
    text: &mut String,
    form: Form,
    subtype: u8,
    body: &[u8],
) -> Result<(), AllocError>
    ensures { OnOk result (string_bytes text.new
        ≡ string_bytes text.old ++ items_text form (report_said subtype body.now)) }
{
    match read_report(subtype, body) {
        Some(report) => add_outcome(alloc, text, form, &report),
        None => Ok(()),
    }
}

// Adds what a verification report says.
#[tactic(auto, using(crate::proofs::ItemLemmas::behind))]
fn add_outcome(
    alloc: Global,
    text: &mut String,
    form: Form,
    report: &Report,
) -> Result<(), AllocError>
    ensures { OnOk result (string_bytes text.new
        ≡ string_bytes text.old ++ items_text form (report_items report.now)) }
{
    let digits = hex::encode(alloc, &report.request.value.to_be_bytes())?;
    add_request(text, form, digits.as_str())?;
    add_code(text, form, report.code)
}

// Adds a request, by the digits of its identifier.
fn add_request(text: &mut String, form: Form, digits: &str) -> Result<(), AllocError>
    ensures { OnOk result (string_bytes text.new
        ≡ string_bytes text.old ++ items_text form (request_items digits.now)) }
{
    match form {
        Form::Text => write!(text, " report request {digits}"),
        Form::Json => write!(text, ",\"request_id\":\"{digits}\""),
    }
}

// Adds a failure code, if there is one.
fn add_code(text: &mut String, form: Form, code: Option<u16>) -> Result<(), AllocError>
    ensures { OnOk result (string_bytes text.new
        ≡ string_bytes text.old ++ items_text form (code_items code)) }
{
    match (form, code) {
        (_, None) => Ok(()),
        (Form::Text, Some(code)) => write!(text, " code {code}"),
        (Form::Json, Some(code)) => write!(text, ",\"failure_code\":{code}"),
    }
}

//! The line of a request.

ghost use Rattle.std.specs.Prelude.{◌≡◌, IfOk};
ghost use Rattle.std.specs.String.{string_bytes};
ghost use Rattle.lpt_list.specs.Items.{areas_said, items_text};
ghost use Rattle.lpt_list.specs.Lists.{closing};
ghost use Rattle.lpt_outcomes.specs.Lines.{asked_items, coded_said, failure_text, flag_text, line_of, nothing_text, opening, pending_text, sentence, shared_said, success_text, unasked_said, unread_text};

use crate::{Asked, FailureNotice, Outcome};
use lpt_list::{Form, print_areas};
use std::alloc::{AllocError, Global};

/// What is said of a failure code that isn't this service's own.
const FOREIGN: &str = "unknown code";

/// For so many octets a line has room from the first.
const LINE_ROOM: usize = 240;

// The line of a request whose request ID so many requests have. The only error is out of memory.
pub(crate) fn print_line(
    alloc: Global,
    form: Form,
    sharers: u64,
    asked: &Asked,
) -> Result<String, AllocError>
    ensures { IfOk result (λ t. string_bytes t ≡ line_of form sharers asked.now) }
{
    let mut text = opening(alloc, form, asked.request.value)?;
    text.push_str(asked_words(alloc, form, asked)?.as_str())?;
    text.push_str(print_areas(alloc, form, asked.areas)?.as_str())?;
    text.push_str(success(alloc, form, &asked.outcome)?.as_str())?;
    text.push_str(failure(alloc, form, asked.outcome.failure)?.as_str())?;
    text.push_str(pending(form, asked))?;
    text.push_str(shared_text(alloc, form, sharers)?.as_str())?;
    text.push_str(line_end(form))?;
    Ok(text)
}

// The front of a line: the request ID.
fn opening(alloc: Global, form: Form, id: u32) -> Result<String, AllocError>
    ensures { IfOk result (λ t. string_bytes t ≡ opening form id) }
{
    let digits = hex::encode(alloc, &id.to_be_bytes())?;
    let mut text = String::with_capacity(alloc, LINE_ROOM)?;
    match form {
        Form::Text => text.write(format_args!("request {digits}"))?,
        Form::Json => text.write(format_args!("{{\"request_id\":\"{digits}\""))?,
    }
    Ok(text)
}

// What a request asks, as its headers say.
fn asked_words(alloc: Global, form: Form, asked: &Asked) -> Result<String, AllocError>
    ensures { IfOk result (λ t. string_bytes t ≡ items_text form (asked_items asked.now)) }
{
    let (apid, count, flags) = (asked.apid, asked.count, asked.flags);
    let (service, subtype) = (asked.service, asked.subtype);
    match form {
        Form::Text => format!(in alloc;
            " apid {apid} count {count} flags {flags} service {service} subtype {subtype}"
        ),
        Form::Json => format!(in alloc;
            ",\"application_process_id\":{apid},\"packet_sequence_count\":{count},\
            \"acknowledgement_flags\":{flags},\"service_type\":{service},\
            \"message_subtype\":{subtype}"
        ),
    }
}

// Which successes were reported.
fn success(alloc: Global, form: Form, outcome: &Outcome) -> Result<String, AllocError>
    ensures { IfOk result (λ t. string_bytes t ≡ success_text form outcome.now) }
{
    let mut text = flag(alloc, form, "accepted", outcome.accepted)?;
    text.push_str(flag(alloc, form, "started", outcome.started)?.as_str())?;
    text.push_str(flag(alloc, form, "completed", outcome.completed)?.as_str())?;
    Ok(text)
}

// Whether one was.
fn flag(alloc: Global, form: Form, word: &str, is: bool) -> Result<String, AllocError>
    ensures { IfOk result (λ t. string_bytes t ≡ flag_text form word.now is) }
{
    match (form, is) {
        (Form::Text, true) => format!(in alloc; " {word}"),
        (Form::Text, false) => Ok(String::new(alloc)),
        (Form::Json, true) => format!(in alloc; ",\"{word}\":true"),
        (Form::Json, false) => format!(in alloc; ",\"{word}\":false"),
    }
}

// The failure, if one was reported.
fn failure(alloc: Global, form: Form, notice: Option<FailureNotice>) -> Result<String, AllocError>
    ensures { IfOk result (λ t. string_bytes t ≡ failure_text form notice) }
{
    match notice {
        None => Ok(String::new(alloc)),
        Some(FailureNotice::Code(code)) => coded_failure(alloc, form, code, sentence(code)),
        Some(FailureNotice::Foreign(code)) => coded_failure(alloc, form, code, FOREIGN),
        Some(FailureNotice::Unread) => uncoded_failure(alloc, form),
    }
}

// A failure with this code, which means this.
fn coded_failure(alloc: Global, form: Form, code: u16, why: &str) -> Result<String, AllocError>
    ensures { IfOk result (λ t. string_bytes t ≡ items_text form (coded_said code why.now)) }
{
    match form {
        Form::Text => format!(in alloc; " failed {code} {why}"),
        Form::Json => format!(in alloc; ",\"failure_code\":{code},\"failure\":\"{why}\""),
    }
}

// A failure whose code isn't read.
fn uncoded_failure(alloc: Global, form: Form) -> Result<String, AllocError>
    ensures { IfOk result (λ t. string_bytes t ≡ unread_text form) }
{
    match form {
        Form::Text => format!(in alloc; " failed, code not read"),
        Form::Json => format!(in alloc; ",\"failure\":\"code not read\""),
    }
}

// What a failure code says.
fn sentence(code: u16) -> &'static str
    ensures { result.now ≡ sentence code }
{
    match code {
        1 => "unknown service or subtype",
        2 => "malformed body",
        3 => "unknown memory",
        4 => "out of range",
        5 => "wrong checksum",
        6 => "reply too long",
        7 => "no free identifier",
        8 => "too many open",
        _ => FOREIGN,
    }
}

// What is open of a request that didn't fail.
fn pending(form: Form, asked: &Asked) -> &'static str
    ensures { result.now ≡ pending_text form asked.now }
{
    if asked.outcome.failure.is_some() {
        ""
    } else if !asked.is_acknowledged() {
        none_asked(form)
    } else if asked.outcome.is_told() {
        ""
    } else {
        nothing_yet(form)
    }
}

// That it asks for no report of success.
fn none_asked(form: Form) -> &'static str
    ensures { result.now ≡ items_text form unasked_said }
{
    match form {
        Form::Text => " not acknowledged",
        Form::Json => ",\"acknowledgement\":\"not acknowledged\"",
    }
}

// That nothing was reported.
fn nothing_yet(form: Form) -> &'static str
    ensures { result.now ≡ nothing_text form }
{
    match form {
        Form::Text => " nothing yet",
        Form::Json => "",
    }
}

// How many requests have this request ID, if it isn't one alone.
fn shared_text(alloc: Global, form: Form, sharers: u64) -> Result<String, AllocError>
    ensures { IfOk result (λ t. string_bytes t ≡ items_text form (shared_said sharers)) }
{
    if sharers <= 1 {
        return Ok(String::new(alloc));
    }
    match form {
        Form::Text => format!(in alloc; " shared by {sharers}"),
        Form::Json => format!(in alloc; ",\"sharers\":{sharers}"),
    }
}

// How a line ends.
fn line_end(form: Form) -> &'static str
    ensures { result.now ≡ closing form }
{
    match form {
        Form::Text => "\n",
        Form::Json => "}\n",
    }
}

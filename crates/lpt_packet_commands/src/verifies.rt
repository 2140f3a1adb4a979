//! Requests matched with the reports on them, from files or standard input to standard output.

use crate::layouts::own_or_given;
use lpt_carried::Layout;
use lpt_command_line::VerifyWords;
use lpt_io::{
    Failure, Fault, Machine, Status, Voice, finish, first_failure, name_of, opened_packets, output,
    packets_end, read_ended, status_of, tell_no_packets, tell_text, written_ended,
};
use lpt_list::Form;
use lpt_outcomes::{
    Asked, Passed, Requests, are_done, count_shared, read_reports, read_requests, write_open,
    write_outcomes,
};
use lpt_text::StreamFault;

/// Says what became of each request, by the reports on it, or writes the packets of those that are
/// open, and then says what of requests and reports was passed over. Both are read by the layouts
/// of a file if one is given, otherwise by the profile.
///
/// Errors: `Read` if a file can't be opened or read, or a capture is wrong; `Config` if the
/// layouts' file is too long; `Write`, `Memory`.
pub fn verify<R: Machine>(
    rt: &R,
    voice: Voice,
    words: &VerifyWords<'_>,
) -> Result<Status, Failure> {
    let Some(layouts) = own_or_given(rt, words.layout)? else {
        return Ok(Status::Unreadable);
    };
    let (up, down) = (&layouts.telecommands.packets, &layouts.telemetry.packets);
    let mut reports = opened_packets(rt, voice, &words.reports, None, None)?;
    let mut requests = requests_at(rt, voice, up, words.requests)?;
    let read = read_reports(rt.alloc(), down, &mut requests.asked, &mut reports);
    let heard = read_ended(rt, voice, &reports, &words.reports, read);
    drop(reports);
    let of_reports = heard?;
    if words.open {
        put_open(rt, voice, up, words.requests, &requests.asked)?;
        return told_beside(rt, words, &requests, &of_reports);
    }
    tell_requests(rt, words, &requests, &of_reports)
}

// The requests of this layout among the packets at this path.
fn requests_at<R: Machine>(
    rt: &R,
    voice: Voice,
    layout: &Layout,
    path: &str,
) -> Result<Requests, Failure> {
    let paths = [path];
    let mut source = opened_packets(rt, voice, &paths, None, None)?;
    let read = read_requests(rt.alloc(), layout, &mut source);
    let requests = read_ended(rt, voice, &source, &paths, read);
    drop(source);
    requests
}

// Tells the requests, and what was passed over, and gives whether nothing is open of them.
fn tell_requests(
    rt: &(impl Print + Eprint + AllocGlobal),
    words: &VerifyWords<'_>,
    requests: &Requests,
    of_reports: &Passed,
) -> Result<Status, Failure> {
    let form = if words.json { Form::Json } else { Form::Text };
    let mut out = output(rt)?;
    let written = write_outcomes(rt.alloc(), form, &requests.asked, &mut out);
    written_ended(rt, out, written)?;
    told_beside(rt, words, requests, of_reports)
}

// Writes the packets of those requests of this layout at this path that are open.
fn put_open<R: Machine>(
    rt: &R,
    voice: Voice,
    layout: &Layout,
    path: &str,
    asked: &[Asked],
) -> Result<(), Failure> {
    let paths = [path];
    let mut source = opened_packets(rt, voice, &paths, None, None)?;
    let mut out = output(rt)?;
    let written = write_open(rt.alloc(), layout, asked, &mut source, &mut out);
    let failure = match written {
        Ok(0) => None,
        Ok(_) => Some(read_once(rt, path)),
        Err(StreamFault::Read) => packets_end(rt, voice, &source, &paths, true),
        Err(fault) => {
            voice.clear(rt);
            Some(Failure::from(fault))
        }
    };
    drop(source);
    first_failure(finish(rt, out), failure)
}

// Why a file that can be read once alone isn't enough.
fn read_once(rt: &impl AllocGlobal, path: &str) -> Failure {
    let place = format!(in rt.alloc();
        "{path}: --open reads it twice, and the second time it had less"
    );
    Failure::at(Fault::Read, place)
}

// Tells what was passed over, and which requests no report tells apart, and gives whether nothing
// is open.
fn told_beside(
    rt: &(impl Eprint + AllocGlobal),
    words: &VerifyWords<'_>,
    requests: &Requests,
    of_reports: &Passed,
) -> Result<Status, Failure> {
    tell_among_requests(rt, words.requests, requests);
    tell_among_reports(rt, of_reports);
    let shared = count_shared(rt.alloc(), &requests.asked)?;
    if shared != 0 {
        let text = format!(in rt.alloc();
            "{shared} requests share source and ID with another (or are repeats): no report tells \
             them apart"
        );
        tell_text(rt, text);
    }
    let done = are_done(&requests.asked, &requests.passed, of_reports);
    Ok(status_of(!done || shared != 0))
}

// Tells what of the requests at this path was passed over, and if there is none at all.
fn tell_among_requests(rt: &(impl Eprint + AllocGlobal), path: &str, requests: &Requests) {
    let Passed {
        parts,
        foreign,
        damaged,
        stray,
        ..
    } = requests.passed;
    tell_no_packets(rt, "among the requests: ", damaged, stray);
    let among = "among the requests";
    if foreign != 0 {
        let packets = if foreign == 1 {
            "packet isn't read as a telecommand"
        } else {
            "packets aren't read as telecommands"
        };
        tell_text(rt, format!(in rt.alloc(); "{among}: {foreign} {packets}"));
    }
    if parts != 0 {
        let word = if parts == 1 { "part" } else { "parts" };
        let text = format!(in rt.alloc();
            "{among}: {parts} {word}: give the requests themselves, not what split wrote"
        );
        tell_text(rt, text);
    }
    if requests.asked.is_empty() {
        let name = name_of(path);
        let text = format!(in rt.alloc();
            "no telecommand was found in {name}: give what lpt request wrote"
        );
        tell_text(rt, text);
    }
}

// Tells what of the reports was passed over.
fn tell_among_reports(rt: &(impl Eprint + AllocGlobal), passed: &Passed) {
    let Passed {
        foreign,
        unread,
        damaged,
        stray,
        ..
    } = *passed;
    tell_no_packets(rt, "among the reports: ", damaged, stray);
    if foreign != 0 {
        let packets = if foreign == 1 {
            "packet isn't"
        } else {
            "packets aren't"
        };
        let text = format!(in rt.alloc();
            "among the reports: {foreign} {packets} read as telemetry"
        );
        tell_text(rt, text);
    }
    if unread != 0 {
        let reports = if unread == 1 {
            "verification report isn't"
        } else {
            "verification reports aren't"
        };
        let text = format!(in rt.alloc(); "among the reports: {unread} {reports} read");
        tell_text(rt, text);
    }
}

//! Packets carried over a link that loses, from files or standard input to standard output.

use crate::layouts::own_or_given;
use lpt_command_line::LinkWords;
use lpt_io::{Failure, Machine, Status, Voice, carried_ended, opened_packets, output, tell_text};
use lpt_lossy::{CrossingCounts, Dice, LossyEnd, LossyLink, Odds, lossy_stream};

/// Carries packets over a link that loses, and tells how many were lost, repeated and so on. Which
/// packets have a checksum is said by a file of layouts if one is given, and otherwise by the
/// profile.
///
/// Errors: `Read` if a file can't be opened or read, or a capture is wrong; `Config` if the
/// layouts' file is too long; `Write`, `Memory`.
pub fn link<R: Machine>(rt: &R, voice: Voice, words: &LinkWords<'_>) -> Result<Status, Failure> {
    let voice = voice.beside_output();
    let Some(layouts) = own_or_given(rt, words.layout)? else {
        return Ok(Status::Unreadable);
    };
    let odds = Odds {
        lose: words.odds.lose,
        repeat: words.odds.repeat,
        damage: words.odds.damage,
        headers: words.headers,
        delay: words.odds.delay,
    };
    let link = LossyLink {
        layouts,
        most_later: words.odds.delay,
    };
    let mut dice = Dice::new(odds, words.odds.seed);
    let mut source = opened_packets(rt, voice, &words.files, None, None)?;
    let mut out = output(rt)?;
    let carried = lossy_stream(rt.alloc(), &link, &mut dice, &mut source, &mut out);
    drop(dice);
    let end = carried_ended(rt, voice, &source, &words.files, out, carried);
    drop(source);
    Ok(link_status(rt, voice, end?))
}

// The status of a run that ended so, once it was told how many packets were lost and so on, and
// where no packet is.
fn link_status(rt: &(impl Eprint + AllocGlobal), voice: Voice, end: LossyEnd) -> Status {
    if voice.tells() {
        tell_counts(rt, &end.counts);
    }
    match end.stray {
        None => Status::Done,
        Some(place) => {
            let text = format!(in rt.alloc();
                "octet {place}: no packet begins here, so reading ended"
            );
            tell_text(rt, text);
            Status::Refused
        }
    }
}

// Tells how many packets were lost, repeated and so on.
fn tell_counts(rt: &(impl Eprint + AllocGlobal), counts: &CrossingCounts) {
    let CrossingCounts {
        lost,
        repeated,
        delayed,
        damaged,
        passed,
    } = *counts;
    let text = format!(in rt.alloc();
        "lost {lost}, repeated {repeated}, delayed {delayed}, damaged {damaged}, passed {passed}"
    );
    tell_text(rt, text);
}

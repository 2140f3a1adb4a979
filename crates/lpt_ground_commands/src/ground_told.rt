//! What standard error is told of a pass: of its rounds, and at its end.

use crate::ground_lines::{Became, Stretch, became_line, done_line};
use lpt_command_line::{GroundWords, Job, SourceWords};
use lpt_ground::{Pass, checks_agree};
use lpt_ground_run::{Asked, ErrandKind, Halt, Outcome, Places, RunCounts, runs_of};
use lpt_io::{Voice, tell_place, tell_text};
use std::alloc::{AllocError, Global};

/// Who tells on standard error what becomes of a pass.
#[derive(Clone, Copy)]
pub struct Teller {
    voice: Voice,
    // Whether each line is an object of JSON.
    json: bool,
}

impl Teller {
    /// One that tells so much, in lines of JSON or for a reader.
    pub fn new(voice: Voice, json: bool) -> Self {
        Teller { voice, json }
    }

    /// Tells how many requests are settled before a round.
    pub fn tell_round(
        self,
        rt: &(impl Eprint + AllocGlobal),
        settled: usize,
        of: usize,
        round: u64,
    ) {
        if !self.json {
            self.voice.tell_round(rt, settled, of, round);
        } else if self.voice.tells() && settled < of {
            let text = format!(in rt.alloc();
                "{{\"round\":{round},\"settled\":{settled},\"requests\":{of}}}"
            );
            self.tell_as_line(rt, text);
        }
    }

    /// Whether what was put and settled in each round is told.
    pub fn tells_rounds(self) -> bool {
        self.json && self.voice.tells()
    }

    /// Tells that, in these lines, unless there was no memory for them.
    pub fn tell_rounds(self, rt: &impl Eprint, lines: Result<String, AllocError>) {
        if let Ok(lines) = lines {
            let _ = rt.eprint(lines.as_str());
        }
    }

    // Tells what became of some octets, and of which file of a list they are, if they are of one.
    fn tell_became(
        self,
        rt: &(impl Eprint + AllocGlobal),
        became: Became,
        stretch: Stretch,
        file: Option<&str>,
    ) {
        let line = became_line(rt.alloc(), self.json, became, stretch, file);
        self.tell_as_line(rt, line);
    }

    // Takes away what was told of how far the pass is, if a line for a reader follows.
    fn clear(self, rt: &impl Eprint) {
        if !self.json {
            self.voice.clear(rt);
        }
    }

    /// Tells where what comes down has ended, unless it is at its own end: at which octet no packet
    /// begins, or inside which packet, and of how many octets if its header has come whole.
    pub fn tell_halt(self, rt: &(impl Eprint + AllocGlobal), halt: Option<Halt>) {
        let alloc = rt.alloc();
        let line = match (halt, self.json) {
            (Some(Halt::Stray(place)), true) => {
                format!(in alloc; "{{\"state\":\"no packet\",\"octet\":{place}}}")
            }
            (Some(Halt::Stray(place)), false) => {
                format!(in alloc; "octet {place}: no packet begins there")
            }
            (Some(Halt::Within(place, Some(len))), true) => {
                format!(in alloc; "{{\"state\":\"cut\",\"octet\":{place},\"octets\":{len}}}")
            }
            (Some(Halt::Within(place, Some(len))), false) => {
                format!(in alloc; "inside a packet of {len} octets since octet {place}")
            }
            (Some(Halt::Within(place, None)), true) => {
                format!(in alloc; "{{\"state\":\"cut\",\"octet\":{place}}}")
            }
            (Some(Halt::Within(place, None)), false) => {
                format!(in alloc; "inside a packet's header since octet {place}")
            }
            (Some(Halt::End | Halt::Closed) | None, _) => return,
        };
        self.clear(rt);
        self.tell_as_line(rt, line);
    }

    /// Tells that a pass is given up, since for so many milliseconds nothing was read of what goes
    /// up.
    pub fn tell_unread(self, rt: &(impl Eprint + AllocGlobal), millis: u128) {
        self.clear(rt);
        let line = if self.json {
            format!(in rt.alloc(); "{{\"state\":\"not read\",\"milliseconds\":{millis}}}")
        } else {
            format!(in rt.alloc(); "given up: nothing that goes up was read for {millis} ms")
        };
        self.tell_as_line(rt, line);
    }

    /// Tells how many octets were passed over, if some were.
    pub fn tell_strays(self, rt: &(impl Eprint + AllocGlobal), strays: u64) {
        if strays == 0 || !self.voice.tells() {
            return;
        }
        let octets = if strays == 1 {
            "octet that is"
        } else {
            "octets that are"
        };
        let line = if self.json {
            format!(in rt.alloc(); "{{\"state\":\"passed over\",\"octets\":{strays}}}")
        } else {
            format!(in rt.alloc(); "passed over: {strays} {octets} no packet")
        };
        self.tell_as_line(rt, line);
    }

    /// Tells that the memories are gone with what was loaded into them.
    pub fn tell_unkept(self, rt: &impl Eprint) {
        if !self.voice.tells() {
            return;
        }
        if self.json {
            let _ = rt.eprintln("{\"state\":\"not kept\"}");
        } else {
            tell_place(rt, "what was loaded isn't kept: --save or --state keeps it");
        }
    }

    /// Tells that a memory has other octets than the job loaded whose file is at this path.
    pub fn tell_unlike_job(self, rt: &(impl Eprint + AllocGlobal), path: &str) {
        if !self.json {
            let text = format!(in rt.alloc();
                "begin another job: {path} says that all octets were loaded"
            );
            tell_text(rt, text);
        }
    }

    // Tells this in a line of JSON or for a reader.
    fn tell_as_line(self, rt: &impl Eprint, text: Result<String, AllocError>) {
        if !self.json {
            tell_text(rt, text);
        } else if let Ok(text) = text {
            let _ = rt.eprintln(text.as_str());
        }
    }

    /// Tells what became of the requests of a pass at its end, by their octets and the files of
    /// these that stand in a list. An earlier run settled so many of them; so much was counted.
    pub fn tell_end(
        self,
        rt: &(impl Eprint + AllocGlobal),
        words: &GroundWords<'_>,
        (places, files): (&[Places], &[Option<String>]),
        (pass, earlier): (&Pass, usize),
        counts: RunCounts,
    ) {
        self.clear(rt);
        let mut rest = pass.requests_asked();
        let mut open = false;
        for one in places {
            let (asked, behind) = one.split(rest);
            open = self.tell_open(rt, one, file_of(files, one.area), asked) || open;
            rest = behind;
        }
        if open && !self.json {
            return tell_text(rt, next_text(rt.alloc(), words));
        }
        let many = pass.requests_asked().len();
        if self.voice.tells() || open {
            let noun = noun_of(places);
            let text = done_line(rt.alloc(), self.json, noun, (many, earlier), counts, !open);
            self.tell_as_line(rt, text);
        }
        if earlier != 0 && self.voice.tells() && !self.json && matches!(words.job, Job::Dump) {
            let answers = if many == 1 { "answer" } else { "answers" };
            let are = if earlier == 1 { "is" } else { "are" };
            let text = format!(in rt.alloc();
                "{earlier} of {many} {answers} {are} of an earlier run"
            );
            tell_text(rt, text);
        }
    }

    // Tells which of these requests weren't completed, and whether there are any.
    fn tell_open(
        self,
        rt: &(impl Eprint + AllocGlobal),
        places: &Places,
        file: Option<&str>,
        asked: &[Asked],
    ) -> bool {
        let Ok(runs) = runs_of(rt.alloc(), asked) else {
            return true;
        };
        let mut open = false;
        let mut from = 0;
        for run in &runs {
            let became = match run.outcome {
                Outcome::Done => None,
                Outcome::Failed(notice) => Some(Became::Failed(notice)),
                _ => Some(Became::Open),
            };
            if let Some(became) = became {
                open = true;
                self.tell_became(rt, became, stretch_of(places, from, run.count), file);
            }
            from = run.count.saturating_add(from);
        }
        open
    }

    /// Whether the checksums that the reports of checks hold are those of this content. If they
    /// aren't, it is told of which octets.
    pub fn compare_checks(
        self,
        rt: &(impl Eprint + AllocGlobal),
        places: &Places,
        asked: &[Asked],
        content: &[u8],
    ) -> bool {
        if checks_agree(asked, content) {
            return true;
        }
        let mut rest = content;
        let mut from = 0;
        for one in asked {
            let (front, behind) = rest.split_at(one.awaits.checked_len().min(rest.len()));
            if !one.fate.holds_checksum(front) {
                let stretch = behind_of(places, from, front.len());
                self.tell_became(rt, Became::Unlike, stretch, None);
            }
            from = front.len().saturating_add(from);
            rest = behind;
        }
        false
    }

    /// Whether these octets of a memory are this content. If they aren't, it is told from which
    /// one on.
    pub fn compare_octets(
        self,
        rt: &(impl Eprint + AllocGlobal),
        places: &Places,
        content: &[u8],
        octets: &[u8],
    ) -> bool {
        let is_unlike = |pair: (&u8, &u8)| pair.0 != pair.1;
        let Some(first) = content.iter().zip(octets).position(is_unlike) else {
            return content.len() == octets.len();
        };
        let behind = content.len().saturating_sub(first);
        let stretch = behind_of(places, first, behind);
        self.tell_became(rt, Became::UnlikeFrom, stretch, None);
        false
    }
}

// The path of the file of the area of this number, if it stands in a list.
fn file_of(files: &[Option<String>], area: usize) -> Option<&str> {
    match files.get(area) {
        Some(Some(file)) => Some(file.as_str()),
        _ => None,
    }
}

// The octets that so many requests are of, behind so many.
fn stretch_of(places: &Places, from: u64, count: u64) -> Stretch {
    let each = u64::from(places.each);
    let front = from.saturating_mul(each);
    let octets = count.saturating_mul(each);
    Stretch {
        memory: places.memory,
        address: u64::from(places.address).saturating_add(front),
        octets: octets.min(u64::from(places.len).saturating_sub(front)),
    }
}

// So many octets behind so many others.
fn behind_of(places: &Places, from: usize, count: usize) -> Stretch {
    Stretch {
        memory: places.memory,
        address: u64::from(places.address).saturating_add(from as u64),
        octets: count as u64,
    }
}

/// What a pass is of, in words. The only error is out of memory.
pub fn title_of(
    alloc: Global,
    words: &GroundWords<'_>,
    source: u16,
    places: &[Places],
) -> Result<String, AllocError> {
    let noun = noun_of(places);
    let mut title = format!(in alloc; "{noun}")?;
    let mut last = None;
    for one in places {
        let (memory, address, len) = (one.memory, one.address, one.len);
        if last != Some(memory) {
            title.write(format_args!(" memory {memory}"))?;
        }
        last = Some(memory);
        title.write(format_args!(" address {address} octets {len}"))?;
    }
    let count = words.count;
    title.write(format_args!(" source {source} count {count}"))?;
    Ok(title)
}

// What the requests are called that are of these octets: reads, if some are dumps and some checks.
fn noun_of(places: &[Places]) -> &'static str {
    let kind = places.first().map(|one| one.kind);
    if places.iter().any(|one| Some(one.kind) != kind) {
        return "read";
    }
    match kind {
        Some(ErrandKind::Load) => "load",
        Some(ErrandKind::Dump) => "dump",
        _ => "check",
    }
}

// How it may go on.
fn next_text(alloc: Global, words: &GroundWords<'_>) -> Result<String, AllocError> {
    match (words.kept, words.source) {
        (None, SourceWords::Given(_)) => {
            format!(in alloc; "the next pass needs another --source")
        }
        (None, SourceWords::Next(_)) => format!(in alloc; "the same command begins another pass"),
        (Some(path), SourceWords::Given(_)) => {
            format!(in alloc; "the same command with another --source goes on from {path}")
        }
        (Some(path), SourceWords::Next(_)) => {
            format!(in alloc; "the same command goes on from {path}")
        }
    }
}

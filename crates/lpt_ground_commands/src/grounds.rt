//! Ground's end of a pass that is carried to its end: requests go up, and what comes down on
//! standard input says what became of them.

ghost use Rattle.lpt_events.specs.Configs.{IsConfig};

use crate::comparing::{compare_all, write_dumps};
use crate::errands::{Errand, errand_of, overlap_of};
use crate::ground_notes::GroundNotes;
use crate::ground_puts::{Noted, Puts};
use crate::ground_sources::source_of;
use crate::ground_told::Teller;
use crate::ground_wires::{
    Ears, OUTPUT, Wire, close, hear, hear_source, is_late, limit_of, uplink_wire,
};
use crate::job_files::{JobFront, job_begun, kept_job, sources_of};
use crate::outputs::{check_places, files_used};
use crate::pieces::{Piece, pieces_of};
use crate::uplinks::LONGEST_LOAD;
use lpt_command_line::{GroundWords, Job, SettingWords};
use lpt_events::Config;
use lpt_ground::{End, Pass};
use lpt_ground_run::{Fate, Halt, Places, PlanFault, carry_pass, carry_uplink};
use lpt_io::{
    EndMachine, Failure, Fault, PlainMachine, Status, Voice, Watched, config_of, lock_file,
    status_of, tell_text, used_twice, word_refused,
};
use lpt_text::{FromStd, StreamFault};
use std::io::{Read, Write};
use std::sync::Wait;
use std::thread::Threads;
use std::time::Clock;

/// Carries what is asked of a memory to its end, as the process of this number.
///
/// Errors: `Config` if the configuration is refused; `Read` if a file or standard input can't be
/// read, or the job's file is another job's; `Write` if the requests or a file can't be written,
/// and before anything is sent if there is no place for a file; `Memory`.
pub fn ground<'w, R: EndMachine, T: Threads + Wait + Clock + Copy + Drop + Send + 'static>(
    rt: &R,
    threads: &T,
    process: u32,
    voice: Voice,
    settings: &SettingWords<'w>,
    words: &GroundWords<'w>,
) -> Result<Status, Failure> {
    let config = config_of(rt, settings)?;
    let files = files_used(rt.alloc(), settings, words, None)?;
    if let Some(fault) = used_twice(rt, &files) {
        return Ok(word_refused(rt, rt.alloc(), &fault));
    }
    check_places(rt, words)?;
    let Some(pieces) = pieces_of(rt, words, files)? else {
        return Ok(Status::Unreadable);
    };
    let lock = job_lock(rt, process, words)?;
    let Some(ready) = ready_of(rt, process, &config, words, pieces)? else {
        return Ok(Status::Refused);
    };
    let ended = carry_ready(rt, threads, voice, words, ready);
    drop(lock);
    ended
}

/// The lock of the job's file, if there is one.
///
/// Errors: `Write` if another process holds it, or it can't be had.
pub fn job_lock<R: EndMachine>(
    rt: &R,
    process: u32,
    words: &GroundWords<'_>,
) -> Result<Option<R::File>, Failure> {
    match words.kept {
        None => Ok(None),
        Some(path) => Ok(Some(lock_file(rt, process, path)?)),
    }
}

/// What is ready to be carried out: the errand, and what is kept in its job's file.
#[derive(Drop)]
pub struct Ready {
    /// The errand.
    pub errand: Errand,
    /// What is kept, if there is a job's file.
    pub job: Option<JobFront>,
}

/// What these words ask to be carried out of these areas. None if it can't be, and why was told.
///
/// Errors: `Read` if a file can't be read, or the job's is another job's; `Config` if an earlier
/// run of the job asked under the run's source; `Write` if that source can't be noted; `Memory`.
pub fn ready_of(
    rt: &impl EndMachine,
    process: u32,
    config: &Config,
    words: &GroundWords<'_>,
    pieces: Vec<Piece>,
) -> Result<Option<Ready>, Failure>
    requires { IsConfig config.now }
{
    let job = kept_job(rt, words)?;
    let Some(source) = source_of(rt, process, words)? else {
        return Ok(None);
    };
    let sources = sources_of(&job, source);
    let mut errand = match errand_of(rt.alloc(), config, words, sources, pieces) {
        Ok(errand) => errand,
        Err(PlanFault::Memory) => return Err(Failure::from(Fault::Memory)),
        Err(fault) => {
            tell_fault(rt, words, fault);
            return Ok(None);
        }
    };
    if let (Job::Load { .. }, Some((one, other))) = (words.job, overlap_of(&errand.places)) {
        let (one, other) = (one.address, other.address);
        let text = format!(in rt.alloc(); "the areas at {one} and at {other} overlap");
        tell_text(rt, text);
        return Ok(None);
    }
    let job = job_begun(rt, words, sources, job, &mut errand)?;
    Ok(Some(Ready { errand, job }))
}

// Why what is asked can't be carried out.
fn tell_fault(rt: &(impl Eprint + AllocGlobal), words: &GroundWords<'_>, fault: PlanFault) {
    let text = match fault {
        PlanFault::TooLong if words.large.is_some() => {
            format!(in rt.alloc(); "one step loads no more than {LONGEST_LOAD} octets")
        }
        PlanFault::TooMany(many) => format!(in rt.alloc();
            "{many} requests are more than a pass has, 16384: give a greater --part-size"
        ),
        PlanFault::Narrow => format!(in rt.alloc();
            "a dump's report is longer than a packet of these parts: give a greater --part-size"
        ),
        PlanFault::NarrowCheck => format!(in rt.alloc();
            "a check's report is longer than a packet of these parts: give --part-size 6 or more"
        ),
        fault => format!(in rt.alloc(); "{fault}"),
    };
    tell_text(rt, text);
}

// Carries out what is ready, and keeps what is completed, if that is asked for.
fn carry_ready<R: EndMachine, T: Threads + Wait + Clock + Copy + Drop + Send + 'static>(
    rt: &R,
    threads: &T,
    voice: Voice,
    words: &GroundWords<'_>,
    ready: Ready,
) -> Result<Status, Failure> {
    let Ready { mut errand, job } = ready;
    let notes = GroundNotes::begin(rt, Teller::new(voice, words.json), job);
    let terms = errand.first.terms();
    let mut ears = hear(rt, threads, errand.cutting, words.wait, terms, notes)?;
    let out = uplink_wire(rt, threads, words)?;
    let name = words.up.unwrap_or(OUTPUT);
    let ended = put_over(rt, &mut ears, words, &mut errand, out, name);
    drop(ears);
    drop(errand);
    ended
}

/// Carries out what is ready: hears what the first of these reads, and writes to the second, which
/// has this name and is closed before what still comes is heard.
///
/// Errors: as of `ground`.
pub fn carry_over<R, T, I, W>(
    rt: &R,
    threads: &T,
    voice: Voice,
    words: &GroundWords<'_>,
    ready: Ready,
    (from, to, name): (I, W, &str),
) -> Result<Status, Failure>
where
    R: PlainMachine,
    T: Threads + Wait + Clock + Copy + Drop + Send + 'static,
    I: Read + Drop + Send + 'static,
    W: Write + Drop,
{
    let Ready { mut errand, job } = ready;
    let notes = GroundNotes::begin(rt, Teller::new(voice, words.json), job);
    let terms = errand.first.terms();
    let source = FromStd::new(from);
    let mut ears = hear_source(
        rt,
        threads,
        source,
        errand.cutting,
        words.wait,
        terms,
        notes,
    )?;
    let out = FromStd::new(Watched::new(to));
    let ended = put_over(rt, &mut ears, words, &mut errand, out, name);
    drop(ears);
    drop(errand);
    ended
}

// Carries an errand out over what has this name, which is closed if it can be, before what comes
// is heard on.
//
// If nothing of it is read for too long, the errand is given up. Errors: as of `ground`.
fn put_over<R: PlainMachine, T: Wait + Clock + Drop, W: Write + Drop>(
    rt: &R,
    ears: &mut Ears<R, T>,
    words: &GroundWords<'_>,
    errand: &mut Errand,
    out: Wire<W>,
    name: &str,
) -> Result<Status, Failure> {
    let teller = ears.notes().teller;
    let mut out = Noted::new(rt.alloc(), out, teller.tells_rounds());
    let ended = carry_all(rt, ears, words, errand, &mut out);
    let Noted { out, puts: _ } = out;
    let closed = close(rt, out, name);
    ears.hear_out();
    let strays = ears.strays();
    teller.tell_strays(rt, strays);
    match closed {
        Ok(()) => ended,
        Err(failure) => {
            drop(ended);
            Err(failure)
        }
    }
}

// Carries an errand out, and tells what became of it.
fn carry_all<R: PlainMachine, T: Wait + Clock + Drop, W: Write + Drop>(
    rt: &R,
    ears: &mut Ears<R, T>,
    words: &GroundWords<'_>,
    errand: &mut Errand,
    out: &mut Noted<Wire<W>>,
) -> Result<Status, Failure> {
    let goes_on = ears.notes().goes_on;
    errand.look_again(goes_on);
    out.puts.begin(errand.first.requests_asked());
    let ended = match &mut errand.uplink {
        Some(uplink) => carry_uplink(rt.alloc(), uplink, &mut errand.first, ears, out),
        None => carry_pass(&mut errand.first, ears, out),
    };
    let of_first = (&errand.first, errand.earlier);
    let late = is_late(&out.out);
    tell(
        rt,
        ears,
        words,
        (errand.places.as_slice(), errand.files.as_slice()),
        of_first,
        late,
        &mut out.puts,
    );
    if !is_done(rt, ears, ended, late)? {
        return Ok(Status::Refused);
    }
    match words.job {
        Job::Load { .. } => verify_load(rt, ears, words, errand, out),
        Job::Dump => write_dumps(rt, words, errand),
        Job::Check => {
            let alike = compare_checked(rt, ears.notes().teller, errand)?;
            Ok(status_of(!alike))
        }
    }
}

// Whether the octets that were checked are those of the files.
fn compare_checked<R: PlainMachine>(
    rt: &R,
    teller: Teller,
    errand: &Errand,
) -> Result<bool, Failure> {
    compare_all(
        rt,
        teller,
        errand,
        &errand.places,
        errand.first.requests_asked(),
    )
}

// Reads what was loaded, if that is asked for or the job goes on, and compares it.
fn verify_load<R: PlainMachine, T: Wait + Clock + Drop, W: Write + Drop>(
    rt: &R,
    ears: &mut Ears<R, T>,
    words: &GroundWords<'_>,
    errand: &mut Errand,
    out: &mut Noted<Wire<W>>,
) -> Result<Status, Failure> {
    let Some((places, mut second)) = errand.second.take() else {
        return Ok(Status::Done);
    };
    ears.notes().job = None;
    out.puts.begin(second.requests_asked());
    ears.hear_under(second.terms());
    let ended = carry_pass(&mut second, ears, out);
    let of = (places.as_slice(), errand.files.as_slice());
    let late = is_late(&out.out);
    tell(rt, ears, words, of, (&second, 0), late, &mut out.puts);
    if !is_done(rt, ears, ended, late)? {
        return Ok(Status::Refused);
    }
    let teller = ears.notes().teller;
    let alike = compare_all(rt, teller, errand, &places, second.requests_asked())?;
    if let (false, Some(path)) = (alike, words.kept) {
        teller.tell_unlike_job(rt, path);
    }
    Ok(status_of(!alike))
}

// Tells what became of the requests of a pass, by their octets and the files of these. An earlier
// run settled so many; in this it was put, and whether nothing of that was read for too long.
fn tell<R: PlainMachine, T: Wait + Clock + Drop>(
    rt: &R,
    ears: &mut Ears<R, T>,
    words: &GroundWords<'_>,
    (places, files): (&[Places], &[Option<String>]),
    (pass, earlier): (&Pass, usize),
    late: bool,
    puts: &mut Puts,
) {
    let counts = ears.counts();
    let halt = stand_of(ears, pass);
    let teller = ears.notes().teller;
    if let Some(rounds) = &mut ears.notes().rounds {
        teller.tell_rounds(rt, rounds.take_lines(puts));
    }
    teller.tell_halt(rt, halt);
    if late {
        teller.tell_unread(rt, limit_of(words).as_millis());
    }
    teller.tell_end(rt, words, (places, files), (pass, earlier), counts);
}

// Where what comes down has ended, or, if a request still waits, inside which packet it stands.
fn stand_of<R: PlainMachine, T: Wait + Clock + Drop>(
    ears: &Ears<R, T>,
    pass: &Pass,
) -> Option<Halt> {
    let asked = pass.requests_asked();
    match ears.halt() {
        None if asked.iter().any(|one| matches!(one.fate, Fate::Waiting)) => ears.within(),
        halt => halt,
    }
}

// Whether a pass that ended so is done: it isn't if it was given up since it was late.
//
// Errors: why it couldn't go on.
fn is_done<R: PlainMachine, T: Wait + Clock + Drop>(
    rt: &R,
    ears: &mut Ears<R, T>,
    ended: Result<End, StreamFault>,
    late: bool,
) -> Result<bool, Failure> {
    match ended {
        Ok(end) => Ok(end == End::Done),
        Err(fault) => match (ears.notes().failure.take(), fault) {
            (Some(failure), _) => Err(failure),
            (None, _) if late => Ok(false),
            (None, StreamFault::Read) => {
                let place = format!(in rt.alloc(); "standard input: a read failed");
                Err(Failure::at(Fault::Read, place))
            }
            (None, fault) => Err(Failure::from(fault)),
        },
    }
}

//! A pass in one process: ground, a spacecraft, and two links that lose packets between them.

ghost use Rattle.lpt_events.specs.Configs.{IsConfig};

use lpt_command_line::{Job, OddsWords, PassWords, SettingWords, UNKEPT};
use lpt_events::Config;
use lpt_ground_commands::{
    Errand, ErrandKind, Piece, Places, Ready, Teller, carry_over, check_places, files_used,
    job_lock, limit_of, pieces_of, ready_of,
};
use lpt_ground_run::{Asked, Fate};
use lpt_io::{
    EndMachine, Failure, Fault, PlainMachine, Status, Voice, Watched, config_of, used_twice,
    word_refused,
};
use lpt_lossy::{Dice, Layouts, LossyLink, Odds, lossy_stream};
use lpt_spacecraft_commands::{
    Begun, PipeReader, PipeWriter, Unread, Wires, begun_craft, pipe, serve, short_pipe,
};
use lpt_text::{FromStd, StreamFault};
use std::alloc::{AllocError, Global};
use std::sync::Wait;
use std::thread::{self, JoinHandle, Threads};
use std::time::{Clock, Duration};

/// Carries what is asked of a memory to its end, over two links that lose packets and a spacecraft,
/// as the process of this number.
///
/// Errors: as of `ground` and of `spacecraft`; the spacecraft's before ground's.
pub fn pass<'w, R, T>(
    rt: &R,
    threads: &T,
    process: u32,
    voice: Voice,
    settings: &SettingWords<'w>,
    words: &PassWords<'w>,
) -> Result<Status, Failure>
where
    R: EndMachine + Sync,
    T: Threads + Wait + Clock + Copy + Drop + Send + Sync + 'static,
{
    // The pass's own source is none of the spacecraft's: its state goes on from pass to pass.
    let settings = SettingWords {
        source: None,
        ..*settings
    };
    let config = config_of(rt, &settings)?;
    let files = files_used(rt.alloc(), &settings, &words.ground, Some(&words.craft))?;
    if let Some(fault) = used_twice(rt, &files) {
        return Ok(word_refused(rt, rt.alloc(), &fault));
    }
    check_places(rt, &words.ground)?;
    let Some(pieces) = pieces_of(rt, &words.ground, files)? else {
        return Ok(Status::Unreadable);
    };
    let kept = is_kept(words, &pieces);
    if !kept && words.ground.kept.is_some() {
        return Ok(word_refused(rt, rt.alloc(), &UNKEPT));
    }
    let lock = job_lock(rt, process, &words.ground)?;
    let (craft, locks) = begun_craft(rt, process, &settings, &words.craft)?;
    let Some(ready) = ready_of(rt, process, &config, &words.ground, pieces)? else {
        return Ok(Status::Refused);
    };
    let ended = fly(rt, threads, voice, words, craft, ready);
    drop(locks);
    drop(lock);
    let status = ended?;
    if !kept {
        Teller::new(voice, words.ground.json).tell_unkept(rt);
    }
    Ok(status)
}

// Whether what these areas load outlasts the process. If the job's file does and this doesn't,
// another process would go on from that with a spacecraft that has forgotten it.
fn is_kept(words: &PassWords<'_>, pieces: &[Piece]) -> bool {
    let craft = &words.craft;
    if craft.state.is_some() || !matches!(words.ground.job, Job::Load { .. }) {
        return true;
    }
    for piece in pieces {
        let memory = piece.memory;
        if !craft.save || !craft.memories.iter().any(|(id, _)| *id == memory) {
            return false;
        }
    }
    true
}

// The first area of which the job's file says that octets were loaded, and the spacecraft has
// others there.
fn lost_of(errand: &Errand, craft: &Begun) -> Option<Places> {
    let mut rest = errand.first.requests_asked();
    for places in &errand.places {
        let (asked, behind) = places.split(rest);
        let held = craft.content(places.memory).unwrap_or(&[]);
        let held = held.get(places.address as usize..).unwrap_or(&[]);
        let is_load = matches!(places.kind, ErrandKind::Load);
        if is_load && !stands(places, asked, errand.content(places.area), held) {
            return Some(*places);
        }
        rest = behind;
    }
    None
}

// Whether a memory that has these octets from the area's first on has what was loaded of its
// content.
fn stands(places: &Places, asked: &[Asked], content: &[u8], held: &[u8]) -> bool {
    let each = usize::from(places.each.max(1));
    let (mut content, mut held) = (content, held);
    for one in asked {
        let (piece, behind) = content.split_at(each.min(content.len()));
        if matches!(one.fate, Fate::Done(_)) && !held.starts_with(piece) {
            return false;
        }
        content = behind;
        held = held.get(piece.len()..).unwrap_or(&[]);
    }
    true
}

// That the spacecraft has other octets there than the job's file says.
fn memory_lost(rt: &impl AllocGlobal, path: &str, places: &Places) -> Failure {
    let (memory, address) = (places.memory, places.address);
    let place = format!(in rt.alloc();
        "{path}: memory {memory} doesn't have what was loaded from {address} on: give the state \
         or the memories that this job was run with, or begin another job"
    );
    Failure::at(Fault::Read, place)
}

// The pipes from ground to the link up, from that to the spacecraft, from there to the link down,
// and back to ground.
#[derive(Drop)]
struct Pipes<T: Wait + Drop> {
    ground_up: (PipeWriter<T>, PipeReader<T>),
    craft_up: (PipeWriter<T>, PipeReader<T>),
    craft_down: (PipeWriter<T>, PipeReader<T>),
    ground_down: (PipeWriter<T>, PipeReader<T>),
}

// New pipes. Once ground has ended, what still comes down is dropped; once the spacecraft has, what
// goes up fails. What goes up waits for the spacecraft, for so long at most, so that repeats don't
// pile up if its disk is slow; what comes down never waits, so that nobody waits for ever.
fn new_pipes<T: Wait + Copy + Drop>(
    alloc: Global,
    waits: &T,
    limit: Duration,
) -> Result<Pipes<T>, AllocError> {
    Ok(Pipes {
        ground_up: short_pipe(alloc, waits, Some(limit))?,
        craft_up: short_pipe(alloc, waits, None)?,
        craft_down: pipe(alloc, waits, Unread::Dropped)?,
        ground_down: pipe(alloc, waits, Unread::Dropped)?,
    })
}

// Carries out what is ready with this spacecraft, from the job's file on, if there is one: with a
// thread for each link and for the spacecraft.
fn fly<R, T>(
    rt: &R,
    threads: &T,
    voice: Voice,
    words: &PassWords<'_>,
    begun: Begun,
    ready: Ready,
) -> Result<Status, Failure>
where
    R: PlainMachine + Sync,
    T: Threads + Wait + Clock + Copy + Drop + Send + Sync + 'static,
{
    if let (Some(path), Some(lost)) = (words.ground.kept, lost_of(&ready.errand, &begun)) {
        return Err(memory_lost(rt, path, &lost));
    }
    let pipes = new_pipes(rt.alloc(), threads, limit_of(&words.ground))?;
    let Pipes {
        ground_up,
        craft_up,
        craft_down,
        ground_down,
    } = pipes;
    let (up, from_ground) = ground_up;
    let (to_craft, at_craft) = craft_up;
    let (from_craft, at_link) = craft_down;
    let (to_ground, down) = ground_down;
    let (alloc, odds) = (rt.alloc(), words.odds);
    let craft = &words.craft;
    thread::scope(
        thread::scope_env(),
        threads,
        move |scope| -> Result<Status, Failure> {
            let wires: Wires<T, PipeReader<T>> = Wires::Pipes(at_craft, from_craft);
            let link_up = scope.spawn(move || carry_link(alloc, odds, 0, from_ground, to_craft));
            let craft = scope.spawn(move || serve(rt, threads, begun, craft, wires));
            let link_down = scope.spawn(move || carry_link(alloc, odds, 1, at_link, to_ground));
            let (Ok(link_up), Ok(craft), Ok(link_down)) = (link_up, craft, link_down) else {
                let place = format!(in rt.alloc(); "no thread could be started");
                return Err(Failure::at(Fault::Read, place));
            };
            let wires = (down, up, "the link up");
            let ended = carry_over(rt, threads, voice, &words.ground, ready, wires);
            all_ended(threads, ended, craft, [link_up, link_down])
        },
    )
}

// Carries packets over a link, whose seed is so much more than the one that is given.
fn carry_link<T: Wait + Clock + Drop>(
    alloc: Global,
    words: OddsWords,
    way: u64,
    from: PipeReader<T>,
    to: PipeWriter<T>,
) -> Result<(), StreamFault> {
    let odds = Odds {
        lose: words.lose,
        repeat: words.repeat,
        damage: words.damage,
        headers: 0,
        delay: words.delay,
    };
    let link = LossyLink {
        layouts: Layouts::own(),
        most_later: words.delay,
    };
    let mut dice = Dice::new(odds, words.seed.wrapping_add(way));
    let mut source = FromStd::new(from);
    let mut out = FromStd::new(Watched::new(to));
    let carried = lossy_stream(alloc, &link, &mut dice, &mut source, &mut out);
    drop(source);
    drop(out);
    carried?;
    Ok(())
}

// How it ended, once all threads have. What the spacecraft fails for comes first: then nobody reads
// what is written to it.
fn all_ended<T: Threads>(
    threads: &T,
    ground: Result<Status, Failure>,
    craft: JoinHandle<Result<Status, Failure>>,
    links: [JoinHandle<Result<(), StreamFault>>; 2],
) -> Result<Status, Failure> {
    let [link_up, link_down] = links;
    let link_up = link_up.join(threads);
    let craft = craft.join(threads);
    let link_down = link_down.join(threads);
    if let Err(failure) = craft {
        drop(ground);
        return Err(failure);
    }
    let status = ground?;
    link_up?;
    link_down?;
    Ok(status)
}

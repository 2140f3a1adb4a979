//! What a pass is of: its requests, and the content that they are of.

ghost use Rattle.lpt_events.specs.Configs.{IsConfig};

use crate::pieces::Piece;
use crate::uplinks::{LONGEST_LOAD, uplink_in};
use lpt_command_line::{AckFlags, GroundWords, Job, longest_on_link};
use lpt_events::Config;
use lpt_ground::{MOST, Pass, Terms};
use lpt_ground_run::{
    Area, Cutting, ErrandKind, Heads, Places, PlanFault, Uplink, check_each, done_count, dump_each,
    plan_places, some_done,
};
use std::alloc::Global;

/// The last sequence count.
const LAST_COUNT: u16 = 16_383;

/// The acknowledgement flags of reports of start and of completion.
const START: u8 = 2;

const COMPLETION: u8 = 8;

/// Under which sources a run asks.
#[derive(Clone, Copy)]
pub struct Sources {
    /// The job's own: loads have it in each run of the job.
    pub first: u16,
    /// The run's own: what it reads is asked under this one.
    pub own: u16,
    /// Whether the job goes on from an earlier run.
    pub goes_on: bool,
}

/// What is carried to its end.
#[derive(Drop)]
pub struct Errand {
    /// Which octets the first pass is of, area by area.
    pub places: Vec<Places>,
    /// How what comes down is cut.
    pub cutting: Cutting,
    /// The first pass.
    pub first: Pass,
    /// How its one request goes up, if that goes as a large message.
    pub uplink: Option<Uplink>,
    /// What is read once it is loaded.
    pub second: Option<(Vec<Places>, Pass)>,
    // The same of a job that goes on.
    again: Option<(Vec<Places>, Pass)>,
    /// The path of each area's file, if that stands in a list.
    pub files: Vec<Option<String>>,
    /// The first pass asked under the run's own source, if a job of dumps or of checks goes on.
    pub anew: Option<Pass>,
    /// How many of the first pass's requests an earlier run settled.
    pub earlier: usize,
    // What is done.
    job: Job,
    // The content that is loaded or checked, area by area.
    areas: Vec<Area>,
}

impl Errand {
    /// The content of the area of this number from 0 on that is loaded or checked.
    pub fn content(&self, number: usize) -> &[u8] {
        match self.areas.get(number) {
            Some(area) => area.octets.as_slice(),
            None => &[],
        }
    }

    /// Whether the packets that settle its requests are kept for the job's next run: those of a
    /// check aren't, since a check says what the memory has now.
    pub fn keeps_answers(&self) -> bool {
        !matches!(self.job, Job::Check)
    }

    /// Whether something is still asked under the run's own source, if the job goes on: all but a
    /// dump that has come read the memory.
    pub fn asks(&self) -> bool {
        let asked = self.first.requests_asked();
        !matches!(self.job, Job::Dump) || done_count(asked) < asked.len()
    }

    /// If the job goes on from an earlier run, or some loads were completed in one, all octets are
    /// read behind the loads: the spacecraft may have forgotten them since, and a report that
    /// settles a load may be one on what the earlier run sent.
    pub fn look_again(&mut self, goes_on: bool) {
        if goes_on || some_done(self.first.requests_asked()) {
            if let Some(again) = self.again.take() {
                self.second = Some(again);
            }
        }
    }
}

/// What these words ask to be carried to its end under these sources, of these areas.
///
/// Errors: as of `plan_loads`, `dump_each` and `check_each`.
pub fn errand_of(
    alloc: Global,
    config: &Config,
    words: &GroundWords<'_>,
    sources: Sources,
    pieces: Vec<Piece>,
) -> Result<Errand, PlanFault>
    requires { IsConfig config.now }
{
    let heads = Heads {
        apid: config.apid,
        source: sources.first,
        count: words.count.min(LAST_COUNT),
        flags: flags_of(words.job).ok_or(PlanFault::Memory)?,
    };
    let part = u16::try_from(config.part_size).unwrap_or(u16::MAX);
    let places = all_places(alloc, words, part, &pieces)?;
    let verified = places_read(alloc, words, part, &places, &pieces, false)?;
    let looked_at = places_read(alloc, words, part, &places, &pieces, words.kept.is_some())?;
    let (areas, files) = contents_of(alloc, pieces)?;
    let asked = plan_places(alloc, &heads, &places, &areas)?;
    let own = heads_under(&heads, sources.own);
    let second = reading(alloc, &own, words, verified, asked.len())?;
    let again = reading(alloc, &own, words, looked_at, asked.len())?;
    let anew = asked_anew(alloc, &own, words, sources, &places)?;
    let uplink = uplink_in(alloc, config, words, &heads, &asked)?;
    let first = Pass::new(terms_of(&heads, tries_of(words, uplink.is_some())), asked);
    Ok(Errand {
        places,
        cutting: Cutting {
            longest: longest_on_link(words.longest, config.part_size),
            resumes: words.resync,
        },
        first,
        uplink,
        second,
        again,
        files,
        anew,
        earlier: 0,
        job: words.job,
        areas,
    })
}

// The same heads under this source.
fn heads_under(heads: &Heads, source: u16) -> Heads {
    Heads {
        apid: heads.apid,
        source,
        count: heads.count,
        flags: heads.flags,
    }
}

// The pass of these octets under these heads, if a job of dumps or of checks goes on.
fn asked_anew(
    alloc: Global,
    heads: &Heads,
    words: &GroundWords<'_>,
    sources: Sources,
    places: &[Places],
) -> Result<Option<Pass>, PlanFault> {
    if !sources.goes_on || matches!(words.job, Job::Load { .. }) {
        return Ok(None);
    }
    let asked = plan_places(alloc, heads, places, &[])?;
    Ok(Some(Pass::new(terms_of(heads, words.tries), asked)))
}

/// The first two areas of these that share an octet.
pub fn overlap_of(places: &[Places]) -> Option<(Places, Places)> {
    for (at, one) in places.iter().enumerate() {
        for other in places.iter().skip(at.saturating_add(1)) {
            if one.overlaps(other) {
                return Some((*one, *other));
            }
        }
    }
    None
}

// The acknowledgement flags of what does this: a dump and a check are answered by themselves.
fn flags_of(job: Job) -> Option<AckFlags> {
    AckFlags::new(match job {
        Job::Load { starts: true, .. } => START + COMPLETION,
        Job::Load { .. } => COMPLETION,
        _ => 0,
    })
}

// The octets that requests are of, area by area, for parts of so many octets.
fn all_places(
    alloc: Global,
    words: &GroundWords<'_>,
    part: u16,
    pieces: &[Piece],
) -> Result<Vec<Places>, PlanFault> {
    let mut places = Vec::new(alloc);
    for piece in pieces {
        let one = places_of(words, places.len(), piece, part)?;
        if places.push(one).is_err() {
            return Err(PlanFault::Memory);
        }
    }
    Ok(places)
}

// The octets of the area of this number, for parts of so many octets.
fn places_of(
    words: &GroundWords<'_>,
    area: usize,
    piece: &Piece,
    part: u16,
) -> Result<Places, PlanFault> {
    let Ok(of_content) = u32::try_from(piece.octets.as_slice().len()) else {
        return Err(PlanFault::PastEnd);
    };
    let loaded = match words.large {
        Some(_) if of_content > u32::from(LONGEST_LOAD) => return Err(PlanFault::TooLong),
        Some(_) => LONGEST_LOAD,
        None => part,
    };
    let (kind, each, len) = match words.job {
        Job::Load { .. } => (ErrandKind::Load, loaded, of_content),
        Job::Dump => (ErrandKind::Dump, dump_each(part)?, piece.len),
        Job::Check => (ErrandKind::Check, check_each(part)?, of_content),
    };
    Ok(Places {
        area,
        kind,
        memory: piece.memory,
        address: piece.address,
        len,
        each,
    })
}

// The octets that are read once they are loaded: those that are verified are dumped; of a job that
// goes on the others are checked.
fn places_read(
    alloc: Global,
    words: &GroundWords<'_>,
    part: u16,
    places: &[Places],
    pieces: &[Piece],
    goes_on: bool,
) -> Result<Vec<Places>, PlanFault> {
    let mut all = Vec::new(alloc);
    let Job::Load { verify, .. } = words.job else {
        return Ok(all);
    };
    for (one, piece) in places.iter().zip(pieces) {
        let read = match (verify || piece.verify, goes_on) {
            (true, _) => Some((ErrandKind::Dump, dump_each(part)?)),
            (false, true) => Some((ErrandKind::Check, check_each(part)?)),
            (false, false) => None,
        };
        if let Some((kind, each)) = read {
            if all.push(Places { kind, each, ..*one }).is_err() {
                return Err(PlanFault::Memory);
            }
        }
    }
    Ok(all)
}

// The contents, each with its address, and the paths of their files. The only error is out of
// memory.
fn contents_of(
    alloc: Global,
    pieces: Vec<Piece>,
) -> Result<(Vec<Area>, Vec<Option<String>>), PlanFault> {
    let (mut areas, mut files) = (Vec::new(alloc), Vec::new(alloc));
    for piece in pieces {
        let Piece {
            address,
            octets,
            file,
            ..
        } = piece;
        if areas.push(Area { address, octets }).is_err() || files.push(file).is_err() {
            return Err(PlanFault::Memory);
        }
    }
    Ok((areas, files))
}

// The pass that reads these octets behind so many loads, if there are any.
fn reading(
    alloc: Global,
    heads: &Heads,
    words: &GroundWords<'_>,
    places: Vec<Places>,
    loads: usize,
) -> Result<Option<(Vec<Places>, Pass)>, PlanFault> {
    if places.is_empty() {
        return Ok(None);
    }
    let heads = heads.behind(loads as u64);
    let asked = plan_places(alloc, &heads, &places, &[])?;
    let many = loads.saturating_add(asked.len());
    if many > MOST {
        return Err(PlanFault::TooMany(many as u64));
    }
    Ok(Some((places, Pass::new(terms_of(&heads, words.tries), asked))))
}

// After how many waits in a row that settled nothing the first pass is given up, whose request goes
// up as a large message, or as it is.
fn tries_of(words: &GroundWords<'_>, is_large: bool) -> u32 {
    match words.large {
        Some(large) if is_large => large.tries,
        _ => words.tries,
    }
}

// Whose reports count, and when a pass is given up.
fn terms_of(heads: &Heads, tries: u32) -> Terms {
    Terms {
        apid: heads.apid,
        source: heads.source,
        starts: heads.flags.bits() & START != 0,
        tries,
    }
}

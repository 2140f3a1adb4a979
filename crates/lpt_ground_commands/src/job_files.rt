//! The file of a job: of which requests it is, under which sources its runs asked, and the packets
//! that settled requests.

use crate::errands::{Errand, Sources};
use crate::ground_told::title_of;
use lpt_command_line::GroundWords;
use lpt_ground::Pass;
use lpt_ground_run::{Asked, Terms, digest_of, done_count, hear_kept};
use lpt_io::{Failure, Fault, Machine, file_at};
use lpt_packet::Octets;
use std::alloc::{AllocError, Global};
use std::fs;
use std::io::ErrorKind;

/// What a job's file begins with.
const FRONT: &str = "lpt ground ";

/// What its second line begins with. In a file of the former form packets stand there, each of
/// which begins with another octet, and all runs asked under the first line's source.
const SOURCES: &str = "sources";

/// What a job's file held when a run began.
#[derive(Drop)]
pub struct JobFile {
    // All of it, and where its packets begin.
    octets: Octets,
    packets: usize,
    // Under which sources the job's runs asked, the first one's in front.
    sources: Vec<u16>,
}

impl JobFile {
    // Its first line, which says of which requests it is.
    fn line(&self) -> &[u8] {
        let (line, _) = first_line(self.octets.as_slice());
        line
    }

    // The packets that settled requests.
    fn packets(&self) -> &[u8] {
        self.octets.as_slice().get(self.packets..).unwrap_or(&[])
    }

    // Whether a run asked under this source.
    fn has_source(&self, source: u16) -> bool {
        self.sources.iter().any(|one| *one == source)
    }
}

/// What a run keeps in its job's file, beside the packets.
#[derive(Drop)]
pub struct JobFront {
    /// The file's path.
    pub path: String,
    /// Its first lines.
    pub front: String,
    /// Whether the file was there: an earlier run of the job may have sent requests.
    pub goes_on: bool,
    /// Whether the packets that settle requests are kept.
    pub keeps: bool,
}

// The job that these octets are the file of, if they are. The only error is out of memory.
fn job_in(alloc: Global, octets: Octets) -> Result<Option<JobFile>, AllocError> {
    let all = octets.as_slice();
    let (line, behind) = first_line(all);
    let Some(first) = source_in(line) else {
        return Ok(None);
    };
    let mut sources = Vec::new(alloc);
    let mut packets = behind;
    if behind.starts_with(SOURCES.as_bytes()) {
        let (line, rest) = first_line(behind);
        sources = sources_in(alloc, line)?;
        packets = rest;
    } else {
        sources.push(first)?;
    }
    if sources.first().copied() != Some(first) {
        return Ok(None);
    }
    let packets = all.len().saturating_sub(packets.len());
    Ok(Some(JobFile {
        octets,
        packets,
        sources,
    }))
}

// The sources that a job's second line names; none if some word of it is no source. The only error
// is out of memory.
fn sources_in(alloc: Global, line: &[u8]) -> Result<Vec<u16>, AllocError> {
    let mut sources = Vec::new(alloc);
    for word in line.split(|octet| *octet == b' ').skip(1) {
        match number_in(word) {
            Some(source) => sources.push(source)?,
            None => return Ok(Vec::new(alloc)),
        }
    }
    Ok(sources)
}

// The first line of octets, without its end, and what stands behind that.
fn first_line(octets: &[u8]) -> (&[u8], &[u8]) {
    let end = octets.iter().position(|octet| *octet == b'\n');
    let end = end.unwrap_or(octets.len()).min(octets.len());
    let (line, behind) = octets.split_at(end);
    (line, behind.get(1..).unwrap_or(&[]))
}

// The source that a job's first line names.
fn source_in(line: &[u8]) -> Option<u16> {
    let words = std::str::from_utf8(line).ok()?.strip_prefix(FRONT)?;
    let (_, behind) = words.split_once(" source ")?;
    let (number, _) = behind.split_once(' ')?;
    number.parse().ok()
}

// The number that these digits are.
fn number_in(word: &[u8]) -> Option<u16> {
    std::str::from_utf8(word).ok()?.parse().ok()
}

/// The job's file, if one is asked for and is there.
///
/// Errors: `Read` if it can't be read, or is no job's; `Memory`.
pub fn kept_job(rt: &impl Machine, words: &GroundWords<'_>) -> Result<Option<JobFile>, Failure> {
    let Some(path) = words.kept else {
        return Ok(None);
    };
    if let Err(error) = fs::metadata(rt, path) {
        if error.kind() == ErrorKind::NotFound {
            return Ok(None);
        }
    }
    let octets = file_at(rt, path)?;
    match job_in(rt.alloc(), octets)? {
        Some(job) => Ok(Some(job)),
        None => {
            let place = format!(in rt.alloc(); "{path}: it is no file of a job");
            Err(Failure::at(Fault::Read, place))
        }
    }
}

/// Under which sources a run of this job asks that has this one of its own.
pub fn sources_of(job: &Option<JobFile>, own: u16) -> Sources {
    let first = match job {
        Some(job) => job.sources.first().copied(),
        None => None,
    };
    Sources {
        first: first.unwrap_or(own),
        own,
        goes_on: job.is_some(),
    }
}

/// What is kept of the job of this errand, whose file this was, if one is asked for. What that says
/// is settled is so from the beginning.
///
/// Errors: `Read` if the file is another job's; `Config` if an earlier run of the job asked under
/// the run's source, and this one would ask too; `Memory`.
pub fn job_begun(
    rt: &impl AllocGlobal,
    words: &GroundWords<'_>,
    sources: Sources,
    job: Option<JobFile>,
    errand: &mut Errand,
) -> Result<Option<JobFront>, Failure> {
    let Some(path) = words.kept else {
        return Ok(None);
    };
    let alloc = rt.alloc();
    let title = title_of(alloc, words, sources.first, &errand.places)?;
    let line = line_of(alloc, title.as_str(), &errand.first)?;
    let front = match &job {
        None => front_of(alloc, line.as_str(), &[], sources.own)?,
        Some(job) => {
            go_on(rt, path, line.as_str(), job, errand, sources.own)?;
            front_of(alloc, line.as_str(), &job.sources, sources.own)?
        }
    };
    Ok(Some(JobFront {
        path: format!(in alloc; "{path}")?,
        front,
        goes_on: job.is_some(),
        keeps: errand.keeps_answers(),
    }))
}

// Has the errand go on from this file, at this path, whose first line is this, under this source.
fn go_on(
    rt: &impl AllocGlobal,
    path: &str,
    line: &str,
    job: &JobFile,
    errand: &mut Errand,
    source: u16,
) -> Result<(), Failure> {
    if job.line() != line.as_bytes() {
        return Err(foreign(rt, path, job.line()));
    }
    hear_job(rt.alloc(), job, errand)?;
    if job.has_source(source) && errand.asks() {
        return Err(heard_before(rt, path, source));
    }
    Ok(())
}

// Has the errand's first pass hear what was kept, and notes how much it settles. The only error is
// out of memory.
fn hear_job(alloc: Global, job: &JobFile, errand: &mut Errand) -> Result<(), AllocError> {
    match errand.anew.take() {
        None => {
            hear_kept(alloc, &mut errand.first, job.packets())?;
        }
        Some(anew) => {
            let terms = anew.terms();
            let mut asked = anew.into_requests();
            if errand.keeps_answers() {
                asked = hear_under(alloc, terms, asked, job)?;
            }
            errand.first = Pass::new(terms, asked);
        }
    }
    errand.earlier = done_count(errand.first.requests_asked());
    Ok(())
}

// These requests, once the answers to each run of the job were heard, each under its run's source.
fn hear_under(
    alloc: Global,
    terms: Terms,
    asked: Vec<Asked>,
    job: &JobFile,
) -> Result<Vec<Asked>, AllocError> {
    let mut asked = asked;
    for source in &job.sources {
        let mut pass = Pass::new(
            Terms {
                source: *source,
                ..terms
            },
            asked,
        );
        hear_kept(alloc, &mut pass, job.packets())?;
        asked = pass.into_requests();
    }
    Ok(asked)
}

// The first line of the file of a job of this pass. The only error is out of memory.
fn line_of(alloc: Global, title: &str, pass: &Pass) -> Result<String, AllocError> {
    let mut line = format!(in alloc; "{FRONT}{title} requests ")?;
    for octet in digest_of(pass.requests_asked()) {
        line.write(format_args!("{octet:02x}"))?;
    }
    Ok(line)
}

// The first lines, if runs asked under these sources, and one asks under this.
fn front_of(alloc: Global, line: &str, sources: &[u16], source: u16) -> Result<String, AllocError> {
    let mut front = format!(in alloc; "{line}\n{SOURCES}")?;
    for one in sources {
        front.write(format_args!(" {one}"))?;
    }
    if !sources.iter().any(|one| *one == source) {
        front.write(format_args!(" {source}"))?;
    }
    front.push_str("\n")?;
    Ok(front)
}

// That the file at this path isn't this job's.
fn foreign(rt: &impl AllocGlobal, path: &str, line: &[u8]) -> Failure {
    let line = std::str::from_utf8(line).unwrap_or("");
    let title = line.strip_prefix(FRONT).unwrap_or("");
    let place = format!(in rt.alloc();
        "{path}: it is the file of a job with other requests (address, octets, --count, --ack, \
         APID or part size): {title}"
    );
    Failure::at(Fault::Read, place)
}

// That an earlier run asked under this source: an answer to that run would count.
fn heard_before(rt: &impl AllocGlobal, path: &str, source: u16) -> Failure {
    let place = format!(in rt.alloc();
        "--source {source}: an earlier run of {path} had it, and a late answer to that run would \
         count in this one: give another"
    );
    Failure::at(Fault::Config, place)
}

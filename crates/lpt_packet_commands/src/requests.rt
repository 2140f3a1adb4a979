//! Requests to a memory, written to standard output.

ghost use Rattle.std.specs.Prelude.{◌<◌};
ghost use Rattle.lpt_events.specs.Configs.{IsConfig};

use crate::layouts::own_or_given;
use lpt_carried::Layouts;
use lpt_command_line::{RequestWords, What, WordFault};
use lpt_events::Config;
use lpt_io::{
    Failure, Fault, Machine, Status, file_at, output, tell_place, word_refused, written_ended,
};
use lpt_layout::{LayoutFault, Width};
use lpt_layout_requests::{RequestFault, dump_limit, load_limit, write_requests_as};
use lpt_memory::{AREA_HEADER, AREA_LIMIT, Area, MemoryFault};
use lpt_packet::Octets;
use lpt_requests::{
    AreaPlace, CHECK_LIMIT, CutFault, Range, Read, Request, areas_fault, load_requests,
    places_fault, read_requests,
};
use lpt_split::greatest;
use lpt_text::write_out;
use std::alloc::{AllocError, Global};

/// Writes what is asked of a memory as telecommands, one behind the other, as many as it needs: by
/// the layouts of a file if one is given, otherwise by the profile.
///
/// Errors: `Read` if a file can't be opened or read; `Config` if the layouts' file is too long;
/// `Write`, `Memory`.
pub fn request<R: Machine>(
    rt: &R,
    config: &Config,
    words: &RequestWords<'_>,
) -> Result<Status, Failure>
    requires { IsConfig config.now }
{
    let Some(layouts) = own_or_given(rt, words.layout)? else {
        return Ok(Status::Unreadable);
    };
    let limit = limit_of(&words.what, &layouts);
    if let Some(fault) = word_fault(config, words, &layouts, limit) {
        return Ok(word_refused(rt, rt.alloc(), &fault));
    }
    let requests = match requests_asked(rt, words, words.each.min(limit))? {
        Ok(requests) => requests,
        Err(CutFault::Memory) => return Err(Failure::from(Fault::Memory)),
        Err(CutFault::Empty) => return Ok(refuse_request(
            rt,
            "an area has no octets: its file is empty",
        )),
        Err(CutFault::PastEnd) => {
            return Ok(refuse_request(rt, "an area ends after the last address, 4294967295"));
        }
    };
    let layout = &layouts.telecommands.packets;
    let (apid, source) = (config.apid, u32::from(config.source));
    let (count, flags) = (words.count, words.flags);
    let written = write_requests_as(rt.alloc(), layout, apid, source, count, flags, &requests);
    drop(requests);
    match written {
        Ok(packets) => put(rt, &packets),
        Err(fault) => unwritten(rt, fault),
    }
}

// How many octets of an area one request of this holds at most, by these layouts.
fn limit_of(what: &What<'_>, layouts: &Layouts) -> u16
    ensures { 0 < result }
{
    match what {
        What::Load(_) => load_limit(&layouts.telecommands.packets),
        What::Dump(_) => dump_limit(&layouts.telemetry.packets),
        What::Check(_) => CHECK_LIMIT,
    }
}

// What is wrong with the words by these layouts, if a request holds so many octets.
fn word_fault(
    config: &Config,
    words: &RequestWords<'_>,
    layouts: &Layouts,
    limit: u16,
) -> Option<WordFault<'static>> {
    let (each, source) = (words.each, config.source);
    if words.cut && each > limit {
        return Some(WordFault::Number {
            place: "--each <N>",
            number: u32::from(each),
            least: 1,
            most: u32::from(limit),
        });
    }
    let most = match layouts.telecommands.packets.user {
        Width::Absent => u32::MAX,
        width => greatest(width),
    };
    if u32::from(source) > most {
        return Some(WordFault::Number {
            place: "--source <N>",
            number: u32::from(source),
            least: 0,
            most,
        });
    }
    None
}

// The status of requests that aren't written, after standard error was told why.
fn unwritten(rt: &impl Eprint, fault: RequestFault) -> Result<Status, Failure> {
    let why = match fault {
        RequestFault::OfRequest(MemoryFault::Memory)
        | RequestFault::OfLayout(LayoutFault::Memory) => {
            return Err(Failure::from(Fault::Memory));
        }
        RequestFault::OfRequest(MemoryFault::TooLong)
        | RequestFault::OfLayout(LayoutFault::TooLong) => "a packet has no more than 65542 octets",
        RequestFault::OfRequest(_) => "a request has 1 to 255 areas, none of them empty",
        RequestFault::OfLayout(LayoutFault::Unfit) => "the source doesn't fit the layout",
    };
    Ok(refuse_request(rt, why))
}

// Says on standard error why a request isn't written.
fn refuse_request(rt: &impl Eprint, why: &str) -> Status {
    tell_place(rt, why);
    Status::Refused
}

// Writes packets to standard output.
fn put(rt: &(impl Print + AllocGlobal), packets: &[Octets]) -> Result<Status, Failure> {
    let mut out = output(rt)?;
    let mut written = Ok(());
    for packet in packets {
        written = write_out(&mut out, packet.as_slice());
        if written.is_err() {
            break;
        }
    }
    written_ended(rt, out, written)?;
    Ok(Status::Done)
}

// The requests for what the words ask of the memory, with the octets of the files that they name:
// for so many octets of an area at most.
fn requests_asked<R: Machine>(
    rt: &R,
    words: &RequestWords<'_>,
    each: u16,
) -> Result<Result<Vec<Request>, CutFault>, Failure>
    requires { 0 < each }
{
    let alloc = rt.alloc();
    match &words.what {
        What::Load(files) => Ok(loads(alloc, words, each, read_areas(rt, files)?)),
        What::Dump(places) => Ok(reads(alloc, words, each, Read::Dump, places)),
        What::Check(places) => Ok(reads(alloc, words, each, Read::Check, places)),
    }
}

// One load of all areas, if one holds them and no other number of octets is given; otherwise loads
// of one area each.
fn loads(
    alloc: Global,
    words: &RequestWords<'_>,
    each: u16,
    areas: Vec<Area>,
) -> Result<Vec<Request>, CutFault>
    requires { 0 < each }
{
    let memory = words.memory;
    if let Some(fault) = areas_fault(&areas) {
        return Err(fault);
    }
    if !words.cut && is_one_load(each, &areas) {
        return Ok(one(alloc, Request::Load(memory, areas))?);
    }
    load_requests(alloc, memory, &areas, each)
}

// One request of all places, if one holds them and no other number of octets is given; otherwise
// requests of one place each.
fn reads(
    alloc: Global,
    words: &RequestWords<'_>,
    each: u16,
    what: Read,
    places: &[(u32, u32)],
) -> Result<Vec<Request>, CutFault>
    requires { 0 < each }
{
    let memory = words.memory;
    let places = places_of(alloc, places)?;
    if let Some(fault) = places_fault(&places) {
        return Err(fault);
    }
    if words.cut || !is_one_read(each, what, &places) {
        return read_requests(alloc, what, memory, &places, each);
    }
    let ranges = ranges_of(alloc, &places)?;
    let request = match what {
        Read::Dump => Request::Dump(memory, ranges),
        Read::Check => Request::Check(memory, ranges),
    };
    Ok(one(alloc, request)?)
}

// One request alone. The only error is out of memory.
fn one(alloc: Global, request: Request) -> Result<Vec<Request>, AllocError> {
    let mut requests = Vec::new(alloc);
    requests.push(request)?;
    Ok(requests)
}

// Whether one load holds these areas, if it holds so many octets of one area.
fn is_one_load(each: u16, areas: &[Area]) -> bool {
    let mut room = room_of(each);
    for area in areas {
        let Some(left) = room_behind(room, area.octets.as_slice().len() as u64) else {
            return false;
        };
        room = left;
    }
    areas.len() <= AREA_LIMIT
}

// Whether one request holds these places, and one packet the answer, if it holds so many octets
// of one place.
fn is_one_read(each: u16, what: Read, places: &[AreaPlace]) -> bool {
    let mut room = room_of(each);
    for place in places {
        if place.len > u32::from(CHECK_LIMIT) {
            return false;
        }
        if what == Read::Dump {
            let Some(left) = room_behind(room, u64::from(place.len)) else {
                return false;
            };
            room = left;
        }
    }
    places.len() <= AREA_LIMIT
}

// The room for areas, if it is for so many octets of one area.
fn room_of(each: u16) -> u64 {
    u64::from(each) + AREA_HEADER as u64
}

// What is left of this room behind an area of so many octets, if it has room for it.
fn room_behind(room: u64, octets: u64) -> Option<u64> {
    room.checked_sub(octets)?.checked_sub(AREA_HEADER as u64)
}

// These places, of as many octets as a range has at most. The only error is out of memory.
fn ranges_of(alloc: Global, places: &[AreaPlace]) -> Result<Vec<Range>, AllocError> {
    let mut ranges = Vec::new(alloc);
    for place in places {
        let len = place.len.min(u32::from(CHECK_LIMIT)) as u16;
        let address = place.address;
        ranges.push(Range { address, len })?;
    }
    Ok(ranges)
}

// The octets of these files, each with its address.
fn read_areas<R: Machine>(rt: &R, files: &[(u32, &str)]) -> Result<Vec<Area>, Failure> {
    let mut areas = Vec::new(rt.alloc());
    for (address, file) in files {
        let octets = file_at(rt, file)?;
        let address = *address;
        areas.push(Area { address, octets })?;
    }
    Ok(areas)
}

// The places of a dump or a check. The only error is out of memory.
fn places_of(alloc: Global, places: &[(u32, u32)]) -> Result<Vec<AreaPlace>, AllocError> {
    let mut all = Vec::new(alloc);
    for (address, len) in places {
        let (address, len) = (*address, *len);
        all.push(AreaPlace { address, len })?;
    }
    Ok(all)
}

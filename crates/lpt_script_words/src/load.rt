//! Lines that ask for a load.

ghost use Rattle.std.specs.Prelude.{◌≡◌, ◌+◌, ◌≤◌, length, is_some, option_map, option_and_then, IsSome, IfOk, IfSome, OnErr};
ghost use Rattle.lpt_script_words.specs.Grammar.{area_of, areas_of, load_of, load_with, can_be_loaded, counts};
ghost use Rattle.lpt_script_words.specs.Names.{u16_of};
ghost use Rattle.lpt_script_words.specs.Words.{words};

use crate::names::{read_flags, read_name, read_u8, read_u16, read_u32};
use crate::numbers::{octets_spelled, read_hex};
use crate::words::split_word;
use lpt_memory::{AREA_HEADER, AREA_LIMIT, AREA_ROOM, Area, load_fault, write_load};
use lpt_packet::{Name, Octets};
use lpt_pus::{AckFlags, TcHead};
use std::alloc::{AllocError, Global};
use std::marker::Model;

/// The greatest sequence count of a packet.
const LAST_COUNT: u16 = 16383;

/// A load that a line asks for: a message of ground's that loads areas into a memory. It keeps in its
/// type that it can be written.
#[derive(Drop)]
pub struct Load {
    name: Name,
    count: u16,
    flags: AckFlags,
    memory: u8,
    areas: Vec<Area>,
}

impl Model for Load {
    ghost use Rattle.std.specs.Prelude.{◌≡◌, ◌≤◌, None};
    ghost use Rattle.lpt_memory.specs.Spellings.{write_fault};
    ghost use Rattle.lpt_script_words.specs.Loads.{LoadView};

    ghost Value = { LoadView };

    ghost view = { λ a. record {
      name = a.name;
      count = a.count;
      flags = a.flags;
      memory = a.memory;
      areas = a.areas.items;
    } };

    ghost invariant = { λ a. (a.count ≤ 16383) × (write_fault a.areas.items ≡ None) };
}

impl Load {
    ghost use Rattle.std.specs.Prelude.{◌≡◌, ◌≤◌, IfOk};
    ghost use Rattle.lpt_script_words.specs.Loads.{if_written, load_packet};

    /// The load that message `name` is to be: a packet of this sequence count and these
    /// acknowledgement flags, which loads the areas into a memory.
    ///
    /// `None` if the count is above 16,383 or the areas have a fault (`lpt_memory::load_fault`).
    pub fn new(
        name: Name,
        count: u16,
        flags: AckFlags,
        memory: u8,
        areas: Vec<Area>,
    ) -> Option<Load>
        ensures { result ≡ if_written (record {
          name = name;
          count = count;
          flags = flags;
          memory = memory;
          areas = areas.items;
        }) }
    {
        if count > LAST_COUNT || load_fault(&areas).is_some() {
            return None;
        }
        Some(Load {
            name,
            count,
            flags,
            memory,
            areas,
        })
    }

    /// The name of the message.
    pub fn name(&self) -> Name
        ensures { result ≡ self.now.name }
    {
        self.name
    }

    /// The packet of the load, with this APID: a telecommand of service 6, subtype 2, and of the
    /// source that the message's name has.
    ///
    /// The only error is out of memory.
    pub fn packet(&self, alloc: Global, apid: u16) -> Result<Octets, AllocError>
        requires { apid ≤ 2046 }
        ensures { IfOk result (λ o. o ≡ load_packet apid self.now) }
    {
        let head = TcHead {
            apid,
            count: self.count,
            flags: self.flags.bits(),
            service: 6,
            subtype: 2,
            source: self.name.source,
        };
        write_load(alloc, &head, self.memory, &self.areas).map_err(|_| AllocError)
    }
}

impl PartialEq for Load {
    ghost use Rattle.std.specs.Cmp.{partial_equiv_from_equiv};
    ghost use Rattle.lpt_script_words.specs.Loads.{same_load, same_load_equiv};

    ghost eq = { same_load };

    ghost laws = { partial_equiv_from_equiv same_load_equiv };

    fn eq(&self, other: &Load) -> bool {
        self.name == other.name
            && self.count == other.count
            && self.flags == other.flags
            && self.memory == other.memory
            && self.areas == other.areas
    }
}

impl Eq for Load {
    ghost use Rattle.lpt_script_words.specs.Loads.{same_load_equiv};

    ghost laws = { same_load_equiv };
}

// The words after `load`. The only error is out of memory, if they are a load.
#[tactic(auto, using(crate::proofs::Hexes::none_of))]
pub(crate) fn read_load(alloc: Global, source: u16, rest: &[u8]) -> Result<Option<Load>, AllocError>
    ensures says { IfOk result (λ r. r ≡ load_of source (words rest.now)) }
    ensures asked { OnErr result (IsSome (load_of source (words rest.now))) }
{
    let Some((name, rest)) = split_word(rest) else {
        return Ok(None);
    };
    let Some((count, rest)) = split_word(rest) else {
        return Ok(None);
    };
    let Some((flags, rest)) = split_word(rest) else {
        return Ok(None);
    };
    let Some((memory, rest)) = split_word(rest) else {
        return Ok(None);
    };
    // All of the line is judged before memory is taken for its areas.
    if !is_load(source, name, count, flags, memory, rest) {
        return Ok(None);
    }
    let Some(areas) = read_areas(alloc, rest)? else {
        return Ok(None);
    };
    Ok(load_with(source, name, count, flags, memory, areas))
}

// Whether these words, with the pairs of words in `areas`, are a load.
#[tactic(auto, using(crate::proofs::LoadLemmas::is_load_parts))]
fn is_load(
    source: u16,
    name: &[u8],
    count: &[u8],
    flags: &[u8],
    memory: &[u8],
    areas: &[u8],
) -> bool
    ensures { result ≡ is_some (option_and_then
        (load_with source name.now count.now flags.now memory.now) (areas_of (words areas.now))) }
{
    read_name(source, name).is_some()
        && read_flags(flags).is_some()
        && read_u8(memory).is_some()
        && is_count(count)
        && are_areas(areas)
}

// Whether a word is the sequence count of a packet.
fn is_count(word: &[u8]) -> bool
    ensures { result ≡ counts (u16_of word.now) }
{
    match read_u16(word) {
        Some(count) => count <= LAST_COUNT,
        None => false,
    }
}

// Whether pairs of words are areas that a load can have.
fn are_areas(line: &[u8]) -> bool
    ensures { result ≡ can_be_loaded (areas_of (words line.now)) }
{
    let mut room = AREA_ROOM;
    let mut left = AREA_LIMIT;
    let mut rest = line;
    while let Some((address, more)) = split_word(rest) {
        let Some((octets, more)) = split_word(more) else {
            return false;
        };
        let Some(len) = area_len(address, octets) else {
            return false;
        };
        if len == 0 || left == 0 || room < AREA_HEADER + len {
            return false;
        }
        room -= AREA_HEADER + len;
        left -= 1;
        rest = more;
    }
    left < AREA_LIMIT
}

// How many octets the area of an address and of octets has.
fn area_len(address: &[u8], octets: &[u8]) -> Option<usize>
    ensures len { result ≡ option_map (λ a. length a.octets) (area_of address.now octets.now) }
    ensures bound { IfSome result (λ n. n + n ≤ length octets.now) }
{
    let _address = read_u32(address)?;
    octets_spelled(octets)
}

// The load of these words and areas, if it can be written.
fn load_with(
    source: u16,
    name: &[u8],
    count: &[u8],
    flags: &[u8],
    memory: &[u8],
    areas: Vec<Area>,
) -> Option<Load>
    ensures { result ≡ load_with source name.now count.now flags.now memory.now areas.items }
{
    let name = read_name(source, name)?;
    let count = read_u16(count)?;
    let flags = read_flags(flags)?;
    let memory = read_u8(memory)?;
    Load::new(name, count, flags, memory, areas)
}

// The areas that pairs of words are. The only error is out of memory.
fn read_areas(alloc: Global, line: &[u8]) -> Result<Option<Vec<Area>>, AllocError>
    ensures { IfOk result (λ r. option_map (λ v. v.items) r ≡ areas_of (words line.now)) }
{
    let mut areas = Vec::new(alloc);
    let mut rest = line;
    while let Some((address, more)) = split_word(rest) {
        let Some((octets, more)) = split_word(more) else {
            return Ok(None);
        };
        let Some(area) = read_area(alloc, address, octets)? else {
            return Ok(None);
        };
        areas.push(area)?;
        rest = more;
    }
    Ok(Some(areas))
}

// The area of an address and of octets. The only error is out of memory.
fn read_area(alloc: Global, address: &[u8], octets: &[u8]) -> Result<Option<Area>, AllocError>
    ensures { IfOk result (λ r. r ≡ area_of address.now octets.now) }
{
    let Some(address) = read_u32(address) else {
        return Ok(None);
    };
    let Some(octets) = read_hex(alloc, octets)? else {
        return Ok(None);
    };
    Ok(Some(Area { address, octets }))
}

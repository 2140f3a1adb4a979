//! The stretches in which two images differ, as lists of patches in a new folder.

use lpt_command_line::PatchWords;
use lpt_compare::{Stretch, differing_stretches};
use lpt_events::Config;
use lpt_io::{
    Failure, Fault, Machine, Status, failure_at, file_at, name_of, octets_word, tell_text,
    write_beside,
};
use std::alloc::{AllocError, Global};
use std::fs;

/// How many addresses there are.
const ADDRESSES: u64 = 1 << 32;

/// How many requests a pass has at most.
const REQUESTS: usize = 16_384;

/// What a list says if there is no patch.
const NONE: &str = "# no octet differs\n";

/// Writes where two images differ into a new folder: the octets of each image there, each stretch
/// in a file of its own, and behind them a list that loads the new ones, and one that loads the old
/// ones. Standard error is told how many loads that is. Nothing is written if the images have not
/// as many octets, don't end within the addresses, or differ in more stretches than a pass loads.
///
/// Errors: `Read` if an image can't be opened or read; `Write`, also if there is such a folder;
/// `Memory`.
pub fn patch<R: Machine>(
    rt: &R,
    config: &Config,
    words: &PatchWords<'_>,
) -> Result<Status, Failure> {
    let old = file_at(rt, words.old)?;
    let new = file_at(rt, words.new)?;
    let status = patch_images(rt, config.part_size, words, old.as_slice(), new.as_slice());
    drop(old);
    drop(new);
    status
}

// Does the same with these images, of which a load holds so many octets.
fn patch_images<R: Machine>(
    rt: &R,
    part_size: u32,
    words: &PatchWords<'_>,
    old: &[u8],
    new: &[u8],
) -> Result<Status, Failure> {
    let align = (words.align as usize).max(1);
    if words.address as usize % align != 0 {
        let PatchWords { address, align, .. } = *words;
        tell_text(
            rt,
            format!(in rt.alloc(); "address {address} is no multiple of {align}"),
        );
        return Ok(Status::Unreadable);
    }
    if old.len() != new.len() {
        tell_text(rt, sizes_text(rt.alloc(), words, old.len(), new.len()));
        return Ok(Status::Refused);
    }
    if ADDRESSES < u64::from(words.address).saturating_add(new.len() as u64) {
        let name = name_of(words.new);
        tell_text(
            rt,
            format!(in rt.alloc(); "{name} ends after the last address, 4294967295"),
        );
        return Ok(Status::Refused);
    }
    let gap = words.gap as usize;
    let stretches = differing_stretches(rt.alloc(), old, new, gap, align)?;
    let status = put_lists(rt, part_size, words, old, new, &stretches);
    drop(stretches);
    status
}

// That the images have not as many octets.
fn sizes_text(
    alloc: Global,
    words: &PatchWords<'_>,
    old: usize,
    new: usize,
) -> Result<String, AllocError> {
    let (first, second) = (name_of(words.old), name_of(words.new));
    let octets = octets_word(old);
    format!(in alloc;
        "{first} has {old} {octets}, and {second} {new}: a patch can't change how many"
    )
}

// Writes the lists of these stretches, and tells how many loads they are.
fn put_lists<R: Machine>(
    rt: &R,
    part_size: u32,
    words: &PatchWords<'_>,
    old: &[u8],
    new: &[u8],
    stretches: &[Stretch],
) -> Result<Status, Failure> {
    if stretches.len() > REQUESTS {
        let count = stretches.len();
        let text = format!(in rt.alloc();
            "{count} areas differ: a pass loads at most {REQUESTS}, so give a greater --gap"
        );
        tell_text(rt, text);
        return Ok(Status::Refused);
    }
    if let Err(error) = fs::create_dir(rt, words.folder) {
        return Err(failure_at(rt, Fault::Write, words.folder, &error));
    }
    put_files(rt, words, old, new, stretches)?;
    put_list(rt, words, "patch", "new", stretches)?;
    put_list(rt, words, "undo", "old", stretches)?;
    tell_text(rt, loads_text(rt.alloc(), part_size, new.len(), stretches));
    Ok(Status::Done)
}

// Writes the octets that both images have in these stretches.
fn put_files<R: Machine>(
    rt: &R,
    words: &PatchWords<'_>,
    old: &[u8],
    new: &[u8],
    stretches: &[Stretch],
) -> Result<(), Failure> {
    for stretch in stretches {
        let change = stretch.change(old, new);
        put_file(rt, words, "new", stretch, change.new)?;
        put_file(rt, words, "old", stretch, change.old)?;
    }
    Ok(())
}

// Writes the octets that an image of this name has in a stretch.
fn put_file<R: Machine>(
    rt: &R,
    words: &PatchWords<'_>,
    image: &str,
    stretch: &Stretch,
    octets: &[u8],
) -> Result<(), Failure> {
    let folder = words.folder;
    let address = address_of(words, stretch);
    let path = format!(in rt.alloc(); "{folder}/{address}.{image}")?;
    write_beside(rt, path.as_str(), octets)
}

// The address of a stretch's first octet.
fn address_of(words: &PatchWords<'_>, stretch: &Stretch) -> u64 {
    u64::from(words.address).saturating_add(stretch.from as u64)
}

// Writes the list of this name, which loads the octets of this image.
fn put_list<R: Machine>(
    rt: &R,
    words: &PatchWords<'_>,
    list: &str,
    image: &str,
    stretches: &[Stretch],
) -> Result<(), Failure> {
    let folder = words.folder;
    let path = format!(in rt.alloc(); "{folder}/{list}.toml")?;
    let text = list_text(rt.alloc(), words, image, stretches)?;
    write_beside(rt, path.as_str(), text.as_bytes())
}

// A list that loads the octets of this image. The only error is out of memory.
fn list_text(
    alloc: Global,
    words: &PatchWords<'_>,
    image: &str,
    stretches: &[Stretch],
) -> Result<String, AllocError> {
    let folder = quotable(alloc, words.folder)?;
    let memory = words.memory;
    let mut text = String::new(alloc);
    if stretches.is_empty() {
        text.push_str(NONE)?;
    }
    for stretch in stretches {
        let address = address_of(words, stretch);
        text.write(format_args!("[[patch]]\nmemory = {memory}\naddress = {address}\n"))?;
        text.write(format_args!("file = \"{folder}/{address}.{image}\"\n\n"))?;
    }
    Ok(text)
}

// A text as TOML has it in quotation marks. The only error is out of memory.
fn quotable(alloc: Global, text: &str) -> Result<String, AllocError> {
    let mut quoted = String::new(alloc);
    for letter in text.chars() {
        if letter.is_control() {
            let number = u32::from(letter);
            quoted.write(format_args!("\\u{number:04x}"))?;
        } else if letter == '"' || letter == '\\' {
            quoted.write(format_args!("\\{letter}"))?;
        } else {
            quoted.write(format_args!("{letter}"))?;
        }
    }
    Ok(quoted)
}

// How many loads of so many octets these stretches of an image are, and how many the image is. The
// only error is out of memory.
fn loads_text(
    alloc: Global,
    part_size: u32,
    size: usize,
    stretches: &[Stretch],
) -> Result<String, AllocError> {
    if stretches.is_empty() {
        return format!(in alloc; "no octet differs: the lists have no patch");
    }
    let (mut octets, mut loads) = (0_usize, 0_usize);
    for stretch in stretches {
        let len = stretch.end.saturating_sub(stretch.from);
        octets = octets.saturating_add(len);
        loads = loads.saturating_add(loads_of(len, part_size));
    }
    let count = stretches.len();
    let areas = if count == 1 { "area" } else { "areas" };
    let word = if loads == 1 { "load" } else { "loads" };
    let all = loads_of(size, part_size);
    let named = octets_word(octets);
    let mut text = format!(in alloc; "{count} {areas} of {octets} {named}: ")?;
    text.write(format_args!("{loads} {word} in place of {all} with --part-size {part_size}"))?;
    Ok(text)
}

// How many loads so many octets are, of which each holds this many.
fn loads_of(octets: usize, part_size: u32) -> usize {
    octets.div_ceil((part_size as usize).max(1))
}

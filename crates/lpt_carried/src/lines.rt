//! What is told of the pieces that were passed over.

ghost use Rattle.std.specs.Prelude.{◌≡◌, ◌==◌, map, IfOk, if◌then◌else◌};
ghost use Rattle.std.specs.Option.{option_map};
ghost use Rattle.std.specs.String.{string_bytes};
ghost use Rattle.lpt_carried.specs.Told.{count_of, ending_of, first_of, first_text, line_of, lines_of, name_text, opening, place_text, sizes_text, words_of_many, words_of_one};

use crate::topic::{TOPICS, Topic};
use crate::{Direction, Name, Skips, Wanted};
use std::alloc::{AllocError, Global};

impl Skips {
    /// What is told of what was passed over if these parts were wanted, a line for each reason that
    /// came up, if this source is configured, and so many octets come before the stream. The only
    /// error is out of memory.
    pub fn lines(
        &self,
        alloc: Global,
        wanted: &Wanted,
        source: u32,
        from: u64,
    ) -> Result<Vec<String>, AllocError>
        ensures { IfOk result (λ v. map string_bytes v.items
            ≡ lines_of wanted.now source from self.now) }
    {
        let mut lines = Vec::new(alloc);
        for topic in TOPICS {
            if let Some(line) = self.line(alloc, wanted, source, from, topic)? {
                lines.push(line)?;
            }
        }
        Ok(lines)
    }

    // What is told of a topic, if there is something of it.
    fn line(
        &self,
        alloc: Global,
        wanted: &Wanted,
        source: u32,
        from: u64,
        topic: Topic,
    ) -> Result<Option<String>, AllocError>
        ensures { IfOk result (λ t. option_map string_bytes t
            ≡ line_of wanted.now source from self.now topic) }
    {
        let count = self.count_of(topic);
        if count == 0 {
            return Ok(None);
        }
        let mut line = opening(alloc, wanted.reading.direction, count)?;
        line.push_str(words_of(topic, count))?;
        line.push_str(self.ending(alloc, wanted, source, topic)?.as_str())?;
        line.push_str(self.first(alloc, from, topic)?.as_str())?;
        Ok(Some(line))
    }

    // How many there are of a topic.
    fn count_of(&self, topic: Topic) -> u64
        ensures { result ≡ count_of self.now topic }
    {
        match topic {
            Topic::OtherApid => self.of_others,
            Topic::OtherDirection => self.turned,
            Topic::NoNumber => self.zeros,
            Topic::Unread => self.unread,
            Topic::OtherName => self.unnamed,
            Topic::NoPart => self.bare,
            Topic::Damaged => self.damaged,
            Topic::Stray => self.stray,
        }
    }

    // The end of what is said of a topic.
    fn ending(
        &self,
        alloc: Global,
        wanted: &Wanted,
        source: u32,
        topic: Topic,
    ) -> Result<String, AllocError>
        ensures { IfOk result (λ t. string_bytes t ≡ ending_of wanted.now source self.now topic) }
    {
        match topic {
            Topic::OtherApid => match self.apid {
                Some(apid) => format!(in alloc; "{apid}"),
                None => Ok(String::new(alloc)),
            },
            Topic::Unread => sizes_text(alloc, wanted.reading.part_size, self.part_size),
            Topic::OtherName => match self.name {
                Some(name) => name_text(alloc, source, name),
                None => Ok(String::new(alloc)),
            },
            Topic::OtherDirection
            | Topic::NoNumber
            | Topic::NoPart
            | Topic::Damaged
            | Topic::Stray => Ok(String::new(alloc)),
        }
    }

    // Where the first of a topic is, if that is known, behind so many octets.
    fn first(&self, alloc: Global, from: u64, topic: Topic) -> Result<String, AllocError>
        ensures { IfOk result (λ t. string_bytes t ≡ first_text from self.now topic) }
    {
        match self.first_of(topic) {
            Some(at) => place_text(alloc, self.count_of(topic), at.saturating_add(from)),
            None => Ok(String::new(alloc)),
        }
    }

    // The same of the stream alone.
    fn first_of(&self, topic: Topic) -> Option<u64>
        ensures { result ≡ first_of self.now topic }
    {
        match topic {
            Topic::Unread => self.unread_at,
            Topic::Stray => self.stray_at,
            Topic::OtherApid
            | Topic::OtherDirection
            | Topic::NoNumber
            | Topic::OtherName
            | Topic::NoPart
            | Topic::Damaged => None,
        }
    }
}

// The octet at which one is, or the first of several.
fn place_text(alloc: Global, count: u64, place: u64) -> Result<String, AllocError>
    ensures { IfOk result (λ t. string_bytes t ≡ place_text count place) }
{
    if count != 1 {
        format!(in alloc; ", the first at octet {place}")
    } else {
        format!(in alloc; ", at octet {place}")
    }
}

// A part size, and behind it the one by which parts would be read, if one is known.
fn sizes_text(alloc: Global, size: Option<u32>, fitting: Option<u32>) -> Result<String, AllocError>
    ensures { IfOk result (λ t. string_bytes t ≡ sizes_text size fitting) }
{
    match (size, fitting) {
        (None, _) => String::from_str(alloc, "1 to 65535"),
        (Some(p), None) => format!(in alloc; "{p}"),
        (Some(p), Some(fitting)) => format!(in alloc; "{p}, but part_size = {fitting}"),
    }
}

/// The word of a name if this source is configured: its identifier alone if it is of that
/// source, and `SOURCE/ID` otherwise. The only error is out of memory.
pub fn name_text(alloc: Global, source: u32, name: Name) -> Result<String, AllocError>
    ensures { IfOk result (λ t. string_bytes t ≡ name_text source name) }
{
    let Name { user, id } = name;
    if user == source {
        format!(in alloc; "{id}")
    } else {
        format!(in alloc; "{user}/{id}")
    }
}

// A direction and a number.
fn opening(alloc: Global, direction: Direction, count: u64) -> Result<String, AllocError>
    ensures { IfOk result (λ t. string_bytes t ≡ opening direction count) }
{
    let direction = direction.word();
    format!(in alloc; "{direction}: {count}")
}

// What is said of so many of a topic.
fn words_of(topic: Topic, count: u64) -> &'static str
    ensures { result.now ≡ (if count == 1 then words_of_one topic else words_of_many topic) }
{
    if count == 1 {
        words_of_one(topic)
    } else {
        words_of_many(topic)
    }
}

// What is said of one.
fn words_of_one(topic: Topic) -> &'static str
    ensures { result.now ≡ words_of_one topic }
{
    match topic {
        Topic::OtherApid => " packet of another APID was skipped, of APID ",
        Topic::OtherDirection => " packet of the other direction was skipped",
        Topic::NoNumber => " part has number 0",
        Topic::Unread => " part doesn't fit part_size = ",
        Topic::OtherName => " part of another message was skipped, of ",
        Topic::NoPart => " packet carries no part",
        Topic::Damaged => " damaged packet was skipped",
        Topic::Stray => " octet is no packet",
    }
}

// What is said of several.
fn words_of_many(topic: Topic) -> &'static str
    ensures { result.now ≡ words_of_many topic }
{
    match topic {
        Topic::OtherApid => " packets of another APID were skipped, the first of APID ",
        Topic::OtherDirection => " packets of the other direction were skipped",
        Topic::NoNumber => " parts have number 0",
        Topic::Unread => " parts don't fit part_size = ",
        Topic::OtherName => " parts of other messages were skipped, the first of ",
        Topic::NoPart => " packets carry no part",
        Topic::Damaged => " damaged packets were skipped",
        Topic::Stray => " octets are no packet",
    }
}

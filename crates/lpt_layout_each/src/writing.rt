//! Every message of a stream, each in a new file.

ghost use Rattle.std.specs.Prelude.{◌≡◌, ◌⊎◌, Some, Err, IfErr, IfOk, IfSome, IsSome, OnOk, false, if◌then◌else◌, length};
ghost use Rattle.std.specs.BTreeMap.{get};
ghost use Rattle.std.proofs.Props.{props};
ghost use Rattle.lpt_text.specs.Streams.{ReadEnds};
ghost use Rattle.lpt_stream.specs.Pieces.{packets_of};
ghost use Rattle.lpt_stream.specs.Reads.{IsEndlessBy};
ghost use Rattle.lpt_stream.specs.Takes.{LeavesBy, TakenAll};
ghost use Rattle.lpt_carried.specs.declared.name.Name.{Name};
ghost use Rattle.lpt_carried.specs.Carried.{cut, same_name};
ghost use Rattle.lpt_carried.specs.Tallies.{skips_of};
ghost use Rattle.lpt_layout_join.specs.Names.{name_cmp};
ghost use Rattle.lpt_layout_join.specs.Writes.{ReadsCut};
ghost use Rattle.lpt_layout_each.specs.Streams.{any_of, events};
ghost use Rattle.lpt_layout_each.specs.News.{messages_of};
ghost use Rattle.lpt_layout_each.specs.Told.{news_of};
ghost use Rattle.lpt_layout_each.specs.Files.{Files, FilesPart, IsNew, count_for, files_of, front_of};
ghost use Rattle.lpt_layout_each.specs.Filing.{count_at, with_mark};

use crate::naming::path_for;
use crate::{NewsAs, Shelf, TakerAs, each_as};
use lpt_carried::{Name, Reading, Skips};
use lpt_packet::Direction;
use lpt_text::{Source, StreamFault};
use std::alloc::{AllocError, Global};
use std::collections::BTreeMap;

/// Reads a stream of packets to its end, as `each_as` does, and has each message that it gives go
/// into a new file of this folder: `DIRECTION-USER-ID.NUMBER`, where the number counts the messages
/// of the name from 0 on. The shelf is told of the rest.
///
/// Errors: `Read` if a read failed, or if 2^64 - 1 pieces came; `Memory`; those of the shelf. The
/// files of a front part of the messages are there then; if a read failed, those of all messages
/// that were whole.
pub fn write_messages<P: Source, S: Shelf>(
    alloc: Global,
    reading: &Reading,
    any: bool,
    folder: &str,
    source: &mut P,
    shelf: S,
) -> (Result<Skips, StreamFault>, S)
    requires fresh { IsNew (S.heard shelf) (S.files shelf) }

    // Each file that is made has the name and the octets of its message, and no other is made.
    ensures made { IfOk result.0 (λ skips. ReadsCut (cut reading.now) (P.remaining source.old)
        (P.remaining source.new) (λ pieces. Files (S.heard shelf) (S.files result.1)
        (files_of (front_of folder.now reading.now.direction)
        (events reading.now any (packets_of pieces)))
        × (skips ≡ skips_of (any_of reading.now) pieces))) }

    // What a fault leaves: the files of a front part.
    ensures leaves { IfErr result.0 (λ _. LeavesBy (cut reading.now) (P.remaining source.old)
        (P.remaining source.new) (λ pieces. FilesPart (S.heard shelf) (S.files result.1)
        (files_of (front_of folder.now reading.now.direction)
        (events reading.now any (packets_of pieces))))) }

    // If a read fails, there are the files of all messages that what was read before it shows.
    ensures settled { result.0 ≡ Err StreamFault.Read → TakenAll (cut reading.now)
        (P.remaining source.old) (P.remaining source.new) (λ pieces.
        Files (S.heard shelf) (S.files result.1)
        (files_of (front_of folder.now reading.now.direction)
        (events reading.now any (packets_of pieces))))
        ⊎ IsEndlessBy (cut reading.now) (P.remaining source.old) (P.remaining source.new) }
    ensures reader { ReadEnds (IsEndlessBy (cut reading.now) (P.remaining source.old)
        (P.remaining source.new)) result.0 (P.failed source.old) (P.failed source.new) }
{
    let mut filing = Filing {
        alloc,
        folder,
        direction: reading.direction,
        counts: BTreeMap::new(alloc),
        shelf,
    };
    let ended = each_as(alloc, reading, any, source, &mut filing);
    let Filing { shelf, .. } = filing;
    (ended, shelf)
}

// A shelf, and how many messages of each name it took.
#[derive(Drop)]
struct Filing<'a, S: Shelf> {
    alloc: Global,
    folder: &'a str,
    direction: Direction,
    counts: BTreeMap<Name, u64>,
    shelf: S,
    ghost filed: { IfSome (S.heard shelf) (λ es. S.files shelf
        ≡ Some (files_of (front_of folder.now direction) es)) } by { Prim.hlevel props },
    ghost counted: { (n : Name) → IfSome (S.heard shelf) (λ es.
        count_at counts n ≡ count_for n es) } by { Prim.hlevel props },
}

impl<S: Shelf> TakerAs for Filing<'_, S> {
    ghost heard = { λ t. with_mark (front_of t.folder.now t.direction) (S.heard t.shelf) };

    fn take(&mut self, name: Name, news: &NewsAs) -> Result<(), StreamFault> {
        let before = count_of(&self.counts, name);
        let Some(behind) = before.checked_add(1) else {
            return Err(StreamFault::Write);
        };
        let path = path_for(self.alloc, self.folder, self.direction, name, before)?;
        note(&mut self.counts, name, before)?;
        self.shelf.take(name, news, path.as_str())?;
        if gives(news) {
            raise(&mut self.counts, name, behind);
        }
        Ok(())
    }
}

// Whether news have a message.
fn gives(news: &NewsAs) -> bool
    ensures { length (messages_of (news_of news.now)) ≡ (if result then 1 else 0) }
{
    matches!(news, NewsAs::Given(_) | NewsAs::Overtaken(_, _))
}

// How many messages of a name were taken.
fn count_of(counts: &BTreeMap<Name, u64>, name: Name) -> u64
    ensures { result ≡ count_at counts.now name }
{
    match counts.get(&name) {
        Some(count) => *count,
        None => 0,
    }
}

// Notes so many, for which there is room from now on. The only error is out of memory.
fn note(counts: &mut BTreeMap<Name, u64>, name: Name, count: u64) -> Result<(), AllocError>
    requires same { count_at counts.old name ≡ count }
    ensures there { OnOk result (IsSome (get name_cmp counts.new name)) }
    ensures same { (n : Name) → count_at counts.new n ≡ count_at counts.old n }
{
    counts.insert(name, count)?;
    Ok(())
}

// Notes so many in place of those that were.
fn raise(counts: &mut BTreeMap<Name, u64>, name: Name, count: u64)
    requires there { IsSome (get name_cmp counts.old name) }
    ensures its { count_at counts.new name ≡ count }
    ensures others { (n : Name) → same_name name n ≡ false
        → count_at counts.new n ≡ count_at counts.old n }
{
    let _ = counts.insert(name, count);
}

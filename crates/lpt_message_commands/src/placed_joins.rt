//! Every message of packets, each written into a file of its own, with where it is among them.
//!
//! It joins by `HeldsAs`, as `write_messages` does, and sees besides which packet comes.

ghost use Rattle.lpt_carried.specs.Carried.{cut};
ghost use Rattle.lpt_stream.specs.Pieces.{IsSealedBy};
ghost use Rattle.std.specs.Prelude.{◌≡◌, ◌⊎◌, IfErr, IfOk};
ghost use Rattle.lpt_stream.specs.declared.piece_kind.PieceKind.TheVariants.{Whole};

use crate::eaches::{MachineShelf, missing_of};
use crate::joins::Joining;
use lpt_carried::{Name, Skips, Wanted, carried_in};
use lpt_io::{Machine, Packets, write_all_out};
use lpt_layout_each::{CameAs, HeldsAs, NewsAs, Shelf, TakerAs, leave_as};
use lpt_layout_join::Nowhere;
use lpt_stream::{Cut, PieceKind, Taker, take_pieces};
use lpt_text::StreamFault;
use std::alloc::{AllocError, Global};
use std::collections::BTreeMap;

/// Writes every message that packets carry as `write_messages` does, and prints a line of JSON for
/// each, and for what never became whole. The shelf is given back.
///
/// Errors: `Read` if a read failed; `Memory`; `Write`, also if a line couldn't be printed.
pub(crate) fn write_placed<'a, R: Machine>(
    rt: &'a R,
    joining: Joining<'a>,
    path: &'a str,
    source: &mut Packets<R>,
    shelf: MachineShelf<'a, R>,
) -> (Result<Skips, StreamFault>, MachineShelf<'a, R>) {
    let alloc = rt.alloc();
    let mut shelves = Placed {
        rt,
        joining,
        path,
        place: 0,
        firsts: BTreeMap::new(alloc),
        counts: BTreeMap::new(alloc),
        shelf,
    };
    let ended = each_placed(
        alloc,
        joining.wanted,
        joining.words.any,
        source,
        &mut shelves,
    );
    let Placed { shelf, .. } = shelves;
    (ended, shelf)
}

// Reads a stream of packets to its end, and tells what each message is. The answer counts what was
// passed over.
fn each_placed<R: Machine>(
    alloc: Global,
    wanted: Wanted,
    any: bool,
    source: &mut Packets<R>,
    shelves: &mut Placed<'_, R>,
) -> Result<Skips, StreamFault> {
    let first = Placer {
        wanted,
        any,
        helds: HeldsAs::new(alloc),
        skips: Skips::new(),
    };
    let mut out = Nowhere { failed: false };
    let last = take_pieces(alloc, 0, source, first, &mut out, shelves)?;
    leave_as(last.helds, shelves)?;
    Ok(last.skips)
}

// What a stream's pieces have given of each name so far.
#[derive(Drop)]
struct Placer {
    wanted: Wanted,
    any: bool,
    helds: HeldsAs,
    skips: Skips,
}

impl Placer {
    // Takes the next packet, at this place.
    fn add_packet<R: Machine>(
        self,
        alloc: Global,
        shelves: &mut Placed<'_, R>,
        place: u64,
        octets: &[u8],
    ) -> Result<Placer, StreamFault>
        requires { IsSealedBy (cut self.wanted.reading) Whole octets.now }
        ensures same { IfOk result (λ t. t.wanted ≡ self.wanted) }
        ensures fault { IfErr result (λ e. (e ≡ StreamFault.Write) ⊎ (e ≡ StreamFault.Memory)) }
    {
        let Placer {
            wanted,
            any,
            helds,
            mut skips,
        } = self;
        let part = match carried_in(&wanted.reading, PieceKind::Whole, octets) {
            Ok(part) => part,
            Err(_) => {
                skips.note(&wanted, PieceKind::Whole, octets);
                let helds = helds.pass_over(&wanted.reading, octets)?;
                return Ok(Placer {
                    wanted,
                    any,
                    helds,
                    skips,
                });
            }
        };
        skips.pass(octets);
        shelves.come_to(place, part.name(), part.part.number)?;
        let taken = helds.take(alloc, &wanted.reading, any, place, octets, &part);
        let (helds, event) = match taken {
            Ok(taken) => taken,
            Err(_) => return Err(StreamFault::Memory),
        };
        if let Some((name, news)) = event {
            shelves.take(name, &news)?;
        }
        Ok(Placer {
            wanted,
            any,
            helds,
            skips,
        })
    }
}

impl<'a, R: Machine> Taker<Nowhere, Placed<'a, R>> for Placer {
    ghost use Rattle.std.specs.Prelude.{◌≡◌, ◌⊎◌, [], true, ⊤};
    ghost use Rattle.lpt_text.specs.declared.fault.StreamFault.TheVariants as faults;
    ghost use Rattle.lpt_carried.specs.Carried as carried;

    ghost cut = { λ p. carried.cut p.wanted.reading };

    ghost is_open = { λ _. true };

    // What is told of files and lines isn't known to the prover.
    ghost takes = { λ from first now old new pieces. ⊤ };

    ghost leaves = { λ from first old new pieces. ⊤ };

    ghost writes = { λ from first pieces. [] };

    ghost others = { λ e. (e ≡ faults.Write) ⊎ (e ≡ faults.Memory) };

    fn cut(&self) -> Cut {
        self.wanted.reading.cut()
    }

    fn is_open(&self) -> bool {
        true
    }

    fn take(
        self,
        alloc: Global,
        _out: &mut Nowhere,
        lent: &mut Placed<'a, R>,
        place: u64,
        kind: PieceKind,
        octets: &[u8],
    ) -> Result<Placer, StreamFault> {
        match kind {
            PieceKind::Whole => self.add_packet(alloc, lent, place, octets),
            PieceKind::Damaged | PieceKind::Stray => {
                let mut placer = self;
                let wanted = placer.wanted;
                placer.skips.note(&wanted, kind, octets);
                Ok(placer)
            }
        }
    }
}

// A shelf of files, and where the packets are of what goes there.
#[derive(Drop)]
struct Placed<'a, R: Machine> {
    rt: &'a R,
    joining: Joining<'a>,
    // The path of the folder.
    path: &'a str,
    // The place of the packet that came last.
    place: u64,
    // That of the packet with which the first part of a name came last.
    firsts: BTreeMap<Name, u64>,
    // How many messages of a name there are.
    counts: BTreeMap<Name, u64>,
    shelf: MachineShelf<'a, R>,
}

impl<R: Machine> Placed<'_, R> {
    // A packet comes, at this place, with the part of this number.
    fn come_to(&mut self, place: u64, name: Name, number: u32) -> Result<(), StreamFault>
        ensures fault { IfErr result (λ e. e ≡ StreamFault.Memory) }
    {
        self.place = place.saturating_add(self.joining.words.span.from.unwrap_or(0));
        if number == 1 {
            let place = self.place;
            if self.firsts.insert(name, place).is_err() {
                return Err(StreamFault::Memory);
            }
        }
        Ok(())
    }

    // Prints a line. Why it couldn't be is kept.
    fn print(&mut self, line: Result<String, AllocError>) -> Result<(), StreamFault>
        ensures fault { IfErr result (λ e. (e ≡ StreamFault.Write) ⊎ (e ≡ StreamFault.Memory)) }
    {
        let Ok(line) = line else {
            return Err(StreamFault::Memory);
        };
        match write_all_out(self.rt, line.as_bytes()) {
            Ok(()) => Ok(()),
            Err(failure) => {
                self.shelf.fail(failure);
                Err(StreamFault::Write)
            }
        }
    }

    // The line of a message that became whole with the last packet.
    fn whole_line(&self, alloc: Global, name: Name) -> Result<String, AllocError> {
        let way = self.joining.wanted.reading.direction.word();
        let Name { user, id } = name;
        let at = self.place;
        let from = self.firsts.get(&name).copied().unwrap_or(at);
        format!(in alloc; "{{\"name\":\"{way} {user}/{id}\",\"from\":{from},\"at\":{at}}}\n")
    }

    // The line of parts that never became whole: these came.
    fn lost_line(&self, alloc: Global, name: Name, came: &CameAs) -> Result<String, AllocError> {
        let way = self.joining.wanted.reading.direction.word();
        let Name { user, id } = name;
        let from = came.began().unwrap_or(0);
        let from = from.saturating_add(self.joining.words.span.from.unwrap_or(0));
        let list = missing_of(alloc, came)?;
        format!(in alloc;
            "{{\"name\":\"{way} {user}/{id}\",\"from\":{from},\"missing\":\"{list}\"}}\n"
        )
    }

    // The file of the next message of a name.
    fn path_of(&mut self, name: Name, gives: bool) -> Result<String, AllocError> {
        let alloc = self.rt.alloc();
        let before = self.counts.get(&name).copied().unwrap_or(0);
        if gives {
            self.counts.insert(name, before.saturating_add(1))?;
        }
        let (folder, way) = (self.path, self.joining.wanted.reading.direction.word());
        let Name { user, id } = name;
        format!(in alloc; "{folder}/{way}-{user}-{id}.{before}")
    }
}

impl<R: Machine> TakerAs for Placed<'_, R> {
    ghost use Rattle.std.specs.Prelude.{None};

    ghost heard = { λ _. None };

    fn take(&mut self, name: Name, news: &NewsAs) -> Result<(), StreamFault> {
        let alloc = self.rt.alloc();
        let gives = matches!(news, NewsAs::Given(_) | NewsAs::Overtaken(_, _));
        let Ok(path) = self.path_of(name, gives) else {
            return Err(StreamFault::Memory);
        };
        self.shelf.take(name, news, path.as_str())?;
        match news {
            NewsAs::Dropped(came) | NewsAs::Overtaken(came, _) => {
                let line = self.lost_line(alloc, name, came);
                self.print(line)?;
            }
            NewsAs::Given(_) | NewsAs::Unfit(_) => {}
        }
        if gives {
            let line = self.whole_line(alloc, name);
            self.print(line)?;
        }
        Ok(())
    }
}

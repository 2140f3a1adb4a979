//! Every message of packets, each written into a file of its own.

ghost use Rattle.std.specs.Prelude.{◌≡◌, IfErr};

use crate::joins::{Joining, source_of, tell, tell_none, tell_skips, unfit_text, who};
use crate::placed_joins::write_placed;
use lpt_carried::{Name, Reading, Skips, name_text};
use lpt_io::{Failure, Fault, Machine, Packets, Status, failure_at, read_ended, write_beside};
use lpt_layout_each::{CameAs, NewsAs, Shelf, write_messages};
use lpt_layout_join::{PartNumbers, missing_list};
use lpt_part::Kind;
use lpt_text::StreamFault;
use std::alloc::{AllocError, Global};
use std::fs;
use std::rt::Files;

/// The machine's files, of which each message gets a new one, and standard error, which is told of
/// what never became whole.
#[derive(Drop)]
pub(crate) struct MachineShelf<'a, R: Machine> {
    rt: &'a R,
    joining: Joining<'a>,
    // Whether a part came, and whether parts never became whole.
    came: bool,
    lost: bool,
    // Why a message couldn't be written.
    failure: Option<Failure>,
}

impl<R: Machine> Shelf for MachineShelf<'_, R> {
    ghost use Rattle.std.specs.Prelude.{None};

    // What the machine's files have isn't known to the prover.
    ghost heard = { λ _. None };

    ghost files = { λ _. None };

    fn take(&mut self, name: Name, news: &NewsAs, path: &str) -> Result<(), StreamFault> {
        self.came = true;
        match news {
            NewsAs::Given(message) => self.write_given(path, message.as_slice()),
            NewsAs::Overtaken(_, message) => {
                self.tell_given_up(name, news)?;
                self.write_given(path, message.as_slice())
            }
            lost => self.tell_given_up(name, lost),
        }
    }
}

impl<R: Machine> MachineShelf<'_, R> {
    /// Notes why something couldn't be written.
    pub(crate) fn fail(&mut self, failure: Failure) {
        self.failure = Some(failure);
    }

    // Writes a message that became whole into a new file at this path: all of it, or there is no
    // file.
    //
    // Errors: `Write`, also if there is a file at this path.
    fn write_given(&mut self, path: &str, message: &[u8]) -> Result<(), StreamFault>
        ensures { IfErr result (λ e. e ≡ StreamFault.Write) }
    {
        match write_new(self.rt, path, message) {
            Ok(()) => Ok(()),
            Err(failure) => {
                self.failure = Some(failure);
                Err(StreamFault::Write)
            }
        }
    }

    // Says and notes that parts never became whole. The only error is out of memory.
    fn tell_given_up(&mut self, name: Name, news: &NewsAs) -> Result<(), StreamFault>
        ensures { IfErr result (λ e. e ≡ StreamFault.Memory) }
    {
        self.lost = true;
        let Joining {
            voice,
            user,
            wanted,
            words,
        } = self.joining;
        voice.clear(self.rt);
        let from = words.span.from.unwrap_or(0);
        match tell_lost(self.rt, user, &wanted.reading, from, name, news) {
            Ok(()) => Ok(()),
            Err(_) => Err(StreamFault::Memory),
        }
    }
}

/// Writes octets under another name, and gives them this one once all are there.
///
/// Errors: `Write`, also if there is a file of this name; `Memory`.
pub fn write_new(
    rt: &(impl Files + AllocGlobal),
    path: &str,
    octets: &[u8],
) -> Result<(), Failure> {
    if fs::symlink_metadata(rt, path).is_ok() {
        let place = format!(in rt.alloc(); "{path} is there already");
        return Err(Failure::at(Fault::Write, place));
    }
    write_beside(rt, path, octets)
}

/// Says what of a name never became whole, if this source is configured and packets are taken
/// from this octet on. The only error is out of memory.
pub fn tell_lost(
    rt: &(impl Eprint + AllocGlobal),
    user: u32,
    reading: &Reading,
    from: u64,
    name: Name,
    news: &NewsAs,
) -> Result<(), AllocError> {
    let word = name_text(rt.alloc(), source_of(user, reading), name)?;
    let who = who(rt.alloc(), user, reading, name)?;
    match news {
        NewsAs::Given(_) => Ok(()),
        NewsAs::Dropped(came) | NewsAs::Overtaken(came, _) => {
            tell(rt, missing_text(rt.alloc(), &who, &word, came, from))
        }
        NewsAs::Unfit(misfit) => tell(rt, unfit_text(rt.alloc(), &who, *misfit)),
    }
}

/// Writes every message that packets carry which were opened, each into a file of its own in the
/// folder at this path, which is made if it isn't there.
///
/// Errors: `Read` if they can't be read, or their capture is wrong; `Write` if the folder can't be
/// made, or a message can't be written into a file that isn't there yet; `Memory`.
pub fn write_each<'a, R: Machine>(
    rt: &'a R,
    joining: Joining<'a>,
    path: &'a str,
    source: &mut Packets<R>,
) -> Result<Status, Failure> {
    if let Err(error) = fs::create_dir_all(rt, path) {
        return Err(failure_at(rt, Fault::Write, path, &error));
    }
    let shelf = MachineShelf {
        rt,
        joining,
        came: false,
        lost: false,
        failure: None,
    };
    let words = joining.words;
    let (ended, shelf) = if words.json {
        write_placed(rt, joining, path, source, shelf)
    } else {
        let reading = &joining.wanted.reading;
        write_messages(rt.alloc(), reading, words.any, path, source, shelf)
    };
    let MachineShelf {
        came,
        lost,
        failure,
        ..
    } = shelf;
    let read = read_ended(rt, joining.voice, source, &words.files, ended);
    if let Some(failure) = failure {
        drop(read);
        return Err(failure);
    }
    Ok(tell_outcome(rt, &joining, came, lost, &read?)?)
}

// The status of a join whose stream was read to its end, after standard error was told if no part
// came, and, if not all is well or what was passed over may hold messages, what that was. The only
// error is out of memory.
fn tell_outcome(
    rt: &(impl Eprint + AllocGlobal),
    joining: &Joining<'_>,
    came: bool,
    lost: bool,
    skips: &Skips,
) -> Result<Status, AllocError> {
    let wanted = &joining.wanted;
    if came && !lost && !skips.loses(wanted) {
        return Ok(Status::Done);
    }
    if !came {
        tell_none(rt, &wanted.reading, skips)?;
    }
    tell_skips(rt, joining.user, wanted, joining.words.span.from, skips)?;
    Ok(Status::Refused)
}

// Which parts of the message of this word are missing, as a list for `split --each`, and from where
// on others of it came, if that is known. The only error is out of memory.
fn missing_text(
    alloc: Global,
    who: &str,
    word: &str,
    came: &CameAs,
    from: u64,
) -> Result<String, AllocError> {
    let list = missing_of(alloc, came)?;
    match came.began() {
        Some(began) => {
            let place = began.saturating_add(from);
            format!(in alloc; "{who}: from octet {place} on, missing parts: {word}:{list}")
        }
        None => format!(in alloc; "{who}: missing parts: {word}:{list}"),
    }
}

/// Which parts of a message are missing of which these came, as a list. The only error is out of
/// memory.
pub(crate) fn missing_of(alloc: Global, came: &CameAs) -> Result<String, AllocError> {
    let numbers = numbers_of(alloc, came)?;
    let list = missing_list(alloc, &numbers);
    drop(numbers);
    list
}

// The numbers of the parts that came, up to 65,542.
fn numbers_of(alloc: Global, came: &CameAs) -> Result<PartNumbers, AllocError> {
    let mut numbers = PartNumbers::new(alloc);
    let end = match came.last() {
        Some(last) => last.number,
        None => 0,
    };
    let highest = came.highest().min(65_542) as u32;
    for number in 1..highest + 1 {
        let kind = if number == end {
            Kind::Last
        } else {
            Kind::Middle
        };
        if came.has(number) {
            numbers.add(number, kind)?;
        }
    }
    Ok(numbers)
}

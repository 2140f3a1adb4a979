//! What a pass puts on the link, noted on its way.

use lpt_ground_run::{Asked, Sink};
use std::alloc::Global;

/// How many sequence counts there are, less one.
const COUNTS: u16 = 0x3FFF;

/// Which requests of a pass are put, one behind the other.
#[derive(Drop)]
pub struct Puts {
    // Whether any of it is noted.
    on: bool,
    // The sequence count of the first request, and how many there are.
    first: u16,
    many: usize,
    // The places of the requests that were put, and whether memory ran out for some.
    places: Vec<usize>,
    short: bool,
    // How many octets of the packet that was put last are still to be written.
    left: usize,
}

impl Puts {
    // Nothing was put yet.
    fn new(alloc: Global, on: bool) -> Puts {
        Puts {
            on,
            first: 0,
            many: 0,
            places: Vec::new(alloc),
            short: false,
            left: 0,
        }
    }

    /// Begins to note what is put of a pass of these requests.
    pub fn begin(&mut self, asked: &[Asked]) {
        self.first = match asked.first() {
            Some(one) => count_of(one.octets.as_slice()),
            None => 0,
        };
        self.many = asked.len();
    }

    /// The places of what was put, and whether they are all; from now on there are none.
    pub fn take(&mut self, alloc: Global) -> (Vec<usize>, bool) {
        let places = std::mem::replace(&mut self.places, Vec::new(alloc));
        (places, !self.short)
    }

    // A packet is written from its first octet on, or what was left of it. A pass of one request
    // puts that alone, perhaps in parts.
    fn write(&mut self, octets: &[u8]) {
        if !self.on || self.left != 0 {
            return;
        }
        self.left = octets.len();
        let place = match self.many {
            1 => 0,
            _ => usize::from(count_of(octets).wrapping_sub(self.first) & COUNTS),
        };
        if self.places.push(place).is_err() {
            self.short = true;
        }
    }

    // So many octets of it were taken.
    fn took(&mut self, many: usize) {
        self.left = self.left.saturating_sub(many);
    }
}

// The sequence count of a packet.
fn count_of(packet: &[u8]) -> u16 {
    match packet {
        [_, _, high, low, ..] => u16::from_be_bytes([*high, *low]) & COUNTS,
        _ => 0,
    }
}

/// What is written to, with what is put there.
#[derive(Drop)]
pub struct Noted<K: Sink + Drop> {
    /// What is written to.
    pub out: K,
    /// What is put.
    pub puts: Puts,
}

impl<K: Sink + Drop> Noted<K> {
    /// What is written to this, noted if that is wanted.
    pub fn new(alloc: Global, out: K, on: bool) -> Self {
        Noted {
            out,
            puts: Puts::new(alloc, on),
        }
    }
}

impl<K: Sink + Drop> Sink for Noted<K> {
    ghost contents = { λ noted. K.contents noted.out };

    ghost flushed = { λ noted. K.flushed noted.out };

    ghost failed = { λ noted. K.failed noted.out };

    fn write(&mut self, buf: &[u8]) -> Option<usize> {
        self.puts.write(buf);
        let taken = self.out.write(buf);
        if let Some(many) = taken {
            self.puts.took(many);
        }
        taken
    }

    fn flush(&mut self) -> bool {
        self.out.flush()
    }
}

//! The octets of a reception, in a buffer that never takes more memory than the longest message.

ghost use Rattle.std.specs.Prelude.{◌≡◌, ◌+◌, ◌≤◌, [], length, take, vec_capacity, IfOk, OnOk, OnErr};
ghost use Rattle.lpt_packet.specs.Sizes.{longest_packet};
ghost use Rattle.lpt_reception.specs.Buffers.{octets_padded, octets_written, octets_zeroed};

use lpt_packet::LONGEST_PACKET;
use std::alloc::{AllocError, Global};
use std::marker::Model;
use std::mem;

/// Octets in a buffer that holds at most 65,542, in what is allocated too.
#[derive(Drop)]
pub(crate) struct Buffer {
    octets: Vec<u8>,
}

impl Model for Buffer {
    ghost use Rattle.std.specs.Prelude.{ℕ, List, ◌≤◌, vec_capacity};
    ghost use Rattle.lpt_packet.specs.Sizes.{longest_packet};

    ghost Value = { List ℕ };

    ghost view = { λ a. a.octets.items };

    ghost invariant = { λ a. vec_capacity a.octets ≤ longest_packet };
}

impl Buffer {
    /// No octets, which take no memory.
    pub(crate) fn new(alloc: Global) -> Buffer
        ensures { result ≡ [] }
    {
        Buffer {
            octets: Vec::new(alloc),
        }
    }

    /// The octets, borrowed.
    pub(crate) fn as_slice(&self) -> &[u8]
        ensures { result.now ≡ self.now }
    {
        self.octets.as_slice()
    }

    /// A copy of the octets. The only error is out of memory.
    pub(crate) fn copy(&self) -> Result<Vec<u8>, AllocError>
        ensures { IfOk result (λ v. v.items ≡ self.now) }
    {
        Vec::from_slice(*self.octets.allocator(), &self.octets)
    }

    /// The octets, which are not copied. They take no more memory than the longest message.
    pub(crate) fn into_vec(self) -> Vec<u8>
        ensures octets { result.items ≡ self }
        ensures bounded { vec_capacity result ≤ longest_packet }
    {
        let Buffer { octets } = self;
        octets
    }

    /// Writes octets from a place on, behind zeros if the buffer ends before it. An allocation
    /// failure leaves the buffer as it was.
    pub(crate) fn write(&mut self, start: usize, octets: &[u8]) -> Result<(), AllocError>
        requires { start + length octets.now ≤ longest_packet }
        ensures ok { OnOk result (self.new ≡ octets_written self.old start octets.now) }
        ensures err { OnErr result (self.new ≡ self.old) }
    {
        let end = start + octets.len();
        make_room(&mut self.octets, end)?;
        let empty = Vec::new(*self.octets.allocator());
        self.octets = pad(mem::replace(&mut self.octets, empty), end);
        self.octets[start..end].copy_from_slice(octets);
        Ok(())
    }

    /// Writes so many zeros from a place on.
    pub(crate) fn write_zeros(&mut self, start: usize, so_many: usize)
        requires { start + so_many ≤ length self.old }
        ensures { self.new ≡ octets_zeroed self.old start so_many }
    {
        self.octets[start..start + so_many].fill(0);
    }

    /// Leaves so many octets at the front.
    pub(crate) fn truncate(&mut self, so_many: usize)
        ensures { self.new ≡ take so_many self.old }
    {
        self.octets.truncate(so_many);
    }
}

// Makes room for so many octets. If there is too little it asks for twice as much, so that a
// buffer grows few times, but for no more than the longest message takes.
fn make_room(buffer: &mut Vec<u8>, so_many: usize) -> Result<(), AllocError>
    requires fits { so_many ≤ longest_packet }
    requires bounded { vec_capacity buffer.old ≤ longest_packet }
    ensures same { buffer.new.items ≡ buffer.old.items }
    ensures room { OnOk result (so_many ≤ vec_capacity buffer.new) }
    ensures bounded { vec_capacity buffer.new ≤ longest_packet }
{
    let room = buffer.capacity();
    if so_many <= room {
        return Ok(());
    }
    let more = (2 * room).max(so_many).min(LONGEST_PACKET);
    buffer.reserve_exact(more - buffer.len())
}

// Puts zeros behind the octets if they are fewer than so many, for which there is room. It owns
// the buffer, so that a compiler sees that no octet changes its length, and fills it at once.
fn pad(mut buffer: Vec<u8>, so_many: usize) -> Vec<u8>
    requires { so_many ≤ vec_capacity buffer }
    ensures octets { result.items ≡ octets_padded buffer.items so_many }
    ensures same_room { vec_capacity result ≡ vec_capacity buffer }
{
    while buffer.len() < so_many {
        buffer.push_reserved(0);
    }
    buffer
}

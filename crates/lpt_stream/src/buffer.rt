//! The pieces of a stream, packets and what is none, found as it comes.

ghost use Rattle.std.specs.Prelude.{◌≤◌, drop, length, take};
ghost use Rattle.lpt_stream.specs.Searches.{Knows};
ghost use Rattle.lpt_stream.specs.Pieces.{most_kept};

use crate::cutting::whole_length;
use crate::found::{Found, length_announced, other_in_front, packet_unless};
use crate::waiting::waits;
use crate::{Cut, Peer, PieceKind, Search};
use lpt_text::{Sink, StreamFault, flush_out};
use std::alloc::{AllocError, Global};

/// How many octets are asked for at a time.
const CHUNK: usize = 65_536;

/// So many octets show what begins in front of them: those of the two longest packets.
const LOOKAHEAD: usize = 131_084;

/// The octets of a stream that were read and not passed over yet.
///
/// What it keeps doesn't grow with the stream: at most 196,619 octets, which are fewer than those
/// of two packets, and what one read gives. Behind octets that are no packet, registers of the
/// checksum are kept as well, 2 octets each: one for each octet of two packets at most, and as many
/// as the octets of one.
#[derive(Drop)]
pub struct PacketBuffer {
    // What was read stands in front, and behind it what has been, in which the next is read.
    octets: Vec<u8>,
    // How many of them were passed over.
    start: usize,
    // How many were read, those among them.
    end: usize,
    // How the stream is cut.
    cut: Cut,
    // Whether they come right behind a packet.
    in_step: bool,
    // Whether the stream's end was read.
    ended: bool,
    // What is known of the checksums of packets that may begin within what is held.
    search: Search,
    ghost ordered: { start ≤ end },
    ghost within: { end ≤ length octets.items },
    ghost few: { length octets.items ≤ most_kept },
    ghost known: { Knows search (drop start (take end octets.items)) },
}

impl PacketBuffer {
    ghost use Rattle.std.specs.Prelude.{◌≡◌, ◌≢◌, ◌⊎◌, ◌+◌, ◌<◌, [], drop, take, true, false, None, Err, IfSome, OnOk};
    ghost use Rattle.std.specs.Io.KnownBytes.{Keeps};
    ghost use Rattle.lpt_text.specs.Streams.{WriteEnds};
    ghost use Rattle.lpt_stream.specs.Buffers.{cut_of, octets_held, is_ended, is_in_step, octets_kept, Fills, FindsPassing, IsInFront, IsUnsettled};
    ghost use Rattle.lpt_stream.specs.declared.piece_kind.PieceKind.TheVariants.{Stray};
    ghost use Rattle.lpt_stream.specs.Pieces.{begins_by, keeps_step, lookahead, stays_judged, waits_by};

    /// A stream of which nothing was read.
    pub fn new(alloc: Global, cut: Cut) -> Self
        ensures held { octets_held result ≡ [] }
        ensures cut { cut_of result ≡ cut }
        ensures step { is_in_step result ≡ true }
        ensures end { is_ended result ≡ false }
    {
        PacketBuffer {
            octets: Vec::new(alloc),
            start: 0,
            end: 0,
            cut,
            in_step: true,
            ended: false,
            search: Search::new(alloc),
        }
    }

    /// The octets that were read and not passed over yet.
    pub fn octets_held(&self) -> &[u8]
        ensures { result.now ≡ octets_held self.now }
    {
        &self.octets[self.start..self.end]
    }

    /// Whether the stream's end was read.
    pub fn is_ended(&self) -> bool
        ensures { result ≡ is_ended self.now }
    {
        self.ended
    }

    /// Cites for how many octets there is room, of which some are held.
    pub fn few_are_kept(&self)
        ensures { length (octets_kept self.now) ≤ most_kept }
    {
        let _start = self.start;
    }

    /// Passes over the piece that was found in front.
    pub fn skip(&mut self, found: Found)
        requires { found.len ≤ length (octets_held self.old) }
        ensures held { octets_held self.new ≡ drop found.len (octets_held self.old) }
        ensures cut { cut_of self.new ≡ cut_of self.old }
        ensures step { is_in_step self.new ≡ keeps_step found.kind }
        ensures end { is_ended self.new ≡ is_ended self.old }
    {
        self.search.pass(found.len);
        self.start += found.len;
        self.in_step = found.kind != PieceKind::Stray;
    }

    /// Reads until the octets that are held show which piece is in front of them, and gives it.
    /// If they do already, nothing is read. Before each read `out` passes on what it has kept
    /// back.
    ///
    /// There is none if the stream is at its end and nothing is held.
    ///
    /// Errors: `Read` if a read failed; `Memory`, with which some octets of the stream are lost;
    /// `Write` if `out` failed. All that was read is held then.
    pub fn find_piece_passing<P: Peer, K: Sink>(
        &mut self,
        source: &mut P,
        out: &mut K,
    ) -> Result<Option<Found>, StreamFault>
        ensures finds { FindsPassing result self.old self.new (P.remaining source.old)
            (P.remaining source.new) (P.failed source.old) (P.failed source.new) }

        // What was written stays, and if something was read, all of it was passed on before.
        ensures same { Keeps (K.contents out.old) (K.contents out.new) }
        ensures passed { result ≢ Err StreamFault.Write →
            (source.new ≡ source.old) ⊎ (K.flushed out.new ≡ K.contents out.new) }
        ensures writer { WriteEnds result (K.failed out.old) (K.failed out.new) }
    {
        if self.shows_none() {
            return Ok(Some(Found {
                kind: PieceKind::Stray,
                len: 1,
            }));
        }
        let mut is_judged = false;
        loop {
            match self.piece_settled(is_judged) {
                Some(found) => return Ok(Some(found)),
                None if self.ended => return Ok(None),
                None => {}
            }
            is_judged = self.stays_judged();
            match flush_out(out) {
                Ok(()) => {}
                Err(fault) => return Err(fault),
            }
            match self.fill_passing(source, out) {
                Ok(()) => {}
                Err(fault) => return Err(fault),
            }
        }
    }

    // The piece in front, as soon as nothing that may come behind the octets that are held can
    // change it. If it is judged already that no packet is there, that isn't looked at again.
    fn piece_settled(&self, is_judged: bool) -> Option<Found>
        requires { is_judged ≡ true
            → begins_by (cut_of self.now) (is_in_step self.now)
            (take lookahead (octets_held self.now))
            ≡ false }
        ensures some { IfSome result (IsInFront self.now) }
        ensures none { result ≡ None → IsUnsettled self.now }
    {
        let octets = self.octets_held();
        if octets.is_empty() {
            return None;
        }
        let near = &octets[..LOOKAHEAD.min(octets.len())];
        match packet_unless(is_judged, self.cut, near, self.in_step) {
            Some(len) => {
                return Some(Found {
                    kind: PieceKind::Whole,
                    len,
                });
            }
            None => {}
        }
        if self.is_unsettled(near) {
            return None;
        }
        Some(other_in_front(self.cut, near, self.in_step))
    }

    // Whether it shows already, behind octets that are no packet, that none begins in front: the
    // checksum of what a header there announces is wrong. However long that is, this takes a few
    // steps.
    fn shows_none(&mut self) -> bool
        ensures stray { result ≡ true
            → IsInFront self.new (record { kind = Stray; len = 1 }) }
        ensures held { octets_held self.new ≡ octets_held self.old }
        ensures cut { cut_of self.new ≡ cut_of self.old }
        ensures step { is_in_step self.new ≡ is_in_step self.old }
        ensures end { is_ended self.new ≡ is_ended self.old }
    {
        if self.in_step {
            return false;
        }
        let octets = &self.octets[self.start..self.end];
        match length_announced(&octets[..LOOKAHEAD.min(octets.len())]) {
            Some(len) => !self.search.may_fit(octets, len),
            None => false,
        }
    }

    // Whether what is in front of these octets, which is no packet, depends on what may still come.
    fn is_unsettled(&self, near: &[u8]) -> bool
        requires { begins_by (cut_of self.now) (is_in_step self.now) near.now ≡ false }
        ensures waits { result ≡ true
            → (waits_by (cut_of self.now) (is_in_step self.now) near.now ≡ true)
            × (length near.now < 131084) × (is_ended self.now ≡ false) }
        ensures shows { result ≡ false
            → (waits_by (cut_of self.now) (is_in_step self.now) near.now ≡ false)
            ⊎ (is_ended self.now ≡ true) }
    {
        !self.ended && waits(self.cut, near, self.in_step)
    }

    // Whether no more octets change that no packet begins in front: as many are held as the header
    // there says, and those behind them don't count.
    fn stays_judged(&self) -> bool
        ensures { result ≡ stays_judged (cut_of self.now) (octets_held self.now) }
    {
        match self.cut {
            Cut::Sealed | Cut::Framed => whole_length(self.octets_held()).is_some(),
            Cut::Resumed(_) => false,
        }
    }

    // Reads some octets behind those that are held, or the stream's end, once a sink has passed on
    // all that was written to it.
    fn fill_passing<P: Peer, K: Sink>(&mut self, peer: &mut P, out: &K) -> Result<(), StreamFault>
        requires more { is_ended self.old ≡ false }
        requires few { length (octets_held self.old) < lookahead }
        requires flushed { K.flushed out.now ≡ K.contents out.now }
        ensures { Fills result self.old self.new (P.remaining peer.old) (P.remaining peer.new)
            (P.failed peer.old) (P.failed peer.new) }
    {
        self.compact();
        let Ok(()) = self.make_room() else {
            return Err(StreamFault::Memory);
        };
        let room = self.end..self.end + CHUNK;
        let Some(given) = peer.read(out, &mut self.octets[room]) else {
            return Err(StreamFault::Read);
        };
        self.ended = given == 0;
        self.end += given;
        Ok(())
    }

    // Moves what is held to the front.
    fn compact(&mut self)
        ensures held { octets_held self.new ≡ octets_held self.old }
        ensures front { self.new.start ≡ 0 }
        ensures last { self.new.end ≡ length (octets_held self.old) }
        ensures step { is_in_step self.new ≡ is_in_step self.old }
        ensures cut { cut_of self.new ≡ cut_of self.old }
        ensures end { is_ended self.new ≡ is_ended self.old }
    {
        self.octets.copy_within(self.start..self.end, 0);
        self.end -= self.start;
        self.start = 0;
    }

    // Makes room behind it for what a read gives.
    fn make_room(&mut self) -> Result<(), AllocError>
        requires { self.old.end < lookahead }
        ensures held { octets_held self.new ≡ octets_held self.old }
        ensures front { self.new.start ≡ self.old.start }
        ensures last { self.new.end ≡ self.old.end }
        ensures room { OnOk result (self.new.end + 65536 ≤ length self.new.octets.items) }
        ensures step { is_in_step self.new ≡ is_in_step self.old }
        ensures cut { cut_of self.new ≡ cut_of self.old }
        ensures end { is_ended self.new ≡ is_ended self.old }
    {
        let room = self.end + CHUNK;
        if self.octets.len() < room {
            self.octets.resize(room, 0)?;
        }
        Ok(())
    }
}

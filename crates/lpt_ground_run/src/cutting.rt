//! What comes down, cut into packets that are handed over one after the other.

ghost use Rattle.std.specs.Prelude.{◌≡◌, ◌⊎◌, ◌∷◌, ◌++◌, ◌+◌, [], ℕ, Bool, true, List, Option, IfErr, IfOk, length, take};
ghost use Rattle.lpt_text.specs.Streams.{ReadEnds};
ghost use Rattle.lpt_stream.specs.Pieces.{Piece, octets_in, up_to_limit};
ghost use Rattle.lpt_stream.specs.Reads.{IsEndlessBy};
ghost use Rattle.lpt_stream.specs.Takes.{LeavesBy, ReadsBy};
ghost use Rattle.lpt_ground_run.specs.Halts.{cut_of, is_end, passed_in, Hands, HasHanded, Rises};
ghost use Rattle.lpt_ground_run.specs.Handing.{not_written, Gains, GainsPart, IsPacketOf, packets_in};

use crate::halt::{Halt, halt_damaged, halt_of};
use lpt_packet::Octets;
use lpt_stream::{Cut, PacketBuffer, PieceKind};
use lpt_text::{FromStd, Source, StreamFault};
use std::alloc::Global;

/// Where the packets that come down are handed over.
pub trait Outlet {
    // Which packets may be handed over.
    ghost may: { List ℕ → Type 0 };

    // What was handed over, if that is known.
    ghost handed: { Self → Option (List (List ℕ)) };

    // How many octets were passed over.
    ghost strays: { Self → ℕ };

    // Whether more are taken.
    ghost is_open: { Self → Bool };

    /// Hands a packet over, and answers whether more are taken.
    fn hand(&mut self, packet: Octets) -> bool
        requires { may packet }
        ensures handed { Gains (handed self.old) (handed self.new) (packet ∷ []) }
        ensures strays { strays self.new ≡ strays self.old }
        ensures more { result ≡ is_open self.new };

    /// Counts an octet that is passed over, since no packet begins there.
    fn pass(&mut self)
        ensures handed { handed self.new ≡ handed self.old }
        ensures strays { Rises (strays self.old) (strays self.new) 1 }
        ensures more { is_open self.new ≡ is_open self.old };

    /// Is told that a damaged packet of so many octets is passed over.
    fn skip(&mut self, octets: usize)
        ensures handed { handed self.new ≡ handed self.old }
        ensures strays { strays self.new ≡ strays self.old }
        ensures more { is_open self.new ≡ is_open self.old };
}

/// How what comes down is cut.
#[derive(Clone, Copy)]
pub struct Cutting {
    /// How many octets the longest packet of the link has: no longer length is believed.
    pub longest: usize,
    /// Whether it goes on past octets with which no packet begins.
    pub resumes: bool,
}

/// Reads a stream to its end, or until no more is taken, and hands over the packets into which it
/// is cut, each as soon as nothing that may still come changes it. A packet whose length leads on
/// to another one, and whose checksum is wrong, is passed over. It ends at octets with which no
/// packet begins, and at a packet of another version. If it resumes, it passes over them instead,
/// and goes on where packets follow one another.
///
/// Errors: `Read` if a read failed, or if 2^64 - 1 pieces came; `Memory`. A front part was
/// handed over.
pub fn hand_packets<S: Source, O: Outlet>(
    alloc: Global,
    source: &mut S,
    outlet: &mut O,
    cutting: Cutting,
) -> Result<Halt, StreamFault>
    requires open { O.is_open outlet.old ≡ true }

    // Each packet of what comes may be handed over.
    requires may { (o : List ℕ) → IsPacketOf cutting.longest (S.remaining source.old) o → O.may o }

    // It answers where it ended: the packets up to there were handed over, in their order.
    ensures handed { IfOk result (λ halt. ReadsBy (cut_of cutting) (S.remaining source.old)
        (S.remaining source.new) (is_end halt)
        (Hands cutting.resumes 0 (O.is_open outlet.new) halt (O.handed outlet.old)
        (O.handed outlet.new) (O.strays outlet.old) (O.strays outlet.new))) }
    ensures leaves { IfErr result (λ _. LeavesBy (cut_of cutting) (S.remaining source.old)
        (S.remaining source.new)
        (λ pieces. GainsPart (O.handed outlet.old) (O.handed outlet.new) (packets_in pieces)
        × Rises (O.strays outlet.old) (O.strays outlet.new) (passed_in cutting.resumes pieces))) }
    ensures reader { ReadEnds
        (IsEndlessBy (cut_of cutting) (S.remaining source.old) (S.remaining source.new)) result
        (S.failed source.old) (S.failed source.new) }
    ensures fault { IfErr result (λ e. (e ≡ StreamFault.Read) ⊎ (e ≡ StreamFault.Memory)) }
{
    let first = Hander {
        cutting,
        halt: Halt::End,
    };
    match hand_pieces(alloc, source, first, outlet) {
        Ok(last) => Ok(last.halt),
        Err(fault) => Err(not_written(fault)),
    }
}

// The same, as a hander that has taken nothing yet.
fn hand_pieces<S: Source, O: Outlet>(
    alloc: Global,
    source: &mut S,
    first: Hander,
    lent: &mut O,
) -> Result<Hander, StreamFault>
    requires open { O.is_open lent.old ≡ true }
    requires end { first.halt ≡ Halt.End }
    requires may { (o : List ℕ) → IsPacketOf first.cutting.longest (S.remaining source.old) o
        → O.may o }
    ensures taken { IfOk result (λ now. ReadsBy (cut_of first.cutting) (S.remaining source.old)
        (S.remaining source.new) (is_end now.halt)
        (HasHanded 0 first.cutting now.cutting (O.is_open lent.new) now.halt (O.handed lent.old)
        (O.handed lent.new) (O.strays lent.old) (O.strays lent.new))) }
    ensures leaves { IfErr result (λ _. LeavesBy (cut_of first.cutting) (S.remaining source.old)
        (S.remaining source.new)
        (λ pieces. GainsPart (O.handed lent.old) (O.handed lent.new) (packets_in pieces)
        × Rises (O.strays lent.old) (O.strays lent.new) (passed_in first.cutting.resumes pieces))) }
    ensures reader { ReadEnds
        (IsEndlessBy (cut_of first.cutting) (S.remaining source.old) (S.remaining source.new))
        result (S.failed source.old) (S.failed source.new) }
{
    // Nothing is written here.
    let mut out = FromStd::new(Vec::new(alloc));
    let cut = first.cut();
    let mut buffer = PacketBuffer::new(alloc, cut);
    let mut taker = first;
    let mut place = 0;
    for count in 0..u64::MAX {
        if !taker.halt.is_end() {
            return Ok(taker);
        }
        let Some(found) = buffer.find_piece_passing(source, &mut out)? else {
            return Ok(taker);
        };
        let octets = &buffer.octets_held()[..found.len];
        taker = taker.take(alloc, lent, place, found.kind, octets)?;
        place = place.saturating_add(found.len as u64);
        buffer.skip(found);
    }
    Err(StreamFault::Read)
}

// The same fault if nothing is written: no write ever fails then.
fn not_written(fault: StreamFault) -> StreamFault
    ensures { result ≡ not_written fault }
{
    match fault {
        StreamFault::Write => StreamFault::Memory,
        fault => fault,
    }
}

// How far a stream was handed over.
#[derive(Clone, Copy)]
struct Hander {
    cutting: Cutting,
    // Where it has ended; at the stream's end, as far as is known yet.
    halt: Halt,
}

impl Hander {
    // How its stream is cut.
    fn cut(&self) -> Cut
        ensures { result ≡ cut_of self.now.cutting }
    {
        Cut::Resumed(self.cutting.longest)
    }

    // Takes the next piece, which stands at this place of the stream.
    fn take<O: Outlet>(
        self,
        alloc: Global,
        lent: &mut O,
        place: u64,
        kind: PieceKind,
        octets: &[u8],
    ) -> Result<Hander, StreamFault>
        requires open { is_end self.halt ≡ true }
        requires may { kind ≡ PieceKind.Whole → O.may octets.now }
        ensures taken { (from : ℕ) (first : Cutting) (old : O) (pieces : List Piece)
            → HasHanded from first self.cutting (O.is_open lent.old) self.halt (O.handed old)
            (O.handed lent.old) (O.strays old) (O.strays lent.old) pieces
            → place ≡ up_to_limit (from + octets_in pieces)
            → IfOk result (λ now. HasHanded from first now.cutting (O.is_open lent.new) now.halt
            (O.handed old) (O.handed lent.new) (O.strays old) (O.strays lent.new)
            (pieces ++ record { kind = kind; octets = octets.now } ∷ [])) }
        ensures left { (from : ℕ) (first : Cutting) (old : O) (pieces : List Piece)
            → HasHanded from first self.cutting (O.is_open lent.old) self.halt (O.handed old)
            (O.handed lent.old) (O.strays old) (O.strays lent.old) pieces
            → IfErr result (λ _.
            GainsPart (O.handed old) (O.handed lent.new)
            (packets_in (pieces ++ record { kind = kind; octets = octets.now } ∷ []))
            × Rises (O.strays old) (O.strays lent.new)
            (passed_in first.resumes
            (pieces ++ record { kind = kind; octets = octets.now } ∷ []))) }
        ensures fault { IfErr result (λ e. (e ≡ StreamFault.Write) ⊎ (e ≡ StreamFault.Memory)) }
    {
        match kind {
            PieceKind::Damaged => {
                lent.skip(octets.len());
                Ok(Hander {
                    cutting: self.cutting,
                    halt: halt_damaged(self.cutting.resumes, place, octets),
                })
            }
            PieceKind::Stray if self.cutting.resumes => {
                lent.pass();
                Ok(self)
            }
            PieceKind::Stray => Ok(Hander {
                cutting: self.cutting,
                halt: Halt::Stray(place),
            }),
            PieceKind::Whole => {
                let packet = Octets::from_vec(Vec::from_slice(alloc, octets)?);
                let more = lent.hand(packet);
                Ok(Hander {
                    cutting: self.cutting,
                    halt: halt_of(more),
                })
            }
        }
    }
}

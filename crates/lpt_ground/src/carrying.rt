//! A pass carried to its end, over what is heard and what is written.

ghost use Rattle.std.specs.Prelude.{◌≡◌, ◌<◌, ◌∷◌, ℕ, [], Bool, true, List, Option, length, IfOk, OnOk};
ghost use Rattle.lpt_ground.specs.Carrying.{ready_answer, wait_answer, Answer, AreTold, Comes, Hears, StaysKept, Stepped, Went};
ghost use Rattle.lpt_ground.specs.Passes.{next_step, state_of};

use crate::{Asked, End, Pass, Step};
use lpt_packet::Octets;
use lpt_text::{Sink, StreamFault, flush_out, write_out};

/// What came while a pass listened.
#[derive(Drop)]
pub enum Waited {
    /// This packet.
    Packet(Octets),
    /// None, for as long as a pass waits.
    Quiet,
    /// None, and none will come any more.
    End,
}

/// Where a pass hears packets, and where what became of its requests is kept.
pub trait Ear {
    // What it answered so far, if that is known.
    ghost told: { Self → Option (List Answer) };

    // Which packets can come.
    ghost comes: { List ℕ → Type 0 };

    // Whether it was told of the requests since a wait was over in which nothing came.
    ghost is_kept: { Self → Bool };

    /// A packet that has come, if one has. It doesn't wait.
    fn ready(&mut self) -> Option<Octets>
        requires { is_kept self.old ≡ true }
        ensures told { Hears (told self.old) (told self.new) (ready_answer result ∷ []) }
        ensures comes { Comes comes (ready_answer result) }
        ensures kept { is_kept self.new ≡ true };

    /// Waits for a packet, for as long as a pass waits. The sink has passed on all that was put.
    fn wait<K: Sink>(&mut self, out: &K) -> Waited
        requires round { is_kept self.old ≡ true }
        requires passed { K.flushed out.now ≡ K.contents out.now }
        ensures told { Hears (told self.old) (told self.new) (wait_answer result ∷ []) }
        ensures comes { Comes comes (wait_answer result) }
        ensures kept { StaysKept (wait_answer result) (is_kept self.new) };

    /// Is told of the requests before each round, so that it may keep those that are settled, and
    /// answers whether the round may begin.
    fn keep(&mut self, asked: &[Asked]) -> bool
        ensures told { told self.new ≡ told self.old }
        ensures kept { result ≡ true → is_kept self.new ≡ true };
}

/// Carries a pass to its end: puts its requests to the sink, and hears what comes. Before each
/// round, and at the end, the ear is told of the requests. Before each wait the sink passes on what
/// it has kept back.
///
/// Errors: `Write` if a write failed, or if the ear couldn't keep the requests; `Read` if
/// it took 2^64 - 1 steps. What became of the requests stays.
pub fn carry<E: Ear, K: Sink>(pass: &mut Pass, ear: &mut E, out: &mut K) -> Result<End, StreamFault>
    // It is at its end, and each request that waited was told done by what was heard.
    ensures stop { IfOk result (λ e. next_step (state_of pass.new) ≡ Step.Stop e) }
    ensures done { IfOk result (λ e. e ≡ End.Done
        → AreTold E.comes pass.old.terms pass.old.asked.items (E.told ear.old) (E.told ear.new)) }

    // What it wrote, and what became of it, follows from what it heard.
    ensures paced { OnOk result (Went E.comes pass.old.terms (state_of pass.old) (state_of pass.new)
        (E.told ear.old) (E.told ear.new) (K.contents out.old) (K.contents out.new)) }
    ensures terms { pass.new.terms ≡ pass.old.terms }
{
    if !ear.keep(pass.requests_asked()) {
        return Err(StreamFault::Write);
    }
    for _ in 0..u64::MAX {
        let step = pass.next();
        if let Step::Stop(end) = step {
            return Ok(end);
        }
        turn(pass, step, ear, out)?;
    }
    Err(StreamFault::Read)
}

// Does what comes next.
fn turn<E: Ear, K: Sink>(
    pass: &mut Pass,
    step: Step,
    ear: &mut E,
    out: &mut K,
) -> Result<(), StreamFault>
    requires round { E.is_kept ear.old ≡ true }
    requires next { next_step (state_of pass.old) ≡ step }
    requires within { (k : ℕ) → step ≡ Step.Put k → k < length pass.old.asked.items }
    ensures ok { OnOk result (Stepped E.comes pass.old.terms (state_of pass.old)
        (state_of pass.new) (E.told ear.old) (E.told ear.new) (K.contents out.old)
        (K.contents out.new)) }
    ensures kept { OnOk result (E.is_kept ear.new ≡ true) }
    ensures terms { pass.new.terms ≡ pass.old.terms }
{
    match step {
        Step::Put(k) => put_one(pass, k, ear, out),
        _ => listen(pass, ear, out),
    }
}

// Puts the request at this place, unless a packet has come.
fn put_one<E: Ear, K: Sink>(
    pass: &mut Pass,
    k: usize,
    ear: &mut E,
    out: &mut K,
) -> Result<(), StreamFault>
    requires round { E.is_kept ear.old ≡ true }
    requires next { next_step (state_of pass.old) ≡ Step.Put k }
    requires within { k < length pass.old.asked.items }
    ensures ok { OnOk result (Stepped E.comes pass.old.terms (state_of pass.old)
        (state_of pass.new) (E.told ear.old) (E.told ear.new) (K.contents out.old)
        (K.contents out.new)) }
    ensures kept { OnOk result (E.is_kept ear.new ≡ true) }
    ensures terms { pass.new.terms ≡ pass.old.terms }
{
    match ear.ready() {
        Some(octets) => {
            pass.hear(octets);
            Ok(())
        }
        None => {
            write_out(out, pass.octets(k))?;
            pass.request_sent(k);
            Ok(())
        }
    }
}

// Listens for a packet, for as long as a pass waits. If none comes a round begins.
fn listen<E: Ear, K: Sink>(pass: &mut Pass, ear: &mut E, out: &mut K) -> Result<(), StreamFault>
    requires { E.is_kept ear.old ≡ true }
    ensures ok { OnOk result (Stepped E.comes pass.old.terms (state_of pass.old)
        (state_of pass.new) (E.told ear.old) (E.told ear.new) (K.contents out.old)
        (K.contents out.new)) }
    ensures kept { OnOk result (E.is_kept ear.new ≡ true) }
    ensures terms { pass.new.terms ≡ pass.old.terms }
{
    flush_out(out)?;
    match ear.wait(out) {
        Waited::Packet(octets) => pass.hear(octets),
        Waited::End => pass.close(),
        Waited::Quiet => {
            pass.quiet();
            if !ear.keep(pass.requests_asked()) {
                return Err(StreamFault::Write);
            }
        }
    }
    Ok(())
}

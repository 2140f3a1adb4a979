//! The packets that settled requests, kept from one process to the next.

ghost use Rattle.std.specs.Prelude.{◌≡◌, IfOk, count_by};
ghost use Rattle.std.specs.List.{list_any};
ghost use Rattle.sha2.specs.Sha256.{sha256};
ghost use Rattle.lpt_ground.specs.Passes.{is_done, state_of};
ghost use Rattle.lpt_ground_run.specs.Keeping.{all_asked, all_kept, kept_by, HearsAgain};

use lpt_ground::{Asked, Fate, Pass};
use lpt_packet::Octets;
use lpt_stream::whole_length;
use sha2::{Digest, Sha256};
use std::alloc::{AllocError, Global};

/// A digest of the packets of requests, by which those of one pass are told from those of another.
pub fn digest_of(asked: &[Asked]) -> [u8; 32]
    ensures { result ≡ sha256 (all_asked asked.now) }
{
    let mut hasher = Sha256::new();
    for one in asked {
        hasher.update(one.octets.as_slice());
    }
    hasher.finalize()
}

/// The packets that settled requests, one behind the other, in the order of the requests. Of one
/// that failed there is none. The only error is out of memory.
pub fn kept_packets(alloc: Global, asked: &[Asked]) -> Result<Vec<u8>, AllocError>
    ensures { IfOk result (λ v. v.items ≡ all_kept asked.now) }
{
    let mut octets = Vec::new(alloc);
    for one in asked {
        octets.extend_from_slice(packet_of(&one.fate))?;
    }
    Ok(octets)
}

// The packet that settled a request, if one did.
fn packet_of(fate: &Fate) -> &[u8]
    ensures { result.now ≡ kept_by fate.now }
{
    match fate {
        Fate::Done(octets) => octets.as_slice(),
        _ => &[],
    }
}

/// Has a pass hear packets again that stand one behind the other, and answers whether nothing else
/// stands behind them. The only error is out of memory, behind some of them.
pub fn hear_kept(alloc: Global, pass: &mut Pass, octets: &[u8]) -> Result<bool, AllocError>
    ensures again { IfOk result (HearsAgain pass.old.terms (state_of pass.old)
        (state_of pass.new) octets.now) }
    ensures terms { pass.new.terms ≡ pass.old.terms }
{
    let mut rest = octets;
    while let Some(len) = whole_length(rest) {
        let (front, behind) = rest.split_at(len);
        pass.hear(Octets::from_vec(Vec::from_slice(alloc, front)?));
        rest = behind;
    }
    Ok(rest.is_empty())
}

/// Whether a packet settled some of these requests. Of a pass that has only heard what was kept,
/// it came in an earlier run.
pub fn some_done(asked: &[Asked]) -> bool
    ensures { result ≡ list_any is_done asked.now }
{
    asked.iter().any(|one| was_done(one))
}

/// How many of these requests a packet settled. Of a pass that has only heard what was kept, they
/// came in an earlier run.
pub fn done_count(asked: &[Asked]) -> usize
    ensures { result ≡ count_by is_done asked.now }
{
    asked.iter().filter(|one| was_done(one)).count()
}

// Whether a packet settled this one.
fn was_done(asked: &Asked) -> bool
    ensures { result ≡ is_done asked.now }
{
    matches!(asked.fate, Fate::Done(_))
}

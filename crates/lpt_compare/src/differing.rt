//! The stretches in which two images differ.

ghost use Rattle.std.specs.Prelude.{◌≡◌, ◌<◌, ◌≤◌, IfOk, length};
ghost use Rattle.lpt_compare.specs.Differences.{AreStretches, IsFirstDiffering, Turns, block};

use std::alloc::{AllocError, Global};

/// A stretch of an image: the octets from a place up to, not including, another. Places count from
/// 0.
#[derive(Clone, Copy)]
pub struct Stretch {
    /// The place of its first octet.
    pub from: usize,
    /// The place behind its last octet.
    pub end: usize,
}

/// What a stretch has in two images.
#[derive(Clone, Copy)]
pub struct Change<'a> {
    /// The octets of the old image, which an undo writes.
    pub old: &'a [u8],
    /// The octets of the new image.
    pub new: &'a [u8],
}

impl Stretch {
    ghost use Rattle.std.specs.Prelude.{◌≡◌, ◌+◌, nat_le};
    ghost use Rattle.lpt_compare.specs.Differences.{octets_in};

    /// What it has in these images.
    pub fn change<'a>(&self, old: &'a [u8], new: &'a [u8]) -> Change<'a>
        ensures old { result.old.now ≡ octets_in old.now self.now }
        ensures new { result.new.now ≡ octets_in new.now self.now }
    {
        Change {
            old: self.octets_in(old),
            new: self.octets_in(new),
        }
    }

    // The octets that it has in this image.
    fn octets_in<'a>(&self, image: &'a [u8]) -> &'a [u8]
        ensures { result.now ≡ octets_in image.now self.now }
    {
        let end = self.end.min(image.len());
        let from = self.from.min(end);
        &image[from..end]
    }

    // Whether at most so many octets stand between its end and another behind it.
    fn reaches(&self, other: &Stretch, gap: usize) -> bool
        ensures { result ≡ nat_le other.now.from (self.now.end + gap) }
    {
        other.from <= self.end.saturating_add(gap)
    }
}

/// The stretches in which an old image differs from a new one of as many octets, in order.
///
/// Each begins and ends at a multiple of `align`, or ends where the images do. Two with at most
/// `gap` octets between them are one. Each image is gone through once. The only error is out of
/// memory.
pub fn differing_stretches(
    alloc: Global,
    old: &[u8],
    new: &[u8],
    gap: usize,
    align: usize,
) -> Result<Vec<Stretch>, AllocError>
    requires size { length old.now ≡ length new.now }
    requires align { 0 < align }
    ensures differ { IfOk result (λ v. AreStretches old.now new.now gap align 0 0 v.items) }

    // Loaded over the old image, what the new one has there makes the new one of it, and the other
    // way round.
    ensures patch { IfOk result (λ v. Turns old.now new.now v.items) }
    ensures undo { IfOk result (λ v. Turns new.now old.now v.items) }
{
    let mut stretches = Vec::new(alloc);
    let Some(first) = first_differing(old, new, 0) else {
        return Ok(stretches);
    };
    let mut last = block_of(first, align, old.len());
    while let Some(place) = first_differing(old, new, last.end) {
        let block = block_of(place, align, old.len());
        if last.reaches(&block, gap) {
            last.end = block.end;
        } else {
            stretches.push(last)?;
            last = block;
        }
    }
    stretches.push(last)?;
    Ok(stretches)
}

// The first place from this one on whose octets differ, if there is one.
fn first_differing(old: &[u8], new: &[u8], from: usize) -> Option<usize>
    requires { length old.now ≡ length new.now }
    ensures { IsFirstDiffering old.now new.now from result }
{
    for place in from..old.len() {
        if old[place] != new[place] {
            return Some(place);
        }
    }
    None
}

// The block of `align` octets, fewer at the end of an image of so many octets, that has this place.
fn block_of(place: usize, align: usize, size: usize) -> Stretch
    requires align { 0 < align }
    requires place { place < size }
    ensures { result ≡ block align size place }
{
    let from = place - place % align;
    Stretch {
        from,
        end: from + align.min(size - from),
    }
}

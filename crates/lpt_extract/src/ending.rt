//! How an extraction ends.

ghost use Rattle.std.specs.Prelude.{◌≡◌, List, IfErr, IfOk, IsOk};
ghost use Rattle.lpt_text.specs.Streams.{AppendsPart, WriteEnds};
ghost use Rattle.lpt_memory.specs.declared.request.Area.{Area};
ghost use Rattle.lpt_extract.specs.declared.notice.Notice.{Notice};
ghost use Rattle.lpt_extract.specs.ExtractsInside.{is_unbroken_so_far, written_last, EndsAs, EndsBy, HasImage, HeldAreas};

use crate::holding::Holding;
use crate::{ExtractEnd, Extracted, Wanted};
use lpt_text::{Sink, StreamFault, flush_out, write_out};

/// Ends an extraction once the stream was read: writes the image, if one is wanted, and passes on
/// what was written.
///
/// Errors: `Write` if a write failed, behind a front part of the image.
pub fn end_extract<K: Sink>(
    wanted: &Wanted,
    holding: Holding,
    out: &mut K,
) -> Result<Extracted, StreamFault>
    ensures ends { (areas : List Area) (ns : List Notice) → HeldAreas wanted.now.at areas ns holding
        → IfOk result (λ x. EndsAs wanted.now.at areas ns x
        (K.contents out.old) (K.contents out.new)) }
    ensures passed { IsOk result → K.flushed out.new ≡ K.contents out.new }
    ensures fault { IfErr result (λ e. e ≡ StreamFault.Write) }
    ensures part { (areas : List Area) (ns : List Notice) → HeldAreas wanted.now.at areas ns holding
        → IfErr result (λ _. AppendsPart (K.contents out.old) (K.contents out.new)
        (written_last wanted.now.at areas)) }
    ensures writer { WriteEnds result (K.failed out.old) (K.failed out.new) }
{
    let end = write_image(wanted, &holding, out)?;
    match flush_out(out) {
        Ok(()) => Ok(holding.into_extracted(end)),
        Err(fault) => Err(fault),
    }
}

// Writes the image, if one is wanted.
fn write_image<K: Sink>(
    wanted: &Wanted,
    holding: &Holding,
    out: &mut K,
) -> Result<ExtractEnd, StreamFault>
    ensures ends { (areas : List Area) → HasImage wanted.now.at areas holding.now.image
        → IfOk result (λ end. EndsBy wanted.now.at areas (is_unbroken_so_far holding.now) end
        (K.contents out.old) (K.contents out.new)) }
    ensures fault { IfErr result (λ e. e ≡ StreamFault.Write) }
    ensures part { (areas : List Area) → HasImage wanted.now.at areas holding.now.image
        → IfErr result (λ _. AppendsPart (K.contents out.old) (K.contents out.new)
        (written_last wanted.now.at areas)) }
    ensures writer { WriteEnds result (K.failed out.old) (K.failed out.new) }
{
    let image = &holding.image;
    if image.end() <= wanted.start() {
        return Ok(ExtractEnd::Nothing);
    }
    let Some(place) = wanted.at else {
        return Ok(ExtractEnd::Written);
    };
    if image.size(place.from).is_none() {
        return Ok(ExtractEnd::TooLarge(image.end() - u64::from(place.from)));
    }
    if !wanted.suits(holding.is_unbroken()) {
        return Ok(ExtractEnd::NotWhole);
    }
    match write_out(out, image.octets()) {
        Ok(()) => Ok(ExtractEnd::Written),
        Err(fault) => Err(fault),
    }
}

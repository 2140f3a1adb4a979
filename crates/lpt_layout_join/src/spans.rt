//! Where the octets of each place stand, in the order of places.

ghost use Rattle.std.specs.Prelude.{◌≡◌, ◌≢◌, ◌<◌, ◌+◌, ◌==◌, if◌then◌else◌, ℕ, IfErr, IfOk, IfSome, None, OnOk, Some, false, length, max, slice_index_or, true};
ghost use Rattle.lpt_layout_join.specs.Spans.{IsPlaceOf, Rise, end_of, octets_at, span_in};

use std::alloc::AllocError;

/// Where the octets of a part stand among those of all parts: up to, not including, the end.
#[derive(Clone, Copy)]
pub(crate) struct Span {
    // The part's number less one.
    pub(crate) place: u32,
    pub(crate) start: u32,
    pub(crate) end: u32,
}

// The octets that stand there, if there are so many.
pub(crate) fn octets_at(octets: &[u8], span: Span) -> Option<&[u8]>
    ensures some { IfSome result (λ o. octets_at octets.now (Some span) ≡ Some o.now) }
    ensures none { result ≡ None → octets_at octets.now (Some span) ≡ None }
{
    octets.get(span.start as usize..span.end as usize)
}

// Where the octets of a place stand, if they do.
pub(crate) fn span_at(spans: &[Span], place: usize) -> Option<Span>
    requires { Rise spans.now }
    ensures { result ≡ span_in spans.now place }
{
    match find(spans, place) {
        Ok(index) => Some(spans[index]),
        Err(_) => None,
    }
}

// Which span is a place's, or behind how many it would be.
pub(crate) fn find(spans: &[Span], place: usize) -> Result<usize, usize>
    requires { Rise spans.now }
    ensures found { IfOk result (λ k. (k < length spans.now)
        × ((d : Span) → span_in spans.now place ≡ Some (slice_index_or spans.now k d))) }
    ensures none { IfErr result (λ k. IsPlaceOf place spans.now k) }
{
    // Most parts come behind those before them.
    if end_of(spans) <= place {
        return Err(spans.len());
    }
    let index = spans.partition_point(|span| (span.place as usize) < place);
    if is_at(spans, index, place) {
        return Ok(index);
    }
    Err(index)
}

// Whether the span behind so many is this place's.
fn is_at(spans: &[Span], index: usize, place: usize) -> bool
    ensures there { result ≡ true → (index < length spans.now)
        × ((d : Span) → (slice_index_or spans.now index d).place ≡ place) }
    ensures other { result ≡ false → index < length spans.now
        → (d : Span) → (slice_index_or spans.now index d).place ≢ place }
{
    index < spans.len() && spans[index].place as usize == place
}

// The first place behind all of them.
pub(crate) fn end_of(spans: &[Span]) -> usize
    requires { Rise spans.now }
    ensures { result ≡ end_of spans.now }
{
    let len = spans.len();
    if len == 0 {
        return 0;
    }
    spans[len - 1].place as usize + 1
}

// Puts a span behind so many. The only error is out of memory.
pub(crate) fn put_span(spans: &mut Vec<Span>, index: usize, span: Span) -> Result<(), AllocError>
    requires rise { Rise spans.old.items }
    requires new { IsPlaceOf span.place spans.old.items index }
    ensures rise { Rise spans.new.items }
    ensures is { OnOk result ((i : ℕ) → span_in spans.new.items i
        ≡ (if span.place == i then Some span else span_in spans.old.items i)) }
    ensures end { OnOk result (end_of spans.new.items
        ≡ max (span.place + 1) (end_of spans.old.items)) }
    ensures len { OnOk result (length spans.new.items ≡ length spans.old.items + 1) }
{
    reserve_first(spans)?;
    spans.insert(index, span)?;
    Ok(())
}

// Makes room for one if there are none: many names have no more. The only error is out of memory.
fn reserve_first(spans: &mut Vec<Span>) -> Result<(), AllocError>
    ensures { spans.new.items ≡ spans.old.items }
{
    if spans.is_empty() {
        spans.reserve_exact(1)?;
    }
    Ok(())
}

// Where so many octets of a place stand behind others. The only error is out of memory.
pub(crate) fn span_behind(place: u32, start: usize, len: usize) -> Result<Span, AllocError>
    ensures { IfOk result (λ s. s ≡ record { place = place; start = start; end = start + len }) }
{
    let (Ok(start), Ok(end)) = (
        u32::try_from(start),
        u32::try_from(start.saturating_add(len)),
    ) else {
        return Err(AllocError);
    };
    Ok(Span { place, start, end })
}

//! How many octets of an area a request holds.

ghost use Rattle.std.specs.Prelude.{◌≡◌, ◌<◌, min};
ghost use Rattle.lpt_layout_requests.specs.Limits.{area_room};

use lpt_layout::Layout;
use lpt_memory::AREA_HEADER;
use lpt_packet::{LONGEST_PACKET, PRIMARY_HEADER};
use lpt_requests::{DUMP_LIMIT, LOAD_LIMIT};

/// The octets of a body, besides its areas.
const BODY_HEAD: usize = 2;

/// What an area takes of a packet, besides its octets and what a layout has.
const AROUND: usize = PRIMARY_HEADER + BODY_HEAD + AREA_HEADER;

/// How many octets of an area one load holds at most, if telecommands have this layout: as many as
/// its packet has room for, and no more than one of the profile.
pub fn load_limit(layout: &Layout) -> u16
    ensures most { result ≡ min 65519 (area_room layout.now) }
    ensures some { 0 < result }
{
    limit_in(layout, LOAD_LIMIT)
}

/// How many octets of a place one dump holds at most, if telemetry has this layout: as many as its
/// report has room for, and no more than one of the profile.
pub fn dump_limit(layout: &Layout) -> u16
    ensures most { result ≡ min 65513 (area_room layout.now) }
    ensures some { 0 < result }
{
    limit_in(layout, DUMP_LIMIT)
}

// So many octets of an area, or as many as a packet of this layout has room for.
fn limit_in(layout: &Layout, most: u16) -> u16
    requires { 0 < most }
    ensures most { result ≡ min most (area_room layout.now) }
    ensures some { 0 < result }
{
    // A field behind a reference is known to be in its range once it is read.
    let _octets = (layout.time, layout.spare);
    let taken = AROUND + layout.header() + layout.control();
    usize::from(most).min(LONGEST_PACKET - taken) as u16
}

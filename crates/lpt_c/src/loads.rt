//! Loads of a memory.

ghost use Rattle.std.specs.Prelude.{◌≡◌};
ghost use Rattle.lpt_c.specs.Buffers.{code_for, left_by, needed_by};
ghost use Rattle.lpt_c.specs.Codes.{all_done};
ghost use Rattle.lpt_c.specs.Loads.{area_of, load_body, load_told, MeansLoad};

use crate::codes::{BAD_AREA, LONG_LOAD};
use crate::filling::fill_behind;
use crate::rest::Rest;
use lpt_memory::{AREA_HEADER, AREA_ROOM};
use lpt_packet::crc16;

/// Writes the body of a load to the front of a buffer: that these octets go to this memory, from
/// this address on. They get their checksum.
///
/// It answers 0; 28 if there are no octets, 27 if there are more than 65,519; 103 if the buffer is
/// too short. At 0 and at 103 `needed` says how many octets the body has, 10 more than these.
#[tactic(auto, unfolding(crate::specs::Standing::rest_in, crate::specs::Standing::rest_len))]
pub fn lpt_write_load(
    memory: u8,
    address: u32,
    octets: &[u8],
    out: &mut [u8],
    needed: &mut usize,
) -> u32
    ensures code { result ≡ code_for (load_told memory (area_of address octets.now)) out.old }
    ensures buffer { out.new ≡ left_by (load_told memory (area_of address octets.now)) out.old }
    ensures needed { needed.new
        ≡ needed_by (load_told memory (area_of address octets.now)) needed.old }

    // What is written means that load, in memories where it fits.
    ensures means { result ≡ all_done → MeansLoad (load_body memory (area_of address octets.now))
        memory (area_of address octets.now) }
{
    if octets.is_empty() {
        return BAD_AREA;
    }
    if octets.len() > AREA_ROOM - AREA_HEADER {
        return LONG_LOAD;
    }
    let at = address.to_be_bytes();
    let len = (octets.len() as u16).to_be_bytes();
    let head = [memory, 1, at[0], at[1], at[2], at[3], len[0], len[1]];
    let checksum = crc16(octets).to_be_bytes();
    fill_behind(&head, octets, Rest::Given(&checksum), out, needed)
}

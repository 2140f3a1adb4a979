//! What the definitions say of packets, proved of all lists of octets: functions with empty bodies.
//! If a law speaks of a value, its body reads the value and does nothing.

ghost use Rattle.std.specs.Prelude.{◌≡◌, ◌<◌, ◌++◌, ◌↔◌, ℕ, List, [], Some, Ok};
ghost use Rattle.std.specs.Result.{result_ok};
ghost use Rattle.lpt_packet.specs.Bursts.{DifferInBurst};
ghost use Rattle.lpt_packet.specs.Checksums.{checksum};
ghost use Rattle.lpt_packet.specs.Numbers.{IsOctets};
ghost use Rattle.lpt_packet.specs.Packets.{Fields, Sight, APacket, IsPacket, IsSight, packet_seen, spelling, verdict};
ghost use Rattle.lpt_packet.specs.Ranges.{InRange};

/// No packet's octets are a proper beginning of another's: if they begin another packet, the two
/// are the same.
pub fn no_prefix()
    ensures { (a b rest : List ℕ) (f g : Fields) → IsPacket a f → IsPacket b g → a ++ rest ≡ b
        → (rest ≡ []) × (f ≡ g) }
{}

/// What is written is read again.
pub fn written_is_read()
    ensures { (f : Fields) → InRange f.apid f.count f.octets → verdict (spelling f) ≡ Ok (APacket f) }
{}

/// The three ways to say what octets are agree: the relation, what is computed from the fields at
/// their places, and what the reader's tests let through.
pub fn seen_is_read()
    ensures relation { (b : List ℕ) (s : Sight) → (packet_seen b ≡ Some s) ↔ IsSight b s }
    ensures tests { (b : List ℕ) → IsOctets b → packet_seen b ≡ result_ok (verdict b) }
{}

/// A checksum has 16 bits.
pub fn checksum_fits()
    ensures { (b : List ℕ) → checksum b < 65536 }
{}

/// A burst of 1 to 16 changed bits shows in the checksum, wherever it falls, and octets that differ
/// from a packet by such a burst are no packet.
pub fn bursts_show()
    ensures checksum { (x y : List ℕ) → DifferInBurst x y → ¬ (checksum x ≡ checksum y) }
    ensures packet { (x y : List ℕ) (f g : Fields) → DifferInBurst x y → IsPacket x f → ¬ IsPacket y g }
{}

/// What a slice of octets holds are octets.
pub(crate) fn slices_hold_octets(items: &[u8])
    ensures { IsOctets items.now }
{
    let _items = items;
}

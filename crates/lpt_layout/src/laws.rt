//! What the definitions say of layouts, proved of all messages and octets: functions with empty
//! bodies.

ghost use Rattle.std.specs.Prelude.{◌≡◌, ◌-◌, ◌<◌, ◌≤◌, ◌↔◌, ℕ, Bool, true, List, length, take, Some, Ok};
ghost use Rattle.lpt_packet.specs.declared.packet.PacketKind.{PacketKind};
ghost use Rattle.lpt_packet.specs.declared.packet.PacketKind.TheVariants.{Tm, Tc};
ghost use Rattle.lpt_packet.specs.Bursts.{DifferInBurst};
ghost use Rattle.lpt_packet.specs.Checksums.{checksum};
ghost use Rattle.lpt_packet.specs.Numbers.{IsOctets, word_at};
ghost use Rattle.lpt_packet.specs.Packets.{Fields, Sight, APacket, spelling, verdict};
ghost use Rattle.lpt_packet.specs.Sizes.{longest_packet};
ghost use Rattle.lpt_part.specs.declared.kind.Kind.{Kind};
ghost use Rattle.lpt_part.specs.declared.kind.Kind.TheVariants.{Last};
ghost use Rattle.lpt_part.specs.PartRanges.{LengthFits};
ghost use Rattle.lpt_part.specs.Parts.{Piece, body_of, part_verdict};
ghost use Rattle.lpt_part.specs.Splitting.{kind_at, part_count, part_of, parts_joined};
ghost use Rattle.lpt_pus.specs.Commands as commands;
ghost use Rattle.lpt_pus.specs.Commands.{Command, tc_verdict};
ghost use Rattle.lpt_pus.specs.Telemetry.{Telemetry, tm_packet_of, tm_verdict};
ghost use Rattle.lpt_layout.specs.declared.layout.Layout.{Layout};
ghost use Rattle.lpt_layout.specs.declared.layout.PartLayout.{PartLayout};
ghost use Rattle.lpt_layout.specs.Messages.{Said, HeadFits, IsMessage, packet_of, message_verdict};
ghost use Rattle.lpt_layout.specs.Own.{own_tm, own_tc, own_parts, of_telemetry, of_command, put_as};
ghost use Rattle.lpt_layout.specs.Packets.{IsPacketAs, IsSightAs, verdict_as};
ghost use Rattle.lpt_layout.specs.Parts.{IsPartAs, IsPartSizeAs, body_as, is_numbered, part_verdict_as, told_size};
ghost use Rattle.lpt_layout.specs.Ranges.{IsWithin};
ghost use Rattle.lpt_layout.specs.Writes.{octets_as};

/// At the profile's own layouts packets, telemetry, telecommands and parts are read as by
/// `lpt_packet`, `lpt_pus` and `lpt_part`, and written as by them.
pub fn the_own_layouts()
    ensures packet { (b : List ℕ) → verdict_as own_tm.has_checksum b ≡ verdict b }
    ensures telemetry { (f : Fields) → IsOctets f.octets
        → message_verdict own_tm Tm f ≡ put_as of_telemetry (tm_verdict f) }
    ensures command { (f : Fields)
        → message_verdict own_tc Tc f ≡ put_as of_command (tc_verdict f) }
    ensures part { (kind : Kind) (b : List ℕ) (p : ℕ) → IsOctets b
        → part_verdict_as own_parts kind b p ≡ part_verdict kind b p }
    ensures telemetry_written { (t : Telemetry) → octets_as own_tm Tm (of_telemetry t)
        ≡ spelling (tm_packet_of t) }
    ensures command_written { (c : Command) → octets_as own_tc Tc (of_command c)
        ≡ spelling (commands.packet_of c) }
    ensures part_written { (q : Piece) → body_as own_parts q ≡ body_of q }
{}

/// What is written under a layout is read again under it: the packet, the message in it, the part.
pub fn written_is_read()
    ensures packet { (l : Layout) (kind : PacketKind) (s : Said) → HeadFits l s
        → length (octets_as l kind s) ≤ longest_packet
        → verdict_as l.has_checksum (octets_as l kind s) ≡ Ok (APacket (packet_of l kind s)) }
    ensures message { (l : Layout) (kind : PacketKind) (s : Said) → HeadFits l s
        → message_verdict l kind (packet_of l kind s) ≡ Ok s }
    ensures part { (l : PartLayout) (p : ℕ) (b : List ℕ) (q : Piece) → IsPartAs l p b q
        → part_verdict_as l q.kind b p ≡ Ok q }
{}

/// Octets, packets and bodies are read exactly if they are what they are read as.
pub fn verdicts_are_exact()
    ensures packet { (ends : Bool) (b : List ℕ) (s : Sight) → IsOctets b
        → (verdict_as ends b ≡ Ok s) ↔ IsSightAs ends b s }
    ensures message { (l : Layout) (kind : PacketKind) (f : Fields) (s : Said)
        → IsWithin f.apid f.count (length f.octets) → IsOctets f.octets
        → (message_verdict l kind f ≡ Ok s) ↔ IsMessage l kind f s }
    ensures part { (l : PartLayout) (p : ℕ) (b : List ℕ) (q : Piece) → IsOctets b
        → (part_verdict_as l q.kind b p ≡ Ok q) ↔ IsPartAs l p b q }
{}

/// If a layout has a packet error control, no packet is read whose checksum is at fault: a
/// packet of one such layout that was changed by a burst of 1 to 16 bits is none of another either.
pub fn checksums_show()
    ensures checksum { (b : List ℕ) (f : Fields) → verdict_as true b ≡ Ok (APacket f)
        → checksum (take (length b - 2) b) ≡ word_at b (length b - 2) }
    ensures burst { (x y : List ℕ) (f g : Fields) → DifferInBurst x y → IsPacketAs true x f
        → ¬ IsPacketAs true y g }
{}

/// A message that is longer than a part and no longer than the longest space packet is split into
/// parts, each of which has the number and the length that its kind asks for; and each but the last
/// tells the part size.
pub fn parts_fit_as()
    ensures fits { (m : List ℕ) (p k : ℕ) → IsPartSizeAs p → p < length m
        → length m ≤ longest_packet → 1 ≤ k → k ≤ part_count (length m) p
        → (is_numbered (kind_at k (part_count (length m) p)) k ≡ true)
        × LengthFits (kind_at k (part_count (length m) p)) k (length (part_of m p k)) p }
    ensures size { (l : PartLayout) (p : ℕ) (b : List ℕ) (q : Piece) → IsPartSizeAs p
        → IsPartAs l p b q → ¬ (q.kind ≡ Last) → told_size l q.kind b ≡ Some p }
{}

/// The parts of a message, joined in order, are the message, for each part size.
pub fn parts_join_as()
    ensures { (m : List ℕ) (p : ℕ) → IsPartSizeAs p
        → parts_joined m p (part_count (length m) p) ≡ m }
{}

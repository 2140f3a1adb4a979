//! What the definitions say of streams, proved of all of them: functions with empty bodies.

ghost use Rattle.std.specs.Prelude.{◌≡◌, ◌≢◌, ◌++◌, ◌∷◌, ◌<◌, ◌≤◌, ℕ, Bool, List, length, Some, false, true};
ghost use Rattle.lpt_packet.specs.Packets.{Fields, IsPacket, IsIdle};
ghost use Rattle.lpt_stream.specs.declared.cut.Cut.{Cut};
ghost use Rattle.lpt_stream.specs.declared.cut.Cut.TheVariants.{Resumed, Sealed};
ghost use Rattle.lpt_stream.specs.declared.piece_kind.PieceKind.TheVariants.{Damaged, Whole};
ghost use Rattle.lpt_stream.specs.Lengths.{AreLed, IsFoundBy, IsRun, cut_whole};
ghost use Rattle.lpt_stream.specs.Pieces.{Piece, CutsBy, Finds, LeadsBy, is_awaited, lookahead, piece_by};
ghost use Rattle.lpt_stream.specs.Streams.{IsDamaged, IsEndOrPacket, IsInStep, AreInStep, all_octets, front_of};

/// A packet and an idle packet are cut out whole, whatever comes behind.
pub fn packets_are_cut()
    ensures packet { (b rest : List ℕ) (f : Fields) → IsPacket b f
        → front_of (b ++ rest) ≡ Some (b, rest) }
    ensures idle { (b rest : List ℕ) → IsIdle b → front_of (b ++ rest) ≡ Some (b, rest) }
{}

/// A stream is cut into pieces in one way, by each cut.
pub fn streams_are_cut_one_way()
    ensures { (cut : Cut) (stream : List ℕ) (pieces others : List Piece)
        → CutsBy cut stream pieces → CutsBy cut stream others → pieces ≡ others }
{}

/// In packets, one behind the other, just these are found: idle ones among them, and those with a
/// right checksum that have no secondary header or are segments.
pub fn packets_are_found()
    ensures { (packets : List (List ℕ)) → AreInStep packets → Finds (all_octets packets) packets }
{}

/// A packet that is damaged, but not in its length, costs itself and nothing else, if a packet
/// stands behind it or the stream ends: those before it are found, and behind it what is found
/// if it is whole.
pub fn damage_costs_one_packet()
    ensures whole { (before : List (List ℕ)) (packet rest : List ℕ) (packets : List (List ℕ))
        → AreInStep before → IsInStep packet → Finds rest packets
        → Finds (all_octets before ++ (packet ++ rest)) (before ++ packet ∷ packets) }
    ensures damaged { (before : List (List ℕ)) (damaged rest : List ℕ) (packets : List (List ℕ))
        → AreInStep before → IsDamaged damaged → IsEndOrPacket rest → Finds rest packets
        → Finds (all_octets before ++ (damaged ++ rest)) (before ++ packets) }
{}

/// By checksums no packet is passed over as the end of a damaged one: whatever octets stand in
/// front of it, in step or not, they aren't a piece together with it.
pub fn packets_are_not_passed()
    ensures { (in_step : Bool) (octet : ℕ) (octets packet rest : List ℕ) (f : Fields)
        → IsPacket packet f
        → piece_by Sealed in_step (octet ∷ octets ++ (packet ++ rest))
        ≢ record { kind = Damaged; octets = octet ∷ octets ++ packet } }
{}

/// While lengths are intact, packets are cut out whole by the cut that resumes, whatever else of
/// them is damaged, and no octets inside are taken for a packet. Behind damaged ones a packet with
/// a right checksum is looked for: it, or the stream's end, stands behind fewer than 256 of them,
/// and not further than what is looked at. What the end cuts off is passed over as well.
pub fn lengths_keep_step()
    ensures whole { (longest : ℕ) (packets : List (List ℕ)) (rest : List ℕ)
        → AreLed longest packets rest
        → LeadsBy (Resumed longest) true (all_octets packets ++ rest) (cut_whole packets) true
        rest }
    ensures cut_off { (longest : ℕ) (rest : List ℕ) → is_awaited longest rest ≡ true
        → length rest < lookahead
        → piece_by (Resumed longest) true rest ≡ record { kind = Damaged; octets = rest } }
{}

/// Behind octets astray, a packet is found where packets with right checksums follow one another
/// for more octets than the longest packet of the link has, whatever stands behind them. So no
/// reader stays deaf: behind any octets one is found, at the latest there.
pub fn runs_are_found()
    ensures latest { (longest : ℕ) (astray packet : List ℕ) (others : List (List ℕ)) (rest : List ℕ)
        (f : Fields) → IsPacket packet f → IsRun longest (packet ∷ others)
        → IsFoundBy longest (astray ++ (all_octets (packet ∷ others) ++ rest)) (length astray) }
    ensures there { (longest : ℕ) (packet : List ℕ) (others : List (List ℕ)) (rest : List ℕ)
        (f : Fields) → IsPacket packet f → IsRun longest (packet ∷ others)
        → piece_by (Resumed longest) false (all_octets (packet ∷ others) ++ rest)
        ≡ record { kind = Whole; octets = packet } }
{}

/// No piece is longer than the longest packet of the link: no header makes a reader pass over more
/// at once.
pub fn pieces_are_short()
    ensures { (longest : ℕ) (in_step : Bool) (b : List ℕ) → 5 < longest
        → length (piece_by (Resumed longest) in_step b).octets ≤ longest }
{}

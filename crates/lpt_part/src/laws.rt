//! What the definitions say of parts and of abortion reports, proved of all messages and bodies:
//! functions with empty bodies.

ghost use Rattle.std.specs.Prelude.{◌≡◌, ◌↔◌, ℕ, ◌*◌, ◌<◌, ◌≤◌, List, length, take, Ok, Some};
ghost use Rattle.lpt_packet.specs.Numbers.{IsOctets};
ghost use Rattle.lpt_packet.specs.Sizes.{longest_packet};
ghost use Rattle.lpt_part.specs.declared.reason.Reason.{Reason};
ghost use Rattle.lpt_part.specs.PartRanges.{PartFits};
ghost use Rattle.lpt_part.specs.Splitting.{IsPartSize, part_count, part_of, kind_at, parts_joined};
ghost use Rattle.lpt_part.specs.Parts.{Piece, body_of, IsPart, part_verdict, part_in};
ghost use Rattle.lpt_part.specs.Aborts.{abort_body, IsAbort, abort_verdict, abort_in};

/// A message that is longer than a part and no longer than the longest space packet has 2 to
/// 16,386 parts, each of which has the number and the length that its kind asks for.
pub fn parts_fit()
    ensures fits { (m : List ℕ) (p k : ℕ) → IsPartSize p → p < length m → length m ≤ longest_packet
        → 1 ≤ k → k ≤ part_count (length m) p
        → PartFits (kind_at k (part_count (length m) p)) k (length (part_of m p k)) p }
    ensures count { (len p : ℕ) → IsPartSize p → p < len → len ≤ longest_packet
        → (2 ≤ part_count len p) × (part_count len p ≤ 16386) }
    ensures number { (len p k : ℕ) → IsPartSize p → p < len → len ≤ longest_packet
        → k ≤ part_count len p → k < 65536 }
{}

/// The parts of a message, joined in order, are the message.
pub fn parts_join()
    ensures front { (m : List ℕ) (p k : ℕ) → parts_joined m p k ≡ take (k * p) m }
    ensures all { (m : List ℕ) (p : ℕ) → IsPartSize p
        → parts_joined m p (part_count (length m) p) ≡ m }
{}

/// What was written is read again.
pub fn written_is_read()
    ensures part { (p : ℕ) (q : Piece) → q.id < 65536 → PartFits q.kind q.number (length q.octets) p
        → part_verdict q.kind (body_of q) p ≡ Ok q }
    ensures abort { (id : ℕ) (reason : Reason) → id < 65536
        → abort_verdict (abort_body id reason) ≡ Ok (id, reason) }
{}

/// A list of octets reads as a part, or as an abortion report, exactly if it is one.
pub fn read_is_spelled()
    ensures part { (p : ℕ) (b : List ℕ) (q : Piece) → IsOctets b
        → (part_in p q.kind b ≡ Some q) ↔ IsPart p b q }
    ensures abort { (b : List ℕ) (id : ℕ) (reason : Reason) → IsOctets b
        → (abort_in b ≡ Some (id, reason)) ↔ IsAbort b id reason }
{}

//! What the definitions say of the parts of one message: functions with empty bodies.

ghost use Rattle.std.specs.Prelude.{◌≡◌, ◌⊎◌, ◌≤◌, ℕ, Bool, false, List, Option, Some, None, Ok, length};
ghost use Rattle.std.specs.Io.KnownBytes.{Appends};
ghost use Rattle.lpt_events.specs.Arrivals.{part_subtype};
ghost use Rattle.lpt_layout.specs.Messages.{Said, HeadFits};
ghost use Rattle.lpt_layout.specs.Parts.{PieceFits, body_as};
ghost use Rattle.lpt_layout.specs.Writes.{octets_as};
ghost use Rattle.lpt_packet.specs.Sizes.{longest_packet};
ghost use Rattle.lpt_part.specs.Parts.{nth_part};
ghost use Rattle.lpt_part.specs.Splitting.{kind_at, part_count};
ghost use Rattle.lpt_carried.specs.declared.name.Name.{Name};
ghost use Rattle.lpt_carried.specs.declared.reading.Reading.{Reading};
ghost use Rattle.lpt_carried.specs.declared.wanted.Wanted.{Wanted};
ghost use Rattle.lpt_stream.specs.Pieces.{Piece, packets_of};
ghost use Rattle.lpt_layout_join.specs.Came.{message_of, octets_of};
ghost use Rattle.lpt_carried.specs.Carried.{part_carried, kind_to, same_name};
ghost use Rattle.lpt_layout_join.specs.Gathered.{came, carry, parts_gathered};
ghost use Rattle.lpt_layout_join.specs.declared.ending.JoinEnd.TheVariants.{Written};
ghost use Rattle.lpt_layout_join.specs.declared.ending.JoinReport.{JoinReport};
ghost use Rattle.lpt_layout_join.specs.InOrder.{IsInOrder};
ghost use Rattle.lpt_layout_join.specs.Laws.{AreOneOrOther, EachIsAmong, HasItsLength, IsAsked, IsSplit, part_named};
ghost use Rattle.lpt_layout_join.specs.Writes.{Reports, end_of, end_whole, unfit};

use lpt_layout::laws::written_is_read;

/// The packets of a message's parts, in any order and with repeats, and others in between, are
/// joined to that message once each part is among them, byte for byte. If no transaction was
/// asked for, they are the only ones: then no part came of another.
pub fn split_is_joined()
    ensures message { (r : Reading) (asked : Option Name) (n : Name) (p : ℕ) (m : List ℕ)
        (bs : List (List ℕ)) → IsSplit p m → IsAsked asked n → AreOneOrOther r asked n p m bs
        → EachIsAmong r n p m bs → message_of (parts_gathered r n bs).came.parts ≡ Some m }
    ensures end { (r : Reading) (asked : Option Name) (n : Name) (p : ℕ) (m : List ℕ)
        (bs : List (List ℕ)) (any : Bool) → IsSplit p m → IsAsked asked n
        → AreOneOrOther r asked n p m bs → EachIsAmong r n p m bs
        → end_of r any (parts_gathered r n bs)
        ≡ end_whole m (unfit r any (parts_gathered r n bs).sure m) }
    ensures alone { (r : Reading) (n k : Name) (p : ℕ) (m : List ℕ) (bs : List (List ℕ))
        → AreOneOrOther r None n p m bs → same_name n k ≡ false → carry r k bs ≡ false }
{}

/// Over pieces whose packets carry a message's parts, in any order and with repeats, and others in
/// between, a join writes just that message once each part is among them; if it is fit. If no
/// transaction was asked for, it is the only one.
pub fn split_is_written()
    ensures { (w : Wanted) (n : Name) (p : ℕ) (m : List ℕ) (any : Bool) (ps : List Piece)
        (j : JoinReport) (old new : Option (List ℕ)) → IsSplit p m → IsAsked w.name n
        → AreOneOrOther w.reading w.name n p m (packets_of ps)
        → EachIsAmong w.reading n p m (packets_of ps)
        → unfit w.reading any (parts_gathered w.reading n (packets_of ps)).sure m ≡ None
        → Reports w any ps j old new → Appends old new m }
{}

/// Whatever the packets are, what is written of a layout without a checksum, but with `any`, is
/// joined of parts that stand in the order of their numbers, and between each of them and the next
/// fewer sequence counts of the APID are missing than its number.
pub fn written_is_in_order()
    ensures { (r : Reading) (n : Name) (bs : List (List ℕ)) (len : ℕ) (m : List ℕ)
        → r.layout.has_checksum ≡ false
        → end_of r false (parts_gathered r n bs) ≡ Written len
        → message_of (parts_gathered r n bs).came.parts ≡ Some m → IsInOrder r n bs m }
{}

/// Whatever the packets are, the octets that are joined of each part have the one length that is
/// told, but for the last part's.
pub fn parts_are_even()
    ensures { (r : Reading) (n : Name) (bs : List (List ℕ)) (k : ℕ) (x : List ℕ)
        → octets_of (parts_gathered r n bs).came.parts k ≡ Some x
        → HasItsLength (parts_gathered r n bs).came.parts k x }
{}

/// The packet that is written of a part carries that part, whether the part size is known or not.
pub fn made_is_carried()
    ensures { (r : Reading) (n : Name) (p k : ℕ) (m : List ℕ) (s : Said) → IsSplit p m
        → 1 ≤ k → k ≤ part_count (length m) p → (r.part_size ≡ None) ⊎ (r.part_size ≡ Some p)
        → PieceFits r.parts (nth_part p n.id m k) → HeadFits r.layout s
        → length (octets_as r.layout (kind_to r.direction) s) ≤ longest_packet
        → s.apid ≡ r.apid → s.service ≡ 13
        → s.subtype ≡ part_subtype r.direction (kind_at k (part_count (length m) p))
        → s.user ≡ n.user → s.body ≡ body_as r.parts (nth_part p n.id m k)
        → part_carried r (octets_as r.layout (kind_to r.direction) s) ≡ Ok (part_named n p m k) }
{
    written_is_read();
}

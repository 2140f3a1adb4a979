//! What is given out of a stream, proved of all streams: functions with empty bodies.

ghost use Rattle.std.specs.Prelude.{◌≡◌, [], ◌∷◌, ◌++◌, ℕ, Bool, false, List, map};
ghost use Rattle.std.specs.List.{flat_map};
ghost use Rattle.lpt_carried.specs.declared.name.Name.{Name};
ghost use Rattle.lpt_carried.specs.declared.reading.Reading.{Reading};
ghost use Rattle.lpt_layout_join.specs.Counts.{nothing_counted};
ghost use Rattle.lpt_layout_join.specs.InOrder.{IsInOrder};
ghost use Rattle.lpt_layout_each.specs.Eaches.{counts_of, course_held, news, news_from, nothing};
ghost use Rattle.lpt_layout_each.specs.Laws.{InOrder, IsGood, news_of_name};
ghost use Rattle.lpt_layout_each.specs.News.{Event, News, Given, messages_in, messages_of};
ghost use Rattle.lpt_layout_each.specs.Sends.{AllSplitWhole, Sends, Split, carriers, packets_of};
ghost use Rattle.lpt_layout_each.specs.Streams.{events};

use lpt_layout_join::laws::made_is_carried;

/// Each message that is given out is joined of parts of its name that agree with one another and
/// stand among the packets, whatever these are, and a packet of its direction, if not any will do.
pub fn given_is_there()
    ensures { (r : Reading) (any : Bool) (packets : List (List ℕ)) (n : Name) (m : List ℕ)
        (front back : List Event) (w : News)
        → events r any packets ≡ front ++ (n, w) ∷ back → messages_of w ≡ m ∷ []
        → IsGood r any packets n m }
{}

/// By a layout without a checksum each message that is given out, but with `any`, is joined of
/// parts that stand in the order of their numbers, and between each of them and the next fewer
/// sequence counts of the APID are missing than its number.
pub fn given_is_in_order()
    ensures { (r : Reading) (packets : List (List ℕ)) (n : Name) (m : List ℕ)
        (front back : List Event) (w : News) → r.layout.has_checksum ≡ false
        → events r false packets ≡ front ++ (n, w) ∷ back → messages_of w ≡ m ∷ []
        → IsInOrder r n packets m }
{}

/// Over packets of messages one behind the other, under one name, just these messages are given
/// out, in their order, and nothing is given up: if each is whole with the last of its packets,
/// which may come in any order and more than once, with others in between, but its last part not
/// before its first.
pub fn sent_is_given()
    ensures { (r : Reading) (any : Bool) (n : Name) (messages packets : List (List ℕ))
        → Sends r any n messages packets → news r any n packets ≡ map Given messages }
{}

/// Over the packets of messages that are split, one message behind the other under one name, and
/// others that carry no part of it in between, just these messages are given out, in their order,
/// and nothing is given up: whichever order their parts are sent in, and as often, if not all
/// are sent before the last, and the last part not before the first.
pub fn split_is_given()
    ensures { (r : Reading) (any : Bool) (n : Name) (splits : List Split) (packets : List (List ℕ))
        → AllSplitWhole r any n splits → carriers r n packets ≡ flat_map (packets_of n) splits
        → news r any n packets ≡ map (λ s. Given s.message) splits }
{
    made_is_carried();
}

/// If the parts of a message stand in a stream in the order of their numbers, with no other part
/// of their name between them, this message is given out with one of them: whatever came before,
/// and whatever comes behind. The packets between its first and its last part may hold packets of
/// other names, and parts of it again but its first.
pub fn in_order_is_given()
    ensures { (r : Reading) (any : Bool) (n : Name) (before front behind : List (List ℕ))
        (last m : List ℕ)
        → InOrder r any n m front last
        → (earlier : List (List ℕ)) × (later : List (List ℕ)) × (after : List (List ℕ))
        × (messages_in (news_from r any n (counts_of r before) (course_held r any n before)
        (front ++ last ∷ []))
        ≡ earlier ++ m ∷ later)
        × (messages_in (news r any n (before ++ (front ++ last ∷ []) ++ behind))
        ≡ messages_in (news_from r any n nothing_counted nothing before)
        ++ (earlier ++ m ∷ later) ++ after) }
{}

/// What is told of a name among all names is what its own packets tell.
pub fn names_are_apart()
    ensures { (r : Reading) (any : Bool) (packets : List (List ℕ)) (n : Name)
        → news_of_name n (events r any packets)
        ≡ news_from r any n nothing_counted nothing packets }
{}

//! The order in which the parts of a name come.

ghost use Rattle.std.specs.Prelude.{◌≡◌};
ghost use Rattle.lpt_layout_join.specs.Orders.{are_few, is_in_order, no_order, order_after, with_again};

use crate::LastPart;

/// Parts 1, 2 and so on of a name that came in the order of their numbers: behind the first of them
/// nothing came of the name but the next one, or one of these again.
#[derive(Clone, Copy)]
pub struct Order {
    /// How many they are, 0 if there are none.
    pub count: u32,
    /// How many sequence counts were missing up to the last of them.
    pub missing: u64,
    /// Fewer than so many may be missing between it and the next: its number, and 2 once one of
    /// these came again.
    pub room: u32,
    /// Whether between each of them and the next so few are missing.
    pub few: bool,
}

impl Order {
    /// The order of a name of which no part came.
    pub fn none() -> Order
        ensures { result ≡ no_order }
    {
        Order {
            count: 0,
            missing: 0,
            room: 0,
            few: true,
        }
    }

    /// The order with a part of this number, up to which so many counts are missing.
    pub fn with(self, number: u32, missing: u64) -> Order
        ensures { result ≡ order_after self number missing }
    {
        if number == 1 {
            return Order {
                count: 1,
                missing,
                room: 1,
                few: true,
            };
        }
        if number <= self.count {
            return self.again();
        }
        if number - 1 != self.count {
            return Order::none();
        }
        Order {
            count: number,
            missing,
            room: number,
            few: self.few && are_few(self.room, self.missing, missing),
        }
    }

    // One of them came again. If that is of another message, the first part of that is missing, and
    // so is the part behind the last one here.
    fn again(self) -> Order
        ensures { result ≡ with_again self }
    {
        Order {
            room: self.room.min(2),
            ..self
        }
    }

    /// Whether all parts up to the last one came so, with few counts missing between them.
    pub fn is_whole(self, last: Option<LastPart>) -> bool
        ensures { result ≡ is_in_order last self }
    {
        match last {
            Some(last) => self.count == last.number && self.few,
            None => false,
        }
    }
}

// Whether fewer than so many are missing between two places of a stream.
fn are_few(number: u32, before: u64, now: u64) -> bool
    ensures { result ≡ are_few number before now }
{
    now < before.saturating_add(u64::from(number))
}

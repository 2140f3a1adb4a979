//! The parts of a name that come in the order of their numbers, one behind the other.

ghost use Rattle.std.specs.Prelude.{◌≡◌, ◌≤◌, length, IfOk};
ghost use Rattle.lpt_packet.specs.Sizes.{longest_packet};
ghost use Rattle.lpt_layout.specs.Parts.{piece};
ghost use Rattle.lpt_layout_each.specs.Eaches as each;
ghost use Rattle.lpt_layout_each.specs.Helds.{IsRun, IsRunTurn};

use lpt_layout::{Octets, PartAs};
use lpt_layout_join::{CameAs, Order};
use std::alloc::{AllocError, Global};

/// Parts 1, 2 and so on that came in their order: behind the first of them nothing came of the name
/// but the next one, or one of these again.
#[derive(Drop)]
pub(crate) struct RunAs {
    pub(crate) order: Order,
    pub(crate) came: CameAs,
}

/// What a further part makes of them.
#[derive(Drop)]
pub(crate) enum RunTurnAs {
    /// It goes on.
    Goes,
    /// They are the message's, with few counts missing between them or not.
    Ends(Octets, bool),
}

impl RunAs {
    // None.
    pub(crate) fn none(alloc: Global) -> RunAs
        ensures { IsRun each.no_run result }
    {
        RunAs {
            order: Order::none(),
            came: CameAs::new(alloc),
        }
    }

    // Takes a part of the name, up to which so many counts are missing. The only error is out of
    // memory.
    pub(crate) fn take(
        &mut self,
        alloc: Global,
        missing: u64,
        part: &PartAs<'_>,
    ) -> Result<RunTurnAs, AllocError>
        requires number { 1 ≤ part.now.number }
        requires short { length part.now.octets.now ≤ longest_packet }
        ensures { (r : each.Run) → IsRun r self.old → IfOk result (λ o.
            IsRunTurn self.new o (each.run_turn r missing (piece part.now))) }
    {
        self.begin(alloc, part.number);
        if u64::from(part.number) > u64::from(self.order.count) + 1 {
            *self = RunAs::none(alloc);
            return Ok(RunTurnAs::Goes);
        }
        self.order = self.order.with(part.number, missing);
        self.came.take(0, part)?;
        if self.came.against().is_some() {
            *self = RunAs::none(alloc);
            return Ok(RunTurnAs::Goes);
        }
        match self.came.message(alloc)? {
            None => Ok(RunTurnAs::Goes),
            Some(message) => {
                let sure = self.order.is_whole(self.came.last());
                Ok(RunTurnAs::Ends(message, sure))
            }
        }
    }

    // Begins anew if a first part comes, of this number.
    fn begin(&mut self, alloc: Global, number: u32)
        ensures { (r : each.Run) → IsRun r self.old → IsRun (each.run_before r number) self.new }
    {
        if number == 1 {
            *self = RunAs::none(alloc);
        }
    }
}

//! The faults of the link, as the world reports them.

ghost use Rattle.std.specs.Prelude.{◌≡◌};
ghost use Rattle.lpt_model.specs.State.{link_fault};

use lpt_events::StepFault;
use lpt_link::LinkFault;

// The link's fault.
pub(crate) fn of_link(fault: LinkFault) -> StepFault
    ensures { result ≡ link_fault fault }
{
    match fault {
        LinkFault::NotHeld => StepFault::NotHeld,
        LinkFault::HandFull => StepFault::HandFull,
        LinkFault::HandEmpty => StepFault::HandEmpty,
        LinkFault::Memory => StepFault::Memory,
    }
}

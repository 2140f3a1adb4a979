//! What an execution answers.

ghost use Rattle.std.specs.Prelude.{◌≡◌, None};
ghost use Rattle.lpt_execution.specs.declared.ending.Ending.{Ending};
ghost use Rattle.lpt_execution.specs.Reporting.{applied_of, with_name};

use crate::Ending;
use lpt_events::Applied;
use lpt_packet::{Name, Octets};

impl Ending {
    /// What an execution answers that ended so and opened no message.
    pub fn answer_alone(&self) -> Applied
        ensures { result ≡ applied_of self.now None }
    {
        match self {
            Ending::Silent => Applied::Silent,
            Ending::Refused(code) => Applied::Code(*code),
            Ending::Carried(_) => Applied::Done(None),
        }
    }
}

/// An execution's answer with the name of the message that it opened, or none: a request that was
/// carried out says so, and no other does.
pub fn applied_with(applied: Applied, opened: &Option<(Name, Octets)>) -> Applied
    ensures value { result ≡ with_name applied opened.now }

    // It is what an execution answers that ended so and opened this.
    ensures ended { (end : Ending) → applied ≡ applied_of end None
        → result ≡ applied_of end opened.now }
{
    match (applied, opened) {
        (Applied::Silent, _) => Applied::Silent,
        (Applied::Code(code), _) => Applied::Code(code),
        (Applied::Done(_), None) => Applied::Done(None),
        (Applied::Done(_), Some((name, _))) => Applied::Done(Some(*name)),
    }
}

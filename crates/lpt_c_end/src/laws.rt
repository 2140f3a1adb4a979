//! What the definitions say of all ends: functions with empty bodies.

ghost use Rattle.std.specs.Prelude.{ℕ, List};
ghost use Rattle.lpt_c_end.specs.Accesses.{IsOver};
ghost use Rattle.lpt_c_end.specs.AnyOrder.{AreTheSameAgain, AreTheSameSized, HasWhatWasTold, LoadsKeepTheOrder, NewAreInOrder};
ghost use Rattle.lpt_c_end.specs.declared.end.End.{End};

/// What is executed by the octets that a request reads is what is executed over any memories of the
/// end's sizes that have these octets there.
pub fn given_is_over()
    ensures { (e : End) (octets : List ℕ) → IsOver octets e }
{}

/// An end has its memories in the order of their identifiers, in whatever order it is told of them,
/// and each has what was told of its identifier. So an end that is made again with the same
/// memories has them as the one before had, whatever was loaded since, in whatever order they are
/// told.
pub fn memories_come_in_any_order()
    ensures has { HasWhatWasTold }
    ensures again { AreTheSameAgain }
    ensures sized { AreTheSameSized }
    ensures begins { NewAreInOrder }
    ensures loaded { LoadsKeepTheOrder }
{}

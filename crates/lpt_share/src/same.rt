//! Whether two events, or two replies, are the same.

ghost use Rattle.std.specs.Prelude.{◌≡◌, ◌↔◌, IsTrue};

use lpt_events::{Answer, Event, Reply};

/// Whether two events are the same.
pub(crate) fn is_same_event(a: &Event, b: &Event) -> bool
    ensures { IsTrue result ↔ (a.now ≡ b.now) }
{
    a == b
}

/// Whether two replies are the same.
pub(crate) fn is_same_reply(a: &Reply, b: &Reply) -> bool
    ensures { IsTrue result ↔ (a.now ≡ b.now) }
{
    is_same_answer(a.answer, b.answer) && a.puts == b.puts
}

// Whether two answers are the same.
fn is_same_answer(a: Answer, b: Answer) -> bool
    ensures { IsTrue result ↔ (a ≡ b) }
{
    a == b
}

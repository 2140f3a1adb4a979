//! What is proved of a large message, whatever is heard: functions with empty bodies.

ghost use Rattle.lpt_ground.specs.CarryingLarge.{DoneIsTold};
ghost use Rattle.lpt_ground.specs.Parts.{PacketsAreTheNodes};

/// If a large message ends as done, a packet was heard that is a report of this pass and says that
/// the message's request was carried out, if that waited when it began.
pub fn done_is_told()
    ensures { DoneIsTold }
{}

/// The packet of each part is the one that a sending node makes, under the same name and with the
/// same sequence count.
pub fn packets_are_the_nodes()
    ensures { PacketsAreTheNodes }
{}

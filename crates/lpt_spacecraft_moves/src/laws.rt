//! What is proved of all ends and of all that comes: functions with empty bodies.

ghost use Rattle.lpt_spacecraft_moves.specs.Lives.{GroundAndSpacecraftKeepThePromise};
ghost use Rattle.lpt_spacecraft_moves.specs.Moves.{InputsAreMoves};

/// What the spacecraft's end makes of a packet that the network may hand over, of a tick, of names
/// that may be freed, and of octets that are passed over, is a list of moves of two ends apart, all
/// of the spacecraft alone, each of which can happen. They come to the same end, and put the same
/// packets out, in their order. Octets that are passed over make no move.
///
/// A name of a message that comes up may be freed if its sender is closed and no reception of it
/// is open; one of a report, if ground has freed it. No part of it may be handed over any more.
pub fn inputs_are_moves()
    ensures { InputsAreMoves }
{}

/// Take a ground end and the spacecraft's, both new, and any list of these: moves of ground that
/// can happen; packets that the network may hand to the spacecraft, ticks, and names that may be
/// freed; and ends of its program, between any two packets, each with a start from what was kept
/// last. Then they are two ends apart that keep the promise, and withhold nothing that came whole;
/// and whatever may come next is moves of the spacecraft.
///
/// Ground's clock may begin later than the spacecraft's, and not before it. The memories stand in
/// the order in which they were kept.
pub fn ground_and_spacecraft_keep_the_promise()
    ensures { GroundAndSpacecraftKeepThePromise }
{}

//! What the definitions say of all spacecraft: functions with empty bodies.

ghost use Rattle.std.specs.Prelude.{true, Bool, List, ℕ};
ghost use Rattle.lpt_stream.specs.Pieces.{LeadsBy, Piece};
ghost use Rattle.lpt_stream.specs.declared.cut.Cut.TheVariants.{Resumed};
ghost use Rattle.lpt_spacecraft.specs.Keeping.{KeptIsRead};
ghost use Rattle.lpt_spacecraft.specs.Stretches.{Stretch, AreAllPieces, IsCutInto};
ghost use Rattle.lpt_spacecraft.specs.declared.passing.Passing.{Passing};

/// What is read of the octets that were kept of a spacecraft has the node that a restart leaves of
/// it, and its memories, each with the content that it had.
pub fn kept_is_read()
    ensures { KeptIsRead }
{}

/// What a spacecraft takes of a stream, and what it passes over, are its pieces by the cut
/// `Resumed`, as other readers of streams find them, up to the rest.
pub fn stretches_are_pieces()
    ensures { (passing : Passing) (stream : List ℕ) (stretches : List Stretch)
        (rest : List ℕ) → IsCutInto passing stream stretches rest
        → (pieces : List Piece) × (in_step : Bool) × AreAllPieces passing stretches pieces
        × LeadsBy (Resumed passing.longest) true stream pieces in_step rest }
{}

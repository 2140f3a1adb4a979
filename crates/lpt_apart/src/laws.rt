//! What is proved of two ends apart: functions with empty bodies.

ghost use Rattle.lpt_apart.specs.TwoEnds.{EndsWithClocksKeepThePromise, EndsWithClocksWithholdNothing};
ghost use Rattle.lpt_apart.specs.Worlds.{EndsAreAWorld};
ghost use Rattle.lpt_apart.specs.Moves.{EndsApartAreAWorld};
ghost use Rattle.lpt_apart.specs.Whole.{MovesBringTheSame, WorldsBringTheSame};
ghost use Rattle.lpt_apart.specs.Plays.{WorldsAreEnds, StepsAreMoves};

/// Take two nodes of one configuration, one on each side, and any list of steps of them that can
/// happen, if the network hands over only what the other end put out, and what is neither a part
/// nor a request. Then there is a legal journal of a world that shows it, which has both nodes as
/// they are, the workers' jobs, the memories and the log.
pub fn ends_are_a_world()
    ensures { EndsAreAWorld }
{}

/// The same holds if a name is freed at its receiver first and then at its sender, so that no call
/// is of both ends: but for names that are freed at their receivers alone, the ends are a world's.
pub fn ends_apart_are_a_world()
    ensures { EndsApartAreAWorld }
{}

/// Two ends apart may have clocks and limits of their own; all else of their configurations is the
/// same. Each large message that one releases is the one last opened under its name at the other
/// end, and between that opening and the release it wasn't released, nor did its reception expire,
/// nor was it broken off. Each plain request that was released is one that ground asked. The
/// memories are their first content, changed by the executed requests in order of release.
pub fn ends_with_clocks_keep_the_promise()
    ensures { EndsWithClocksKeepThePromise }
{}

/// Such ends withhold nothing that came whole. Take what was last opened under a name. If each of
/// its parts was handed over since then, and since its receiver was last restarted, while there was
/// room, the log says since then that it was released, unless it says since then that its
/// reception expired or was broken off. Nothing is said of parts that don't come.
pub fn ends_with_clocks_withhold_nothing()
    ensures { EndsWithClocksWithholdNothing }
{}

/// Whatever a world does, two ends can do: each legal journal is steps of them, if what a lane
/// delivers is handed over, and they come to the nodes, jobs, memories and log of a world that
/// shows it. So of the network no more is asked than a world asks of its link.
pub fn worlds_are_ends()
    ensures { WorldsAreEnds }
{}

/// Steps that two ends can do they can also do if a name is freed at its receiver first and then
/// at its sender.
pub fn steps_are_moves()
    ensures { StepsAreMoves }
{}

/// The parts that came to a world come by the steps that its journal is.
pub fn worlds_bring_the_same()
    ensures { WorldsBringTheSame }
{}

/// The parts that came by steps come by the moves that these are.
pub fn moves_bring_the_same()
    ensures { MovesBringTheSame }
{}

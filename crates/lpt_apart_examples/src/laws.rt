//! Runs of two ends apart, and what comes of them: functions with empty bodies.

ghost use Rattle.std.specs.Prelude.{◌≡◌, ◌++◌, reverse, Ok, Err};
ghost use Rattle.lpt_events.specs.Configs.{IsConfig};
ghost use Rattle.lpt_events.specs.declared.side.Side.TheVariants.{Ground, Craft};
ghost use Rattle.lpt_ledger.specs.Runs.{names_in, runs_of_names};
ghost use Rattle.lpt_packet.specs.declared.direction.Direction.TheVariants.{Up};
ghost use Rattle.lpt_part.specs.declared.mode.Mode.TheVariants.{Strict};
ghost use Rattle.lpt_state.specs.declared.fault.StateFault.TheVariants as fault;
ghost use Rattle.lpt_state.specs.Spellings.{spelling};
ghost use Rattle.lpt_state.specs.Verdicts.{verdict};
ghost use Rattle.lpt_apart.specs.Ends.{after_all};
ghost use Rattle.lpt_apart.specs.TwoEnds.{CameWhole};
ghost use Rattle.lpt_apart.specs.Moves.{came_to, CanMoveAll};
ghost use Rattle.lpt_apart.specs.Whole.{came_in};
ghost use Rattle.lpt_apart.specs.Resets.{CanLiveAll, just_written};
ghost use Rattle.lpt_journal_examples.specs.Passes.{own, m9, usual, usual_memories, loaded_memories};
ghost use Rattle.lpt_apart_examples.specs.Late.{before_late, late_acts, late_moves, start, FreesTooEarly};
ghost use Rattle.lpt_apart_examples.specs.Limits.{clock_moves, narrow_log, narrow_moves};
ghost use Rattle.lpt_apart_examples.specs.Reports.{report_log, report_moves};
ghost use Rattle.lpt_apart_examples.specs.Resumed.{moves_left, resumed_deeds, resumed_log, unwritten};
ghost use Rattle.lpt_apart_examples.specs.Runs.{worked_moves, worked_log};
ghost use Rattle.lpt_apart_examples.specs.States.{config, mixed_state, mixed_octets, names_sent};
ghost use Rattle.lpt_apart.specs.Freeing.{with_acts, CanActAll};

/// Ground asks for a load, which is executed; its packet comes again, and is released again. A
/// message comes up in three parts. One of them is lost and sent again; they are handed over in
/// another order, one of them twice, and one again once all are there. A forged report of an
/// abortion closes its sender. Its name is freed at the spacecraft and then on ground, and opened
/// for a shorter message. The spacecraft is restarted behind its first part, which is handed over
/// again after that, and the message is released: each of its parts came since the restart.
pub fn forged_and_reused_can_be()
    ensures configured { IsConfig usual }
    ensures can { CanMoveAll usual usual_memories (reverse worked_moves) }
    ensures log { (came_to usual usual_memories (reverse worked_moves)).ends.log
        ≡ reverse worked_log }
    ensures left { (came_to usual usual_memories (reverse worked_moves)).ends.memories
        ≡ loaded_memories }
    ensures whole { CameWhole usual (came_in usual usual_memories (reverse worked_moves) Up (own 7))
        m9 }
{}

/// Ends free a name by lines. Ground opens a message, and sends a part of it, which is late. It is
/// restarted, says that it is finished with the name, and that is heard twice: the spacecraft frees
/// the name once. It says so, and that is heard twice: ground frees the name once. Then ground
/// opens another message under the name, and sends a part of it. The part of the first message and
/// both lines come once more, and change nothing; the part of the second is handed over. Were there
/// no turns, the spacecraft would free the name again, which may not be while its message is open.
pub fn late_lines_change_nothing()
    ensures can { CanActAll usual start (reverse late_acts) }
    ensures moves { (with_acts usual start (reverse late_acts)).moves ≡ late_moves }
    ensures turns { FreesTooEarly before_late }
{}

/// The spacecraft's clock goes one tick on, and is set back. From then on its end has a timeout of
/// two ticks and room for one reception. The first part of a message opens one, so that of a second
/// message has no room. The first reception is given up before its time, that part comes again and
/// has room, and its reception is given up too.
pub fn limits_can_be()
    ensures configured { IsConfig usual }
    ensures can { CanMoveAll usual usual_memories (reverse narrow_moves ++ reverse clock_moves) }
    ensures log { (came_to usual usual_memories
        (reverse narrow_moves ++ reverse clock_moves)).ends.log ≡ reverse narrow_log }
{}

/// Ground asks for a dump, which is executed. Its report is too long for a packet, so it is opened
/// and goes down in four parts. They come in another order, one of them twice, and ground releases
/// the report as it was opened.
pub fn large_reports_go_down()
    ensures configured { IsConfig usual }
    ensures can { CanMoveAll usual usual_memories (reverse report_moves) }
    ensures log { (came_to usual usual_memories (reverse report_moves)).ends.log
        ≡ reverse report_log }
{}

/// The state of the spacecraft's end is written. Its machine is reset, which deletes that it took a
/// part. It is read back in a configuration with a shorter timeout and with room for one reception.
/// Then the first part of a message opens one, and that of another message has no room; the
/// reception expires behind that timeout, and now there is room.
pub fn limits_change_at_a_reading()
    ensures configured { IsConfig usual }
    ensures can { CanLiveAll usual unwritten.pair (just_written usual unwritten)
        (reverse resumed_deeds) }
    ensures log { (after_all usual unwritten.pair moves_left).ends.log ≡ reverse resumed_log }
{}

/// A worked state has these octets, which were made outside, and they are read as it, at an end of
/// its side and its configuration, whatever the limits and the first clock.
pub fn worked_state()
    ensures spelled { spelling Ground config mixed_state ≡ mixed_octets }
    ensures read { verdict Ground config mixed_octets ≡ Ok mixed_state }
    ensures clock { verdict Ground (record config { clock = 9 }) mixed_octets ≡ Ok mixed_state }
    ensures limits { verdict Ground (record config { timeout = 9; receptions = 2; outgoing = 1 })
        mixed_octets ≡ Ok mixed_state }
    ensures side { verdict Craft config mixed_octets ≡ Err fault.Side }
    ensures config { verdict Ground (record config { mode = Strict }) mixed_octets
        ≡ Err fault.Config }
{}

/// Worked names have these runs, and the runs those names.
pub fn worked_names()
    ensures runs { runs_of_names names_sent ≡ mixed_state.sent }
    ensures names { names_in mixed_state.sent ≡ names_sent }
{}

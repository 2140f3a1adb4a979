//! Passes that are legal journals of a configuration, and what comes of them: functions with empty
//! bodies.

ghost use Rattle.std.specs.Prelude.{◌≡◌, true, [], ◌∷◌, map, slice_get, Some, None};
ghost use Rattle.lpt_events.specs.declared.applied.Applied.TheVariants.{Done};
ghost use Rattle.lpt_events.specs.declared.outcome.Outcome.TheVariants.{ReportNoted, AbortNoted, Broken, Ignored};
ghost use Rattle.lpt_events.specs.declared.outcome.Why.TheVariants.{NoRoom, Unreadable};
ghost use Rattle.lpt_events.specs.declared.reply.Answer.TheVariants.{Clock, Delivered, Stale, Applied};
ghost use Rattle.lpt_packet.specs.declared.direction.Direction.TheVariants.{Up, Down};
ghost use Rattle.lpt_part.specs.declared.reason.Reason.TheVariants.{Discontinuity, Expired};
ghost use Rattle.lpt_journal.specs.Abortions.{abortions};
ghost use Rattle.lpt_journal.specs.Jobs.{executed, memories};
ghost use Rattle.lpt_journal.specs.Releases.{releases};
ghost use Rattle.lpt_journal.specs.Whole.{came};
ghost use Rattle.lpt_journal_examples.specs.Passes.{IsPass, pass_history, answers, usual, strict, impatient, m9, m20, out_of_order, second_part_missing, in_order, both_ways, noisy, two_expire, set_back, executed_load, two_loads, dump_packet, report_packet, large_report, names_renewed, load_packet, usual_memories, loaded_memories, cleared_memories, own, other};

/// A message of three parts is delivered with its last part first, and released: each of them came.
pub fn out_of_order_is_legal()
    ensures pass { IsPass usual out_of_order }
    ensures came { map (came usual (pass_history usual out_of_order) Up (own 7)) (1 ∷ 2 ∷ 3 ∷ [])
        ≡ true ∷ true ∷ true ∷ [] }
    ensures released { releases usual (pass_history usual out_of_order)
        ≡ record { place = 9; of = Some (Up, own 7); message = m20 } ∷ [] }
{}

/// One name is opened in both directions, and the message of each is released in its own.
pub fn both_ways_is_legal()
    ensures pass { IsPass usual both_ways }
    ensures released { releases usual (pass_history usual both_ways)
        ≡ record { place = 14; of = Some (Down, own 7); message = m9 }
        ∷ record { place = 16; of = Some (Up, own 7); message = m20 } ∷ [] }
{}

/// What the link's noise left before and behind a part isn't read at either end, and the message is
/// released.
pub fn noisy_is_legal()
    ensures pass { IsPass usual noisy }
    ensures up { slice_get (answers usual noisy) 6 ≡ Some (Delivered (Ignored Unreadable)) }
    ensures down { slice_get (answers usual noisy) 10 ≡ Some (Delivered (Ignored Unreadable)) }
    ensures released { releases usual (pass_history usual noisy)
        ≡ record { place = 12; of = Some (Up, own 7); message = m9 } ∷ [] }
{}

/// If parts are taken in the order of their numbers, the third one breaks a reception off that
/// has the first one alone. Ground notes the report of it, and nothing is released.
pub fn second_part_missing_is_legal()
    ensures pass { IsPass strict second_part_missing }
    ensures broken { slice_get (answers strict second_part_missing) 7
        ≡ Some (Delivered (Broken (own 7) Discontinuity)) }
    ensures noted { slice_get (answers strict second_part_missing) 11
        ≡ Some (Delivered (AbortNoted (own 7) Discontinuity)) }
    ensures aborted { abortions (pass_history strict second_part_missing)
        ≡ record { place = 7; direction = Up; name = own 7 } ∷ [] }
    ensures released { releases strict (pass_history strict second_part_missing) ≡ [] }
{}

/// If parts are taken in the order of their numbers, the last one breaks a reception off before
/// it is open, and nothing is released.
pub fn last_part_first_is_legal()
    ensures pass { IsPass strict out_of_order }
    ensures broken { slice_get (answers strict out_of_order) 5
        ≡ Some (Delivered (Broken (own 7) Discontinuity)) }
    ensures aborted { abortions (pass_history strict out_of_order)
        ≡ record { place = 5; direction = Up; name = own 7 } ∷ [] }
    ensures released { releases strict (pass_history strict out_of_order) ≡ [] }
{}

/// Parts in order, the first one twice: each of them came, and the message is released.
pub fn in_order_is_legal()
    ensures pass { IsPass strict in_order }
    ensures came { map (came strict (pass_history strict in_order) Up (own 7)) (1 ∷ 2 ∷ 3 ∷ [])
        ≡ true ∷ true ∷ true ∷ [] }
    ensures released { releases strict (pass_history strict in_order)
        ≡ record { place = 11; of = Some (Up, own 7); message = m20 } ∷ [] }
{}

/// Two receptions expire, one after the other: of equal last ticks that of the least source first,
/// whatever their identifiers. Nothing is released.
pub fn two_expire_is_legal()
    ensures pass { IsPass impatient two_expire }
    ensures expired { abortions (pass_history impatient two_expire)
        ≡ record { place = 9; direction = Up; name = own 9 }
        ∷ record { place = 10; direction = Up; name = other 3 } ∷ [] }
    ensures released { releases impatient (pass_history impatient two_expire) ≡ [] }
{}

/// The spacecraft's clock is set back by two ticks between two parts of a message, and the time of
/// its reception with it. Then it has a timeout of two ticks and room for one reception: a part of
/// another message has no room, and the first reception expires two ticks behind its last part. Now
/// that part has room; its reception is given up before its time, and ground notes the report of
/// it.
pub fn set_back_is_legal()
    ensures pass { IsPass usual set_back }
    ensures clock { slice_get (answers usual set_back) 8 ≡ Some (Clock 1) }
    ensures crowded { slice_get (answers usual set_back) 15 ≡ Some (Delivered (Ignored NoRoom)) }
    ensures noted { slice_get (answers usual set_back) 23
        ≡ Some (Delivered (AbortNoted (own 8) Expired)) }
    ensures expired { abortions (pass_history usual set_back)
        ≡ record { place = 18; direction = Up; name = own 7 }
        ∷ record { place = 21; direction = Up; name = own 8 } ∷ [] }
    ensures released { releases usual (pass_history usual set_back) ≡ [] }
{}

/// A request to load four octets is claimed, committed and executed: they stand in the memory, and
/// ground gets the report of completion.
pub fn executed_load_is_legal()
    ensures pass { IsPass usual executed_load }
    ensures left { memories usual usual_memories (pass_history usual executed_load)
        ≡ loaded_memories }
    ensures reported { slice_get (answers usual executed_load) 11
        ≡ Some (Delivered (ReportNoted 1 7)) }
{}

/// Of two loads the second one's reading is handed in first. They are executed in the order in
/// which they were released: the second one's octets stand over the first one's.
pub fn two_loads_is_legal()
    ensures pass { IsPass usual two_loads }
    ensures in_order { map (λ r. r.place) (executed usual (pass_history usual two_loads)) ≡ 3 ∷ 5
        ∷ [] }
    ensures left { memories usual usual_memories (pass_history usual two_loads) ≡ cleared_memories }
{}

/// The report of dumped octets is too long for a packet of the link. It is opened, goes down in
/// parts and is released on ground.
pub fn large_report_is_legal()
    ensures pass { IsPass usual large_report }
    ensures opened { slice_get (answers usual large_report) 5
        ≡ Some (Applied (Done (Some (own 0)))) }
    ensures released { releases usual (pass_history usual large_report)
        ≡ record { place = 2; of = None; message = dump_packet }
        ∷ record { place = 17; of = Some (Down, own 0); message = report_packet } ∷ [] }
{}

/// Both nodes are restarted, a request of the earlier boot is handed in and is stale, and a name
/// is used for three messages, one after the other; two of them are released. No memory is changed.
pub fn renewed_is_legal()
    ensures pass { IsPass usual names_renewed }
    ensures stale { slice_get (answers usual names_renewed) 5 ≡ Some (Stale 0 0) }
    ensures released { releases usual (pass_history usual names_renewed)
        ≡ record { place = 2; of = None; message = load_packet }
        ∷ record { place = 16; of = Some (Up, own 7); message = m20 }
        ∷ record { place = 29; of = Some (Up, own 7); message = m9 } ∷ [] }
    ensures left { memories usual usual_memories (pass_history usual names_renewed)
        ≡ usual_memories }
{}

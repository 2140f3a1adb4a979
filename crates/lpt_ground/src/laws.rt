//! What is proved of a pass, whatever is heard, and of its places: functions with empty bodies.

ghost use Rattle.std.specs.Prelude.{◌↔◌, ◌<◌, IsTrue};
ghost use Rattle.lpt_requests.specs.declared.reading.AreaPlace.{AreaPlace};
ghost use Rattle.lpt_ground.specs.Carrying.{DoneIsTold};
ghost use Rattle.lpt_ground.specs.Others.{OtherSourcesLeaveThePass};
ghost use Rattle.lpt_ground.specs.Overlaps.{overlap, Share};

/// If a pass ends as done, of each request that waited when it began a packet was heard that is
/// a report of this pass and says that it was carried out; of a dump or a check it is the answer.
pub fn done_is_told()
    ensures { DoneIsTold }
{}

/// A packet leaves a pass as it is if it is telemetry to another source, as an answer is that an
/// earlier run under another source asked for.
pub fn other_sources_leave_the_pass()
    ensures { OtherSourcesLeaveThePass }
{}

/// Two places that have octets overlap exactly if an address is one of both.
pub fn overlap_is_shared()
    ensures { (p q : AreaPlace) → 0 < p.len → 0 < q.len → IsTrue (overlap p q) ↔ Share p q }
{}

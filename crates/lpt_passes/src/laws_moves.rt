//! What is proved of a pass that is done, whatever two ends did: functions with empty bodies.

ghost use Rattle.lpt_passes.specs.Chains.{DoneLeavesTheImage, DoneWasHeard, LargeLeavesTheImage, OthersLeaveThePass};

/// If a pass of loads is done, and each report that it heard was put out by the spacecraft, of
/// each of its loads a report of start or completion could be heard that goes to its source.
pub fn done_was_heard()
    ensures { DoneWasHeard }
{}

/// If a pass of loads is done, each report that it heard was put out by the spacecraft, and its
/// loads are a pass of an image, the spacecraft's memory has the image there, whatever else the two
/// ends did.
pub fn done_leaves_the_image()
    ensures { DoneLeavesTheImage }
{}

/// The same holds of a load that goes up in parts, all or nothing, under one name or several: if it
/// is done, the memory has the image there.
pub fn large_leaves_the_image()
    ensures { LargeLeavesTheImage }
{}

/// What is no report under its terms leaves a pass as it is.
pub fn others_leave_the_pass()
    ensures { OthersLeaveThePass }
{}

//! What is proved of a job of loads that is completed, whatever two ends did: functions that do
//! nothing.

ghost use Rattle.lpt_passes.specs.Areas.{DoneLeavesTheAreas};
ghost use Rattle.lpt_passes.specs.Places.{CompletedLeavesTheContent, LoadsAreApart};
ghost use Rattle.lpt_passes.specs.Worked.{JobsCanBeCompleted};

use crate::laws_moves::done_leaves_the_image;
use lpt_c_ground::laws::calls_carry_a_pass;

/// Take a job of loads as a C program gave it to `lpt_ground_new`, and calls that carried its pass.
/// Once `lpt_ground_next` says that it is completed, the spacecraft's memory has at each of its
/// places the octets of the content that the job gives it. No address is in two of these places.
pub fn completed_leaves_the_content()
    ensures content { CompletedLeavesTheContent }
    ensures apart { LoadsAreApart }
{
    calls_carry_a_pass();
    done_leaves_the_image();
}

/// Take loads that `plan_loads` planned, of areas of one memory or several, one plan behind the
/// other, and a pass of them that was carried to its end. If it is done, the spacecraft's memories
/// have these areas.
pub fn done_leaves_the_areas()
    ensures { DoneLeavesTheAreas }
{
    done_leaves_the_image();
}

/// There is a job of which the first law says something: whatever pass is made of it, what that law
/// asks for can be, and its calls end it as completed.
pub fn jobs_can_be_completed()
    ensures { JobsCanBeCompleted }
{
    calls_carry_a_pass();
}

//! What is proved of calls, whatever is heard: functions with empty bodies.

ghost use Rattle.lpt_c_ground.specs.Calls.{CallsCarryAPass, CompletedWasTold};

use lpt_ground::laws::done_is_told;

/// After any calls that answered 0, a pass is where it comes by what they tell it:
/// `lpt_ground_sent` tells it that nothing has come, `lpt_ground_packet` that this packet came,
/// `lpt_ground_quiet` that none came for the wait, and `lpt_ground_close` that none will come.
pub fn calls_carry_a_pass()
    ensures { CallsCarryAPass }
{}

/// Once `lpt_ground_next` says of a job's pass that it is completed, of each of its requests a
/// packet was handed over that is a report of this pass and says that it was carried out; of a
/// dump or a check it is the answer.
pub fn completed_was_told()
    ensures { CompletedWasTold }
{
    done_is_told();
}

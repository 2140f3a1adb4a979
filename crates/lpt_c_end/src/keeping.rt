//! The state of an end as octets, and an end that is restored from them.

ghost use Rattle.std.specs.Prelude.{◌≡◌, None, IfOk, IfErr, Ok, OnOk};
ghost use Rattle.lpt_events.specs.Configs.{IsConfig};
ghost use Rattle.lpt_state.specs.Spellings.{state_spelled};
ghost use Rattle.lpt_c_end.specs.Addresses.{end_at};
ghost use Rattle.lpt_c_end.specs.Calls.{IfHeld};
ghost use Rattle.lpt_c_end.specs.Codes.{IsAnswer};
ghost use Rattle.lpt_c_end.specs.Copies.{code_for, left_by, needed_by};
ghost use Rattle.lpt_c_end.specs.Keeping.{kept_refusal, resume_refusal, state_code, state_text, IsResumed, ReadsAsRestarted};
ghost use Rattle.lpt_c_end.specs.Words.{config_from, side_from};

use crate::address::{LptAddress, hand_out};
use crate::codes::{
    BAD_MEMORIES, CHECKSUM, CONFIG, DONE, EMPTY, LENGTH, MEMORY, NO_NUMBER, ORDER, RANGE, ROOM,
    SHORT, SIDE, TAG, VERSION,
};
use crate::end::End;
use crate::handle::{LptEnd, put, take};
use crate::memories::{LptMemory, are_for, memories_for};
use crate::words::{LptConfig, config_of, side_of};
use lpt_events::{Config, Side};
use lpt_state::laws::written_is_read;
use lpt_state::{StateFault, read_state, state_len, write_state_into};
use std::alloc::Global;

/// Copies the state of the end to the front of a buffer: what of it outlasts a restart. An end that
/// is made of it is the one that a restart would leave.
///
/// It answers 0; 106 if the handle is empty; 103 if the buffer is too short. At 0 and at 103
/// `needed` says how many octets the state has. It takes no memory.
pub fn lpt_end_state(alloc: Global, end: &mut LptEnd, out: &mut [u8], needed: &mut usize) -> u32
    ensures code { result ≡ code_for (state_text end.old.held.value) out.old }
    ensures buffer { out.new ≡ left_by (state_text end.old.held.value) out.old }
    ensures needed { needed.new ≡ needed_by (state_text end.old.held.value) needed.old }
    ensures again { result ≡ 0 → IfHeld ReadsAsRestarted end.old.held.value }
    ensures same { end.new.held.value ≡ end.old.held.value }
{
    let Some(held) = take(alloc, end) else {
        return EMPTY;
    };
    let code = held.copy_state(out, needed);
    put(end, held);
    code
}

/// Makes an end of a state, and writes its address: what a restart leaves of the end whose state it
/// is, with these memories, as `lpt_end_new` takes them.
///
/// It answers 0; 102 if the side or the mode is above 1; 71 to 75, the first value of the
/// configuration that is out of its range; 25 if a spacecraft can't have these memories; then of
/// the state 111, it is cut short; 112, it isn't one; 113, it is of another version; 114, it is
/// cut, or has octets behind it; 115, it is the other side's; 116, it is another configuration's;
/// 117, its checksum is wrong; 108, no number is left for a start; 118, its names are out of order;
/// 58 when out of memory. The address is written only at 0.
pub fn lpt_end_resume(
    alloc: Global,
    end: &mut LptAddress,
    side: u32,
    config: &LptConfig,
    state: &[u8],
    memories: &[LptMemory],
    content: &[u8],
) -> u32
    ensures code { IsAnswer
        (resume_refusal side config.now state.now memories.now content.now)
        result }
    ensures done { result ≡ 0 → IfHeld
        (IsResumed (side_from side) (config_from config.now) state.now memories.now content.now)
        (end_at end.new.value) }
    ensures refused { ¬ (result ≡ 0) → end.new ≡ end.old }
{
    if side > 1 || config.mode > 1 {
        return RANGE;
    }
    let config = config_of(config);
    if let Some(fault) = config.fault() {
        return u32::from(fault.code());
    }
    match End::resume(alloc, side_of(side), &config, state, memories, content) {
        Ok(made) => hand_out(alloc, made, end),
        Err(code) => code,
    }
}

impl End {
    // Copies the state to the front of a buffer.
    fn copy_state(&self, out: &mut [u8], needed: &mut usize) -> u32
        ensures code { result ≡ code_for (Ok (state_spelled self.now.node)) out.old }
        ensures buffer { out.new ≡ left_by (Ok (state_spelled self.now.node)) out.old }
        ensures needed { needed.new ≡ needed_by (Ok (state_spelled self.now.node)) needed.old }
        ensures again { ReadsAsRestarted self.now }
    {
        written_is_read();
        let len = state_len(&self.node);
        *needed = len;
        if out.len() < len {
            return ROOM;
        }
        write_state_into(&self.node, out);
        DONE
    }

    // An end made of a state, or the number of the fault.
    fn resume(
        alloc: Global,
        side: Side,
        config: &Config,
        state: &[u8],
        memories: &[LptMemory],
        content: &[u8],
    ) -> Result<Box<End, Global>, u32>
        requires { IsConfig config.now }
        ensures ok { IfOk result (λ b.
            IsResumed side config.now state.now memories.now content.now b.value) }
        ensures enabled { OnOk result
            (kept_refusal side config.now state.now memories.now content.now ≡ None) }
        ensures err { IfErr result (λ code. ¬ (code ≡ 0) × IsAnswer
            (kept_refusal side config.now state.now memories.now content.now) code) }
    {
        if !are_for(side, memories, content) {
            return Err(BAD_MEMORIES);
        }
        let node = match read_state(alloc, side, config, state) {
            Ok(node) => node,
            Err(fault) => return Err(state_code(fault)),
        };
        let memories = memories_for(alloc, side, memories, content)?;
        End::of(alloc, node, memories)
    }
}

// The number of a fault of a state.
pub(crate) fn state_code(fault: StateFault) -> u32
    ensures { result ≡ state_code fault }
{
    match fault {
        StateFault::Short => SHORT,
        StateFault::Tag => TAG,
        StateFault::Version => VERSION,
        StateFault::Length => LENGTH,
        StateFault::Side => SIDE,
        StateFault::Config => CONFIG,
        StateFault::Checksum => CHECKSUM,
        StateFault::Boot => NO_NUMBER,
        StateFault::Order => ORDER,
        StateFault::Memory => MEMORY,
    }
}

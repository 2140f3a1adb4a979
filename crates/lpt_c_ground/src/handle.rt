//! The handle of a pass.

ghost use Rattle.std.specs.Prelude.{◌≡◌, true, Option, None, Some, is_some};
ghost use Rattle.std.specs.Option.{option_map};
ghost use Rattle.lpt_c_ground.specs.declared.grounds.Ground.{Ground};
ghost use Rattle.lpt_c_ground.specs.HandleCodes.{coded_held};

use crate::box_fields::BoxFields;
use crate::grounds::Ground;
use std::alloc::Global;
use std::marker::{Model, Send};

/// The address of a pass, or none.
#[repr(C)]
#[derive(Drop)]
pub struct LptGroundHeld {
    at: *mut u8,
    alloc: Global,
    pub(crate) ghost value: { Option Ground } by { coded_held },
}

impl Model for LptGroundHeld {
    ghost use Rattle.lpt_c_ground.specs.Held.{held_by};

    ghost also_owns = { λ h. held_by h.alloc h.at h.value };
}

// The pass stands in a box that this handle alone has, so it goes where the handle goes.
unsafe impl Send for LptGroundHeld {}

/// A handle: it holds a pass, but while a call has it. C has its address alone.
#[repr(C)]
#[derive(Drop)]
pub struct LptGround {
    pub(crate) full: bool,
    pub(crate) held: LptGroundHeld,
    ghost same: { is_some held.value ≡ full },
}

impl LptGround {
    /// A handle that holds no pass.
    pub(crate) fn empty(alloc: Global) -> LptGround
        ensures { result.held.value ≡ None }
    {
        let nowhere: *mut u8 = std::ptr::null_mut();
        let held = LptGroundHeld::none(nowhere, alloc);
        LptGround { full: false, held }
    }
}

impl LptGroundHeld {
    pub(crate) fn none(at: *mut u8, alloc: Global) -> LptGroundHeld
        ensures { result.value ≡ None }
    {
        LptGroundHeld { at, alloc }
    }

    pub(crate) fn of(parts: BoxFields<Ground, Global>) -> LptGroundHeld
        ensures { result.value ≡ Some parts.value }
    {
        let BoxFields { ptr, alloc } = parts;
        LptGroundHeld {
            at: ptr as *mut u8,
            alloc,
        }
    }

    pub(crate) fn into_fields(self) -> BoxFields<Ground, Global>
        requires { is_some self.value ≡ true }
        ensures { self.value ≡ Some result.value }
    {
        let LptGroundHeld { at, alloc } = self;
        BoxFields {
            ptr: at as *mut Ground,
            alloc,
        }
    }
}

// Takes the pass out of a handle, which is empty then.
pub(crate) fn take(alloc: Global, pass: &mut LptGround) -> Option<Box<Ground, Global>>
    ensures taken { option_map (λ b. b.value) result ≡ pass.old.held.value }
    ensures empty { pass.new.held.value ≡ None }
{
    let LptGround { full, held } = std::mem::replace(pass, LptGround::empty(alloc));
    if !full {
        return None;
    }
    Some(held.into_fields().into_box())
}

// Puts a pass into a handle.
pub(crate) fn put(pass: &mut LptGround, value: Box<Ground, Global>)
    ensures { pass.new.held.value ≡ Some value.value }
{
    *pass = LptGround {
        full: true,
        held: LptGroundHeld::of(BoxFields::of(value)),
    };
}

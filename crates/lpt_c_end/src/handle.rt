//! The handle of an end.

ghost use Rattle.std.specs.Prelude.{◌≡◌, true, Option, None, Some, is_some};
ghost use Rattle.std.specs.Option.{option_map};
ghost use Rattle.lpt_c_end.specs.declared.end.End.{End};
ghost use Rattle.lpt_c_end.specs.HandleCodes.{coded_held};

use crate::box_fields::BoxFields;
use crate::end::End;
use std::alloc::Global;
use std::marker::{Model, Send};

/// The address of an end, or none.
#[repr(C)]
#[derive(Drop)]
pub struct LptHeld {
    at: *mut u8,
    alloc: Global,
    pub(crate) ghost value: { Option End } by { coded_held },
}

impl Model for LptHeld {
    ghost use Rattle.lpt_c_end.specs.Held.{held_by};

    ghost also_owns = { λ h. held_by h.alloc h.at h.value };
}

// The end stands in a box that this handle alone has, so it goes where the handle goes.
unsafe impl Send for LptHeld {}

/// A handle: it holds an end, but while a call has it. C has its address alone.
#[repr(C)]
#[derive(Drop)]
pub struct LptEnd {
    pub(crate) full: bool,
    pub(crate) held: LptHeld,
    ghost same: { is_some held.value ≡ full },
}

impl LptEnd {
    /// A handle that holds no end.
    pub(crate) fn empty(alloc: Global) -> LptEnd
        ensures { result.held.value ≡ None }
    {
        let nowhere: *mut u8 = std::ptr::null_mut();
        let held = LptHeld::none(nowhere, alloc);
        LptEnd { full: false, held }
    }
}

impl LptHeld {
    pub(crate) fn none(at: *mut u8, alloc: Global) -> LptHeld
        ensures { result.value ≡ None }
    {
        LptHeld { at, alloc }
    }

    pub(crate) fn of(parts: BoxFields<End, Global>) -> LptHeld
        ensures { result.value ≡ Some parts.value }
    {
        let BoxFields { ptr, alloc } = parts;
        LptHeld {
            at: ptr as *mut u8,
            alloc,
        }
    }

    pub(crate) fn into_fields(self) -> BoxFields<End, Global>
        requires { is_some self.value ≡ true }
        ensures { self.value ≡ Some result.value }
    {
        let LptHeld { at, alloc } = self;
        BoxFields {
            ptr: at as *mut End,
            alloc,
        }
    }
}

// Takes the end out of a handle, which is empty then.
pub(crate) fn take(alloc: Global, end: &mut LptEnd) -> Option<Box<End, Global>>
    ensures taken { option_map (λ b. b.value) result ≡ end.old.held.value }
    ensures empty { end.new.held.value ≡ None }
{
    let LptEnd { full, held } = std::mem::replace(end, LptEnd::empty(alloc));
    if !full {
        return None;
    }
    Some(held.into_fields().into_box())
}

// Puts an end into a handle.
pub(crate) fn put(end: &mut LptEnd, value: Box<End, Global>)
    ensures { end.new.held.value ≡ Some value.value }
{
    *end = LptEnd {
        full: true,
        held: LptHeld::of(BoxFields::of(value)),
    };
}

//! The address of a handle, which is what C has of an end.

ghost use Rattle.std.specs.Prelude.{◌≡◌, None, Option, Some};
ghost use Rattle.std.specs.Option.{option_map};
ghost use Rattle.lpt_c_end.specs.Codes.{IsAnswer};
ghost use Rattle.lpt_c_end.specs.Addresses.{end_at, NullIfNone};
ghost use Rattle.lpt_c_end.specs.AddressCodes.{coded_address};
ghost use Rattle.lpt_c_end.specs.declared.handle.LptEnd.{LptEnd};

use crate::box_fields::BoxFields;
use crate::codes::{DONE, MEMORY};
use crate::end::End;
use crate::handle::{LptEnd, put};
use std::alloc::Global;
use std::marker::{Model, Send};

/// The address of a handle, and with it the handle; or any address, and none.
#[repr(C)]
#[derive(Drop)]
pub struct LptAddress {
    at: *mut u8,
    alloc: Global,
    pub(crate) ghost value: { Option LptEnd } by { coded_address },
}

impl Model for LptAddress {
    ghost use Rattle.lpt_c_end.specs.Addresses.{address_owns};

    ghost also_owns = { λ h. address_owns h.alloc h.at h.value };
}

// The handle stands in a box that this address alone has, so it goes where the address goes.
unsafe impl Send for LptAddress {}

impl LptAddress {
    pub(crate) fn of(parts: BoxFields<LptEnd, Global>) -> LptAddress
        ensures { result.value ≡ Some parts.value }
    {
        let BoxFields { ptr, alloc } = parts;
        LptAddress {
            at: ptr as *mut u8,
            alloc,
        }
    }

    pub(crate) fn into_fields(self) -> Option<BoxFields<LptEnd, Global>>
        requires { NullIfNone self.at self.value }
        ensures { option_map (λ parts. parts.value) result ≡ self.value }
    {
        let LptAddress { at, alloc } = self;
        if at.is_null() {
            return None;
        }
        Some(BoxFields {
            ptr: at as *mut LptEnd,
            alloc,
        })
    }
}

// Puts an end into a handle of its own, and says where that is, or that memory ran out.
pub(crate) fn hand_out(alloc: Global, value: Box<End, Global>, to: &mut LptAddress) -> u32
    ensures code { IsAnswer None result }
    ensures done { result ≡ 0 → end_at to.new.value ≡ Some value.value }
    ensures refused { ¬ (result ≡ 0) → to.new ≡ to.old }
{
    let Ok(mut handle) = Box::new(alloc, LptEnd::empty(alloc)) else {
        return MEMORY;
    };
    put(&mut *handle, value);
    *to = LptAddress::of(BoxFields::of(handle));
    DONE
}

//! The address of a handle, which is what C has of a pass.

ghost use Rattle.std.specs.Prelude.{◌≡◌, None, Option, Some};
ghost use Rattle.std.specs.Option.{option_map};
ghost use Rattle.lpt_c_ground.specs.Codes.{IsAnswer};
ghost use Rattle.lpt_c_ground.specs.Addresses.{ground_at, NullIfNone};
ghost use Rattle.lpt_c_ground.specs.AddressCodes.{coded_address};
ghost use Rattle.lpt_c_ground.specs.declared.handle.LptGround.{LptGround};

use crate::box_fields::BoxFields;
use crate::codes::{DONE, MEMORY};
use crate::grounds::Ground;
use crate::handle::{LptGround, put};
use std::alloc::Global;
use std::marker::{Model, Send};

/// The address of a handle, and with it the handle; or any address, and none.
#[repr(C)]
#[derive(Drop)]
pub struct LptGroundAddress {
    at: *mut u8,
    alloc: Global,
    pub(crate) ghost value: { Option LptGround } by { coded_address },
}

impl Model for LptGroundAddress {
    ghost use Rattle.lpt_c_ground.specs.Addresses.{address_owns};

    ghost also_owns = { λ h. address_owns h.alloc h.at h.value };
}

// The handle stands in a box that this address alone has, so it goes where the address goes.
unsafe impl Send for LptGroundAddress {}

impl LptGroundAddress {
    pub(crate) fn of(parts: BoxFields<LptGround, Global>) -> LptGroundAddress
        ensures { result.value ≡ Some parts.value }
    {
        let BoxFields { ptr, alloc } = parts;
        LptGroundAddress {
            at: ptr as *mut u8,
            alloc,
        }
    }

    pub(crate) fn into_fields(self) -> Option<BoxFields<LptGround, Global>>
        requires { NullIfNone self.at self.value }
        ensures { option_map (λ parts. parts.value) result ≡ self.value }
    {
        let LptGroundAddress { at, alloc } = self;
        if at.is_null() {
            return None;
        }
        Some(BoxFields {
            ptr: at as *mut LptGround,
            alloc,
        })
    }
}

// Puts a pass into a handle of its own, and says where that is, or that memory ran out.
pub(crate) fn hand_out(alloc: Global, value: Box<Ground, Global>, to: &mut LptGroundAddress) -> u32
    ensures code { IsAnswer None result }
    ensures done { result ≡ 0 → ground_at to.new.value ≡ Some value.value }
    ensures refused { ¬ (result ≡ 0) → to.new ≡ to.old }
{
    let Ok(mut handle) = Box::new(alloc, LptGround::empty(alloc)) else {
        return MEMORY;
    };
    put(&mut *handle, value);
    *to = LptGroundAddress::of(BoxFields::of(handle));
    DONE
}

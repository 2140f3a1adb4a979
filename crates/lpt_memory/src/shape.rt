//! The identifiers and sizes of memories.

ghost use Rattle.std.specs.Prelude.{◌≡◌, IfOk};

use std::alloc::AllocError;
use std::marker::Model;

/// The identifier and the size of each memory, in the order in which the memories were given.
#[derive(Drop)]
pub struct Shape {
    sizes: Vec<(u8, u32)>,
}

impl Model for Shape {
    ghost use Rattle.std.specs.Prelude.{ℕ, List};

    ghost Value = { List (ℕ × ℕ) };

    ghost view = { λ a. a.sizes.items };
}

impl Shape {
    /// The shape of these identifiers and sizes.
    pub fn of(sizes: Vec<(u8, u32)>) -> Shape
        ensures { result ≡ sizes.items }
    {
        Shape { sizes }
    }

    // The identifiers and sizes.
    pub(crate) fn sizes(&self) -> &[(u8, u32)]
        ensures { result.now ≡ self.now }
    {
        &self.sizes
    }

    /// A copy. The only error is out of memory.
    pub fn copy(&self) -> Result<Shape, AllocError>
        ensures { IfOk result (λ s. s ≡ self.now) }
    {
        Ok(Shape {
            sizes: self.sizes.clone()?,
        })
    }
}

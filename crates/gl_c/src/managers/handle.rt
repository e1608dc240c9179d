//! The place of a manager.

ghost use Rattle.std.specs.Prelude.{◌≡◌, is_some};

use crate::managers::handle::held::Held;
use std::alloc::Global;

mod calls;
mod held;
mod parts;

/// The place of a manager. C makes it zero before the first call, and from then on neither reads,
/// writes nor copies it.
#[repr(C)]
#[derive(Drop)]
pub struct Handle {
    is_open: bool,
    held: Held,
    alloc: Global,
    ghost open: { is_open ≡ is_some held.guarded },
}

//! The place of a watcher.

ghost use Rattle.std.specs.Prelude.{◌≡◌, is_some};

use crate::watchers::lookout::posted::Posted;
use std::alloc::Global;

mod calls;
mod posted;

/// The place of a watcher. C makes it zero before the first call, and from then on neither reads,
/// writes nor copies it.
#[repr(C)]
#[derive(Drop)]
pub struct Lookout {
    is_open: bool,
    posted: Posted,
    alloc: Global,
    ghost open: { is_open ≡ is_some posted.known },
}

//! Managers: how they are made and ended, their places in C's memory, and what a place holds.

mod guarded;
pub(crate) mod handle;
mod managing;
mod session;
mod showing;

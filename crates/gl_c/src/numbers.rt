//! The numbers that C uses for modes, ways of detection and statuses.

ghost use Rattle.std.specs.Prelude.{◌≡◌};
ghost use Rattle.gl_c.specs.Numbers.{detect_at, effect_number, given_at, keep_at, mode_at, mode_number, slot_at, victims_at};

use gl_modes::Mode;
use gl_slots::{SLOTS, Slot};
use gl_table::{Detect, Effect};
use gl_waiting::Keep;
use gl_waits::Victims;

/// The call was done, or the question answered.
pub(crate) const DONE: u32 = 0;

/// The allocator refused.
pub(crate) const NO_MEMORY: u32 = 1;

/// The transaction waits for the lock.
pub(crate) const WAITING: u32 = 32;

/// The requester was condemned to end a deadlock.
pub(crate) const VICTIM: u32 = 33;

/// The node moved, and the wait is over.
pub(crate) const MOVED: u32 = 34;

/// The node is gone, and the wait is over.
pub(crate) const GONE: u32 = 35;

/// The time of the wait is over.
pub(crate) const TIMED_OUT: u32 = 36;

/// The path is locked as far as a node above, and others were notified.
pub(crate) const ON_THE_WAY: u32 = 37;

/// The row is held, but its node's keys are not those that the caller named.
pub(crate) const OTHER_KEYS: u32 = 38;

/// No manager was made at this place, or it was ended.
pub(crate) const NO_MANAGER: u32 = 65;

/// A number names no mode or no way of detection, or a count is out of range.
pub(crate) const BAD_NUMBER: u32 = 66;

/// This place has a manager or a watcher already.
pub(crate) const IN_USE: u32 = 67;

/// There are fewer than that.
pub(crate) const NO_PLACE: u32 = 68;

/// No watcher was made at this place, or it was ended.
pub(crate) const NO_WATCHER: u32 = 69;

/// The manager has as many watchers as it may.
pub(crate) const TOO_MANY_WATCHERS: u32 = 70;

/// A file of rows: its records are inserted, deleted and changed by calls about rows alone.
pub(crate) const ROWS_BY_NUMBER: u32 = 71;

/// The file is not a file of rows.
pub(crate) const NOT_ROWS: u32 = 72;

/// The number of a mode.
pub(crate) fn mode_number(mode: Mode) -> u32
    ensures { result ≡ mode_number mode }
{
    match mode {
        Mode::NL => 0,
        Mode::IS => 1,
        Mode::IX => 2,
        Mode::S => 3,
        Mode::SIX => 4,
        Mode::X => 5,
    }
}

/// The mode with this number; `None` if there is none.
pub(crate) fn mode_at(number: u32) -> Option<Mode>
    ensures { result ≡ mode_at number }
{
    match number {
        0 => Some(Mode::NL),
        1 => Some(Mode::IS),
        2 => Some(Mode::IX),
        3 => Some(Mode::S),
        4 => Some(Mode::SIX),
        5 => Some(Mode::X),
        _ => None,
    }
}

/// The number of an effective mode, which is that of the mode with its name.
pub(crate) fn effect_number(effect: Effect) -> u32
    ensures { result ≡ effect_number effect }
{
    match effect {
        Effect::None => 0,
        Effect::S => 3,
        Effect::X => 5,
    }
}

/// The choice of victims with this number; `None` if there is none.
pub(crate) fn victims_at(number: u32) -> Option<Victims>
    ensures { result ≡ victims_at number }
{
    match number {
        0 => Some(Victims::Youngest),
        1 => Some(Victims::Fewest),
        _ => None,
    }
}

/// The way of detection with this number; `None` if there is none.
pub(crate) fn detect_at(number: u32) -> Option<Detect>
    ensures { result ≡ detect_at number }
{
    match number {
        0 => Some(Detect::AtBlock),
        1 => Some(Detect::ByWatcher),
        _ => None,
    }
}

/// What a refused path keeps, by this number; `None` if it says nothing.
pub(crate) fn keep_at(number: u32) -> Option<Keep>
    ensures { result ≡ keep_at number }
{
    match number {
        0 => Some(Keep::Nothing),
        1 => Some(Keep::Path),
        _ => None,
    }
}

/// The slot with this number; `None` if there is none.
pub(crate) fn slot_at(number: u32) -> Option<Slot>
    ensures { result ≡ slot_at number }
{
    if number < SLOTS as u32 {
        Some(number as Slot)
    } else {
        None
    }
}

/// A number that C gives; the greatest says that there is none.
pub(crate) fn given_at(number: u64) -> Option<u64>
    ensures { result ≡ given_at number }
{
    if number == u64::MAX {
        None
    } else {
        Some(number)
    }
}

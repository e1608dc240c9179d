//! Begins that wait for a slot, first come, first served. Each call that frees a slot hands on the
//! begins that can begin by that; the caller takes them, before it releases its latch.

ghost use Rattle.gl_c.specs.locks.Turns.{TakesBegun, TakesLate, Withdraws, begin_at, turn_call};
ghost use Rattle.gl_c.specs.managers.Carries.{Asks};
ghost use Rattle.gl_c.specs.managers.Handle.{guarded_in};

use crate::answers::reply::Reply;
use crate::managers::handle::Handle;
use crate::numbers::given_at;
use gl_waiting::QueuedBegin;

/// Begins a transaction if nobody waits for a slot and one is free; otherwise the begin waits for one,
/// after all who wait already, and the status says so. `since` is as for `bs_call_begin_again`, or the
/// greatest number for new work. `word` is the caller's name for the begin, and `until` its latest time
/// by the caller's clock, in nanoseconds.
#[unsafe(no_mangle)]
pub extern "C" fn bs_call_begin_in_turn(
    manager: &mut Handle,
    since: u64,
    word: u64,
    until: u64,
) -> Reply
    ensures { Asks (guarded_in manager.old) (turn_call (begin_at since word until)) result (guarded_in manager.new) }
{
    manager.begin_in_turn(QueuedBegin {
        word,
        since: given_at(since),
        until: Some(until),
    })
}

/// Takes the first of the begins that were handed on: its answer, with its name as the number.
#[unsafe(no_mangle)]
pub extern "C" fn bs_call_take_begun(manager: &mut Handle) -> Reply
    ensures { TakesBegun (guarded_in manager.old) result (guarded_in manager.new) }
{
    manager.take_begun()
}

/// Takes the begin of this name out of those that wait for a slot, if it is one of them.
#[unsafe(no_mangle)]
pub extern "C" fn bs_call_withdraw_begin(manager: &mut Handle, word: u64) -> Reply
    ensures { Withdraws (guarded_in manager.old) word result (guarded_in manager.new) }
{
    manager.withdraw_begin(word)
}

/// Takes the first begin whose time is at or before now out of those that wait for a slot, and answers
/// its name.
#[unsafe(no_mangle)]
pub extern "C" fn bs_call_take_late_begin(manager: &mut Handle, now: u64) -> Reply
    ensures { TakesLate (guarded_in manager.old) now result (guarded_in manager.new) }
{
    manager.take_late_begin(now)
}

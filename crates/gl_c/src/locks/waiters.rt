//! Waiters of requests. A request that a call left waiting is registered, with how it goes on. The caller
//! continues those whose wait is over by `bs_call_go_on`, until none is, before it releases its latch.
//! `until` is the latest time at which a wait ends, by the caller's clock, in nanoseconds; the greatest
//! number says that it has none.

ghost use Rattle.std.specs.Prelude.{◌≡◌, take};
ghost use Rattle.gl_waiting.specs.Keys.{keys_in};
ghost use Rattle.gl_waiting.specs.declared.keys.RowKeys.{RowKeys as AKeys};
ghost use Rattle.gl_c.specs.Names.{txn_id};
ghost use Rattle.gl_c.specs.Numbers.{bad_number, mode_at};
ghost use Rattle.gl_c.specs.locks.Waiters.{AwaitsIn, ClimbsIn, FindsTime, FindsWaitLate, NextIn, WithdrawsIn};
ghost use Rattle.gl_c.specs.locks.Waiters.{late_call, node_waiter, on_call, path_waiter, row_climber, row_path_waiter, row_waiter};
ghost use Rattle.gl_c.specs.managers.Carries.{Carries, Declines, Where};
ghost use Rattle.gl_c.specs.managers.Handle.{guarded_in};

use crate::answers::notices::Notices;
use crate::answers::reply::Reply;
use crate::managers::handle::Handle;
use crate::names::{Node, Txn};
use crate::numbers::{BAD_NUMBER, given_at, mode_at};
use gl_modes::MOST_PARENTS;
use gl_waiting::{Request, RowKeys, Waiter, intention};

/// Registers the waiter of a lock that waits. `instant` is not zero if it is for an instant: then it is
/// released as it is granted. The reply is `BS_WAITING`, with the node and the mode; `BS_IN_USE` if the slot
/// of its transaction has a waiter already; or what became of the wait, if it is over by now.
#[unsafe(no_mangle)]
pub extern "C" fn bs_call_await_node(
    manager: &mut Handle,
    txn: Txn,
    node: Node,
    mode: u32,
    instant: u32,
    until: u64,
) -> Reply
    ensures { Where (mode_at mode) (λ wanted. AwaitsIn (guarded_in manager.old) (node_waiter txn node wanted instant until) result
        (guarded_in manager.new)) (Declines (guarded_in manager.old) bad_number result (guarded_in manager.new)) }
{
    let Some(mode) = mode_at(mode) else {
        return Reply::with_status(BAD_NUMBER);
    };
    let node = node.id();
    manager.await_request(Waiter {
        txn: txn.id(),
        request: Request::Node { node, mode },
        instant: instant != 0,
        at: node,
        wanted: mode,
        until: given_at(until),
    })
}

/// Registers the waiter of a path, which waits for the node `at` of it in the mode `wanted`.
#[unsafe(no_mangle)]
pub extern "C" fn bs_call_await_path(
    manager: &mut Handle,
    txn: Txn,
    node: Node,
    mode: u32,
    instant: u32,
    at: Node,
    wanted: u32,
    until: u64,
) -> Reply
    ensures { Where (mode_at mode) (λ asked. Where (mode_at wanted)
        (λ above. AwaitsIn (guarded_in manager.old) (path_waiter txn node asked instant at above until) result (guarded_in manager.new))
        (Declines (guarded_in manager.old) bad_number result (guarded_in manager.new)))
        (Declines (guarded_in manager.old) bad_number result (guarded_in manager.new)) }
{
    let (Some(mode), Some(wanted)) = (mode_at(mode), mode_at(wanted)) else {
        return Reply::with_status(BAD_NUMBER);
    };
    manager.await_request(Waiter {
        txn: txn.id(),
        request: Request::Path {
            node: node.id(),
            mode,
        },
        instant: instant != 0,
        at: at.id(),
        wanted,
        until: given_at(until),
    })
}

/// Registers the waiter of a row, which waits for its node `at`.
#[unsafe(no_mangle)]
pub extern "C" fn bs_call_await_row(
    manager: &mut Handle,
    txn: Txn,
    file: Node,
    number: u64,
    keys: &[u64],
    mode: u32,
    at: Node,
    until: u64,
) -> Reply
    ensures { Where (mode_at mode) (λ wanted. (k : AKeys) × (keys_in k ≡ take MOST_PARENTS keys.now)
        × AwaitsIn (guarded_in manager.old) (row_waiter txn file number k wanted at until) result (guarded_in manager.new))
        (Declines (guarded_in manager.old) bad_number result (guarded_in manager.new)) }
{
    let Some(mode) = mode_at(mode) else {
        return Reply::with_status(BAD_NUMBER);
    };
    let row = file.row(number);
    let keys = RowKeys::new(keys);
    manager.await_request(Waiter {
        txn: txn.id(),
        request: Request::Row { row, keys, mode },
        instant: false,
        at: at.id(),
        wanted: mode,
        until: given_at(until),
    })
}

/// Registers the waiter of a row that is locked with what must be held above it, and waits for its node `at`.
#[unsafe(no_mangle)]
pub extern "C" fn bs_call_await_row_path(
    manager: &mut Handle,
    txn: Txn,
    file: Node,
    number: u64,
    keys: &[u64],
    mode: u32,
    at: Node,
    until: u64,
) -> Reply
    ensures { Where (mode_at mode) (λ wanted. (k : AKeys) × (keys_in k ≡ take MOST_PARENTS keys.now)
        × AwaitsIn (guarded_in manager.old) (row_path_waiter txn file number k wanted at until) result (guarded_in manager.new))
        (Declines (guarded_in manager.old) bad_number result (guarded_in manager.new)) }
{
    let Some(mode) = mode_at(mode) else {
        return Reply::with_status(BAD_NUMBER);
    };
    let row = file.row(number);
    let keys = RowKeys::new(keys);
    manager.await_request(Waiter {
        txn: txn.id(),
        request: Request::RowPath { row, keys, mode },
        instant: false,
        at: at.id(),
        wanted: mode,
        until: given_at(until),
    })
}

/// Registers the waiter of a row that is locked with what must be held above it, and lacks the node `parent`: the next
/// `bs_call_go_on` of it locks that by an intention. `BS_NO_PLACE` if the slot of its transaction has a waiter already, or
/// there is no such slot.
#[unsafe(no_mangle)]
pub extern "C" fn bs_call_climb_to_row(
    manager: &mut Handle,
    txn: Txn,
    file: Node,
    number: u64,
    keys: &[u64],
    mode: u32,
    parent: Node,
    until: u64,
) -> Reply
    ensures { Where (mode_at mode) (λ wanted. (k : AKeys) × (keys_in k ≡ take MOST_PARENTS keys.now)
        × ClimbsIn (guarded_in manager.old) (row_climber txn file number k wanted parent until) result (guarded_in manager.new))
        (Declines (guarded_in manager.old) bad_number result (guarded_in manager.new)) }
{
    let Some(mode) = mode_at(mode) else {
        return Reply::with_status(BAD_NUMBER);
    };
    let row = file.row(number);
    let keys = RowKeys::new(keys);
    manager.climb(Waiter {
        txn: txn.id(),
        request: Request::RowPath { row, keys, mode },
        instant: false,
        at: parent.id(),
        wanted: intention(mode),
        until: given_at(until),
    })
}

/// Removes the waiter of a transaction, whose wait goes on. `BS_NO_PLACE` if it has none.
#[unsafe(no_mangle)]
pub extern "C" fn bs_call_withdraw_waiter(manager: &mut Handle, txn: Txn) -> Reply
    ensures { WithdrawsIn (guarded_in manager.old) (txn_id txn) result (guarded_in manager.new) }
{
    manager.withdraw_waiter(txn.id())
}

/// Continues the waiter of the lowest slot whose wait is over, by one command at most. The reply has its
/// transaction and what its request came to: as the reply to the request would be if it has ended,
/// `BS_WAITING` with the node and the mode if it waits, and `BS_ON_THE_WAY` if it goes on with the next
/// call. `count` is 1 if a wait is over after that, and 0 if none is. `BS_NO_PLACE` if no wait is over.
#[unsafe(no_mangle)]
pub extern "C" fn bs_call_go_on(manager: &mut Handle, told: &mut Notices) -> Reply
    ensures { Carries (guarded_in manager.old) on_call result told.new (guarded_in manager.new) }
{
    manager.go_on(told)
}

/// What `bs_call_go_on` does next, in `count`: 0 ends a request, 1 gives back a lock for an instant, 2 locks
/// a path, 3 a row again, 4 a row; with the transaction, and the node and the mode of the command. `BS_NO_PLACE` if
/// no wait is over.
#[unsafe(no_mangle)]
pub extern "C" fn bs_call_next_waiter(manager: &mut Handle) -> Reply
    ensures { NextIn (guarded_in manager.old) result (guarded_in manager.new) }
{
    manager.next_waiter()
}

/// Cancels the wait of a transaction whose time is over. The reply has its end. `BS_NO_PLACE` if it has no
/// waiter, or if its wait cannot be cancelled, since it is over or no command can be counted any more.
#[unsafe(no_mangle)]
pub extern "C" fn bs_call_time_out(manager: &mut Handle, txn: Txn, told: &mut Notices) -> Reply
    ensures { Carries (guarded_in manager.old) (late_call (txn_id txn)) result told.new (guarded_in manager.new) }
{
    manager.time_out(txn.id(), told)
}

/// The transaction of the lowest slot whose wait should have ended by now. `BS_NO_PLACE` if there is none.
#[unsafe(no_mangle)]
pub extern "C" fn bs_call_first_late(manager: &mut Handle, now: u64) -> Reply
    ensures { FindsWaitLate (guarded_in manager.old) now result (guarded_in manager.new) }
{
    manager.first_late(now)
}

/// The earliest time at which a wait ends, for a lock or for a slot. `BS_NO_PLACE` if none has one.
#[unsafe(no_mangle)]
pub extern "C" fn bs_call_earliest_time(manager: &mut Handle) -> Reply
    ensures { FindsTime (guarded_in manager.old) result (guarded_in manager.new) }
{
    manager.earliest_time()
}

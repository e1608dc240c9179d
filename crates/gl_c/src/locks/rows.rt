//! Rows by the engine's own numbers, which have nodes while they are locked. Each call that tells
//! somebody fills `told`, whatever it had before.

ghost use Rattle.std.specs.Prelude.{[]};
ghost use Rattle.gl_rows.specs.declared.call.RowCall.TheVariants as call;
ghost use Rattle.gl_c.specs.managers.Carries.{Carries, Declines, Where};
ghost use Rattle.gl_c.specs.managers.Handle.{guarded_in};
ghost use Rattle.gl_c.specs.Names.{node_id, row_at, txn_id};
ghost use Rattle.gl_c.specs.answers.Notices.{Tells};
ghost use Rattle.gl_c.specs.Numbers.{bad_number, mode_at};
ghost use Rattle.gl_c.specs.locks.Rows.{FindsRow, row_call};

use crate::answers::notices::Notices;
use crate::answers::reply::Reply;
use crate::managers::handle::Handle;
use crate::names::{Node, Txn};
use crate::numbers::{BAD_NUMBER, mode_at};
use gl_rows::RowCall;

/// Locks a row by its node, with these keys, one for each index of its file in the order of making. To
/// insert or delete a row, lock it in X. If the row's node has other keys, the lock is held as well,
/// and the status says so.
#[unsafe(no_mangle)]
pub extern "C" fn bs_call_lock_row(
    manager: &mut Handle,
    txn: Txn,
    file: Node,
    number: u64,
    keys: &[u64],
    mode: u32,
    told: &mut Notices,
) -> Reply
    ensures { Where (mode_at mode) (λ wanted. Carries (guarded_in manager.old) (row_call (call.Lock (txn_id txn)
        (row_at file number) keys.entry wanted)) result told.new (guarded_in manager.new))
        (Declines (guarded_in manager.old) bad_number result (guarded_in manager.new) × Tells told.new []) }
{
    let Some(mode) = mode_at(mode) else {
        told.clear();
        return Reply::with_status(BAD_NUMBER);
    };
    let call = RowCall::Lock {
        txn: txn.id(),
        row: file.row(number),
        keys,
        mode,
    };
    manager.carry_out_row(call, told)
}

/// Releases a row.
#[unsafe(no_mangle)]
pub extern "C" fn bs_call_unlock_row(
    manager: &mut Handle,
    txn: Txn,
    file: Node,
    number: u64,
    told: &mut Notices,
) -> Reply
    ensures { Carries (guarded_in manager.old) (row_call (call.Unlock (txn_id txn) (row_at file number))) result told.new (guarded_in manager.new) }
{
    let call = RowCall::Unlock {
        txn: txn.id(),
        row: file.row(number),
    };
    manager.carry_out_row(call, told)
}

/// Gives a row another key for one index of its file.
#[unsafe(no_mangle)]
pub extern "C" fn bs_call_rekey_row(
    manager: &mut Handle,
    txn: Txn,
    file: Node,
    number: u64,
    index: Node,
    key: u64,
    told: &mut Notices,
) -> Reply
    ensures { Carries (guarded_in manager.old) (row_call (call.Rekey (txn_id txn) (row_at file number) (node_id index) key)) result told.new
        (guarded_in manager.new) }
{
    let call = RowCall::Rekey {
        txn: txn.id(),
        row: file.row(number),
        index: index.id(),
        key,
    };
    manager.carry_out_row(call, told)
}

/// The node of a row, if it has one.
#[unsafe(no_mangle)]
pub extern "C" fn bs_call_row_node(manager: &mut Handle, file: Node, number: u64) -> Reply
    ensures { FindsRow (guarded_in manager.old) (row_at file number) result (guarded_in manager.new) }
{
    manager.row_node(file.row(number))
}

//! Tries of paths and rows: each lock is granted at once, or refused. Each call fills `told`, whatever it
//! had before.

ghost use Rattle.gl_c.specs.managers.Carries.{Carries, Where};
ghost use Rattle.gl_c.specs.managers.Handle.{guarded_in};
ghost use Rattle.gl_c.specs.Names.{node_id, row_at, txn_id};
ghost use Rattle.gl_c.specs.Numbers.{keep_at, mode_at};
ghost use Rattle.gl_c.specs.locks.Tries.{NamesNothing, tried_path_call, tried_row_call};

use crate::answers::notices::Notices;
use crate::answers::reply::Reply;
use crate::managers::handle::Handle;
use crate::names::{Node, Txn};
use crate::numbers::{BAD_NUMBER, keep_at, mode_at};

/// Locks a node after what must be held above it, each lock by a try. If one is refused, so is the path;
/// `keep` says what becomes of the locks that it has acquired by then.
#[unsafe(no_mangle)]
pub extern "C" fn bs_call_try_path(
    manager: &mut Handle,
    txn: Txn,
    node: Node,
    mode: u32,
    keep: u32,
    told: &mut Notices,
) -> Reply
    ensures { Where (mode_at mode) (λ wanted. Where (keep_at keep)
        (λ kept. Carries (guarded_in manager.old) (tried_path_call kept (txn_id txn) (node_id node, wanted)) result told.new (guarded_in manager.new))
        (NamesNothing (guarded_in manager.old) result told.new (guarded_in manager.new)))
        (NamesNothing (guarded_in manager.old) result told.new (guarded_in manager.new)) }
{
    let (Some(mode), Some(keep)) = (mode_at(mode), keep_at(keep)) else {
        told.clear();
        return Reply::with_status(BAD_NUMBER);
    };
    manager.try_path(txn.id(), node.id(), mode, keep, told)
}

/// Locks a row by its node, with these keys, one for each index of its file in the order of making. It is
/// granted at once, or refused.
#[unsafe(no_mangle)]
pub extern "C" fn bs_call_try_row(
    manager: &mut Handle,
    txn: Txn,
    file: Node,
    number: u64,
    keys: &[u64],
    mode: u32,
    told: &mut Notices,
) -> Reply
    ensures { Where (mode_at mode) (λ wanted. Carries (guarded_in manager.old) (tried_row_call
        (record { txn = txn_id txn; row = row_at file number; keys = keys.entry; mode = wanted })) result told.new (guarded_in manager.new))
        (NamesNothing (guarded_in manager.old) result told.new (guarded_in manager.new)) }
{
    let Some(mode) = mode_at(mode) else {
        told.clear();
        return Reply::with_status(BAD_NUMBER);
    };
    manager.try_row(txn.id(), file.row(number), keys, mode, told)
}

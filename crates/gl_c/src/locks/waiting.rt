//! What became of a wait, and whose waits ended: questions for a caller that lets threads sleep.

ghost use Rattle.gl_c.specs.managers.Carries.{Declines, Where};
ghost use Rattle.gl_c.specs.answers.Finding.{FindsEnded};
ghost use Rattle.gl_c.specs.managers.Handle.{guarded_in};
ghost use Rattle.gl_c.specs.Names.{node_id, txn_id};
ghost use Rattle.gl_c.specs.Numbers.{bad_number, mode_at};
ghost use Rattle.gl_c.specs.locks.Verdicts.{Judges};

use crate::answers::found::Found;
use crate::answers::reply::Reply;
use crate::managers::handle::Handle;
use crate::names::{Node, Txn};
use crate::numbers::{BAD_NUMBER, mode_at};

/// What became of a lock that was left waiting: the wait continues, it was granted, or why it was not.
#[unsafe(no_mangle)]
pub extern "C" fn bs_call_verdict(manager: &mut Handle, txn: Txn, node: Node, mode: u32) -> Reply
    ensures { Where (mode_at mode) (λ wanted. Judges (guarded_in manager.old) (txn_id txn) (node_id node) wanted result (guarded_in manager.new))
        (Declines (guarded_in manager.old) bad_number result (guarded_in manager.new)) }
{
    match mode_at(mode) {
        Some(mode) => manager.verdict(txn.id(), node.id(), mode),
        None => Reply::with_status(BAD_NUMBER),
    }
}

/// The slots whose wait the last accepted command may have ended: wake their sleepers.
#[unsafe(no_mangle)]
pub extern "C" fn bs_call_ended(manager: &mut Handle) -> Found
    ensures { FindsEnded (guarded_in manager.old) result (guarded_in manager.new) }
{
    manager.ended()
}

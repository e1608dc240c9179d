//! Records, and nodes that move. A call with `told` overwrites it with its notices.

ghost use Rattle.std.specs.Prelude.{[]};
ghost use Rattle.gl_steps.specs.declared.command.Command.TheVariants as command;
ghost use Rattle.gl_c.specs.managers.Carries.{Asks, Carries, Declines, Under, command_call};
ghost use Rattle.gl_c.specs.managers.Handle.{guarded_in};
ghost use Rattle.gl_c.specs.Names.{node_id, txn_id};
ghost use Rattle.gl_c.specs.answers.Notices.{Tells};
ghost use Rattle.gl_c.specs.Numbers.{bad_number};

use crate::answers::notices::Notices;
use crate::answers::reply::Reply;
use crate::graph::parents::parent_ids;
use crate::managers::handle::Handle;
use crate::names::{Node, Txn};
use crate::numbers::BAD_NUMBER;
use gl_catalog::Command;

/// Inserts a record into a file, with a key for each of its indexes; it is held in X.
#[unsafe(no_mangle)]
pub extern "C" fn bs_call_insert(manager: &mut Handle, txn: Txn, file: Node, keys: &[u64]) -> Reply
    ensures { Asks (guarded_in manager.old) (command_call (command.Insert (txn_id txn) (node_id file) keys.entry)) result (guarded_in manager.new) }
{
    manager.ask(Command::Insert {
        txn: txn.id(),
        file: file.id(),
        keys,
    })
}

/// Makes a record of a file for no transaction: nobody holds it. After it, only `bs_call_index_by`
/// makes an index of the file.
#[unsafe(no_mangle)]
pub extern "C" fn bs_call_adopt(manager: &mut Handle, file: Node, keys: &[u64]) -> Reply
    ensures { Asks (guarded_in manager.old) (command_call (command.Adopt (node_id file) keys.entry)) result (guarded_in manager.new) }
{
    manager.ask(Command::Adopt {
        file: file.id(),
        keys,
    })
}

/// Removes a record that nobody holds and nobody waits for.
#[unsafe(no_mangle)]
pub extern "C" fn bs_call_forget(manager: &mut Handle, rec: Node) -> Reply
    ensures { Asks (guarded_in manager.old) (command_call (command.Forget (node_id rec))) result (guarded_in manager.new) }
{
    manager.ask(Command::Forget { rec: rec.id() })
}

/// Deletes a record.
#[unsafe(no_mangle)]
pub extern "C" fn bs_call_delete(
    manager: &mut Handle,
    txn: Txn,
    rec: Node,
    told: &mut Notices,
) -> Reply
    ensures { Carries (guarded_in manager.old) (command_call (command.Delete (txn_id txn) (node_id rec))) result told.new (guarded_in manager.new) }
{
    let command = Command::Delete {
        txn: txn.id(),
        rec: rec.id(),
    };
    manager.carry_out(command, told)
}

/// Gives a record another key for one index.
#[unsafe(no_mangle)]
pub extern "C" fn bs_call_rekey(
    manager: &mut Handle,
    txn: Txn,
    rec: Node,
    index: Node,
    key: u64,
    told: &mut Notices,
) -> Reply
    ensures { Carries (guarded_in manager.old) (command_call (command.Rekey (txn_id txn) (node_id rec) (node_id index) key)) result told.new
        (guarded_in manager.new) }
{
    let command = Command::Rekey {
        txn: txn.id(),
        rec: rec.id(),
        index: index.id(),
        key,
    };
    manager.carry_out(command, told)
}

/// Gives an inner node, a file or an index other parents.
#[unsafe(no_mangle)]
pub extern "C" fn bs_call_move(
    manager: &mut Handle,
    txn: Txn,
    node: Node,
    parents: &[Node],
    told: &mut Notices,
) -> Reply
    ensures { Under parents.now (λ ids. Carries (guarded_in manager.old) (command_call (command.Move (txn_id txn) (node_id node) ids)) result told.new
        (guarded_in manager.new)) (Declines (guarded_in manager.old) bad_number result (guarded_in manager.new) × Tells told.new []) }
{
    let Some(ids) = parent_ids(parents) else {
        told.clear();
        return Reply::with_status(BAD_NUMBER);
    };
    let command = Command::Move {
        txn: txn.id(),
        node: node.id(),
        parents: ids.as_slice(),
    };
    manager.carry_out(command, told)
}

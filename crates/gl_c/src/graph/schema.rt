//! Schema changes: dropped nodes, indexes of files that have been in use, and intervals that are split
//! and merged.

ghost use Rattle.gl_steps.specs.declared.command.Command.TheVariants as command;
ghost use Rattle.gl_c.specs.managers.Carries.{Asks, Carries, Declines, Naming, Under, command_call};
ghost use Rattle.gl_c.specs.managers.Handle.{guarded_in};
ghost use Rattle.gl_c.specs.Names.{node_id, txn_id};
ghost use Rattle.gl_c.specs.Numbers.{bad_number, no_memory};

use crate::answers::notices::Notices;
use crate::answers::reply::Reply;
use crate::graph::parents::{node_ids, parent_ids};
use crate::managers::handle::Handle;
use crate::names::{Node, Txn};
use crate::numbers::{BAD_NUMBER, NO_MEMORY};
use gl_catalog::Command;

/// Drops an inner node, a file, or an index with its intervals. It overwrites `told`.
#[unsafe(no_mangle)]
pub extern "C" fn bs_call_drop(
    manager: &mut Handle,
    txn: Txn,
    node: Node,
    told: &mut Notices,
) -> Reply
    ensures { Carries (guarded_in manager.old) (command_call (command.Drop (txn_id txn) (node_id node))) result told.new (guarded_in manager.new) }
{
    let command = Command::Drop {
        txn: txn.id(),
        node: node.id(),
    };
    manager.carry_out(command, told)
}

/// Makes an index of a file, over its records if these are all of them, in order of birth, with a key
/// for each. The transaction holds it in X. Memory for the names of the records may be refused first.
#[unsafe(no_mangle)]
pub extern "C" fn bs_call_index_by(
    manager: &mut Handle,
    txn: Txn,
    parents: &[Node],
    file: Node,
    bounds: &[u64],
    records: &[Node],
    keys: &[u64],
) -> Reply
    ensures { Under parents.now (λ ids. Naming records.now (λ named. Asks (guarded_in manager.old)
        (command_call (command.IndexBy (txn_id txn) ids (node_id file) bounds.entry named keys.entry)) result (guarded_in manager.new))
        (Declines (guarded_in manager.old) no_memory result (guarded_in manager.new)))
        (Declines (guarded_in manager.old) bad_number result (guarded_in manager.new)) }
{
    let Some(ids) = parent_ids(parents) else {
        return Reply::with_status(BAD_NUMBER);
    };
    let Ok(named) = node_ids(manager.alloc(), records) else {
        return Reply::with_status(NO_MEMORY);
    };
    manager.ask(Command::IndexBy {
        txn: txn.id(),
        parents: ids.as_slice(),
        file: file.id(),
        bounds,
        records: named.as_slice(),
        keys,
    })
}

/// Splits an interval of an index at a bound. The transaction holds it in X, and the new interval too.
/// It overwrites `told`.
#[unsafe(no_mangle)]
pub extern "C" fn bs_call_split(
    manager: &mut Handle,
    txn: Txn,
    interval: Node,
    at: u64,
    told: &mut Notices,
) -> Reply
    ensures { Carries (guarded_in manager.old) (command_call (command.Split (txn_id txn) (node_id interval) at)) result told.new (guarded_in manager.new) }
{
    let command = Command::Split {
        txn: txn.id(),
        interval: interval.id(),
        at,
    };
    manager.carry_out(command, told)
}

/// Merges an interval of an index with the next one. The transaction holds both in X. It overwrites
/// `told`.
#[unsafe(no_mangle)]
pub extern "C" fn bs_call_merge(
    manager: &mut Handle,
    txn: Txn,
    interval: Node,
    told: &mut Notices,
) -> Reply
    ensures { Carries (guarded_in manager.old) (command_call (command.Merge (txn_id txn) (node_id interval))) result told.new (guarded_in manager.new) }
{
    let command = Command::Merge {
        txn: txn.id(),
        interval: interval.id(),
    };
    manager.carry_out(command, told)
}

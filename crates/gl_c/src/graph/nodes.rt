//! Calls that make nodes.

ghost use Rattle.gl_steps.specs.declared.command.Command.TheVariants as command;
ghost use Rattle.gl_rows.specs.declared.call.RowCall.TheVariants as call;
ghost use Rattle.gl_c.specs.managers.Carries.{Asks, Declines, Under, command_call};
ghost use Rattle.gl_c.specs.managers.Handle.{guarded_in};
ghost use Rattle.gl_c.specs.Names.{node_id};
ghost use Rattle.gl_c.specs.Numbers.{bad_number};
ghost use Rattle.gl_c.specs.locks.Rows.{row_call};

use crate::answers::reply::Reply;
use crate::graph::parents::parent_ids;
use crate::managers::handle::Handle;
use crate::names::Node;
use crate::numbers::BAD_NUMBER;
use gl_catalog::Command;
use gl_rows::RowCall;

/// Makes an inner node under 0 to 8 inner nodes; without parents it is a root.
#[unsafe(no_mangle)]
pub extern "C" fn bs_call_add_inner(manager: &mut Handle, parents: &[Node]) -> Reply
    ensures { Under parents.now (λ ids. Asks (guarded_in manager.old) (command_call (command.Inner ids)) result (guarded_in manager.new))
        (Declines (guarded_in manager.old) bad_number result (guarded_in manager.new)) }
{
    match parent_ids(parents) {
        Some(ids) => manager.ask(Command::Inner {
            parents: ids.as_slice(),
        }),
        None => Reply::with_status(BAD_NUMBER),
    }
}

/// Makes a file of records under 1 to 8 inner nodes.
#[unsafe(no_mangle)]
pub extern "C" fn bs_call_add_file(manager: &mut Handle, parents: &[Node]) -> Reply
    ensures { Under parents.now (λ ids. Asks (guarded_in manager.old) (command_call (command.File ids)) result (guarded_in manager.new))
        (Declines (guarded_in manager.old) bad_number result (guarded_in manager.new)) }
{
    match parent_ids(parents) {
        Some(ids) => manager.ask(Command::File {
            parents: ids.as_slice(),
        }),
        None => Reply::with_status(BAD_NUMBER),
    }
}

/// Makes a file of rows under 1 to 8 inner nodes. Calls about rows alone make a row, remove it and
/// change its keys.
#[unsafe(no_mangle)]
pub extern "C" fn bs_call_row_file(manager: &mut Handle, parents: &[Node]) -> Reply
    ensures { Under parents.now (λ ids. Asks (guarded_in manager.old) (row_call (call.File ids)) result (guarded_in manager.new))
        (Declines (guarded_in manager.old) bad_number result (guarded_in manager.new)) }
{
    match parent_ids(parents) {
        Some(ids) => manager.ask_row(RowCall::File {
            parents: ids.as_slice(),
        }),
        None => Reply::with_status(BAD_NUMBER),
    }
}

/// Makes an index, under 1 to 8 inner nodes, of a file that has no records and whose rows never had a
/// node. It has up to 256 bounds, or up to the number that was chosen. Bounds rise from above 0.
#[unsafe(no_mangle)]
pub extern "C" fn bs_call_add_index(
    manager: &mut Handle,
    parents: &[Node],
    file: Node,
    bounds: &[u64],
) -> Reply
    ensures { Under parents.now (λ ids. Asks (guarded_in manager.old) (command_call (command.Index ids (node_id file) bounds.entry)) result
        (guarded_in manager.new)) (Declines (guarded_in manager.old) bad_number result (guarded_in manager.new)) }
{
    match parent_ids(parents) {
        Some(ids) => manager.ask(Command::Index {
            parents: ids.as_slice(),
            file: file.id(),
            bounds,
        }),
        None => Reply::with_status(BAD_NUMBER),
    }
}

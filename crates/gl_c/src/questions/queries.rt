//! Questions, which change nothing and, except the effective mode, take no memory.

ghost use Rattle.gl_steps.specs.declared.command.Command.TheVariants as command;
ghost use Rattle.gl_c.specs.declared.questions.look.Query.TheVariants as query;
ghost use Rattle.gl_c.specs.managers.Carries.{Asks, command_call};
ghost use Rattle.gl_c.specs.managers.Handle.{guarded_in};
ghost use Rattle.gl_c.specs.questions.Looks.{Looks};
ghost use Rattle.gl_c.specs.Names.{node_id, txn_id};

use crate::answers::reply::Reply;
use crate::managers::handle::Handle;
use crate::names::{Node, Txn};
use crate::questions::look::Query;
use gl_catalog::Command;

/// The group mode of a node: the least that covers all modes held on it.
#[unsafe(no_mangle)]
pub extern "C" fn bs_call_group(manager: &mut Handle, node: Node) -> Reply
    ensures { Asks (guarded_in manager.old) (command_call (command.Group (node_id node))) result (guarded_in manager.new) }
{
    manager.ask(Command::Group { node: node.id() })
}

/// The mode in which a transaction holds a node.
#[unsafe(no_mangle)]
pub extern "C" fn bs_call_held(manager: &mut Handle, txn: Txn, node: Node) -> Reply
    ensures { Asks (guarded_in manager.old) (command_call (command.Held (txn_id txn) (node_id node))) result (guarded_in manager.new) }
{
    manager.ask(Command::Held {
        txn: txn.id(),
        node: node.id(),
    })
}

/// The effective mode of a transaction on a node: what all its locks together permit. Takes memory.
#[unsafe(no_mangle)]
pub extern "C" fn bs_call_effective(manager: &mut Handle, txn: Txn, node: Node) -> Reply
    ensures { Asks (guarded_in manager.old) (command_call (command.Effective (txn_id txn) (node_id node))) result (guarded_in manager.new) }
{
    manager.ask(Command::Effective {
        txn: txn.id(),
        node: node.id(),
    })
}

/// How many children of a node a transaction holds.
#[unsafe(no_mangle)]
pub extern "C" fn bs_call_children(manager: &mut Handle, txn: Txn, node: Node) -> Reply
    ensures { Looks (guarded_in manager.old) (query.Children (txn_id txn) (node_id node)) result (guarded_in manager.new) }
{
    manager.look(Query::Children {
        txn: txn.id(),
        node: node.id(),
    })
}

/// What a node is.
#[unsafe(no_mangle)]
pub extern "C" fn bs_call_kind(manager: &mut Handle, node: Node) -> Reply
    ensures { Looks (guarded_in manager.old) (query.Kind (node_id node)) result (guarded_in manager.new) }
{
    manager.look(Query::Kind { node: node.id() })
}

/// A parent of a node, by its place.
#[unsafe(no_mangle)]
pub extern "C" fn bs_call_parent(manager: &mut Handle, node: Node, place: usize) -> Reply
    ensures { Looks (guarded_in manager.old) (query.Parent (node_id node) place) result (guarded_in manager.new) }
{
    manager.look(Query::Parent {
        node: node.id(),
        place,
    })
}

/// A key of a record, by the place of its index.
#[unsafe(no_mangle)]
pub extern "C" fn bs_call_key(manager: &mut Handle, rec: Node, place: usize) -> Reply
    ensures { Looks (guarded_in manager.old) (query.Key (node_id rec) place) result (guarded_in manager.new) }
{
    manager.look(Query::Key {
        rec: rec.id(),
        place,
    })
}

/// An index of a file, by its place in the order of making.
#[unsafe(no_mangle)]
pub extern "C" fn bs_call_index(manager: &mut Handle, file: Node, place: usize) -> Reply
    ensures { Looks (guarded_in manager.old) (query.Index (node_id file) place) result (guarded_in manager.new) }
{
    manager.look(Query::Index {
        file: file.id(),
        place,
    })
}

/// An interval of an index, by its place.
#[unsafe(no_mangle)]
pub extern "C" fn bs_call_interval(manager: &mut Handle, index: Node, place: usize) -> Reply
    ensures { Looks (guarded_in manager.old) (query.Interval (node_id index) place) result (guarded_in manager.new) }
{
    manager.look(Query::Interval {
        index: index.id(),
        place,
    })
}

/// The interval of an index to which a key belongs.
#[unsafe(no_mangle)]
pub extern "C" fn bs_call_interval_of(manager: &mut Handle, index: Node, key: u64) -> Reply
    ensures { Looks (guarded_in manager.old) (query.IntervalOf (node_id index) key) result (guarded_in manager.new) }
{
    manager.look(Query::IntervalOf {
        index: index.id(),
        key,
    })
}

/// The place of an interval in its index.
#[unsafe(no_mangle)]
pub extern "C" fn bs_call_place(manager: &mut Handle, interval: Node) -> Reply
    ensures { Looks (guarded_in manager.old) (query.Place (node_id interval)) result (guarded_in manager.new) }
{
    manager.look(Query::Place {
        node: interval.id(),
    })
}

/// Whether a file has records.
#[unsafe(no_mangle)]
pub extern "C" fn bs_call_has_records(manager: &mut Handle, file: Node) -> Reply
    ensures { Looks (guarded_in manager.old) (query.HasRecords (node_id file)) result (guarded_in manager.new) }
{
    manager.look(Query::HasRecords { file: file.id() })
}

/// How many nodes live.
#[unsafe(no_mangle)]
pub extern "C" fn bs_call_len(manager: &mut Handle) -> Reply
    ensures { Looks (guarded_in manager.old) query.Len result (guarded_in manager.new) }
{
    manager.look(Query::Len)
}

/// How many commands were accepted.
#[unsafe(no_mangle)]
pub extern "C" fn bs_call_accepted(manager: &mut Handle) -> Reply
    ensures { Looks (guarded_in manager.old) query.Accepted result (guarded_in manager.new) }
{
    manager.look(Query::Accepted)
}

/// How deadlocks are detected.
#[unsafe(no_mangle)]
pub extern "C" fn bs_call_detect(manager: &mut Handle) -> Reply
    ensures { Looks (guarded_in manager.old) query.Detect result (guarded_in manager.new) }
{
    manager.look(Query::Detect)
}

/// How victims are chosen.
#[unsafe(no_mangle)]
pub extern "C" fn bs_call_victims(manager: &mut Handle) -> Reply
    ensures { Looks (guarded_in manager.old) query.Victims result (guarded_in manager.new) }
{
    manager.look(Query::Victims)
}

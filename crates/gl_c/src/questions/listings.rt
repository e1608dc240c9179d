//! Listings: which transactions live, what each holds, and which wait where. They change nothing and
//! take no memory.

ghost use Rattle.std.specs.Prelude.{IfSome};
ghost use Rattle.gl_graph.specs.Refusals.{first_refusal};
ghost use Rattle.gl_header.specs.Header.{holds};
ghost use Rattle.gl_table.specs.Table.{AreRowsOf, rows_of};
ghost use Rattle.gl_model.specs.Calls.{group_tests, living_tests};
ghost use Rattle.gl_model.specs.State.{members, waits_for};
ghost use Rattle.gl_catalog.specs.Manager.{state_of};
ghost use Rattle.gl_c.specs.declared.questions.look.Query.TheVariants as query;
ghost use Rattle.gl_c.specs.managers.Carries.{Declines, Where};
ghost use Rattle.gl_c.specs.questions.Counts.{Counting};
ghost use Rattle.gl_c.specs.questions.Deadlocks.{Recalls};
ghost use Rattle.gl_c.specs.answers.Finding.{FindsIn};
ghost use Rattle.gl_c.specs.managers.Handle.{guarded_in};
ghost use Rattle.gl_c.specs.questions.Looks.{Looks};
ghost use Rattle.gl_c.specs.Names.{node_id, txn_id};
ghost use Rattle.gl_c.specs.Numbers.{bad_number, slot_at};

use crate::answers::found::Found;
use crate::answers::reply::Reply;
use crate::managers::handle::Handle;
use crate::names::{Node, Txn};
use crate::numbers::{BAD_NUMBER, slot_at};
use crate::questions::counts::Counts;
use crate::questions::deadlock::Deadlock;
use crate::questions::look::Query;

/// How many transactions may live at once.
#[unsafe(no_mangle)]
pub extern "C" fn bs_call_most(manager: &mut Handle) -> Reply
    ensures { Looks (guarded_in manager.old) query.Most result (guarded_in manager.new) }
{
    manager.look(Query::Most)
}

/// How many nodes may live at once.
#[unsafe(no_mangle)]
pub extern "C" fn bs_call_most_nodes(manager: &mut Handle) -> Reply
    ensures { Looks (guarded_in manager.old) query.MostNodes result (guarded_in manager.new) }
{
    manager.look(Query::MostNodes)
}

/// How many bounds an index may have.
#[unsafe(no_mangle)]
pub extern "C" fn bs_call_most_bounds(manager: &mut Handle) -> Reply
    ensures { Looks (guarded_in manager.old) query.MostBounds result (guarded_in manager.new) }
{
    manager.look(Query::MostBounds)
}

/// The transaction in a slot.
#[unsafe(no_mangle)]
pub extern "C" fn bs_call_living(manager: &mut Handle, slot: u32) -> Reply
    ensures { Where (slot_at slot) (λ s. Looks (guarded_in manager.old) (query.Living s) result (guarded_in manager.new))
        (Declines (guarded_in manager.old) bad_number result (guarded_in manager.new)) }
{
    match slot_at(slot) {
        Some(slot) => manager.look(Query::Living { slot }),
        None => Reply::with_status(BAD_NUMBER),
    }
}

/// What a transaction is doing.
#[unsafe(no_mangle)]
pub extern "C" fn bs_call_doing(manager: &mut Handle, txn: Txn) -> Reply
    ensures { Looks (guarded_in manager.old) (query.Doing (txn_id txn)) result (guarded_in manager.new) }
{
    manager.look(Query::Doing { txn: txn.id() })
}

/// How many waiters are ahead of a waiting transaction in the queue of its node.
#[unsafe(no_mangle)]
pub extern "C" fn bs_call_ahead(manager: &mut Handle, txn: Txn) -> Reply
    ensures { Looks (guarded_in manager.old) (query.Ahead (txn_id txn)) result (guarded_in manager.new) }
{
    manager.look(Query::Ahead { txn: txn.id() })
}

/// How many nodes a transaction holds or waits for.
#[unsafe(no_mangle)]
pub extern "C" fn bs_call_lock_count(manager: &mut Handle, txn: Txn) -> Reply
    ensures { Looks (guarded_in manager.old) (query.LockCount (txn_id txn)) result (guarded_in manager.new) }
{
    manager.look(Query::LockCount { txn: txn.id() })
}

/// A node that a transaction holds or waits for, by its place.
#[unsafe(no_mangle)]
pub extern "C" fn bs_call_lock_at(manager: &mut Handle, txn: Txn, place: usize) -> Reply
    ensures row { Looks (guarded_in manager.old) (query.LockAt (txn_id txn) place) result (guarded_in manager.new) }
    ensures rows { IfSome (guarded_in manager.old) (λ g. AreRowsOf (state_of g.manager) (txn_id txn).slot (rows_of g.manager.table (txn_id txn).slot)) }
{
    manager.look(Query::LockAt {
        txn: txn.id(),
        place,
    })
}

/// The slots of the transactions that hold a node.
#[unsafe(no_mangle)]
pub extern "C" fn bs_call_holders(manager: &mut Handle, node: Node) -> Found
    ensures { FindsIn (guarded_in manager.old) (λ s. first_refusal (group_tests s (node_id node))) (λ s u. holds (members s (node_id node)) u) result
        (guarded_in manager.new) }
{
    manager.holders(node.id())
}

/// The mode in which the transaction of a slot holds a node.
#[unsafe(no_mangle)]
pub extern "C" fn bs_call_mode_at(manager: &mut Handle, slot: u32, node: Node) -> Reply
    ensures { Where (slot_at slot) (λ s. Looks (guarded_in manager.old) (query.ModeAt s (node_id node)) result (guarded_in manager.new))
        (Declines (guarded_in manager.old) bad_number result (guarded_in manager.new)) }
{
    match slot_at(slot) {
        Some(slot) => manager.look(Query::ModeAt {
            slot,
            node: node.id(),
        }),
        None => Reply::with_status(BAD_NUMBER),
    }
}

/// How many transactions wait for a node.
#[unsafe(no_mangle)]
pub extern "C" fn bs_call_queue_len(manager: &mut Handle, node: Node) -> Reply
    ensures { Looks (guarded_in manager.old) (query.QueueLen (node_id node)) result (guarded_in manager.new) }
{
    manager.look(Query::QueueLen { node: node.id() })
}

/// A transaction that waits for a node, by its place in the queue.
#[unsafe(no_mangle)]
pub extern "C" fn bs_call_queue_at(manager: &mut Handle, node: Node, place: usize) -> Reply
    ensures { Looks (guarded_in manager.old) (query.QueueAt (node_id node) place) result (guarded_in manager.new) }
{
    manager.look(Query::QueueAt {
        node: node.id(),
        place,
    })
}

/// The slots for which a transaction waits.
#[unsafe(no_mangle)]
pub extern "C" fn bs_call_waits_for(manager: &mut Handle, txn: Txn) -> Found
    ensures { FindsIn (guarded_in manager.old) (λ s. first_refusal (living_tests s (txn_id txn))) (λ s u. waits_for s (txn_id txn).slot u) result
        (guarded_in manager.new) }
{
    manager.waits_for(txn.id())
}

/// Writes the deadlock of the last victim, as it was when the victim was condemned.
#[unsafe(no_mangle)]
pub extern "C" fn bs_call_last_deadlock(manager: &mut Handle, deadlock: &mut Deadlock) -> Reply
    ensures { Recalls (guarded_in manager.old) result deadlock.old deadlock.new (guarded_in manager.new) }
{
    manager.recall(deadlock)
}

/// Writes what the manager has done since it was made.
#[unsafe(no_mangle)]
pub extern "C" fn bs_call_counters(manager: &mut Handle, counts: &mut Counts) -> Reply
    ensures { Counting (guarded_in manager.old) result counts.old counts.new (guarded_in manager.new) }
{
    manager.count(counts)
}

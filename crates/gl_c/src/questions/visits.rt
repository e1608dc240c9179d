//! Several managers that work as one: what a visit of a part is to copy, and when marks may be cleared.
//! The calls change nothing and take no memory.

ghost use Rattle.std.specs.Prelude.{◌≡◌};
ghost use Rattle.gl_graph.specs.Refusals.{first_refusal};
ghost use Rattle.gl_model.specs.Calls.{group_tests};
ghost use Rattle.gl_catalog.specs.Manager.{state_of};
ghost use Rattle.gl_c.specs.managers.Handle.{guarded_in};
ghost use Rattle.gl_c.specs.questions.Visits.{AnswersNext, AsksClear, AsksNext, TellsClear, Unless, copy_reply};
ghost use Rattle.gl_c.specs.Names.{node_id};

use crate::answers::reply::Reply;
use crate::managers::handle::Handle;
use crate::names::Node;
use crate::numbers::{NO_PLACE, mode_number};
use gl_catalog::Manager;
use gl_modes::{NodeId, Refusal};
use gl_parts::{ToCopy, is_clear, next_copy};

/// What a visit of a part is to copy next of a node, which has a name in each manager.
#[unsafe(no_mangle)]
pub extern "C" fn bs_call_next_copy(
    manager: &mut Handle,
    node: Node,
    part: &mut Handle,
    in_part: Node,
) -> Reply
    ensures { AsksNext (guarded_in manager.old) (node_id node) (guarded_in part.old) (node_id in_part) result (guarded_in manager.new)
        (guarded_in part.new) }
{
    manager.next_copy(node.id(), part, in_part.id())
}

/// Whether nobody has more than an intention on a node, or waits there for it.
#[unsafe(no_mangle)]
pub extern "C" fn bs_call_is_clear(manager: &mut Handle, node: Node) -> Reply
    ensures { AsksClear (guarded_in manager.old) (node_id node) result (guarded_in manager.new) }
{
    manager.is_clear(node.id())
}

/// What is next to copy, if the node lives in both managers.
pub(crate) fn next_copy_reply(
    main: &Manager,
    in_main: NodeId,
    part: &Manager,
    in_part: NodeId,
) -> Reply
    ensures { AnswersNext (state_of main.now) in_main (state_of part.now) in_part result }
{
    if let Some(refusal) = refusal_of(main, in_main) {
        return Reply::refused(refusal);
    }
    if let Some(refusal) = refusal_of(part, in_part) {
        return Reply::refused(refusal);
    }
    copy_reply(next_copy(main, in_main, part, in_part))
}

/// Whether a node is clear, if it lives.
pub(crate) fn is_clear_reply(manager: &Manager, node: NodeId) -> Reply
    ensures { Unless (first_refusal (group_tests (state_of manager.now) node)) result (TellsClear (state_of manager.now) node result) }
{
    match refusal_of(manager, node) {
        Some(refusal) => Reply::refused(refusal),
        None => Reply::with_count(u64::from(is_clear(manager, node))),
    }
}

/// The reply for what is next to copy.
fn copy_reply(copy: Option<ToCopy>) -> Reply
    ensures { result ≡ copy_reply copy }
{
    match copy {
        Some(copy) => Reply {
            mode: mode_number(copy.mode),
            ..Reply::with_count(u64::from(copy.slot))
        },
        None => Reply::with_status(NO_PLACE),
    }
}

/// The refusal of a question about a node that does not live.
pub(crate) fn refusal_of(manager: &Manager, node: NodeId) -> Option<Refusal>
    ensures { result ≡ first_refusal (group_tests (state_of manager.now) node) }
{
    match manager.queue(node) {
        Ok(_) => None,
        Err(refusal) => Some(refusal),
    }
}

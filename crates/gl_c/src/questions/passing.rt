//! Several managers that work as one: what a path in a part lacks in the main manager, what a transaction
//! has to copy of its own, whether marks may be cleared, and what becomes of a wait after an index was made
//! or a node moved. The calls change nothing.

ghost use Rattle.std.specs.Option.{option_map};
ghost use Rattle.std.specs.Prelude.{◌≡◌, None};
ghost use Rattle.gl_graph.specs.Refusals.{first_refusal};
ghost use Rattle.gl_model.specs.Calls.{group_tests};
ghost use Rattle.gl_catalog.specs.Manager.{state_of};
ghost use Rattle.gl_c.specs.managers.Handle.{guarded_in};
ghost use Rattle.gl_c.specs.questions.Passing.{AnswersLack, AnswersOwn, AsksAfterIndex, AsksLack, AsksMayClear, AsksOwn, FindsLack, TellsAfterIndex};
ghost use Rattle.gl_c.specs.questions.Passing.{AsksAfterMove, TellsAfterMove, TellsMayClear, lack_reply, own_reply, target_id, wait_reply};
ghost use Rattle.gl_c.specs.questions.Visits.{Unless};
ghost use Rattle.gl_c.specs.Names.{node_id};

use crate::answers::reply::Reply;
use crate::managers::handle::Handle;
use crate::names::Node;
use crate::numbers::{BAD_NUMBER, DONE, MOVED, NO_PLACE, mode_at, mode_number, slot_at};
use crate::questions::visits::refusal_of;
use gl_catalog::Manager;
use gl_modes::{Mode, NodeId, Refusal};
use gl_parts::{
    AfterIndex, Marked, after_index, first_lack, intention, may_clear, own_copy, passes,
};
use std::alloc::{AllocError, Global};

/// A node for which a part is marked, by its names in the main manager and in the part.
#[repr(C)]
#[derive(Clone, Copy)]
pub struct Mark {
    pub node: Node,
    pub in_part: Node,
}

impl Marked for Mark {
    ghost use Rattle.gl_c.specs.questions.Passing.{mark_id};

    ghost names = { mark_id };

    fn names(&self) -> gl_parts::Mark {
        gl_parts::Mark {
            in_main: self.node.id(),
            in_part: self.in_part.id(),
        }
    }
}

/// What a path in a part leads to: a node; or a row of the file `node`, if `rows` is not 0.
#[repr(C)]
#[derive(Clone, Copy)]
pub struct Target {
    pub node: Node,
    /// The number of a mode.
    pub mode: u32,
    pub rows: u32,
}

impl Target {
    fn id(self, mode: Mode) -> gl_parts::Target
        ensures { result ≡ target_id self mode }
    {
        gl_parts::Target {
            node: self.node.id(),
            is_row: self.rows != 0,
            mode,
        }
    }
}

/// The first of the marks on whose node the transaction of a slot lacks the intention for a path to the
/// target, in the part and in the main manager.
#[unsafe(no_mangle)]
pub extern "C" fn bs_call_path_lacks(
    manager: &mut Handle,
    part: &mut Handle,
    slot: u32,
    target: &Target,
    marks: &[Mark],
) -> Reply
    ensures { AsksLack (guarded_in manager.old) (guarded_in part.old) slot target.now marks.now result (guarded_in manager.new) (guarded_in part.new) }
{
    manager.lacks(part, slot, *target, marks)
}

/// The same in the part alone: what the transaction holds in the main manager is not looked at.
#[unsafe(no_mangle)]
pub extern "C" fn bs_call_path_lacks_there(
    part: &mut Handle,
    slot: u32,
    target: &Target,
    marks: &[Mark],
) -> Reply
    ensures { FindsLack None (guarded_in part.old) slot target.now marks.now result (guarded_in part.new) }
{
    part.lacks_beside(None, slot, *target, marks)
}

/// What the transaction of a slot has to copy of its own of a node, which has a name in each manager.
#[unsafe(no_mangle)]
pub extern "C" fn bs_call_own_copy(
    manager: &mut Handle,
    node: Node,
    part: &mut Handle,
    in_part: Node,
    slot: u32,
) -> Reply
    ensures { AsksOwn (guarded_in manager.old) (node_id node) (guarded_in part.old) (node_id in_part) slot result (guarded_in manager.new)
        (guarded_in part.new) }
{
    manager.own_copy(node.id(), part, in_part.id(), slot)
}

/// Whether the marks of all parts for a node may be cleared, with so many requests for more than an
/// intention on it in progress.
#[unsafe(no_mangle)]
pub extern "C" fn bs_call_may_clear(manager: &mut Handle, node: Node, in_progress: u64) -> Reply
    ensures { AsksMayClear (guarded_in manager.old) (node_id node) in_progress result (guarded_in manager.new) }
{
    manager.may_clear(node.id(), in_progress)
}

/// What becomes of a wait in a part, for this target, after an index of a file was made there.
#[unsafe(no_mangle)]
pub extern "C" fn bs_call_after_index(part: &mut Handle, target: &Target, file: Node) -> Reply
    ensures { AsksAfterIndex (guarded_in part.old) target.now (node_id file) result (guarded_in part.new) }
{
    part.after_index(*target, file.id())
}

/// What becomes of a wait in a part, for this target, if this node is moved there to other parents.
#[unsafe(no_mangle)]
pub extern "C" fn bs_call_after_move(part: &mut Handle, target: &Target, node: Node) -> Reply
    ensures { AsksAfterMove (guarded_in part.old) target.now (node_id node) result (guarded_in part.new) }
{
    part.after_move(*target, node.id())
}

/// The reply for what a path lacks.
pub(crate) fn lacks_reply(
    alloc: Global,
    main: Option<&Manager>,
    part: &Manager,
    slot: u32,
    target: Target,
    marks: &[Mark],
) -> Reply
    ensures { AnswersLack (option_map (λ m. state_of m.now) main.entry) (state_of part.now) slot target marks.now result }
{
    let Some(slot) = slot_at(slot) else {
        return Reply::with_status(BAD_NUMBER);
    };
    let Some(mode) = mode_at(target.mode) else {
        return Reply::with_status(BAD_NUMBER);
    };
    match first_lack(alloc, main, part, slot, target.id(mode), marks) {
        Ok(found) => lack_reply(mode, found),
        Err(AllocError) => Reply::refused(Refusal::NoMemory),
    }
}

/// The reply for a mark that is lacked by a path in this mode.
fn lack_reply(mode: Mode, found: Option<gl_parts::Mark>) -> Reply
    ensures { result ≡ lack_reply mode found }
{
    match found {
        Some(mark) => Reply {
            node: Node::of(mark.in_main),
            mode: mode_number(intention(mode)),
            ..Reply::with_status(DONE)
        },
        None => Reply::with_status(NO_PLACE),
    }
}

/// The reply for what a transaction has to copy of its own, if the node lives in both managers.
pub(crate) fn own_copy_reply(
    main: &Manager,
    in_main: NodeId,
    part: &Manager,
    in_part: NodeId,
    slot: u32,
) -> Reply
    ensures { AnswersOwn (state_of main.now) in_main (state_of part.now) in_part slot result }
{
    if let Some(refusal) = refusal_of(main, in_main) {
        return Reply::refused(refusal);
    }
    if let Some(refusal) = refusal_of(part, in_part) {
        return Reply::refused(refusal);
    }
    match slot_at(slot) {
        Some(slot) => own_reply(own_copy(main, in_main, part, in_part, slot)),
        None => Reply::with_status(BAD_NUMBER),
    }
}

/// The reply for a mode to copy.
fn own_reply(mode: Option<Mode>) -> Reply
    ensures { result ≡ own_reply mode }
{
    match mode {
        Some(mode) => Reply {
            mode: mode_number(mode),
            ..Reply::with_status(DONE)
        },
        None => Reply::with_status(NO_PLACE),
    }
}

/// Whether marks may be cleared, if the node lives.
pub(crate) fn may_clear_reply(manager: &Manager, node: NodeId, in_progress: u64) -> Reply
    ensures { Unless (first_refusal (group_tests (state_of manager.now) node)) result (TellsMayClear (state_of manager.now) node in_progress result) }
{
    match refusal_of(manager, node) {
        Some(refusal) => Reply::refused(refusal),
        None => Reply::with_count(u64::from(may_clear(manager, node, in_progress))),
    }
}

/// What becomes of a wait after an index of a file was made, if the number of its mode names one.
pub(crate) fn after_index_reply(part: &Manager, target: Target, file: NodeId) -> Reply
    ensures { TellsAfterIndex (state_of part.now) target file result }
{
    match mode_at(target.mode) {
        Some(mode) => wait_reply(after_index(part, target.id(mode), file)),
        None => Reply::with_status(BAD_NUMBER),
    }
}

/// The reply for what becomes of a wait.
fn wait_reply(after: AfterIndex) -> Reply
    ensures { result ≡ wait_reply after }
{
    match after {
        AfterIndex::WaitsOn => Reply::with_status(DONE),
        AfterIndex::BeginsAnew => Reply::with_status(MOVED),
        AfterIndex::LacksKey => Reply::refused(Refusal::BadKeys),
    }
}

/// What becomes of a wait if a node is moved, if the number of its mode names one: it ends if a path to its
/// target passes the node.
pub(crate) fn after_move_reply(alloc: Global, part: &Manager, target: Target, node: NodeId) -> Reply
    ensures { TellsAfterMove (state_of part.now) target node result }
{
    let Some(mode) = mode_at(target.mode) else {
        return Reply::with_status(BAD_NUMBER);
    };
    match passes(alloc, part, target.id(mode), node) {
        Ok(true) => Reply::with_status(MOVED),
        Ok(false) => Reply::with_status(DONE),
        Err(AllocError) => Reply::refused(Refusal::NoMemory),
    }
}

//! What is decided of visits, marks and requests. None of it allocates memory.

ghost use Rattle.std.specs.Prelude.{◌≡◌, ◌↔◌, ℕ, IfNone, IfSome, IsTrue, true};
ghost use Rattle.std.specs.List.{list_all};
ghost use Rattle.gl_header.specs.Header.{holds};
ghost use Rattle.gl_slots.specs.Slots.{has_slot};
ghost use Rattle.gl_model.specs.State.{members};
ghost use Rattle.gl_catalog.specs.Manager.{state_of};
ghost use Rattle.gl_parts.specs.Visiting.{IsClear, IsCopied, IsNextCopy, own_copy, way_of};
ghost use Rattle.gl_parts.specs.Whole.{is_intention};

use gl_catalog::Manager;
use gl_modes::{Mode, NodeId, covers};
use gl_slots::{Slot, Slots};

/// What a visit is to copy next: a lock for the transaction in a slot, in this mode.
#[derive(Clone, Copy, PartialEq, Eq, Debug)]
pub struct ToCopy {
    pub slot: Slot,
    pub mode: Mode,
}

/// Where a request on a node is made.
#[derive(Clone, Copy, PartialEq, Eq, Debug)]
pub enum Way {
    /// In the part.
    Here,
    /// In the main manager, and once it is granted there, in the part.
    AfterMain,
    /// In the main manager alone.
    InMain,
}

/// What a visit of a part is to copy next of a node, which may have another name in each manager: the
/// mode in which the transaction of the lowest slot holds it in the part and not, or not as much, in
/// the main manager. `None` if everybody holds in the main manager what it holds in the part; then
/// the part may be marked for the node. Nobody holds a node that does not live. Looks at the holders of
/// the node in the part, and at no other transaction.
pub fn next_copy(main: &Manager, in_main: NodeId, part: &Manager, in_part: NodeId) -> Option<ToCopy>
    ensures next { IfSome result (IsNextCopy (state_of main.now) in_main (state_of part.now) in_part) }
    ensures none { IfNone result (IsCopied (state_of main.now) in_main (state_of part.now) in_part) }
{
    let mut left = holders_of(part, in_part);
    'slots: while let Some(slot) = left.take_lowest() {
        let mode = part.mode_at(slot, in_part);
        if !covers(main.mode_at(slot, in_main), mode) {
            return Some(ToCopy { slot, mode });
        }
    }
    None
}

/// What a transaction has to copy of its own of a node, which may have another name in each manager:
/// the mode in which it holds it in the part and not, or not as much, in the main manager. Two look-ups.
pub fn own_copy(
    main: &Manager,
    in_main: NodeId,
    part: &Manager,
    in_part: NodeId,
    slot: Slot,
) -> Option<Mode>
    ensures { result ≡ own_copy (state_of main.now) in_main (state_of part.now) in_part slot }
{
    let mode = part.mode_at(slot, in_part);
    if covers(main.mode_at(slot, in_main), mode) {
        None
    } else {
        Some(mode)
    }
}

/// Whether nobody holds more than an intention on a node in the main manager, or waits there for it;
/// then the marks of all parts for the node may be cleared. Looks at the holders of the node and at
/// its queue.
pub fn is_clear(main: &Manager, node: NodeId) -> bool
    ensures { IsTrue result ↔ IsClear (state_of main.now) node }
{
    has_intentions(main, node) && awaits_intentions(main, node)
}

/// Where a mode is requested on a node that a part has: on one that is shared with the main manager,
/// more than an intention there alone, and an intention there first if the part is marked for the
/// node; everything else in the part.
pub fn way_for(mode: Mode, is_shared: bool, is_marked: bool) -> Way
    ensures { result ≡ way_of mode is_shared is_marked }
{
    if !is_shared {
        Way::Here
    } else if !is_intention(mode) {
        Way::InMain
    } else if is_marked {
        Way::AfterMain
    } else {
        Way::Here
    }
}

/// Whether a mode is an intention, or none.
fn is_intention(mode: Mode) -> bool
    ensures { result ≡ is_intention mode }
{
    covers(Mode::IX, mode)
}

/// The slots of those who hold a node; none of a node that is not there.
fn holders_of(manager: &Manager, node: NodeId) -> Slots
    ensures { (u : ℕ) → has_slot result u ≡ holds (members (state_of manager.now) node) u }
{
    manager.law();
    match manager.holders(node) {
        Ok(slots) => slots,
        Err(_) => Slots::empty(),
    }
}

/// Whether nobody holds more than an intention on a node.
fn has_intentions(manager: &Manager, node: NodeId) -> bool
    ensures { IsTrue result ↔ ((u : ℕ) → is_intention ((state_of manager.now).held u node) ≡ true) }
{
    let mut left = holders_of(manager, node);
    'slots: while let Some(slot) = left.take_lowest() {
        if !is_intention(manager.mode_at(slot, node)) {
            return false;
        }
    }
    true
}

/// Whether nobody waits for more than an intention on a node.
fn awaits_intentions(manager: &Manager, node: NodeId) -> bool
    ensures { result ≡ list_all (λ w. is_intention w.1) ((state_of manager.now).queue node) }
{
    manager.law();
    match manager.queue(node) {
        Ok(waiters) => waiters.iter().all(|waiter| is_intention(waiter.1)),
        Err(_) => true,
    }
}

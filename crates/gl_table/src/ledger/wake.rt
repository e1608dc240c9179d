//! Waiters that are granted.

ghost use Rattle.std.specs.Prelude.{◌≡◌, ◌==◌, ℕ, true};
ghost use Rattle.gl_header.specs.Header.{is_among_waiters};
ghost use Rattle.gl_table.specs.inside.Slots.{CanEnd, CanHold, IsWritten, Wakes, as_held, books_of};

use crate::told::tell;
use crate::txn_entries::TxnEntries;
use gl_lock_lists::LockList;
use gl_model::{Notice, Status, Told, TxnId};
use gl_modes::{Mode, NodeId};
use gl_slots::Slot;

/// A slot whose list has the node holds it in this mode. If it did not hold it before, each parent
/// has one held child more.
pub(crate) fn hold(
    lists: &mut Vec<LockList>,
    slot: Slot,
    node: NodeId,
    mode: Mode,
    parents: &[NodeId],
)
    requires can { CanHold lists.old.items slot node parents.now }
    ensures { IsWritten lists.old.items node (λ u. u == slot) (as_held lists.old.items node parents.now (λ u. mode)) lists.new.items }
{
    let list = &mut lists[slot as usize];
    let is_new = !list.holds(node);
    list.set_mode(node, mode);
    if is_new {
        list.count_up(parents);
    }
}

/// The waiters that were granted on a node hold it, are active, and are told. Mostly there are
/// none, so this is kept out of the code of a release.
#[inline(never)]
pub(crate) fn wake(
    txn_entries: &mut TxnEntries,
    lists: &mut Vec<LockList>,
    told: &mut Told,
    node: NodeId,
    parents: &[NodeId],
    granted: &[(Slot, Mode)],
)
    requires can { CanEnd (books_of txn_entries.old lists.old.items told.old.items) granted.now }
    requires hold { (u : ℕ) → is_among_waiters u granted.now ≡ true → CanHold lists.old.items u node parents.now }
    ensures { Wakes (books_of txn_entries.old lists.old.items told.old.items) node parents.now granted.now
        (books_of txn_entries.new lists.new.items told.new.items) }
{
    for waiter in granted {
        let (slot, mode) = *waiter;
        let age = txn_entries.set_status(slot, Status::Active);
        hold(lists, slot, node, mode, parents);
        tell(told, TxnId { slot, age }, Notice::Granted(node, mode));
    }
}

//! Locking rows.

ghost use Rattle.std.specs.Prelude.{◌≡◌, [], OnOk, Some, true};
ghost use Rattle.std.specs.Map.{lookup};
ghost use Rattle.gl_modes.specs.declared.node.NodeId.{NodeId as ANode};
ghost use Rattle.gl_graph.specs.Graph.{shape_of};
ghost use Rattle.gl_graph.specs.Shapes.{is_record_shape};
ghost use Rattle.gl_model.specs.Calls.{is_idle};
ghost use Rattle.gl_model.specs.State.{lives};
ghost use Rattle.gl_catalog.specs.Manager.{state_of};
ghost use Rattle.gl_rows.specs.Locking.{LocksRow, RenewsNode, first_locked};
ghost use Rattle.gl_rows.specs.Naming.{LocksName};
ghost use Rattle.gl_rows.specs.Rows.{name_of, same_row};

use super::{Rows, is_among};
use crate::answer::{RowLocked, RowRefusal};
use crate::row::Row;
use crate::sets::{make_room, put};
use gl_catalog::Manager;
use gl_modes::{Mode, NodeId, Refusal};
use gl_table::{Locked, Told, TxnId};
use indexmap::map::Entry;
use indexmap::{IndexMap, IndexSet};

impl Rows {
    /// Locks a row that has these keys, one for each index of its file in the order in which the
    /// indexes were made. The lock is granted, waits or makes its transaction a victim, as a lock of
    /// its node does. A row without a node gets one with these keys, and so does a row whose node has
    /// other keys and which nobody holds or waits for. Any other row is locked by the node that it
    /// has, and the answer says whether the keys are that node's. `told` must be empty, and receives
    /// the notices.
    ///
    /// Refused, in this order, with `NotRows`; if the row keeps its node, as that node's lock; else
    /// with `WornOut` (fewer than two commands can still be counted, or three if a node is forgotten),
    /// and as `Manager::adopt_locked`. `NoMemory` may precede all of these.
    pub(crate) fn lock(
        &mut self,
        manager: &mut Manager,
        t: TxnId,
        row: Row,
        keys: &[u64],
        mode: Mode,
        told: &mut Told,
    ) -> Result<RowLocked, RowRefusal>
        requires empty { told.old.items ≡ [] }
        requires stands { (n : ANode) → name_of self.old row ≡ Some n → is_record_shape (shape_of (state_of manager.old).graph n) ≡ true }
        ensures { LocksRow manager.old self.old (record { txn = t; row = row; keys = keys.entry; mode = mode }) result told.new.items manager.new self.new }
    {
        manager.law();
        make_room(&mut self.asked, t.slot)?;
        let locked = lock_named(
            &mut self.names,
            &self.files,
            manager,
            t,
            row,
            keys,
            mode,
            told,
        )?;
        put(&mut self.asked, t.slot, row);
        Ok(locked)
    }
}

/// Locks the row's node, or gives the row a node that is adopted and locked. The row is looked up
/// once.
fn lock_named(
    names: &mut IndexMap<Row, NodeId>,
    files: &IndexSet<NodeId>,
    manager: &mut Manager,
    t: TxnId,
    row: Row,
    keys: &[u64],
    mode: Mode,
    told: &mut Told,
) -> Result<RowLocked, RowRefusal>
    requires empty { told.old.items ≡ [] }
    requires stands { (n : ANode) → lookup (same_row row) names.old.entries ≡ Some n → is_record_shape (shape_of (state_of manager.old).graph n) ≡ true }
    ensures locks { LocksName manager.old files.now.keys names.old.entries
        (record { txn = t; row = row; keys = keys.entry; mode = mode }) result told.new.items manager.new names.new.entries }
    ensures lives { OnOk result (lives (state_of manager.old) t ≡ true) }
{
    let Ok(entry) = names.entry(row) else {
        return Err(RowRefusal::Refused(Refusal::NoMemory));
    };
    match entry {
        Entry::Occupied(mut entry) => {
            let named = *entry.get();
            let own_keys = manager.graph().keys(named) == keys;
            if own_keys || !manager.is_idle(named) {
                let locked = manager.lock_telling(t, named, mode, told)?;
                return Ok(RowLocked {
                    node: named,
                    locked,
                    own_keys,
                });
            }
            let node = renew(manager, t, row.file, keys, mode, named)?;
            entry.insert(node);
            Ok(RowLocked::first(node, mode))
        }
        Entry::Vacant(entry) => {
            if !is_among(files, row.file) {
                return Err(RowRefusal::NotRows);
            }
            let node = manager.adopt_locked(t, row.file, keys, mode)?;
            entry.insert(node);
            Ok(RowLocked::first(node, mode))
        }
    }
}

impl RowLocked {
    /// The outcome for a node that was adopted with the given keys.
    fn first(node: NodeId, mode: Mode) -> RowLocked
        ensures { result ≡ first_locked node mode }
    {
        RowLocked {
            node,
            locked: Locked::Granted(mode),
            own_keys: true,
        }
    }
}

/// Adopts and locks a record, and forgets the one that it replaces, which nobody holds or waits for. A
/// refused call changes nothing.
fn renew(
    manager: &mut Manager,
    t: TxnId,
    file: NodeId,
    keys: &[u64],
    mode: Mode,
    old: NodeId,
) -> Result<NodeId, Refusal>
    requires record { is_record_shape (shape_of (state_of manager.old).graph old) ≡ true }
    requires idle { is_idle (state_of manager.old) old ≡ true }
    ensures { RenewsNode manager.old t file keys.entry mode old result manager.new }
{
    if manager.accepted() > u64::MAX - 3 {
        return Err(Refusal::WornOut);
    }
    manager.law();
    let node = manager.adopt_locked(t, file, keys, mode)?;
    manager.forget(old).unwrap();
    Ok(node)
}

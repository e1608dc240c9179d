//! Nodes move.

ghost use Rattle.std.specs.Prelude.{◌≡◌, [], OnErr, OnOk};
ghost use Rattle.gl_graph.specs.Changes.{rekeyed, rekeyed_parents, with_parents};
ghost use Rattle.gl_model.specs.Calls.{CanMove, CanRekey, IsActing, KeepsAll, RefusesCycle, moved_to};
ghost use Rattle.gl_table.specs.Table.{KeepsOrders, state_of};
ghost use Rattle.gl_model.specs.Tellings.{told};

use super::Table;
use crate::ledger::moves::parents_before;
use gl_model::{Told, TxnId};
use gl_modes::{NodeId, Refusal};

impl Table {
    /// As `reparent`, with the notices put into an empty list.
    pub fn reparent_telling(
        &mut self,
        t: TxnId,
        rec: NodeId,
        index: NodeId,
        key: u64,
        notices: &mut Told,
    )
        requires empty { notices.old.items ≡ [] }
        requires acting { IsActing (state_of self.old) t }
        requires allowed { CanRekey (state_of self.old) t.slot rec index key }
        ensures state { state_of self.new ≡ moved_to (state_of self.old) rec (rekeyed_parents (state_of self.old).graph rec index key)
            (rekeyed (state_of self.old).graph rec index key) }
        ensures deadlock { self.new.deadlock ≡ self.old.deadlock }
        ensures orders { KeepsOrders self.old self.new }
        ensures told { notices.new.items ≡ told (state_of self.old) (state_of self.new) }
    {
        let locks = &mut self.locks;
        let old = parents_before(&locks.graph, rec);
        locks.graph.set_key(rec, index, key);
        locks
            .ledger
            .follow(&locks.graph, t.slot, rec, notices, old.as_slice());
    }

    /// As `regraft`, with the notices put into an empty list.
    pub fn regraft_telling(
        &mut self,
        t: TxnId,
        n: NodeId,
        parents: &[NodeId],
        notices: &mut Told,
    ) -> Result<(), Refusal>
        requires empty { notices.old.items ≡ [] }
        requires acting { IsActing (state_of self.old) t }
        requires allowed { CanMove (state_of self.old) t.slot n parents.now }
        ensures told { OnOk result (notices.new.items ≡ told (state_of self.old) (state_of self.new)) }
        ensures state { OnOk result (state_of self.new ≡ moved_to (state_of self.old) n parents.now (with_parents (state_of self.old).graph n parents.now)) }
        ensures deadlock { self.new.deadlock ≡ self.old.deadlock }
        ensures orders { OnOk result (KeepsOrders self.old self.new) }
        ensures refuses { RefusesCycle (state_of self.old).graph n parents.now result }
        ensures kept { OnErr result (KeepsAll self.old self.new notices.old notices.new) }
    {
        let locks = &mut self.locks;
        let old = parents_before(&locks.graph, n);
        locks.graph.set_parents(n, parents)?;
        locks
            .ledger
            .follow(&locks.graph, t.slot, n, notices, old.as_slice());
        Ok(())
    }
}

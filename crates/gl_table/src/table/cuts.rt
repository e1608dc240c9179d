//! Intervals are split and merged.

ghost use Rattle.std.specs.Prelude.{◌≡◌, ◌∷◌, [], IfErr, IfOk, None, OnErr, OnOk, true};
ghost use Rattle.gl_modes.specs.declared.refusal.Refusal.{Refusal as ARefusal};
ghost use Rattle.gl_graph.specs.Splits.{IsSplit, merge, merge_refusal, next_interval, split_refusal};
ghost use Rattle.gl_model.specs.Calls.{IsActing, KeepsAll, holds_x, holds_x_on_all};
ghost use Rattle.gl_model.specs.Splits.{merged_by, split_by};
ghost use Rattle.gl_model.specs.Tellings.{told};
ghost use Rattle.gl_table.specs.Table.{KeepsOrders, state_of};

use super::Table;
use gl_model::{Told, TxnId};
use gl_modes::{NodeId, Refusal};

impl Table {
    /// Splits an interval at a bound: it keeps its keys below the bound, and a new interval, right
    /// after it in its index, has those from the bound on. The transaction, which holds the
    /// interval in X, holds the new one in X too, last in its list. Who waited for the interval is
    /// active again, and told that it moved. The notices are put into an empty list. All tests but
    /// that of memory were passed.
    ///
    /// The only refusal is `NoMemory`. All room is made before anything changes.
    pub fn split_telling(
        &mut self,
        t: TxnId,
        interval: NodeId,
        bound: u64,
        notices: &mut Told,
    ) -> Result<NodeId, Refusal>
        requires empty { notices.old.items ≡ [] }
        requires acting { IsActing (state_of self.old) t }
        requires exclusive { holds_x (state_of self.old) t.slot interval ≡ true }
        requires free { split_refusal (state_of self.old).graph interval bound ≡ None }
        ensures made { IfOk result (λ n. IsSplit (state_of self.old).graph (state_of self.new).graph interval n bound) }
        ensures state { IfOk result (λ n. state_of self.new ≡ split_by (state_of self.old) t.slot interval (state_of self.new).graph n) }
        ensures told { OnOk result (notices.new.items ≡ told (state_of self.old) (state_of self.new)) }
        ensures deadlock { self.new.deadlock ≡ self.old.deadlock }
        ensures orders { OnOk result (KeepsOrders self.old self.new) }
        ensures refused { IfErr result (λ refusal. refusal ≡ ARefusal.NoMemory) }
        ensures kept { OnErr result (KeepsAll self.old self.new notices.old notices.new) }
    {
        let locks = &mut self.locks;
        let key = locks.graph.next_key();
        let prepared = locks.ledger.prepare_split(t.slot, key, interval)?;
        let fresh = locks.graph.split_unrefused(interval, bound)?;
        locks
            .ledger
            .split(&locks.graph, t.slot, interval, fresh, prepared, notices);
        Ok(fresh)
    }

    /// Merges an interval with the next one of its index, which a transaction holds in X as well:
    /// that one is gone with its locks and waits, and each record of the index's file has the
    /// interval of its key as its parent. The notices are put into an empty list. All tests but
    /// that of memory were passed.
    ///
    /// The only refusal is `NoMemory`: other transactions' held children of the second interval are
    /// counted for the first one. All room is made before anything changes.
    pub fn merge_telling(
        &mut self,
        t: TxnId,
        interval: NodeId,
        notices: &mut Told,
    ) -> Result<(), Refusal>
        requires empty { notices.old.items ≡ [] }
        requires acting { IsActing (state_of self.old) t }
        requires exclusive { holds_x_on_all (state_of self.old) t.slot (interval ∷ next_interval (state_of self.old).graph interval ∷ []) ≡ true }
        requires free { merge_refusal (state_of self.old).graph interval ≡ None }
        ensures state { OnOk result (state_of self.new
            ≡ merged_by (state_of self.old) (next_interval (state_of self.old).graph interval) (merge (state_of self.old).graph interval)) }
        ensures told { OnOk result (notices.new.items ≡ told (state_of self.old) (state_of self.new)) }
        ensures deadlock { self.new.deadlock ≡ self.old.deadlock }
        ensures orders { OnOk result (KeepsOrders self.old self.new) }
        ensures refused { IfErr result (λ refusal. refusal ≡ ARefusal.NoMemory) }
        ensures kept { OnErr result (KeepsAll self.old self.new notices.old notices.new) }
    {
        let locks = &mut self.locks;
        let next = locks.graph.next_interval(interval);
        locks.ledger.prepare_cut(next)?;
        locks
            .ledger
            .merge(&locks.graph, t.slot, next, interval, notices);
        locks.graph.merge_unrefused(interval);
        Ok(())
    }
}

//! Locks are released.

ghost use Rattle.std.specs.Prelude.{◌≡◌, [], IfOk, List, OnErr, OnOk, length};
ghost use Rattle.gl_graph.specs.Refusals.{first_refusal};
ghost use Rattle.gl_modes.specs.declared.node.NodeId.{NodeId as Node};
ghost use Rattle.gl_model.specs.Calls.{GoesBack, KeepsAll, RefusesOnly, released, unlocked, commit_tests, living_tests, unlock_tests};
ghost use Rattle.gl_table.specs.Keeping.{CommitsKeeping};
ghost use Rattle.gl_table.specs.Table.{KeepsOrders, nodes_of, state_of};
ghost use Rattle.gl_model.specs.Tellings.{told};

use super::Table;
use gl_model::{Told, TxnId};
use gl_modes::{NodeId, Refusal};

impl Table {
    /// As `unlock`, with the notices put into an empty list.
    pub fn unlock_telling(&mut self, t: TxnId, n: NodeId, notices: &mut Told) -> Result<(), Refusal>
        requires empty { notices.old.items ≡ [] }
        ensures told { OnOk result (notices.new.items ≡ told (state_of self.old) (state_of self.new)) }
        ensures state { OnOk result (state_of self.new ≡ unlocked (state_of self.old) t.slot n) }
        ensures deadlock { self.new.deadlock ≡ self.old.deadlock }
        ensures orders { OnOk result (KeepsOrders self.old self.new) }
        ensures refuses { RefusesOnly (first_refusal (unlock_tests (state_of self.old) t n)) result }
        ensures kept { OnErr result (KeepsAll self.old self.new notices.old notices.new) }
    {
        self.check_active(t)?;
        self.check_node(n)?;
        self.check_childless(t, n)?;
        self.locks.release(t.slot, n, notices);
        Ok(())
    }

    /// Rolls back to a mark: releases what an active transaction has locked since it had so many
    /// locks, except nodes of which it still holds a child; answers how many were released. A mode
    /// that was raised since stays raised. What was locked before keeps its place among the
    /// transaction's locks. Puts the notices into an empty list. Refused with `NoSuchTxn`,
    /// `TxnWaiting` and `TxnCondemned`.
    ///
    /// Allocates no memory. Linear in the locks since the mark, unless one was locked before its
    /// parent.
    pub fn release_since_telling(
        &mut self,
        t: TxnId,
        mark: usize,
        notices: &mut Told,
    ) -> Result<usize, Refusal>
        requires empty { notices.old.items ≡ [] }
        ensures back { IfOk result (λ k. (ns : List Node) × GoesBack (state_of self.old) t.slot mark (nodes_of self.old t.slot) ns
            (nodes_of self.new t.slot) (state_of self.new) × (k ≡ length ns)) }
        ensures told { OnOk result (notices.new.items ≡ told (state_of self.old) (state_of self.new)) }
        ensures deadlock { self.new.deadlock ≡ self.old.deadlock }
        ensures orders { OnOk result (KeepsOrders self.old self.new) }
        ensures refuses { RefusesOnly (first_refusal (commit_tests (state_of self.old) t)) result }
        ensures kept { OnErr result (KeepsAll self.old self.new notices.old notices.new) }
    {
        self.check_active(t)?;
        Ok(self.locks.release_since(t.slot, mark, notices))
    }

    /// As `commit`, with the notices put into an empty list.
    pub fn commit_telling(&mut self, t: TxnId, notices: &mut Told) -> Result<(), Refusal>
        requires empty { notices.old.items ≡ [] }
        ensures told { OnOk result (notices.new.items ≡ told (state_of self.old) (state_of self.new)) }
        ensures state { OnOk result (state_of self.new ≡ released (state_of self.old) t.slot) }
        ensures deadlock { self.new.deadlock ≡ self.old.deadlock }
        ensures orders { OnOk result (KeepsOrders self.old self.new) }
        ensures refuses { RefusesOnly (first_refusal (commit_tests (state_of self.old) t)) result }
        ensures kept { OnErr result (KeepsAll self.old self.new notices.old notices.new) }
    {
        self.check_active(t)?;
        self.locks.end(t.slot, notices);
        Ok(())
    }

    /// Commits an active transaction and begins another in its slot that keeps its first `keep`
    /// locks. Rolls back to that mark as `release_since_telling` does, and then renews the
    /// transaction as `renew` does, if that is not refused. Otherwise what it still holds hinders
    /// other transactions, or `u64::MAX` have begun: then it ends as by `commit`. Answers how many
    /// locks were released by the rollback, and the new name, `None` if it ended. Puts the notices
    /// into an empty list. Refused with `NoSuchTxn`, `TxnWaiting` and `TxnCondemned`.
    ///
    /// Allocates no memory. Linear in the locks, unless one was locked before its parent.
    pub fn commit_keeping_telling(
        &mut self,
        t: TxnId,
        keep: usize,
        since: u64,
        notices: &mut Told,
    ) -> Result<(usize, Option<TxnId>), Refusal>
        requires empty { notices.old.items ≡ [] }
        ensures keeps { IfOk result (λ x. CommitsKeeping t keep since self.old x.0 x.1 self.new) }
        ensures told { OnOk result (notices.new.items ≡ told (state_of self.old) (state_of self.new)) }
        ensures deadlock { self.new.deadlock ≡ self.old.deadlock }
        ensures orders { OnOk result (KeepsOrders self.old self.new) }
        ensures refuses { RefusesOnly (first_refusal (commit_tests (state_of self.old) t)) result }
        ensures kept { OnErr result (KeepsAll self.old self.new notices.old notices.new) }
    {
        self.check_active(t)?;
        let released = self.locks.release_since(t.slot, keep, notices);
        if self.begins == u64::MAX || self.locks.hinders(t.slot) {
            self.locks.end(t.slot, notices);
            return Ok((released, None));
        }
        Ok((released, Some(self.start(t.slot, since))))
    }

    /// As `abort`, with the notices put into an empty list.
    pub fn abort_telling(&mut self, t: TxnId, notices: &mut Told) -> Result<(), Refusal>
        requires empty { notices.old.items ≡ [] }
        ensures told { OnOk result (notices.new.items ≡ told (state_of self.old) (state_of self.new)) }
        ensures state { OnOk result (state_of self.new ≡ released (state_of self.old) t.slot) }
        ensures deadlock { self.new.deadlock ≡ self.old.deadlock }
        ensures orders { OnOk result (KeepsOrders self.old self.new) }
        ensures refuses { RefusesOnly (first_refusal (living_tests (state_of self.old) t)) result }
        ensures kept { OnErr result (KeepsAll self.old self.new notices.old notices.new) }
    {
        self.check_txn(t)?;
        self.locks.abort(t.slot, notices);
        Ok(())
    }
}

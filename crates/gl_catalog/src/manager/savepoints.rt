//! Savepoints: a transaction releases what it locked since a mark, or commits and keeps its locks
//! from before the mark for the next.

ghost use Rattle.std.specs.Prelude.{◌≡◌, ◌+◌, IfOk, OnErr, [], true, OnOk};
ghost use Rattle.gl_graph.specs.Refusals.{first_refusal, verdict};
ghost use Rattle.gl_model.specs.Calls.{RefusesOnly};
ghost use Rattle.gl_model.specs.State.{lives};
ghost use Rattle.gl_table.specs.Table.{KeepsOrders};
ghost use Rattle.gl_catalog.specs.Keeping.{CompletesKeeping, keeping_tests};
ghost use Rattle.gl_catalog.specs.Manager.{state_of};
ghost use Rattle.gl_catalog.specs.Savepoints.{TakesBack, back_tests, count_since, worn_for};

use super::Manager;
use gl_modes::Refusal;
use gl_table::{Told, TxnId};

impl Manager {
    /// Rolls back to a savepoint: unlocks what an active transaction has locked since it had so
    /// many locks, except nodes of which it still holds a child; answers how many were unlocked.
    /// What it held at the mark it still holds, in that mode or, if that was raised since, in the
    /// greater one.
    ///
    /// The mark is what `lock_count` said. New locks are added at the end of the list, and a
    /// release moves the last one into the gap. So a mark is good until a lock from before it is
    /// released; after that fewer are released than were locked since, never one from before.
    ///
    /// It is one command for each node that is unlocked, and tells at once all that they tell.
    /// Refused, in this order, with `NoSuchTxn`, `TxnWaiting`, `TxnCondemned`, and with `WornOut`
    /// if not each lock since the mark can be counted. Allocates no memory.
    pub fn release_since_telling(
        &mut self,
        t: TxnId,
        mark: usize,
        told: &mut Told,
    ) -> Result<usize, Refusal>
        requires empty { told.old.items ≡ [] }
        ensures back { IfOk result (λ k. TakesBack t mark k self.old told.new.items self.new) }
        ensures orders { OnOk result (KeepsOrders self.old.table self.new.table) }
        ensures refuses { RefusesOnly (first_refusal (back_tests self.old t mark)) result }
        ensures untold { OnErr result (told.new ≡ told.old) }
        ensures err { OnErr result (self.new ≡ self.old) }
    {
        self.check_active(t)?;
        self.check_count_since(t, mark)?;
        let released = self.table.release_since_telling(t, mark, told)?;
        self.table.law();
        self.accepted += released as u64;
        self.counters.add_notices(told.as_slice());
        Ok(released)
    }

    /// Commits an active transaction and begins another in its slot that keeps its first `keep`
    /// locks, which spares work that is done in many transactions from locking the same nodes
    /// again. It rolls back to that mark as `release_since_telling` does, and is then renewed, as
    /// `renew` does with `since`, if it still holds intentions alone, on nodes for which nobody
    /// waits, and fewer than `u64::MAX` transactions have begun. Otherwise it ends as by
    /// `commit_telling`. Answers the new name, or `None` if it ended.
    ///
    /// It is one command for each node that is unlocked, and then a renewal or a commit; it tells
    /// at once all that they tell. Refused, in this order, with `NoSuchTxn`, `TxnWaiting`,
    /// `TxnCondemned`, and with `WornOut` if not each lock since the mark and one command more can
    /// be counted. Allocates no memory.
    pub fn commit_keeping_telling(
        &mut self,
        t: TxnId,
        keep: usize,
        since: u64,
        told: &mut Told,
    ) -> Result<Option<TxnId>, Refusal>
        requires empty { told.old.items ≡ [] }
        ensures keeps { IfOk result (λ next. CompletesKeeping t keep since self.old next told.new.items self.new) }
        ensures refuses { RefusesOnly (first_refusal (keeping_tests self.old t keep)) result }
        ensures untold { OnErr result (told.new ≡ told.old) }
        ensures err { OnErr result (self.new ≡ self.old) }
    {
        self.check_active(t)?;
        self.check_count_keeping(t, keep)?;
        let (released, next) = self.table.commit_keeping_telling(t, keep, since, told)?;
        self.table.law();
        self.accepted += released as u64 + 1;
        self.counters.add_notices(told.as_slice());
        Ok(next)
    }

    /// Whether a command can be counted for each lock of a living transaction since a mark, and one
    /// more.
    fn check_count_keeping(&self, t: TxnId, keep: usize) -> Result<(), Refusal>
        requires lives { lives (state_of self.now) t ≡ true }
        ensures { result ≡ verdict (worn_for (state_of self.now) (count_since self.now t.slot keep + 1)) }
    {
        let locks = self.table.lock_count(t).unwrap_or(0);
        if (u64::MAX - self.accepted) <= locks.saturating_sub(keep) as u64 {
            Err(Refusal::WornOut)
        } else {
            Ok(())
        }
    }

    /// Whether a command can be counted for each lock of a living transaction since a mark.
    fn check_count_since(&self, t: TxnId, mark: usize) -> Result<(), Refusal>
        requires lives { lives (state_of self.now) t ≡ true }
        ensures { result ≡ verdict (worn_for (state_of self.now) (count_since self.now t.slot mark)) }
    {
        let locks = self.table.lock_count(t).unwrap_or(0);
        if (u64::MAX - self.accepted) < locks.saturating_sub(mark) as u64 {
            Err(Refusal::WornOut)
        } else {
            Ok(())
        }
    }
}

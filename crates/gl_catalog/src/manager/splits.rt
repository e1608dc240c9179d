//! Intervals of an index are split and merged under the locks of a transaction.

ghost use Rattle.std.specs.Prelude.{◌≡◌, [], IfOk, OnErr};
ghost use Rattle.gl_graph.specs.Refusals.{verdict};
ghost use Rattle.gl_steps.specs.declared.command.Command.TheVariants as command;
ghost use Rattle.gl_steps.specs.Tests.{refusal_of};
ghost use Rattle.gl_catalog.specs.Completes.{Completes};
ghost use Rattle.gl_catalog.specs.Manager.{state_of};
ghost use Rattle.gl_catalog.specs.Replies.{CallSteps, doing, making};

use super::Manager;
use gl_graph::Kind;
use gl_modes::{Mode, NodeId, Refusal};
use gl_table::{Told, TxnId};

impl Manager {
    /// Splits an interval of an index at a bound: it keeps the keys below the bound, and a new
    /// interval has those from it on. The transaction needs X on the interval, and holds the new one
    /// in X too. The records of the file get the intervals of their keys; no effective mode is
    /// another. Who waited for the interval is active again and told that it moved, in an empty
    /// list. Other transactions keep what `apply` leaves them.
    ///
    /// Refused, in this order, with `WornOut`, `NoSuchTxn`, `TxnWaiting`, `TxnCondemned`,
    /// `NoSuchNode`, `BadParents` (no interval), `NeedExclusive`, `BadKeys` (a bound that is not
    /// above the interval's first key and below the next bound, or one more than an index may have),
    /// `TooManyNodes` and `NoMemory`.
    pub fn split_telling(
        &mut self,
        t: TxnId,
        interval: NodeId,
        at: u64,
        told: &mut Told,
    ) -> Result<NodeId, Refusal>
        requires empty { told.old.items ≡ [] }
        ensures step { CallSteps (state_of self.old) (command.Split t interval at) (making told.new.items) result (state_of self.new) }
        ensures completes { IfOk result (λ x. Completes (command.Split t interval at) self.old (making told.new.items x) self.new) }
        ensures untold { OnErr result (told.new ≡ told.old) }
        ensures err { OnErr result (self.new ≡ self.old) }
    {
        self.check_split(t, interval, at)?;
        let part = self.table.split_telling(t, interval, at, told)?;
        self.table.law();
        self.accepted += 1;
        self.counters.add_notices(told.as_slice());
        Ok(part)
    }

    /// Merges an interval of an index with the next one, which is removed: it then has the keys of
    /// both. The transaction needs X on both. The records get the intervals of their keys; no
    /// effective mode is another. Who waited for the next one is active again and told that it is
    /// gone, in an empty list. Other transactions keep what `apply` leaves them.
    ///
    /// Refused, in this order, with `WornOut`, `NoSuchTxn`, `TxnWaiting`, `TxnCondemned`,
    /// `NoSuchNode`, `BadParents` (no interval, or the last of its index), `NeedExclusive` and
    /// `NoMemory`.
    pub fn merge_telling(
        &mut self,
        t: TxnId,
        interval: NodeId,
        told: &mut Told,
    ) -> Result<(), Refusal>
        requires empty { told.old.items ≡ [] }
        ensures step { CallSteps (state_of self.old) (command.Merge t interval) (doing told.new.items) result (state_of self.new) }
        ensures completes { IfOk result (λ x. Completes (command.Merge t interval) self.old (doing told.new.items x) self.new) }
        ensures untold { OnErr result (told.new ≡ told.old) }
        ensures err { OnErr result (self.new ≡ self.old) }
    {
        self.check_merge(t, interval)?;
        self.table.merge_telling(t, interval, told)?;
        self.table.law();
        self.accepted += 1;
        self.counters.add_notices(told.as_slice());
        Ok(())
    }

    /// The tests of `split_telling`, except memory.
    fn check_split(&self, t: TxnId, interval: NodeId, at: u64) -> Result<(), Refusal>
        ensures { result ≡ verdict (refusal_of (state_of self.now) (command.Split t interval at)) }
    {
        self.check_count()?;
        let graph = self.table.graph();
        if graph.worn() {
            return Err(Refusal::WornOut);
        }
        self.check_active(t)?;
        match graph.kind(interval) {
            Some(Kind::Interval) => {}
            Some(_) => return Err(Refusal::BadParents),
            None => return Err(Refusal::NoSuchNode),
        }
        if self.mode(t, interval) != Mode::X {
            Err(Refusal::NeedExclusive)
        } else if graph.is_bad_bound(interval, at) {
            Err(Refusal::BadKeys)
        } else if graph.is_full() {
            Err(Refusal::TooManyNodes)
        } else {
            Ok(())
        }
    }

    /// The tests of `merge_telling`, except memory.
    fn check_merge(&self, t: TxnId, interval: NodeId) -> Result<(), Refusal>
        ensures { result ≡ verdict (refusal_of (state_of self.now) (command.Merge t interval)) }
    {
        self.check_count()?;
        self.check_active(t)?;
        let graph = self.table.graph();
        if !self.lives(interval) {
            return Err(Refusal::NoSuchNode);
        }
        if graph.has_no_next(interval) {
            return Err(Refusal::BadParents);
        }
        let next = graph.next_interval(interval);
        if self.mode(t, interval) == Mode::X && self.mode(t, next) == Mode::X {
            Ok(())
        } else {
            Err(Refusal::NeedExclusive)
        }
    }
}

//! Records are inserted, deleted, adopted and forgotten.

ghost use Rattle.std.specs.Prelude.{◌≡◌, ◌+◌, [], IfOk, OnErr, OnOk};
ghost use Rattle.gl_graph.specs.Graph.{record_parents};
ghost use Rattle.gl_graph.specs.Refusals.{Refuses, first_refusal, record_refusal, verdict};
ghost use Rattle.gl_model.specs.Calls.{RefusesOnly};
ghost use Rattle.gl_steps.specs.declared.command.Command.TheVariants as command;
ghost use Rattle.gl_table.specs.Table.{KeepsOrders};
ghost use Rattle.gl_catalog.specs.Adopting.{AdoptsLocked, adopting_tests};
ghost use Rattle.gl_catalog.specs.Completes.{Completes};
ghost use Rattle.gl_catalog.specs.Deadlocks.{KeepsAccepted};
ghost use Rattle.gl_catalog.specs.Counters.{counted};
ghost use Rattle.gl_catalog.specs.Manager.{state_of};
ghost use Rattle.gl_steps.specs.Promises.{StepLeavesOthers};
ghost use Rattle.gl_catalog.specs.Replies.{CallSteps, doing, done, made, said};
ghost use Rattle.gl_steps.specs.Tests.{insert_tests, record_asks, refusal_of};

use super::Manager;
use arrayvec::ArrayVec;
use gl_graph::Kind;
use gl_modes::{Mode, NodeId, Refusal};
use gl_table::{Told, TxnId};

impl Manager {
    /// Makes a record of a file, held by the transaction in X, with a key for each of the file's
    /// indexes, in order of their making. Its parents are the file and, for each index, the
    /// interval of its key. Other transactions keep what `apply` leaves them.
    ///
    /// Refused, in this order, with `WornOut`, `NoSuchTxn`, `TxnWaiting`, `TxnCondemned`,
    /// `NoSuchNode`, `BadParents` (the node is no file), `BadKeys` (not one for each index),
    /// `NeedParents` (the first of the parents that is not held in IX or greater), `TooManyNodes`
    /// and `NoMemory`.
    pub fn insert(&mut self, t: TxnId, file: NodeId, keys: &[u64]) -> Result<NodeId, Refusal>
        ensures step { CallSteps (state_of self.old) (command.Insert t file keys.entry) made result (state_of self.new) }
        ensures deadlock { OnOk result (KeepsAccepted (command.Insert t file keys.entry) self.old self.new) }
        ensures others { StepLeavesOthers (state_of self.old) (command.Insert t file keys.entry) (said made result) (state_of self.new) }
        ensures counted { OnOk result (self.new.accepted ≡ self.old.accepted + 1) }
        ensures counters { self.new.counters ≡ counted (state_of self.old) (command.Insert t file keys.entry) (said made result).0
            (said made result).1 (state_of self.new) self.old.counters }
        ensures uncounted { self.new.counters ≡ self.old.counters }
        ensures orders { OnOk result (KeepsOrders self.old.table self.new.table) }
        ensures err { OnErr result (self.new ≡ self.old) }
    {
        self.law();
        self.check_count()?;
        let parents = self.check_insert(t, file, keys)?;
        let rec = self.table.place_under(t, file, keys, parents.as_slice())?;
        self.table.law();
        self.accepted += 1;
        Ok(rec)
    }

    /// Deletes a record that the transaction holds in X. Its waiters are active again. Answers the
    /// notices that it is gone, by rising slot. Other transactions keep what `apply` leaves them.
    ///
    /// Refused, in this order, with `WornOut`, `NoSuchTxn`, `TxnWaiting`, `TxnCondemned`,
    /// `NoSuchNode`, `BadParents` (the node is no record) and `NeedExclusive`. Allocates no memory.
    pub fn delete(&mut self, t: TxnId, rec: NodeId) -> Result<Told, Refusal>
        ensures step { CallSteps (state_of self.old) (command.Delete t rec) done result (state_of self.new) }
        ensures deadlock { OnOk result (KeepsAccepted (command.Delete t rec) self.old self.new) }
        ensures others { StepLeavesOthers (state_of self.old) (command.Delete t rec) (said done result) (state_of self.new) }
        ensures counted { OnOk result (self.new.accepted ≡ self.old.accepted + 1) }
        ensures counters { self.new.counters ≡ counted (state_of self.old) (command.Delete t rec) (said done result).0 (said done result).1
            (state_of self.new) self.old.counters }
        ensures orders { OnOk result (KeepsOrders self.old.table self.new.table) }
        ensures err { OnErr result (self.new ≡ self.old) }
    {
        let mut told = Told::new();
        self.delete_telling(t, rec, &mut told)?;
        Ok(told)
    }

    /// As `delete`, with the notices put into an empty list.
    pub fn delete_telling(&mut self, t: TxnId, rec: NodeId, told: &mut Told) -> Result<(), Refusal>
        requires empty { told.old.items ≡ [] }
        ensures step { CallSteps (state_of self.old) (command.Delete t rec) (doing told.new.items) result (state_of self.new) }
        ensures completes { IfOk result (λ x. Completes (command.Delete t rec) self.old (doing told.new.items x) self.new) }
        ensures untold { OnErr result (told.new ≡ told.old) }
        ensures err { OnErr result (self.new ≡ self.old) }
    {
        self.check_delete(t, rec)?;
        self.table.remove_telling(t, rec, told);
        self.table.law();
        self.accepted += 1;
        self.counters.add_notices(told.as_slice());
        Ok(())
    }

    /// Makes a record of a file, held by nobody, with a key for each of the file's indexes, in
    /// order of their making: the node of a row of the engine's that is to be locked. From then on
    /// only `index_by` makes an index of the file. Nobody is told; other transactions keep what
    /// `apply` leaves them.
    ///
    /// Refused, in this order, with `WornOut`, `NoSuchNode`, `BadParents` (the node is no file),
    /// `BadKeys` (not a key for each index), `TooManyNodes` and `NoMemory`.
    pub fn adopt(&mut self, file: NodeId, keys: &[u64]) -> Result<NodeId, Refusal>
        ensures step { CallSteps (state_of self.old) (command.Adopt file keys.entry) made result (state_of self.new) }
        ensures completes { IfOk result (λ x. Completes (command.Adopt file keys.entry) self.old (made x) self.new) }
        ensures err { OnErr result (self.new ≡ self.old) }
    {
        self.check_count()?;
        let rec = self.table.adopt(file, keys)?;
        self.table.law();
        self.accepted += 1;
        Ok(rec)
    }

    /// Makes a record as `adopt` does, locked by the transaction in this mode: a row of the
    /// engine's gets its node and its lock in one call, which does both or nothing. It does what
    /// `adopt` and then `lock` do, and counts as both. The lock is granted at once, since nobody
    /// else can hold the new record or wait for it, and nobody is told.
    ///
    /// Refused, in this order, with `WornOut` (fewer than two commands can be counted any more),
    /// `NoSuchTxn`, `TxnWaiting`, `TxnCondemned`, then as `adopt` with `WornOut`, `NoSuchNode`,
    /// `BadParents`, `BadKeys` and `TooManyNodes`, then with `BadMode` (other than `S` and `X`),
    /// `NeedParents` and `NoMemory`. A refused call changes nothing: the file is not marked either.
    pub fn adopt_locked(
        &mut self,
        t: TxnId,
        file: NodeId,
        keys: &[u64],
        mode: Mode,
    ) -> Result<NodeId, Refusal>
        ensures adopts { IfOk result (λ n. AdoptsLocked self.old t file keys.entry mode n self.new) }
        ensures orders { OnOk result (KeepsOrders self.old.table self.new.table) }
        ensures refuses { Refuses (first_refusal (adopting_tests (state_of self.old) t file keys.now mode)) result }
        ensures err { OnErr result (self.new ≡ self.old) }
    {
        self.law();
        let parents = self.check_adopting(t, file, keys, mode)?;
        let rec = self
            .table
            .adopt_under(t, file, keys, parents.as_slice(), mode)?;
        self.table.law();
        self.accepted += 2;
        self.counters.add_grant(false, false);
        Ok(rec)
    }

    /// Removes a record that nobody holds or waits for. Nobody is told; other transactions keep
    /// what `apply` leaves them.
    ///
    /// Refused, in this order, with `WornOut`, `NoSuchNode`, `BadParents` (the node is no record)
    /// and `RecordInUse`. Allocates no memory.
    pub fn forget(&mut self, rec: NodeId) -> Result<(), Refusal>
        ensures step { CallSteps (state_of self.old) (command.Forget rec) (doing []) result (state_of self.new) }
        ensures completes { IfOk result (λ x. Completes (command.Forget rec) self.old (doing [] x) self.new) }
        ensures err { OnErr result (self.new ≡ self.old) }
    {
        self.check_forget(rec)?;
        self.table.forget(rec);
        self.table.law();
        self.accepted += 1;
        Ok(())
    }

    /// The tests of `insert`, except the count and memory. If all pass it answers the record's
    /// parents.
    fn check_insert(
        &self,
        t: TxnId,
        file: NodeId,
        keys: &[u64],
    ) -> Result<ArrayVec<NodeId, 8>, Refusal>
        ensures parents { IfOk result (λ parents. parents.items ≡ record_parents (state_of self.now).graph file keys.now) }
        ensures refuses { RefusesOnly (first_refusal (insert_tests (state_of self.now) t file keys.now)) result }
    {
        self.check_record(t, file, keys)?;
        let parents = self.table.graph().record_parents(file, keys);
        self.check_writable(t, parents.as_slice())?;
        if self.table.graph().is_full() {
            return Err(Refusal::TooManyNodes);
        }
        Ok(parents)
    }

    /// The tests of `insert` before those of the parents.
    fn check_record(&self, t: TxnId, file: NodeId, keys: &[u64]) -> Result<(), Refusal>
        ensures { result ≡ verdict (first_refusal (record_asks (state_of self.now) t file keys.now)) }
    {
        if self.table.graph().worn() {
            return Err(Refusal::WornOut);
        }
        self.check_active(t)?;
        match self.table.graph().kind(file) {
            Some(Kind::File) => {}
            Some(_) => return Err(Refusal::BadParents),
            None => return Err(Refusal::NoSuchNode),
        }
        if keys.len() == self.table.graph().indexes(file).len() {
            Ok(())
        } else {
            Err(Refusal::BadKeys)
        }
    }

    /// The tests of `adopt_locked`, except memory. If all pass it answers the record's parents.
    fn check_adopting(
        &self,
        t: TxnId,
        file: NodeId,
        keys: &[u64],
        mode: Mode,
    ) -> Result<ArrayVec<NodeId, 8>, Refusal>
        ensures parents { IfOk result (λ parents. parents.items ≡ record_parents (state_of self.now).graph file keys.now) }
        ensures refuses { RefusesOnly (first_refusal (adopting_tests (state_of self.now) t file keys.now mode)) result }
    {
        self.check_count_twice()?;
        self.check_active(t)?;
        self.check_row(file, keys)?;
        if !matches!(mode, Mode::S | Mode::X) {
            return Err(Refusal::BadMode);
        }
        let parents = self.table.graph().record_parents(file, keys);
        self.table.check_rule_over(t, parents.as_slice(), mode)?;
        Ok(parents)
    }

    /// The tests of `adopt`, except the count and memory.
    fn check_row(&self, file: NodeId, keys: &[u64]) -> Result<(), Refusal>
        ensures { result ≡ verdict (record_refusal (state_of self.now).graph file keys.now) }
    {
        let graph = self.table.graph();
        if graph.worn() {
            return Err(Refusal::WornOut);
        }
        match graph.kind(file) {
            Some(Kind::File) => {}
            Some(_) => return Err(Refusal::BadParents),
            None => return Err(Refusal::NoSuchNode),
        }
        if keys.len() != graph.indexes(file).len() {
            Err(Refusal::BadKeys)
        } else if graph.is_full() {
            Err(Refusal::TooManyNodes)
        } else {
            Ok(())
        }
    }

    /// The tests of `forget`.
    fn check_forget(&self, rec: NodeId) -> Result<(), Refusal>
        ensures { result ≡ verdict (refusal_of (state_of self.now) (command.Forget rec)) }
    {
        self.check_count()?;
        match self.table.graph().kind(rec) {
            Some(Kind::Rec) => {}
            Some(_) => return Err(Refusal::BadParents),
            None => return Err(Refusal::NoSuchNode),
        }
        if self.table.is_idle(rec) {
            Ok(())
        } else {
            Err(Refusal::RecordInUse)
        }
    }

    /// The tests of `delete`.
    fn check_delete(&self, t: TxnId, rec: NodeId) -> Result<(), Refusal>
        ensures { result ≡ verdict (refusal_of (state_of self.now) (command.Delete t rec)) }
    {
        self.check_count()?;
        self.check_active(t)?;
        match self.table.graph().kind(rec) {
            Some(Kind::Rec) => {}
            Some(_) => return Err(Refusal::BadParents),
            None => return Err(Refusal::NoSuchNode),
        }
        if self.mode(t, rec) == Mode::X {
            Ok(())
        } else {
            Err(Refusal::NeedExclusive)
        }
    }
}

//! Schema changes: nodes are dropped, and indexes made, under the locks of a transaction.

ghost use Rattle.std.specs.Prelude.{◌≡◌, ◌&&◌, ◌||◌, [], IfOk, OnErr, true};
ghost use Rattle.gl_graph.specs.Graph.{is_live, shape_of};
ghost use Rattle.gl_graph.specs.Refusals.{first_refusal, has_records, verdict};
ghost use Rattle.gl_graph.specs.Shapes.{is_file_shape};
ghost use Rattle.gl_header.specs.Header.{holds, is_empty};
ghost use Rattle.gl_model.specs.Calls.{holds_child, holds_x_on_all, index_by_tests, locked_to_drop, locked_to_index};
ghost use Rattle.gl_model.specs.State.{lives, members};
ghost use Rattle.gl_steps.specs.declared.command.Command.TheVariants as command;
ghost use Rattle.gl_steps.specs.Tests.{refusal_of};
ghost use Rattle.gl_catalog.specs.Completes.{Completes};
ghost use Rattle.gl_catalog.specs.Manager.{state_of};
ghost use Rattle.gl_catalog.specs.Replies.{CallSteps, doing, made};

use super::Manager;
use gl_graph::Kind;
use gl_modes::{Mode, NodeId, Refusal};
use gl_table::{Told, TxnId};

impl Manager {
    /// Drops an inner node without children, a file without records and indexes, or, if its file
    /// has no record, an index with its intervals. The transaction needs X on it, and for an index
    /// on its file too. All locks on it end; its waiters are active again and told that it is gone,
    /// in an empty list. Other transactions keep what `apply` leaves them.
    ///
    /// Refused, in this order, with `WornOut`, `NoSuchTxn`, `TxnWaiting`, `TxnCondemned`,
    /// `NoSuchNode`, `BadParents` (an interval or a record), `NeedExclusive`, and `HasChildren` for
    /// an inner node, else `FileInUse`. Allocates no memory.
    pub fn drop_telling(&mut self, t: TxnId, n: NodeId, told: &mut Told) -> Result<(), Refusal>
        requires empty { told.old.items ≡ [] }
        ensures step { CallSteps (state_of self.old) (command.Drop t n) (doing told.new.items) result (state_of self.new) }
        ensures completes { IfOk result (λ x. Completes (command.Drop t n) self.old (doing told.new.items x) self.new) }
        ensures untold { OnErr result (told.new ≡ told.old) }
        ensures err { OnErr result (self.new ≡ self.old) }
    {
        self.check_drop(t, n)?;
        self.table.drop_telling(t, n, told);
        self.table.law();
        self.accepted += 1;
        self.counters.add_notices(told.as_slice());
        Ok(())
    }

    /// Makes an index of a file, held by the transaction in X. The transaction needs X on the file and
    /// IX or greater on each parent. If the file has records, all are named, in order of birth, and
    /// each gets the key at its place. Then the transaction needs X on each index of the file too, so
    /// that nobody else reads or writes a record, and must hold none itself. Nobody is told; other
    /// transactions keep what `apply` leaves them. Needs a step for each record.
    ///
    /// Refused, in this order, with `WornOut`, `NoSuchTxn`, `TxnWaiting`, `TxnCondemned`,
    /// `NoSuchNode`, `BadParents`, `NeedExclusive`, `NeedParents`, `FileInUse` (it has records and
    /// none is named, or the transaction holds one), `BadKeys` (the bounds; not all records are
    /// named, or another node is, or not in order of birth; not a key for each), `TooManyNodes` and
    /// `NoMemory`.
    pub fn index_by(
        &mut self,
        t: TxnId,
        parents: &[NodeId],
        file: NodeId,
        bounds: &[u64],
        records: &[NodeId],
        keys: &[u64],
    ) -> Result<NodeId, Refusal>
        ensures step { CallSteps (state_of self.old) (command.IndexBy t parents.entry file bounds.entry records.entry keys.entry) made result
            (state_of self.new) }
        ensures completes { IfOk result (λ x. Completes (command.IndexBy t parents.entry file bounds.entry records.entry keys.entry) self.old
            (made x) self.new) }
        ensures err { OnErr result (self.new ≡ self.old) }
    {
        self.check_count()?;
        self.check_index_by(t, parents, file, bounds, records, keys)?;
        let index = self
            .table
            .add_index_held(t, parents, file, bounds, records, keys)?;
        self.table.law();
        self.accepted += 1;
        Ok(index)
    }

    /// The tests of `drop_telling`.
    fn check_drop(&self, t: TxnId, n: NodeId) -> Result<(), Refusal>
        ensures { result ≡ verdict (refusal_of (state_of self.now) (command.Drop t n)) }
    {
        self.check_count()?;
        self.check_active(t)?;
        let in_use = match self.table.graph().kind(n) {
            Some(Kind::Inner) => Refusal::HasChildren,
            Some(Kind::File | Kind::Index) => Refusal::FileInUse,
            Some(Kind::Interval | Kind::Rec) => return Err(Refusal::BadParents),
            None => return Err(Refusal::NoSuchNode),
        };
        if !self.may_drop(t, n) {
            Err(Refusal::NeedExclusive)
        } else if self.table.graph().is_in_use(n) {
            Err(in_use)
        } else {
            Ok(())
        }
    }

    /// Whether a living transaction holds a node in X and, for an index, its file too.
    fn may_drop(&self, t: TxnId, n: NodeId) -> bool
        requires txn { lives (state_of self.now) t ≡ true }
        ensures { result ≡ holds_x_on_all (state_of self.now) t.slot (locked_to_drop n (shape_of (state_of self.now).graph n)) }
    {
        if self.mode(t, n) != Mode::X {
            return false;
        }
        match self.table.graph().file_of_index(n) {
            Some(file) => self.mode(t, file) == Mode::X,
            None => true,
        }
    }

    /// Whether a living transaction holds a file in X and, if records are named, each of its indexes
    /// too.
    fn may_index(&self, t: TxnId, file: NodeId, records: &[NodeId]) -> bool
        requires txn { lives (state_of self.now) t ≡ true }
        requires file { is_file_shape (shape_of (state_of self.now).graph file) ≡ true }
        ensures { result ≡ holds_x_on_all (state_of self.now) t.slot (locked_to_index (state_of self.now).graph file records.now) }
    {
        if self.mode(t, file) != Mode::X {
            false
        } else if records.is_empty() {
            true
        } else {
            self.holds_all_in_x(t, self.table.graph().indexes(file))
        }
    }

    /// Whether a living transaction that holds the node holds a child of it.
    fn holds_child(&self, t: TxnId, n: NodeId) -> bool
        requires txn { lives (state_of self.now) t ≡ true }
        requires held { holds (members (state_of self.now) n) t.slot ≡ true }
        ensures { result ≡ holds_child (state_of self.now) t.slot n }
    {
        match self.children(t, n) {
            Some(count) => count > 0,
            None => false,
        }
    }

    /// Whether a file has records and none is named, or the transaction, which holds the file, holds
    /// a record of it.
    fn is_taken(&self, t: TxnId, file: NodeId, records: &[NodeId]) -> bool
        requires txn { lives (state_of self.now) t ≡ true }
        requires held { holds (members (state_of self.now) file) t.slot ≡ true }
        requires file { is_file_shape (shape_of (state_of self.now).graph file) ≡ true }
        ensures { result ≡ ((is_empty records.now && has_records (state_of self.now).graph file) || holds_child (state_of self.now) t.slot file) }
    {
        if records.is_empty() && self.table.graph().has_records(file) {
            true
        } else {
            self.holds_child(t, file)
        }
    }

    /// The tests of `index_by`, except the count and memory.
    fn check_index_by(
        &self,
        t: TxnId,
        parents: &[NodeId],
        file: NodeId,
        bounds: &[u64],
        records: &[NodeId],
        keys: &[u64],
    ) -> Result<(), Refusal>
        ensures { result ≡ verdict (first_refusal (index_by_tests (state_of self.now) t parents.now file bounds.now records.now keys.now)) }
    {
        let graph = self.table.graph();
        if graph.worn() {
            return Err(Refusal::WornOut);
        }
        self.check_active(t)?;
        graph.check_index_place(parents, file)?;
        if !self.may_index(t, file, records) {
            return Err(Refusal::NeedExclusive);
        }
        self.check_writable(t, parents)?;
        if self.is_taken(t, file, records) {
            return Err(Refusal::FileInUse);
        }
        graph.check_index_over(file, bounds, records, keys)
    }
}

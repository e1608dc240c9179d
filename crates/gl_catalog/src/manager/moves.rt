//! Records get other keys, and nodes other parents.

ghost use Rattle.std.specs.Prelude.{◌≡◌, ◌+◌, ◌∷◌, ◌&&◌, [], IfOk, OnErr, OnOk, not, true};
ghost use Rattle.gl_graph.specs.Changes.{rekeyed_parents};
ghost use Rattle.gl_graph.specs.Graph.{first_parent, shape_of};
ghost use Rattle.gl_graph.specs.Refusals.{bad_parents, first_refusal, verdict};
ghost use Rattle.gl_graph.specs.Shapes.{is_index_of_shape, is_movable_shape, is_record_shape, least_parents};
ghost use Rattle.gl_model.specs.Calls.{holds_x_on_all, need_exclusive, need_new_parents};
ghost use Rattle.gl_model.specs.State.{lives};
ghost use Rattle.gl_steps.specs.declared.command.Command.TheVariants as command;
ghost use Rattle.gl_table.specs.Table.{KeepsOrders};
ghost use Rattle.gl_catalog.specs.Completes.{Completes};
ghost use Rattle.gl_catalog.specs.Deadlocks.{KeepsAccepted};
ghost use Rattle.gl_catalog.specs.Counters.{counted};
ghost use Rattle.gl_catalog.specs.Manager.{state_of};
ghost use Rattle.gl_steps.specs.Promises.{KeepsCaller, StepLeavesOthers};
ghost use Rattle.gl_catalog.specs.Replies.{CallSteps, doing, done, said};
ghost use Rattle.gl_steps.specs.Tests.{move_asks, refusal_of, worn};

use super::Manager;
use arrayvec::ArrayVec;
use gl_graph::Kind;
use gl_modes::{Mode, NodeId, Refusal};
use gl_table::{Told, TxnId};

impl Manager {
    /// Gives a record another key for one index of its file, and with it that key's interval as a
    /// parent, in place of the old one. Locks on the record stay. A wait on it that fails the rule
    /// of the graph over its new parents ends. Answers the notices of these, by rising slot. The
    /// effective modes of the transaction stay; other transactions keep what `apply` leaves them.
    ///
    /// The transaction needs X on the record and IX or greater on each new parent, or X on each old
    /// and each new parent. Refused, in this order, with `WornOut`, `NoSuchTxn`, `TxnWaiting`,
    /// `TxnCondemned`, `NoSuchNode`, `BadParents` (no record, or no index of its file),
    /// `NeedExclusive` (without X on the record, and not with X on all those parents) and
    /// `NeedParents` (with X on the record: the first new parent not held in IX or greater).
    /// Allocates no memory.
    pub fn rekey(&mut self, t: TxnId, rec: NodeId, index: NodeId, key: u64) -> Result<Told, Refusal>
        ensures step { CallSteps (state_of self.old) (command.Rekey t rec index key) done result (state_of self.new) }
        ensures deadlock { OnOk result (KeepsAccepted (command.Rekey t rec index key) self.old self.new) }
        ensures caller { KeepsCaller (command.Rekey t rec index key) (state_of self.old) (state_of self.new) }
        ensures others { StepLeavesOthers (state_of self.old) (command.Rekey t rec index key) (said done result) (state_of self.new) }
        ensures counted { OnOk result (self.new.accepted ≡ self.old.accepted + 1) }
        ensures counters { self.new.counters ≡ counted (state_of self.old) (command.Rekey t rec index key) (said done result).0 (said done result).1
            (state_of self.new) self.old.counters }
        ensures orders { OnOk result (KeepsOrders self.old.table self.new.table) }
        ensures err { OnErr result (self.new ≡ self.old) }
    {
        let mut told = Told::new();
        self.rekey_telling(t, rec, index, key, &mut told)?;
        Ok(told)
    }

    /// As `rekey`, with the notices put into an empty list.
    pub fn rekey_telling(
        &mut self,
        t: TxnId,
        rec: NodeId,
        index: NodeId,
        key: u64,
        told: &mut Told,
    ) -> Result<(), Refusal>
        requires empty { told.old.items ≡ [] }
        ensures step { CallSteps (state_of self.old) (command.Rekey t rec index key) (doing told.new.items) result (state_of self.new) }
        ensures completes { IfOk result (λ x. Completes (command.Rekey t rec index key) self.old (doing told.new.items x) self.new) }
        ensures untold { OnErr result (told.new ≡ told.old) }
        ensures err { OnErr result (self.new ≡ self.old) }
    {
        self.check_rekey(t, rec, index, key)?;
        self.table.reparent_telling(t, rec, index, key, told);
        self.table.law();
        self.accepted += 1;
        self.counters.add_notices(told.as_slice());
        Ok(())
    }

    /// Gives an inner node, a file or an index other parents; an inner node without parents is a
    /// root. Locks on the node stay. A wait on it that fails the rule of the graph over its new
    /// parents ends. Answers the notices of these, by rising slot. The effective modes of the
    /// transaction stay; other transactions keep what `apply` leaves them.
    ///
    /// The transaction needs X on the node and IX or greater on each new parent, or, if there are
    /// both old and new parents, X on each of them. Refused, in this order, with `WornOut`,
    /// `NoSuchTxn`, `TxnWaiting`, `TxnCondemned`, `NoSuchNode`, `BadParents` (a record or an
    /// interval, or parents that no such node could have), `NeedExclusive`, `NeedParents` (with X
    /// on the node: the first new parent not held in IX or greater), `Cycle` (the first new parent
    /// that is the node or has a path to it) and `NoMemory`, which may replace `Cycle` too.
    pub fn relocate(&mut self, t: TxnId, n: NodeId, parents: &[NodeId]) -> Result<Told, Refusal>
        ensures step { CallSteps (state_of self.old) (command.Move t n parents.entry) done result (state_of self.new) }
        ensures deadlock { OnOk result (KeepsAccepted (command.Move t n parents.entry) self.old self.new) }
        ensures caller { KeepsCaller (command.Move t n parents.entry) (state_of self.old) (state_of self.new) }
        ensures others { StepLeavesOthers (state_of self.old) (command.Move t n parents.entry) (said done result) (state_of self.new) }
        ensures counted { OnOk result (self.new.accepted ≡ self.old.accepted + 1) }
        ensures counters { self.new.counters ≡ counted (state_of self.old) (command.Move t n parents.entry) (said done result).0 (said done result).1
            (state_of self.new) self.old.counters }
        ensures orders { OnOk result (KeepsOrders self.old.table self.new.table) }
        ensures err { OnErr result (self.new ≡ self.old) }
    {
        let mut told = Told::new();
        self.relocate_telling(t, n, parents, &mut told)?;
        Ok(told)
    }

    /// As `relocate`, with the notices put into an empty list.
    pub fn relocate_telling(
        &mut self,
        t: TxnId,
        n: NodeId,
        parents: &[NodeId],
        told: &mut Told,
    ) -> Result<(), Refusal>
        requires empty { told.old.items ≡ [] }
        ensures step { CallSteps (state_of self.old) (command.Move t n parents.entry) (doing told.new.items) result (state_of self.new) }
        ensures completes { IfOk result (λ x. Completes (command.Move t n parents.entry) self.old (doing told.new.items x) self.new) }
        ensures untold { OnErr result (told.new ≡ told.old) }
        ensures err { OnErr result (self.new ≡ self.old) }
    {
        self.check_relocate(t, n, parents)?;
        self.table.regraft_telling(t, n, parents, told)?;
        self.table.law();
        self.accepted += 1;
        self.counters.add_notices(told.as_slice());
        Ok(())
    }

    /// The tests of `rekey`.
    fn check_rekey(&self, t: TxnId, rec: NodeId, index: NodeId, key: u64) -> Result<(), Refusal>
        ensures { result ≡ verdict (refusal_of (state_of self.now) (command.Rekey t rec index key)) }
    {
        self.check_count()?;
        self.check_active(t)?;
        if !self.lives(rec) || !self.lives(index) {
            return Err(Refusal::NoSuchNode);
        }
        if !self.is_keyed_by(rec, index) {
            return Err(Refusal::BadParents);
        }
        let parents = self.parents_with(rec, index, key);
        self.check_move(t, rec, true, parents.as_slice())
    }

    /// Whether `rec` is a record and `index` an index of its file.
    fn is_keyed_by(&self, rec: NodeId, index: NodeId) -> bool
        ensures { result ≡ (is_record_shape (shape_of (state_of self.now).graph rec)
            && is_index_of_shape (first_parent (state_of self.now).graph rec) (shape_of (state_of self.now).graph index)) }
    {
        let graph = self.table.graph();
        matches!(graph.kind(rec), Some(Kind::Rec))
            && graph
                .indexes(graph.parents(rec)[0])
                .iter()
                .any(|other| index == *other)
    }

    /// The parents that a record would have with another key for one index.
    fn parents_with(&self, rec: NodeId, index: NodeId, key: u64) -> ArrayVec<NodeId, 8>
        requires record { is_record_shape (shape_of (state_of self.now).graph rec) ≡ true }
        requires index { is_index_of_shape (first_parent (state_of self.now).graph rec) (shape_of (state_of self.now).graph index) ≡ true }
        ensures { result.items ≡ rekeyed_parents (state_of self.now).graph rec index key }
    {
        let graph = self.table.graph();
        let old = graph.parents(rec);
        let file = old[0];
        let mut parents = ArrayVec::new();
        parents.push(file);
        for (place, other) in graph.indexes(file).iter().enumerate() {
            let interval = if *other == index {
                graph.interval_of(index, key)
            } else {
                old[place + 1]
            };
            parents.push(interval);
        }
        parents
    }

    /// The tests of `relocate`, except the search for a cycle and memory.
    fn check_relocate(&self, t: TxnId, n: NodeId, parents: &[NodeId]) -> Result<(), Refusal>
        ensures { result ≡ verdict (first_refusal (worn (state_of self.now) ∷ move_asks (state_of self.now) t n parents.now)) }
    {
        self.check_count()?;
        self.check_active(t)?;
        if !self.lives(n) || !parents.iter().all(|parent| self.lives(*parent)) {
            return Err(Refusal::NoSuchNode);
        }
        if !self.can_lie_under(n, parents) {
            return Err(Refusal::BadParents);
        }
        let both_given = !self.table.graph().parents(n).is_empty() && !parents.is_empty();
        self.check_move(t, n, both_given, parents)
    }

    /// Whether a node may move, and could have been made under these parents.
    fn can_lie_under(&self, n: NodeId, parents: &[NodeId]) -> bool
        ensures { result ≡ (is_movable_shape (shape_of (state_of self.now).graph n)
            && not (bad_parents (state_of self.now).graph (least_parents (shape_of (state_of self.now).graph n)) parents.now)) }
    {
        let graph = self.table.graph();
        match graph.kind(n) {
            Some(Kind::Inner) => !graph.are_bad_parents(0, parents),
            Some(Kind::File | Kind::Index) => !graph.are_bad_parents(1, parents),
            _ => false,
        }
    }

    /// Whether the locks of a transaction let it move a node to these parents: X on the node and IX
    /// or greater on each of them, or X on each old and each new parent, if there are both.
    fn check_move(
        &self,
        t: TxnId,
        n: NodeId,
        both_given: bool,
        parents: &[NodeId],
    ) -> Result<(), Refusal>
        requires txn { lives (state_of self.now) t ≡ true }
        ensures { result ≡ verdict (first_refusal
            (need_exclusive (state_of self.now) t.slot n both_given parents.now ∷ need_new_parents (state_of self.now) t.slot n parents.now ∷ [])) }
    {
        if self.mode(t, n) == Mode::X {
            return self.check_writable(t, parents);
        }
        let old = self.table.graph().parents(n);
        if both_given && self.holds_all_in_x(t, old) && self.holds_all_in_x(t, parents) {
            Ok(())
        } else {
            Err(Refusal::NeedExclusive)
        }
    }

    /// Whether each of these is held in X.
    pub(super) fn holds_all_in_x(&self, t: TxnId, nodes: &[NodeId]) -> bool
        requires txn { lives (state_of self.now) t ≡ true }
        ensures { result ≡ holds_x_on_all (state_of self.now) t.slot nodes.now }
    {
        nodes.iter().all(|node| self.mode(t, *node) == Mode::X)
    }
}

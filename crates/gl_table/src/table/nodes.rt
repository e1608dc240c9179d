//! New nodes of the graph.

ghost use Rattle.std.specs.Prelude.{◌≡◌, ℕ, [], IfOk, None, OnErr, OnOk, false, true};
ghost use Rattle.gl_modes.specs.Modes.{same_mode};
ghost use Rattle.gl_modes.specs.declared.mode.Mode.TheVariants.{NL, X};
ghost use Rattle.gl_graph.specs.Changes.{IsBorn, IsIndexBorn};
ghost use Rattle.gl_graph.specs.Graph.{is_record_of, shape_of};
ghost use Rattle.gl_graph.specs.Over.{IsIndexOver, over_refusal};
ghost use Rattle.gl_graph.specs.Refusals.{Refuses, file_refusal, index_refusal, inner_refusal, is_in_use};
ghost use Rattle.gl_graph.specs.Shapes.{File, Inner, is_movable_shape};
ghost use Rattle.gl_model.specs.Calls.{IsActing, RefusesForMemory, dropped, first_not_ix};
ghost use Rattle.gl_model.specs.State.{with_grant, with_graph};
ghost use Rattle.gl_model.specs.Tellings.{told};
ghost use Rattle.gl_table.specs.Table.{KeepsOrders, state_of};

use super::Table;
use gl_model::{Told, TxnId};
use gl_modes::{Mode, NodeId, Refusal};

impl Table {
    /// Makes an inner node under 0 to 8 different inner nodes; without parents it is a root. Nobody
    /// holds it, and no lock changes.
    ///
    /// Refused, in this order, with `WornOut`, `NoSuchNode`, `BadParents`, `TooManyNodes` and
    /// `NoMemory`.
    pub fn add_inner(&mut self, parents: &[NodeId]) -> Result<NodeId, Refusal>
        ensures made { IfOk result (λ n. IsBorn (state_of self.old).graph (state_of self.new).graph n Inner parents.now) }
        ensures state { OnOk result (state_of self.new ≡ with_graph (state_of self.old) (state_of self.new).graph) }
        ensures deadlock { self.new.deadlock ≡ self.old.deadlock }
        ensures orders { OnOk result (KeepsOrders self.old self.new) }
        ensures refuses { Refuses (inner_refusal (state_of self.old).graph parents.now) result }
        ensures err { OnErr result (self.new ≡ self.old) }
    {
        self.locks.graph.add_inner(parents)
    }

    /// Makes a file under 1 to 8 different inner nodes, with no indexes and no records. Nobody
    /// holds it, and no lock changes.
    ///
    /// Refused, in this order, with `WornOut`, `NoSuchNode`, `BadParents`, `TooManyNodes` and
    /// `NoMemory`.
    pub fn add_file(&mut self, parents: &[NodeId]) -> Result<NodeId, Refusal>
        ensures made { IfOk result (λ n. IsBorn (state_of self.old).graph (state_of self.new).graph n (File false) parents.now) }
        ensures state { OnOk result (state_of self.new ≡ with_graph (state_of self.old) (state_of self.new).graph) }
        ensures deadlock { self.new.deadlock ≡ self.old.deadlock }
        ensures orders { OnOk result (KeepsOrders self.old self.new) }
        ensures refuses { Refuses (file_refusal (state_of self.old).graph parents.now) result }
        ensures err { OnErr result (self.new ≡ self.old) }
    {
        self.locks.graph.add_file(parents)
    }

    /// Makes an index of a file that has no records and had no row adopted, under 1 to 8 different
    /// inner nodes, with strictly rising bounds above 0, and its intervals: one from key 0 on, and
    /// one from each bound. There are at most 256 bounds, or as many as `with_limits` chose. The
    /// index is born first and then, in order, the intervals. Nobody holds any of them, and no lock
    /// changes.
    ///
    /// Refused, in this order, with `WornOut`, `NoSuchNode`, `BadParents` (also if the file is none
    /// or has seven indexes), `FileInUse`, `BadKeys` (the bounds), `TooManyNodes` and `NoMemory`.
    pub fn add_index(
        &mut self,
        parents: &[NodeId],
        file: NodeId,
        bounds: &[u64],
    ) -> Result<NodeId, Refusal>
        ensures made { IfOk result (λ n. IsIndexBorn (state_of self.old).graph (state_of self.new).graph n parents.now file bounds.now) }
        ensures state { OnOk result (state_of self.new ≡ with_graph (state_of self.old) (state_of self.new).graph) }
        ensures deadlock { self.new.deadlock ≡ self.old.deadlock }
        ensures orders { OnOk result (KeepsOrders self.old self.new) }
        ensures refuses { Refuses (index_refusal (state_of self.old).graph parents.now file bounds.now) result }
        ensures err { OnErr result (self.new ≡ self.old) }
    {
        self.locks.graph.add_index(parents, file, bounds)
    }

    /// Makes an index over the records of a file, held in X by an active transaction that holds each
    /// of its parents in IX or greater. The file may have no records; else all are named, in order of
    /// birth, each with its key, and nobody holds one. All tests but that of memory were passed: the
    /// only refusal is `NoMemory`. All room is made before anything changes.
    pub fn add_index_held(
        &mut self,
        t: TxnId,
        parents: &[NodeId],
        file: NodeId,
        bounds: &[u64],
        records: &[NodeId],
        keys: &[u64],
    ) -> Result<NodeId, Refusal>
        requires acting { IsActing (state_of self.old) t }
        requires free { over_refusal (state_of self.old).graph parents.now file bounds.now records.now keys.now ≡ None }
        requires unheld { (u : ℕ) (r : NodeId) → is_record_of (state_of self.old).graph file r ≡ true → (state_of self.old).held u r ≡ NL }
        requires writable { first_not_ix ((state_of self.old).held t.slot) parents.now ≡ None }
        ensures made { IfOk result (λ n. IsIndexOver (state_of self.old).graph (state_of self.new).graph n parents.now file bounds.now records.now keys.now) }
        ensures state { IfOk result (λ n. state_of self.new ≡ with_grant (with_graph (state_of self.old) (state_of self.new).graph) t.slot n X) }
        ensures deadlock { self.new.deadlock ≡ self.old.deadlock }
        ensures orders { OnOk result (KeepsOrders self.old self.new) }
        ensures refuses { RefusesForMemory result self.old self.new }
    {
        let locks = &mut self.locks;
        let prepared = locks
            .ledger
            .prepare(t.slot, locks.graph.next_key(), Mode::X)?;
        let index = locks
            .graph
            .add_index_unrefused(parents, file, bounds, records, keys)?;
        locks
            .ledger
            .place(&locks.graph, t.slot, index, Mode::X, prepared);
        Ok(index)
    }

    /// Drops an inner node, a file or an index with its intervals, which is not in use, and which
    /// an active transaction holds in X; all locks on it end. Its waiters are told that it is gone,
    /// in an empty list. Allocates no memory.
    pub fn drop_telling(&mut self, t: TxnId, n: NodeId, notices: &mut Told)
        requires empty { notices.old.items ≡ [] }
        requires acting { IsActing (state_of self.old) t }
        requires movable { is_movable_shape (shape_of (state_of self.old).graph n) ≡ true }
        requires free { is_in_use (state_of self.old).graph n ≡ false }
        requires exclusive { same_mode ((state_of self.old).held t.slot n) X ≡ true }
        ensures state { state_of self.new ≡ dropped (state_of self.old) n }
        ensures deadlock { self.new.deadlock ≡ self.old.deadlock }
        ensures orders { KeepsOrders self.old self.new }
        ensures told { notices.new.items ≡ told (state_of self.old) (state_of self.new) }
    {
        let locks = &mut self.locks;
        locks.ledger.vacate_branch(&locks.graph, t.slot, n, notices);
        locks.graph.remove_node(n);
    }
}

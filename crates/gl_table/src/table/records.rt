//! Records are inserted, deleted, adopted and forgotten.

ghost use Rattle.std.specs.Prelude.{◌≡◌, ◌∷◌, ◌||◌, [], IfOk, None, OnErr, OnOk, true};
ghost use Rattle.gl_modes.specs.declared.mode.Mode.TheVariants.{S, X};
ghost use Rattle.gl_modes.specs.Modes.{same_mode};
ghost use Rattle.gl_graph.specs.Changes.{IsAdopted, IsBorn, without_node};
ghost use Rattle.gl_graph.specs.Graph.{record_parents, shape_of};
ghost use Rattle.gl_graph.specs.Refusals.{Refuses, first_refusal, record_refusal, too_many_nodes, verdict, worn_births};
ghost use Rattle.gl_graph.specs.Shapes.{Rec, is_record_shape};
ghost use Rattle.gl_model.specs.Calls.{CanPlace, CanTakeRecord, IsActing, RefusesForMemory, deleted, first_not_ix, is_idle, rule_refusal};
ghost use Rattle.gl_model.specs.State.{lives, with_grant, with_graph};
ghost use Rattle.gl_table.specs.Table.{KeepsOrders, state_of};
ghost use Rattle.gl_model.specs.Tellings.{told};

use super::Table;
use crate::rule::{check_rule, check_writable};
use gl_model::{Told, TxnId};
use gl_modes::{Mode, NodeId, Refusal};

impl Table {
    /// Makes a record of a file, held in X by an active transaction, with a key for each of the
    /// file's indexes, in order of their making. The transaction holds each of the record's parents
    /// in IX or greater: the file and, for each index, the interval of the key.
    ///
    /// Refused, in this order, with `WornOut`, `TooManyNodes` and `NoMemory`. All room is made
    /// before anything changes.
    pub fn place(&mut self, t: TxnId, file: NodeId, keys: &[u64]) -> Result<NodeId, Refusal>
        requires acting { IsActing (state_of self.old) t }
        requires allowed { CanPlace (state_of self.old) t.slot file keys.now }
        ensures made { IfOk result (λ n. IsBorn (state_of self.old).graph (state_of self.new).graph n (Rec keys.now)
            (record_parents (state_of self.old).graph file keys.now)) }
        ensures state { IfOk result (λ n. state_of self.new ≡ with_grant (with_graph (state_of self.old) (state_of self.new).graph) t.slot n X) }
        ensures deadlock { self.new.deadlock ≡ self.old.deadlock }
        ensures orders { OnOk result (KeepsOrders self.old self.new) }
        ensures refuses { Refuses (first_refusal (worn_births (state_of self.old).graph ∷ too_many_nodes (state_of self.old).graph 1 ∷ [])) result }
        ensures err { OnErr result (self.new ≡ self.old) }
    {
        if self.locks.graph.worn() {
            return Err(Refusal::WornOut);
        }
        if self.locks.graph.is_full() {
            return Err(Refusal::TooManyNodes);
        }
        let parents = self.locks.graph.record_parents(file, keys);
        self.place_under(t, file, keys, parents.as_slice())
    }

    /// As `place`, once all tests but that of memory were passed, with the record's parents. The
    /// only refusal is `NoMemory`.
    pub fn place_under(
        &mut self,
        t: TxnId,
        file: NodeId,
        keys: &[u64],
        parents: &[NodeId],
    ) -> Result<NodeId, Refusal>
        requires acting { IsActing (state_of self.old) t }
        requires free { CanTakeRecord (state_of self.old).graph file keys.now parents.now }
        requires writable { first_not_ix ((state_of self.old).held t.slot) parents.now ≡ None }
        ensures made { IfOk result (λ n. IsBorn (state_of self.old).graph (state_of self.new).graph n (Rec keys.now)
            (record_parents (state_of self.old).graph file keys.now)) }
        ensures state { IfOk result (λ n. state_of self.new ≡ with_grant (with_graph (state_of self.old) (state_of self.new).graph) t.slot n X) }
        ensures deadlock { self.new.deadlock ≡ self.old.deadlock }
        ensures orders { OnOk result (KeepsOrders self.old self.new) }
        ensures refuses { RefusesForMemory result self.old self.new }
    {
        let locks = &mut self.locks;
        let prepared = locks
            .ledger
            .prepare(t.slot, locks.graph.next_key(), Mode::X)?;
        let rec = locks.graph.add_record_under(file, keys, parents)?;
        locks
            .ledger
            .place(&locks.graph, t.slot, rec, Mode::X, prepared);
        Ok(rec)
    }

    /// Whether the rule of the graph permits a living transaction this mode on a node with these
    /// parents, as `lock` tests it. Refused with `NeedParents`: to write, for the first parent that
    /// is not held in IX or greater; to read, if none is held in IS or greater, for the first of
    /// all. Allocates no memory.
    pub fn check_rule_over(&self, t: TxnId, parents: &[NodeId], mode: Mode) -> Result<(), Refusal>
        requires txn { lives (state_of self.now) t ≡ true }
        ensures { result ≡ verdict (rule_refusal ((state_of self.now).held t.slot) parents.now mode) }
    {
        check_rule(&self.locks.ledger.lists[t.slot as usize], parents, mode)
    }

    /// Whether a living transaction holds each of these in IX or greater, as a writer below them
    /// must. Refused with `NeedParents`, for the first that it does not. Allocates no memory.
    pub fn check_writable(&self, t: TxnId, nodes: &[NodeId]) -> Result<(), Refusal>
        requires txn { lives (state_of self.now) t ≡ true }
        ensures { result ≡ verdict (first_not_ix ((state_of self.now).held t.slot) nodes.now) }
    {
        check_writable(&self.locks.ledger.lists[t.slot as usize], nodes)
    }

    /// Makes a record of a file, held by nobody, with a key for each of the file's indexes, in
    /// order of their making: the node of an engine's row that is to be locked. From then on only
    /// `add_index_held` makes an index of the file. No lock changes.
    ///
    /// Refused, in this order, with `WornOut`, `NoSuchNode`, `BadParents` (no file), `BadKeys` (not
    /// a key for each index), `TooManyNodes` and `NoMemory`.
    pub fn adopt(&mut self, file: NodeId, keys: &[u64]) -> Result<NodeId, Refusal>
        ensures made { IfOk result (λ n. IsAdopted (state_of self.old).graph (state_of self.new).graph n file keys.now) }
        ensures state { OnOk result (state_of self.new ≡ with_graph (state_of self.old) (state_of self.new).graph) }
        ensures deadlock { self.new.deadlock ≡ self.old.deadlock }
        ensures orders { OnOk result (KeepsOrders self.old self.new) }
        ensures refuses { Refuses (record_refusal (state_of self.old).graph file keys.now) result }
        ensures err { OnErr result (self.new ≡ self.old) }
    {
        self.locks.graph.adopt_record(file, keys)
    }

    /// As `adopt`, with the record held by an active transaction in a mode that its parents permit,
    /// once all tests but that of memory were passed, with the record's parents. The only refusal
    /// is `NoMemory`. All room is made before anything changes.
    pub fn adopt_under(
        &mut self,
        t: TxnId,
        file: NodeId,
        keys: &[u64],
        parents: &[NodeId],
        mode: Mode,
    ) -> Result<NodeId, Refusal>
        requires acting { IsActing (state_of self.old) t }
        requires free { CanTakeRecord (state_of self.old).graph file keys.now parents.now }
        requires fit { (same_mode mode S || same_mode mode X) ≡ true }
        requires rule { rule_refusal ((state_of self.old).held t.slot) parents.now mode ≡ None }
        ensures made { IfOk result (λ n. IsAdopted (state_of self.old).graph (state_of self.new).graph n file keys.now) }
        ensures state { IfOk result (λ n. state_of self.new ≡ with_grant (with_graph (state_of self.old) (state_of self.new).graph) t.slot n mode) }
        ensures deadlock { self.new.deadlock ≡ self.old.deadlock }
        ensures orders { OnOk result (KeepsOrders self.old self.new) }
        ensures refuses { RefusesForMemory result self.old self.new }
    {
        let locks = &mut self.locks;
        let prepared = locks.ledger.prepare(t.slot, locks.graph.next_key(), mode)?;
        let rec = locks.graph.add_record_under(file, keys, parents)?;
        locks.graph.mark_adopted(file);
        locks
            .ledger
            .place(&locks.graph, t.slot, rec, mode, prepared);
        Ok(rec)
    }

    /// Removes a record that nobody holds or waits for. Allocates no memory, and no lock changes.
    pub fn forget(&mut self, rec: NodeId)
        requires record { is_record_shape (shape_of (state_of self.old).graph rec) ≡ true }
        requires idle { is_idle (state_of self.old) rec ≡ true }
        ensures state { state_of self.new ≡ with_graph (state_of self.old) (without_node (state_of self.old).graph rec) }
        ensures deadlock { self.new.deadlock ≡ self.old.deadlock }
        ensures orders { KeepsOrders self.old self.new }
    {
        self.locks.graph.remove_record(rec);
    }

    /// As `remove`, with the notices put into an empty list.
    pub fn remove_telling(&mut self, t: TxnId, rec: NodeId, notices: &mut Told)
        requires empty { notices.old.items ≡ [] }
        requires acting { IsActing (state_of self.old) t }
        requires record { is_record_shape (shape_of (state_of self.old).graph rec) ≡ true }
        requires exclusive { same_mode ((state_of self.old).held t.slot rec) X ≡ true }
        ensures state { state_of self.new ≡ deleted (state_of self.old) rec }
        ensures deadlock { self.new.deadlock ≡ self.old.deadlock }
        ensures orders { KeepsOrders self.old self.new }
        ensures told { notices.new.items ≡ told (state_of self.old) (state_of self.new) }
    {
        let locks = &mut self.locks;
        locks.ledger.vacate(&locks.graph, t.slot, rec, notices);
        locks.graph.remove_record(rec);
    }
}

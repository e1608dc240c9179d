//! The calls that answer with a list of notices of their own. Each makes the list, and calls its
//! twin.

ghost use Rattle.std.specs.Prelude.{◌≡◌, [], IfOk, OnErr, OnOk, true, ◌-◌, ℕ};
ghost use Rattle.gl_graph.specs.Refusals.{first_refusal};
ghost use Rattle.gl_model.specs.Calls.{CanMove, CanRekey, IsActing, Locks, RefusesCycle, RefusesLock, RefusesOnly, locked_as};
ghost use Rattle.gl_model.specs.Calls.{commit_tests, living_tests, released, unlock_tests, unlocked};
ghost use Rattle.gl_model.specs.Calls.{cancelled, cancel_tests, deleted, moved_to};
ghost use Rattle.gl_model.specs.Calls.{shed, covered_children, held_children};
ghost use Rattle.gl_table.specs.Orders.{OnlyLoses};
ghost use Rattle.gl_table.specs.Table.{KeepsOrders, nodes_of, state_of};
ghost use Rattle.gl_model.specs.Tellings.{told, told_but};
ghost use Rattle.gl_modes.specs.declared.mode.Mode.TheVariants.{S, X};
ghost use Rattle.gl_modes.specs.Modes.{same_mode, is_at_least};
ghost use Rattle.gl_graph.specs.Graph.{shape_of};
ghost use Rattle.gl_graph.specs.Shapes.{is_record_shape};
ghost use Rattle.gl_model.specs.Deadlocks.{LocksKeeping, SettlesKeeping};
ghost use Rattle.gl_model.specs.State.{status_of, Settled, waits_for};
ghost use Rattle.gl_waits.specs.Waits.{IsOnNoCycle};
ghost use Rattle.gl_graph.specs.Changes.{rekeyed, rekeyed_parents, with_parents};

use super::Table;
use gl_model::{Locked, Told, TxnId};
use gl_modes::{Mode, NodeId, Refusal};

impl Table {
    /// Releases one node, of which the transaction holds no child; the node's waiters are granted
    /// from the front. Answers the notices of grants, by rising slot.
    ///
    /// Refused, in this order, with `NoSuchTxn`, `TxnWaiting`, `TxnCondemned`, `NoSuchNode`,
    /// `NotHeld` and `HeldChild`, naming the held child that was born first. Allocates no memory.
    pub fn unlock(&mut self, t: TxnId, n: NodeId) -> Result<Told, Refusal>
        ensures told { IfOk result (λ list. list.items ≡ told (state_of self.old) (state_of self.new)) }
        ensures state { OnOk result (state_of self.new ≡ unlocked (state_of self.old) t.slot n) }
        ensures deadlock { self.new.deadlock ≡ self.old.deadlock }
        ensures orders { OnOk result (KeepsOrders self.old self.new) }
        ensures refuses { RefusesOnly (first_refusal (unlock_tests (state_of self.old) t n)) result }
        ensures err { OnErr result (self.new ≡ self.old) }
    {
        let mut told = Told::new();
        self.unlock_telling(t, n, &mut told)?;
        Ok(told)
    }

    /// Ends a transaction and releases everything; the waiters of each node that it held are
    /// granted from the front. Answers the notices of grants, by rising slot.
    ///
    /// Refused, in this order, with `NoSuchTxn`, `TxnWaiting` and `TxnCondemned`. Allocates no
    /// memory.
    pub fn commit(&mut self, t: TxnId) -> Result<Told, Refusal>
        ensures told { IfOk result (λ list. list.items ≡ told (state_of self.old) (state_of self.new)) }
        ensures state { OnOk result (state_of self.new ≡ released (state_of self.old) t.slot) }
        ensures deadlock { self.new.deadlock ≡ self.old.deadlock }
        ensures orders { OnOk result (KeepsOrders self.old self.new) }
        ensures refuses { RefusesOnly (first_refusal (commit_tests (state_of self.old) t)) result }
        ensures err { OnErr result (self.new ≡ self.old) }
    {
        let mut told = Told::new();
        self.commit_telling(t, &mut told)?;
        Ok(told)
    }

    /// Ends a transaction in any status, cancels its wait, and releases everything; the waiters of
    /// each node that it held or waited on are granted from the front. Answers the notices of
    /// grants, by rising slot.
    ///
    /// Refused with `NoSuchTxn`. Allocates no memory.
    pub fn abort(&mut self, t: TxnId) -> Result<Told, Refusal>
        ensures told { IfOk result (λ list. list.items ≡ told (state_of self.old) (state_of self.new)) }
        ensures state { OnOk result (state_of self.new ≡ released (state_of self.old) t.slot) }
        ensures deadlock { self.new.deadlock ≡ self.old.deadlock }
        ensures orders { OnOk result (KeepsOrders self.old self.new) }
        ensures refuses { RefusesOnly (first_refusal (living_tests (state_of self.old) t)) result }
        ensures err { OnErr result (self.new ≡ self.old) }
    {
        let mut told = Told::new();
        self.abort_telling(t, &mut told)?;
        Ok(told)
    }

    /// Requests a mode on a node, and waits if it cannot be granted at once. The granted mode is
    /// the supremum of the held and the requested mode. With detection at block, a requester that
    /// waits is then settled: victims are condemned until it is on no cycle, and the last deadlock
    /// that this ends is recorded. Answers the outcome, and the notices to others, of grants and
    /// condemnations, by rising slot.
    ///
    /// Refused, in this order, with `NoSuchTxn`, `TxnWaiting`, `TxnCondemned`, `NoSuchNode`,
    /// `BadMode` (`NL`, or other than `S` and `X` on a record), `NeedParents` and `NoMemory` (never
    /// for a conversion granted at once).
    pub fn lock(&mut self, t: TxnId, n: NodeId, mode: Mode) -> Result<(Locked, Told), Refusal>
        ensures answer { IfOk result (λ answer. answer.0 ≡ locked_as ((state_of self.new).held t.slot n) (status_of (state_of self.new) t.slot)) }
        ensures told { IfOk result (λ answer. answer.1.items ≡ told_but t.slot (state_of self.old) (state_of self.new)) }
        ensures state { OnOk result (Locks (state_of self.old) t.slot n mode (state_of self.new)) }
        ensures deadlock { OnOk result (LocksKeeping (state_of self.old) t.slot n mode self.old.deadlock (state_of self.new) self.new.deadlock) }
        ensures orders { OnOk result (KeepsOrders self.old self.new) }
        ensures refuses { RefusesLock (state_of self.old) t n mode result }
        ensures err { OnErr result (self.new ≡ self.old) }
    {
        let mut told = Told::new();
        let locked = self.lock_telling(t, n, mode, &mut told)?;
        Ok((locked, told))
    }

    /// Cancels the wait of a transaction, which is then active; the node's waiters are granted from
    /// the front. Answers the notices of grants to others, by rising slot.
    ///
    /// Refused, in this order, with `NoSuchTxn`, `TxnCondemned` and `NotWaiting`. Allocates no
    /// memory.
    pub fn cancel(&mut self, t: TxnId) -> Result<Told, Refusal>
        ensures told { IfOk result (λ list. list.items ≡ told_but t.slot (state_of self.old) (state_of self.new)) }
        ensures state { OnOk result (state_of self.new ≡ cancelled (state_of self.old) t.slot) }
        ensures deadlock { self.new.deadlock ≡ self.old.deadlock }
        ensures orders { OnOk result (KeepsOrders self.old self.new) }
        ensures refuses { RefusesOnly (first_refusal (cancel_tests (state_of self.old) t)) result }
        ensures err { OnErr result (self.new ≡ self.old) }
    {
        let mut told = Told::new();
        self.cancel_telling(t, &mut told)?;
        Ok(told)
    }

    /// While the transaction is on a cycle of waits, condemns a victim: of the candidates by the
    /// choice of victims, the one with the greatest `since`, of several the youngest. Each victim's
    /// wait ends, and the node's waiters are granted from the front; the last deadlock that this
    /// ends is recorded. Answers the notices of grants and condemnations, by rising slot: none if
    /// the transaction is on no cycle, and then nothing changes.
    ///
    /// Refused with `NoSuchTxn`. Allocates no memory.
    pub fn settle(&mut self, t: TxnId) -> Result<Told, Refusal>
        ensures told { IfOk result (λ list. list.items ≡ told (state_of self.old) (state_of self.new)) }
        ensures state { OnOk result (Settled (state_of self.old).victims (state_of self.old) t.slot (state_of self.new)) }
        ensures deadlock { OnOk result (SettlesKeeping (state_of self.old).victims (state_of self.old) t.slot self.old.deadlock
            (state_of self.new) self.new.deadlock) }
        ensures orders { OnOk result (KeepsOrders self.old self.new) }
        ensures idle { IsOnNoCycle (waits_for (state_of self.old)) t.slot → IfOk result (λ list. (list.items ≡ []) × (state_of self.new ≡ state_of self.old)) }
        ensures refuses { RefusesOnly (first_refusal (living_tests (state_of self.old) t)) result }
        ensures err { OnErr result (self.new ≡ self.old) }
    {
        let mut told = Told::new();
        self.settle_telling(t, &mut told)?;
        Ok(told)
    }

    /// Deletes a record that an active transaction holds in X. Each waiter on it is active again.
    /// Answers the notices that it is gone, by rising slot.
    ///
    /// Allocates no memory, and looks at the record's parents and waiters alone.
    pub fn remove(&mut self, t: TxnId, rec: NodeId) -> Told
        requires acting { IsActing (state_of self.old) t }
        requires record { is_record_shape (shape_of (state_of self.old).graph rec) ≡ true }
        requires exclusive { same_mode ((state_of self.old).held t.slot rec) X ≡ true }
        ensures state { state_of self.new ≡ deleted (state_of self.old) rec }
        ensures deadlock { self.new.deadlock ≡ self.old.deadlock }
        ensures orders { KeepsOrders self.old self.new }
        ensures told { result.items ≡ told (state_of self.old) (state_of self.new) }
    {
        let mut told = Told::new();
        self.remove_telling(t, rec, &mut told);
        told
    }

    /// Gives a record another key for one index of its file, and with it that key's interval as a
    /// parent, in place of the old one. A wait on it that fails the rule of the graph over its new
    /// parents ends; the others keep their order. Answers the notices of ended waits, by rising
    /// slot.
    ///
    /// The transaction is active, and holds X on the record and IX or greater on each new parent,
    /// or X on each old and each new parent. Linear in the parents and the waiters of the record.
    /// Allocates no memory, and refuses nothing.
    pub fn reparent(&mut self, t: TxnId, rec: NodeId, index: NodeId, key: u64) -> Told
        requires acting { IsActing (state_of self.old) t }
        requires allowed { CanRekey (state_of self.old) t.slot rec index key }
        ensures state { state_of self.new ≡ moved_to (state_of self.old) rec (rekeyed_parents (state_of self.old).graph rec index key)
            (rekeyed (state_of self.old).graph rec index key) }
        ensures deadlock { self.new.deadlock ≡ self.old.deadlock }
        ensures orders { KeepsOrders self.old self.new }
        ensures told { result.items ≡ told (state_of self.old) (state_of self.new) }
    {
        let mut told = Told::new();
        self.reparent_telling(t, rec, index, key, &mut told);
        told
    }

    /// Gives an inner node, a file or an index other parents: living, different inner nodes, at
    /// most 8, and at least one for a file or an index. Without parents an inner node is a root. A
    /// wait on it that fails the rule of the graph over its new parents ends; the others keep their
    /// order. Answers the notices of ended waits, by rising slot.
    ///
    /// The transaction is active, and holds X on the node and IX or greater on each new parent, or,
    /// if there are both old and new parents, X on each of them. Linear in the parents and the
    /// waiters of the node, except the search for a cycle.
    ///
    /// Refused with `Cycle`, naming the first new parent that is the node or has a path to it, and
    /// with `NoMemory`, also if the search for a path had too little memory.
    pub fn regraft(&mut self, t: TxnId, n: NodeId, parents: &[NodeId]) -> Result<Told, Refusal>
        requires acting { IsActing (state_of self.old) t }
        requires allowed { CanMove (state_of self.old) t.slot n parents.now }
        ensures told { IfOk result (λ list. list.items ≡ told (state_of self.old) (state_of self.new)) }
        ensures state { OnOk result (state_of self.new ≡ moved_to (state_of self.old) n parents.now (with_parents (state_of self.old).graph n parents.now)) }
        ensures deadlock { self.new.deadlock ≡ self.old.deadlock }
        ensures orders { OnOk result (KeepsOrders self.old self.new) }
        ensures refuses { RefusesCycle (state_of self.old).graph n parents.now result }
        ensures err { OnErr result (self.new ≡ self.old) }
    {
        let mut told = Told::new();
        self.regraft_telling(t, n, parents, &mut told)?;
        Ok(told)
    }

    /// Releases the children of a node that an active transaction's lock on the node covers: a held
    /// child of which no child is held, and which is not in `X`, or in `X` with `X` on each of its
    /// parents. The waiters of each are granted from the front. Answers how many were released, how
    /// many are kept, and the notices of grants, by rising slot.
    ///
    /// Allocates no memory, and scans all that the transaction holds.
    pub fn shed(&mut self, t: TxnId, n: NodeId) -> (u32, u32, Told)
        requires acting { IsActing (state_of self.old) t }
        requires reads { is_at_least ((state_of self.old).held t.slot n) S ≡ true }
        ensures state { state_of self.new ≡ shed (state_of self.old) t.slot n }
        ensures deadlock { self.new.deadlock ≡ self.old.deadlock }
        ensures orders { (u : ℕ) → OnlyLoses (nodes_of self.old u) (nodes_of self.new u) }
        ensures released { result.0 ≡ covered_children (state_of self.old) t.slot n }
        ensures kept { result.1 ≡ held_children (state_of self.old) t.slot n - covered_children (state_of self.old) t.slot n }
        ensures told { result.2.items ≡ told (state_of self.old) (state_of self.new) }
    {
        let mut told = Told::new();
        let (released, kept) = self.shed_telling(t, n, &mut told);
        (released, kept, told)
    }
}

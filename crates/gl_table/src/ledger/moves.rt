//! After a move: the counts of held children, and the waits on the moved node.

ghost use Rattle.std.specs.Prelude.{◌≡◌, ◌<◌, ◌≤◌, ◌+◌, ◌^◌, [], ℕ, not, true};
ghost use Rattle.std.specs.List.{count_by, filter};
ghost use Rattle.gl_modes.specs.declared.mode.Mode.TheVariants.{NL};
ghost use Rattle.gl_modes.specs.declared.node.NodeId.{NodeId as Node};
ghost use Rattle.gl_modes.specs.Nodes.{same_node};
ghost use Rattle.gl_graph.specs.Graph.{parents_of};
ghost use Rattle.gl_graph.specs.View.{graph_of};
ghost use Rattle.gl_header.specs.Header.{front, is_among_waiters, without_waiter};
ghost use Rattle.gl_header.specs.State.{slot_limit};
ghost use Rattle.gl_slots.specs.Slots.{has_slot};
ghost use Rattle.gl_model.specs.Calls.{stays};
ghost use Rattle.gl_header.specs.Headers.{members_at, queue_of};
ghost use Rattle.gl_model.specs.State.{intends_over};
ghost use Rattle.indexmap.specs.IndexMap.{keys, spare};
ghost use Rattle.gl_modes.specs.Modes.{same_mode};
ghost use Rattle.gl_lock_lists.specs.Lists.{count_of, is_listed, mode_of, unlisted};
ghost use Rattle.gl_table.specs.inside.Ledger.{state_in};
ghost use Rattle.gl_table.specs.inside.Steps.{AreAgreed, AreShutOut, CanEndAt, CanRecount, CanTellWaiters, HasMoved, IsTurnedAway, Recounts, adds_to};
ghost use Rattle.gl_table.specs.inside.Slots.{ListsLose, books_of, counted_by, room_by};

use crate::ledger::Ledger;
use crate::ledger::leave::end_wait;
use crate::rule::check_rule;
use arrayvec::ArrayVec;
use gl_graph::Graph;
use gl_lock_lists::LockList;
use gl_model::{Notice, Told};
use gl_modes::{Mode, NodeId};
use gl_slots::{Slot, Slots};

/// The parents of a node, at most 8, copied so that they outlive a change of the graph.
pub(crate) fn parents_before(graph: &Graph, node: NodeId) -> ArrayVec<NodeId, 8>
    ensures { result.items ≡ parents_of (graph_of graph.now) node }
{
    graph.law();
    let mut parents = ArrayVec::new();
    for parent in graph.parents(node) {
        parents.push(*parent);
    }
    parents
}

/// Whether the rule of the graph permits the owner of a list this mode on a node with these
/// parents.
fn is_allowed(list: &LockList, parents: &[NodeId], mode: Mode) -> bool
    ensures { result ≡ intends_over (mode_of list.now) parents.now mode }
{
    check_rule(list, parents, mode).is_ok()
}

/// If the node is held, counts one held child less of each old parent, and one more of each new
/// one, which the list has.
fn recount(list: &mut LockList, node: NodeId, old: &[NodeId], new: &[NodeId])
    requires counted { not (same_mode (mode_of list.old node) NL) ≡ true → (q : Node) → count_by (same_node q) old.now ≤ count_of list.old q }
    requires listed { unlisted list.old new.now ≡ 0 }
    requires few { (q : Node) → count_of list.old q + count_by (same_node q) new.now < 2 ^ 32 }
    ensures listed { (q : Node) → is_listed list.new q ≡ is_listed list.old q }
    ensures modes { (q : Node) → mode_of list.new q ≡ mode_of list.old q }
    ensures counts { (q : Node) → count_of list.new q + adds_to (not (same_mode (mode_of list.old node) NL)) old.now q
        ≡ count_of list.old q + adds_to (not (same_mode (mode_of list.old node) NL)) new.now q }
    ensures room { spare list.old.loose ≤ spare list.new.loose }
    ensures keys { keys list.new.entries ≡ keys list.old.entries }
{
    if list.holds(node) {
        list.count_down(old);
        list.count_up(new);
    }
}

impl Ledger {
    /// A node has moved. If the slot that moved it holds it, one held child less is counted of each
    /// old parent, and one more of each new one. Waits on the node that fail the rule of the graph
    /// over its new parents end. Puts the notices of these into an empty list, by rising slot.
    ///
    /// Linear in the parents and the waiters. Allocates no memory.
    pub(crate) fn follow(
        &mut self,
        graph: &Graph,
        slot: Slot,
        node: NodeId,
        told: &mut Told,
        old: &[NodeId],
    )
        requires empty { told.old.items ≡ [] }
        requires agreed { AreAgreed graph.now self.old }
        requires shut_out { AreShutOut (state_in graph.now self.old) node }
        requires recount { CanRecount (state_in graph.now self.old) self.old.lists.items slot node old.now (parents_of (graph_of graph.now) node) }
        ensures moved { HasMoved graph.now node self.old self.new [] told.new.items }
        ensures counts { Recounts (state_in graph.now self.old) self.old.lists.items slot node old.now (parents_of (graph_of graph.now) node)
            self.new.lists.items }
        ensures orders { ListsLose self.old.lists.items self.new.lists.items }
    {
        let list = &mut self.lists[slot as usize];
        recount(list, node, old, graph.parents(node));
        self.turn_away(graph, node, told);
    }

    /// Ends the waits on a node that fail the rule of the graph: their transactions are active, and
    /// told that the node moved. The others keep their order. No waiter fits, so nobody is granted.
    fn turn_away(&mut self, graph: &Graph, node: NodeId, told: &mut Told)
        requires agreed { AreAgreed graph.now self.old }
        requires shut_out { AreShutOut (state_in graph.now self.old) node }
        requires tell { CanTellWaiters (state_in graph.now self.old) node told.old.items }
        ensures moved { HasMoved graph.now node self.old self.new told.old.items told.new.items }
        ensures counts { (u : ℕ) (q : Node) → counted_by self.new.lists.items u q ≡ counted_by self.old.lists.items u q }
        ensures orders { ListsLose self.old.lists.items self.new.lists.items }
    {
        let mut strays = self.strays(graph, node);
        while let Some(slot) = strays.take_lowest() {
            self.turn_one_away(slot, node, told);
        }
    }

    /// The slots that wait on a node for a mode that fails the rule of the graph.
    fn strays(&self, graph: &Graph, node: NodeId) -> Slots
        requires agreed { AreAgreed graph.now self.now }
        ensures { (u : ℕ) → has_slot result u ≡ is_among_waiters u
            (filter (λ w. not (stays (state_in graph.now self.now) (parents_of (graph_of graph.now) node) w)) (queue_of self.now.headers.entries node)) }
    {
        let mut strays = Slots::empty();
        for &(slot, wanted) in self.headers.queue(node) {
            let list = &self.lists[slot as usize];
            if !is_allowed(list, graph.parents(node), wanted) {
                strays.insert(slot);
            }
        }
        strays
    }

    /// Ends a wait of a slot that does not hold the node, if none of the remaining waiters can be
    /// granted from the front. The slot is active, and told that the node moved.
    pub(crate) fn turn_one_away(&mut self, slot: Slot, node: NodeId, told: &mut Told)
        requires can { CanEndAt (books_of self.old.txn_entries self.old.lists.items told.old.items) slot }
        requires waits { is_among_waiters slot (queue_of self.old.headers.entries node) ≡ true }
        requires front_waits { front slot_limit (members_at self.old.headers.entries node) (without_waiter slot (queue_of self.old.headers.entries node)) ≡ [] }
        requires room { 9 ≤ room_by self.old.lists.items slot }
        ensures ended { IsTurnedAway slot node self.old self.new told.old.items told.new.items }
    {
        self.headers.dismiss(slot, node);
        end_wait(
            &mut self.txn_entries,
            &mut self.lists,
            told,
            slot,
            node,
            Notice::Moved,
        );
    }
}

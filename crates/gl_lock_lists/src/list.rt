//! The list of one transaction: the nodes that it holds or waits for.

ghost use Rattle.std.specs.Prelude.{◌≡◌, ℕ, ◌+◌, ◌<◌, ◌≤◌, ◌^◌, ◌&&◌, ◌||◌, ◌++◌, ◌==◌, ◌∷◌, [], not, true, false, length, OnOk, IfSome, IfNone, if◌then◌else◌};
ghost use Rattle.std.specs.List.{count_by, list_all, list_any};
ghost use Rattle.indexmap.specs.IndexMap.{spare};
ghost use Rattle.std.specs.Prelude.{None, Some, cond, nat_lt, slice_get, unwrap_or};
ghost use Rattle.std.specs.List.{find};
ghost use Rattle.std.specs.Option.{option_map, option_map_or};
ghost use Rattle.gl_modes.specs.declared.mode.Mode.TheVariants.{IX, NL, X};
ghost use Rattle.gl_graph.specs.Graph.{is_child, is_live, nodes, parents_of};
ghost use Rattle.gl_graph.specs.View.{graph_of};
ghost use Rattle.gl_modes.specs.declared.node.NodeId.{NodeId as Node};
ghost use Rattle.gl_lock_lists.specs.Apart.{IsApart, IsApart-prop};
ghost use Rattle.indexmap.specs.IndexMap.{Updates, keys, swap_remove_entry};
ghost use Rattle.std.specs.Map.{keys_of, lookup};
ghost use Rattle.gl_modes.specs.Modes.{is_at_least, same_mode};
ghost use Rattle.gl_modes.specs.Nodes.{same_node};

use crate::node_map::NodeMap;
use gl_graph::Graph;
use gl_modes::{MOST_PARENTS, Mode, NodeId, covers};
use indexmap::IndexMap;
use std::alloc::{AllocError, Global};

/// The entry of a node that the transaction holds or waits for.
#[derive(Clone, Copy)]
pub struct Entry {
    /// The mode in which the node is held: `NL` if it is only waited for.
    pub mode: Mode,
    /// How many of the node's children the transaction holds.
    pub children: u32,
}

/// The nodes that one transaction holds or waits for, each once, with the number of its held children.
///
/// A reader needs only one parent, so a node that is not listed may have held children. Such a node is
/// counted separately, and is listed with its count when it is requested.
#[derive(Drop)]
pub struct LockList {
    entries: NodeMap<Entry>,
    loose: IndexMap<NodeId, u32>,
    pub ghost apart: { IsApart entries.entries loose.entries } by { IsApart-prop entries.entries loose.entries },
}

/// Removes and returns the separate count of a node. Most lists have no separate counts, and are not
/// searched.
#[inline]
fn take_loose(loose: &mut IndexMap<NodeId, u32>, n: NodeId) -> u32
    ensures value { result ≡ unwrap_or (lookup (same_node n) loose.old.entries) 0 }
    ensures taken { (q : Node) → lookup (same_node q) loose.new.entries ≡ cond (same_node n q) None (lookup (same_node q) loose.old.entries) }
    ensures room { spare loose.old ≤ spare loose.new }
{
    if loose.is_empty() {
        return 0;
    }
    take_counted(loose, n)
}

/// As `take_loose`, if there are separate counts.
#[inline(never)]
fn take_counted(loose: &mut IndexMap<NodeId, u32>, n: NodeId) -> u32
    ensures value { result ≡ unwrap_or (lookup (same_node n) loose.old.entries) 0 }
    ensures taken { (q : Node) → lookup (same_node q) loose.new.entries ≡ cond (same_node n q) None (lookup (same_node q) loose.old.entries) }
    ensures room { spare loose.old ≤ spare loose.new }
{
    loose.swap_remove(&n).unwrap_or(0)
}

/// Adds so many to the separate count of a node.
#[inline(never)]
fn count_loose_more(loose: &mut IndexMap<NodeId, u32>, n: NodeId, more: u32)
    requires room { 0 < spare loose.old }
    requires few { unwrap_or (lookup (same_node n) loose.old.entries) 0 + more < 2 ^ 32 }
    ensures updates { Updates same_node loose.old loose.new n (Some (unwrap_or (lookup (same_node n) loose.old.entries) 0 + more)) }
    ensures room { spare loose.old ≤ spare loose.new + 1 }
{
    let children = loose.get(&n).copied().unwrap_or(0);
    loose.insert(n, children + more).unwrap();
}

impl LockList {
    ghost use Rattle.gl_lock_lists.specs.Lists.{AreMarkedLast, CountsOver, HasRoom, IsTakenOut, NoneMarkedFrom, held_below};
    ghost use Rattle.gl_lock_lists.specs.Lists.{covered_in, count_of, entry_of, is_listed, mode_of, unlisted};

    /// An empty list. Allocates no memory.
    pub fn new(alloc: Global) -> Self
        ensures listed { (n : Node) → is_listed result n ≡ false }
        ensures counts { (n : Node) → count_of result n ≡ 0 }
        ensures keys { keys result.entries ≡ [] }
    {
        LockList {
            entries: NodeMap::new(alloc),
            loose: IndexMap::new(alloc),
        }
    }

    /// The node's entry, if it is listed.
    pub fn entry(&self, n: NodeId) -> Option<Entry>
        ensures { result ≡ entry_of self.now n }
    {
        self.entries.get(n).copied()
    }

    /// The node at a place, with its entry.
    pub fn at(&self, place: usize) -> Option<(NodeId, Entry)>
        ensures { result ≡ slice_get self.now.entries.entries place }
    {
        let (node, entry) = self.entries.get_index(place)?;
        Some((*node, *entry))
    }

    /// The mode in which the node is held; `NL` for none.
    #[inline]
    pub fn mode(&self, n: NodeId) -> Mode
        ensures { result ≡ mode_of self.now n }
    {
        match self.entries.get(n) {
            Some(entry) => entry.mode,
            None => Mode::NL,
        }
    }

    /// Whether the node is held.
    pub fn holds(&self, n: NodeId) -> bool
        ensures { result ≡ not (same_mode (mode_of self.now n) NL) }
    {
        !matches!(self.mode(n), Mode::NL)
    }

    /// Makes room for one more node and for the counts of its parents.
    #[inline]
    pub fn make_room(&mut self) -> Result<(), AllocError>
        ensures entries { self.new.entries.entries ≡ self.old.entries.entries }
        ensures loose { self.new.loose.entries ≡ self.old.loose.entries }
        ensures ok { OnOk result (HasRoom self.new) }
        ensures kept { spare self.old.loose ≤ spare self.new.loose }
    {
        self.entries.reserve_one()?;
        self.loose.reserve(MOST_PARENTS + 1)
    }

    /// Lists a node last, with the count of its held children.
    #[inline(always)]
    pub fn enter(&mut self, n: NodeId, mode: Mode)
        requires new { is_listed self.old n ≡ false }
        requires room { 0 < spare self.old.entries }
        ensures listed { (q : Node) → is_listed self.new q ≡ (same_node q n || is_listed self.old q) }
        ensures modes { (q : Node) → mode_of self.new q ≡ (if same_node q n then mode else mode_of self.old q) }
        ensures counts { (q : Node) → count_of self.new q ≡ count_of self.old q }
        ensures room { spare self.old.loose ≤ spare self.new.loose }
        ensures keys { keys self.new.entries ≡ keys self.old.entries ++ n ∷ [] }
    {
        let children = take_loose(&mut self.loose, n);
        self.entries.insert_new(n, Entry { mode, children });
    }

    /// Sets the mode in which a listed node is held.
    pub fn set_mode(&mut self, n: NodeId, mode: Mode)
        requires { is_listed self.old n ≡ true }
        ensures listed { (q : Node) → is_listed self.new q ≡ is_listed self.old q }
        ensures modes { (q : Node) → mode_of self.new q ≡ (if same_node q n then mode else mode_of self.old q) }
        ensures counts { (q : Node) → count_of self.new q ≡ count_of self.old q }
        ensures loose { self.new.loose ≡ self.old.loose }
        ensures keys { keys self.new.entries ≡ keys self.old.entries }
    {
        if let Some(entry) = self.entries.get_mut(n) {
            entry.mode = mode;
        }
    }

    /// Removes a node. Its held children are still counted.
    pub fn leave(&mut self, n: NodeId)
        requires room { 0 < count_of self.old n → 0 < spare self.old.loose }
        ensures listed { (q : Node) → is_listed self.new q ≡ (is_listed self.old q && not (same_node q n)) }
        ensures modes { (q : Node) → mode_of self.new q ≡ (if same_node q n then NL else mode_of self.old q) }
        ensures counts { (q : Node) → count_of self.new q ≡ count_of self.old q }
        ensures keys { keys self.new.entries ≡ keys_of (swap_remove_entry (same_node n) self.old.entries.entries) }
    {
        if let Some(entry) = self.entries.swap_remove(n) {
            if entry.children > 0 {
                self.loose.insert(n, entry.children).unwrap();
            }
        }
    }

    /// Counts one more held child for each of these nodes.
    #[inline(always)]
    pub fn count_up(&mut self, parents: &[NodeId])
        requires room { unlisted self.old parents.now ≤ spare self.old.loose }
        requires few { (q : Node) → list_any (same_node q) parents.now ≡ true → count_of self.old q + count_by (same_node q) parents.now < 2 ^ 32 }
        ensures listed { (q : Node) → is_listed self.new q ≡ is_listed self.old q }
        ensures modes { (q : Node) → mode_of self.new q ≡ mode_of self.old q }
        ensures counts { (q : Node) → count_of self.new q ≡ count_of self.old q + count_by (same_node q) parents.now }
        ensures room { spare self.old.loose ≤ spare self.new.loose + unlisted self.old parents.now }
        ensures keys { keys self.new.entries ≡ keys self.old.entries }
    {
        for parent in parents {
            self.count_more(*parent, 1);
        }
    }

    /// Counts so many more held children for a node.
    #[inline]
    fn count_more(&mut self, n: NodeId, more: u32)
        requires room { is_listed self.old n ≡ false → 0 < spare self.old.loose }
        requires few { count_of self.old n + more < 2 ^ 32 }
        ensures listed { (q : Node) → is_listed self.new q ≡ is_listed self.old q }
        ensures modes { (q : Node) → mode_of self.new q ≡ mode_of self.old q }
        ensures counts { (q : Node) → count_of self.new q ≡ count_of self.old q + (if same_node q n then more else 0) }
        ensures room { spare self.old.loose ≤ spare self.new.loose + (if is_listed self.old n then 0 else 1) }
        ensures entries_room { spare self.old.entries ≤ spare self.new.entries }
        ensures keys { keys self.new.entries ≡ keys self.old.entries }
    {
        if let Some(entry) = self.entries.get_mut(n) {
            entry.children += more;
        } else {
            count_loose_more(&mut self.loose, n, more);
        }
    }

    /// Counts one held child less for each of these nodes.
    pub fn count_down(&mut self, parents: &[NodeId])
        requires some { (q : Node) → count_by (same_node q) parents.now ≤ count_of self.old q }
        ensures listed { (q : Node) → is_listed self.new q ≡ is_listed self.old q }
        ensures modes { (q : Node) → mode_of self.new q ≡ mode_of self.old q }
        ensures counts { (q : Node) → count_of self.new q + count_by (same_node q) parents.now ≡ count_of self.old q }
        ensures room { spare self.old.loose ≤ spare self.new.loose }
        ensures keys { keys self.new.entries ≡ keys self.old.entries }
    {
        for parent in parents {
            self.count_less(*parent, 1);
        }
    }

    /// Counts so many held children less for a node. A separate count is removed at 0.
    fn count_less(&mut self, n: NodeId, less: u32)
        requires some { less ≤ count_of self.old n }
        ensures listed { (q : Node) → is_listed self.new q ≡ is_listed self.old q }
        ensures modes { (q : Node) → mode_of self.new q ≡ mode_of self.old q }
        ensures counts { (q : Node) → count_of self.new q + (if same_node q n then less else 0) ≡ count_of self.old q }
        ensures room { spare self.old.loose ≤ spare self.new.loose }
        ensures entries_room { spare self.old.entries ≤ spare self.new.entries }
        ensures keys { keys self.new.entries ≡ keys self.old.entries }
    {
        if let Some(entry) = self.entries.get_mut(n) {
            entry.children -= less;
        } else if let Some(children) = self.loose.get_mut(&n) {
            *children -= less;
            if *children == 0 {
                self.loose.swap_remove(&n);
            }
        }
    }

    /// How many children of a node are held, as the list counts them.
    fn counted(&self, n: NodeId) -> u32
        ensures { result ≡ count_of self.now n }
    {
        match self.entries.get(n) {
            Some(entry) => entry.children,
            None => self.loose.get(&n).copied().unwrap_or(0),
        }
    }

    /// If children of a node are counted, makes room to count some of them for another node, besides
    /// the room that `make_room` makes.
    pub fn make_room_beside(&mut self, n: NodeId) -> Result<(), AllocError>
        ensures entries { self.new.entries ≡ self.old.entries }
        ensures loose { self.new.loose.entries ≡ self.old.loose.entries }
        ensures ok { OnOk result (0 < count_of self.old n → 10 ≤ spare self.new.loose) }
        ensures kept { spare self.old.loose ≤ spare self.new.loose }
    {
        if self.counted(n) == 0 {
            return Ok(());
        }
        self.loose.reserve(MOST_PARENTS + 2)
    }

    /// Counts so many held children less for one node, and as many more for another.
    fn count_over(&mut self, from: NodeId, to: NodeId, children: u32)
        requires some { children ≤ count_of self.old from }
        requires few { count_of self.old to + children < 2 ^ 32 }
        requires room { 0 < children → 0 < spare self.old.loose }
        ensures listed { (q : Node) → is_listed self.new q ≡ is_listed self.old q }
        ensures modes { (q : Node) → mode_of self.new q ≡ mode_of self.old q }
        ensures counts { (q : Node) → count_of self.new q + (if same_node q from then children else 0)
            ≡ count_of self.old q + (if same_node q to then children else 0) }
        ensures room { spare self.old.loose ≤ spare self.new.loose + (if children == 0 then 0 else 1) }
        ensures entries_room { spare self.old.entries ≤ spare self.new.entries }
        ensures keys { keys self.new.entries ≡ keys self.old.entries }
    {
        if children > 0 {
            self.count_less(from, children);
            self.count_more(to, children);
        }
    }

    /// The held children of a node that now are children of another one are counted there: the
    /// graph has already changed, and no child of the other node was counted.
    ///
    /// Scans the whole list, unless no child of the node was counted.
    pub fn part(&mut self, graph: &Graph, from: NodeId, to: NodeId)
        requires live { (c : Node) → not (same_mode (mode_of self.old c) NL) ≡ true → is_live (graph_of graph.now) c ≡ true }
        requires some { held_below (graph_of graph.now) self.old to ≤ count_of self.old from }
        requires none { count_of self.old to ≡ 0 }
        requires room { 0 < count_of self.old from → 0 < spare self.old.loose }
        ensures listed { (q : Node) → is_listed self.new q ≡ is_listed self.old q }
        ensures modes { (q : Node) → mode_of self.new q ≡ mode_of self.old q }
        ensures counts { CountsOver self.old from to (held_below (graph_of graph.now) self.old to) self.new }
        ensures room { spare self.old.loose ≤ spare self.new.loose + (if count_of self.old from == 0 then 0 else 1) }
        ensures entries_room { spare self.old.entries ≤ spare self.new.entries }
        ensures keys { keys self.new.entries ≡ keys self.old.entries }
    {
        if self.counted(from) > 0 {
            let children = self.held_below(graph, to);
            self.count_over(from, to, children as u32);
        }
    }

    /// The held children of a node are counted for another one, of which they become children.
    pub fn join_counts(&mut self, from: NodeId, to: NodeId)
        requires few { count_of self.old to + count_of self.old from < 2 ^ 32 }
        requires room { 0 < count_of self.old from → 0 < spare self.old.loose }
        ensures listed { (q : Node) → is_listed self.new q ≡ is_listed self.old q }
        ensures modes { (q : Node) → mode_of self.new q ≡ mode_of self.old q }
        ensures counts { CountsOver self.old from to (count_of self.old from) self.new }
        ensures room { spare self.old.loose ≤ spare self.new.loose + (if count_of self.old from == 0 then 0 else 1) }
        ensures entries_room { spare self.old.entries ≤ spare self.new.entries }
        ensures keys { keys self.new.entries ≡ keys self.old.entries }
    {
        let children = self.counted(from);
        self.count_over(from, to, children);
    }

    /// How many children of a node are held. Scans the whole list.
    fn held_below(&self, graph: &Graph, node: NodeId) -> usize
        requires live { (c : Node) → not (same_mode (mode_of self.now c) NL) ≡ true → is_live (graph_of graph.now) c ≡ true }
        ensures { result ≡ held_below (graph_of graph.now) self.now node }
    {
        graph.law();
        let mut children = 0;
        for place in 0..self.entries.len() {
            if self.is_held_below(graph, node, self.entries.node_at(place)) {
                children += 1;
            }
        }
        children
    }

    /// Whether this is a child of the node and held.
    fn is_held_below(&self, graph: &Graph, node: NodeId, child: NodeId) -> bool
        ensures { result ≡ (is_child (graph_of graph.now) node child && not (same_mode (mode_of self.now child) NL)) }
    {
        is_child(graph, node, child) && self.holds(child)
    }

    /// Removes everything, and keeps the room.
    pub fn clear(&mut self)
        ensures listed { (n : Node) → is_listed self.new n ≡ false }
        ensures counts { (n : Node) → count_of self.new n ≡ 0 }
        ensures entries_room { spare self.old.entries ≤ spare self.new.entries }
        ensures loose_room { spare self.old.loose ≤ spare self.new.loose }
        ensures keys { keys self.new.entries ≡ [] }
    {
        self.entries.clear();
        if self.loose.is_empty() {
            return;
        }
        self.loose.clear();
    }

    /// The held child of a node that was born first.
    ///
    /// Scans the whole list: it only names the child that prevents a release.
    pub fn first_child(&self, graph: &Graph, node: NodeId) -> Option<NodeId>
        requires live { (c : Node) → not (same_mode (mode_of self.now c) NL) ≡ true → is_live (graph_of graph.now) c ≡ true }
        ensures { result ≡ find (λ c. is_child (graph_of graph.now) node c && not (same_mode (mode_of self.now c) NL)) (nodes (graph_of graph.now)) }
    {
        graph.law();
        let mut first: Option<NodeId> = None;
        for place in 0..self.entries.len() {
            first = self.earlier_child(graph, node, self.entries.node_at(place), first);
        }
        first
    }

    /// The node, if it is a held child and was born before the one found so far; else that one.
    fn earlier_child(
        &self,
        graph: &Graph,
        node: NodeId,
        child: NodeId,
        found: Option<NodeId>,
    ) -> Option<NodeId>
        ensures { result ≡
            (if (is_child (graph_of graph.now) node child && not (same_mode (mode_of self.now child) NL))
            && option_map_or (λ other. nat_lt child.birth other.birth) found true then Some child else found) }
    {
        if is_child(graph, node, child) && self.holds(child) && is_born_before(child, found) {
            Some(child)
        } else {
            found
        }
    }

    /// Whether some child of a node is held in `IX`, `SIX` or `X`.
    ///
    /// Scans the whole list.
    pub fn writes_below(&self, graph: &Graph, node: NodeId) -> bool
        requires live { (c : Node) → not (same_mode (mode_of self.now c) NL) ≡ true → is_live (graph_of graph.now) c ≡ true }
        ensures { result ≡ list_any (λ c. is_child (graph_of graph.now) node c && is_at_least (mode_of self.now c) IX) (nodes (graph_of graph.now)) }
    {
        graph.law();
        for place in 0..self.entries.len() {
            if self.is_written_below(graph, node, self.entries.node_at(place)) {
                return true;
            }
        }
        false
    }

    /// Whether this is a child of the node and held in `IX`, `SIX` or `X`.
    fn is_written_below(&self, graph: &Graph, node: NodeId, child: NodeId) -> bool
        ensures { result ≡ (is_child (graph_of graph.now) node child && is_at_least (mode_of self.now child) IX) }
    {
        is_child(graph, node, child) && covers(self.mode(child), Mode::IX)
    }

    /// How many nodes are listed.
    pub fn len(&self) -> usize
        ensures { result ≡ length (keys self.now.entries) }
    {
        self.entries.len()
    }

    /// Marks the covered children of a node with the mode `NL`.
    pub fn mark_covered(&mut self, graph: &Graph, node: NodeId)
        requires counted { (c p : Node) → not (same_mode (mode_of self.old c) NL) ≡ true
            → list_any (same_node p) (parents_of (graph_of graph.now) c) ≡ true → 0 < count_of self.old p }
        ensures listed { (q : Node) → is_listed self.new q ≡ is_listed self.old q }
        ensures modes { (q : Node) → mode_of self.new q ≡ (if covered_in (graph_of graph.now) self.old node q then NL else mode_of self.old q) }
        ensures counts { (q : Node) → count_of self.new q ≡ count_of self.old q }
        ensures keys { keys self.new.entries ≡ keys self.old.entries }
    {
        for at in 0..self.entries.len() {
            self.mark_one(graph, node, at);
        }
    }

    /// Marks the node at a place if it is a covered child.
    fn mark_one(&mut self, graph: &Graph, node: NodeId, at: usize)
        requires within { at < length (keys self.old.entries) }
        ensures marks { (n : Node) → slice_get (keys self.old.entries) at ≡ Some n → (q : Node)
            → mode_of self.new q ≡ (if same_node q n && covered_in (graph_of graph.now) self.old node n then NL else mode_of self.old q) }
        ensures listed { (q : Node) → is_listed self.new q ≡ is_listed self.old q }
        ensures counts { (q : Node) → count_of self.new q ≡ count_of self.old q }
        ensures keys { keys self.new.entries ≡ keys self.old.entries }
    {
        if let Some((child, entry)) = self.entries.get_index(at) {
            let (child, entry) = (*child, *entry);
            if self.covers(graph, node, child, entry) {
                self.set_mode(child, Mode::NL);
            }
        }
    }

    /// Whether the node with this entry is a child that the lock on `node` covers.
    fn covers(&self, graph: &Graph, node: NodeId, child: NodeId, entry: Entry) -> bool
        requires said { entry_of self.now child ≡ Some entry }
        ensures { result ≡ covered_in (graph_of graph.now) self.now node child }
    {
        is_held(entry)
            && entry.children == 0
            && is_child(graph, node, child)
            && (entry.mode != Mode::X || self.all_exclusive(graph.parents(child)))
    }

    /// Whether all of these are held in `X`.
    fn all_exclusive(&self, parents: &[NodeId]) -> bool
        ensures { result ≡ list_all (λ p. same_mode (mode_of self.now p) X) parents.now }
    {
        parents.iter().all(|parent| self.mode(*parent) == Mode::X)
    }

    /// Removes the node at a place if it is marked, and counts one held child less for each of its
    /// parents. No node after that place may be marked.
    pub fn take_marked(&mut self, graph: &Graph, at: usize) -> Option<NodeId>
        requires within { at < length (keys self.old.entries) }
        requires marked { AreMarkedLast (graph_of graph.now) self.old }
        requires passed { NoneMarkedFrom self.old (at + 1) }
        ensures passed { NoneMarkedFrom self.new at }
        ensures len { at ≤ length (keys self.new.entries) }
        ensures none { IfNone result (self.new ≡ self.old) }
        ensures taken { IfSome result (λ n. IsTakenOut (graph_of graph.now) self.old n self.new) }
    {
        let row = self.entries.get_index(at)?;
        let node = *row.0;
        if is_held(*row.1) {
            return None;
        }
        self.leave(node);
        self.count_down(graph.parents(node));
        Some(node)
    }
}

/// Whether the node with this entry is held.
fn is_held(entry: Entry) -> bool
    ensures { result ≡ not (same_mode entry.mode NL) }
{
    !matches!(entry.mode, Mode::NL)
}

/// Whether `node` is a parent of `child`.
fn is_child(graph: &Graph, node: NodeId, child: NodeId) -> bool
    ensures { result ≡ is_child (graph_of graph.now) node child }
{
    graph.parents(child).iter().any(|parent| node == *parent)
}

/// Whether a node was born before the other one, if there is one.
fn is_born_before(n: NodeId, other: Option<NodeId>) -> bool
    ensures { result ≡ option_map_or (λ o. nat_lt n.birth o.birth) other true }
{
    match other {
        Some(other) => n.birth < other.birth,
        None => true,
    }
}

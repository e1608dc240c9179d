//! Which nodes a path in a part passes, and where it lacks in the main manager what it needs there.

ghost use Rattle.std.specs.Option.{option_map};
ghost use Rattle.std.specs.Prelude.{◌≡◌, ◌↔◌, ◌&&◌, IfOk, IfSome, IsTrue, map, true};
ghost use Rattle.std.specs.List.{list_all, list_any};
ghost use Rattle.gl_modes.specs.Nodes.{same_node};
ghost use Rattle.gl_graph.specs.Seen.{with_all};
ghost use Rattle.gl_graph.specs.View.{graph_of};
ghost use Rattle.gl_catalog.specs.Manager.{state_of};
ghost use Rattle.gl_catalog.specs.Paths.{intention};
ghost use Rattle.gl_parts.specs.Passing.{IsFirst, Lacks, MayClear, Passes, after_index, asked_above, can_have, held_if_known, is_held_at, is_mode_of};
ghost use Rattle.gl_parts.specs.Passing.{is_unheld_at, starts, writes_record_of};

use crate::visits::is_clear;
use arrayvec::ArrayVec;
use gl_catalog::Manager;
use gl_graph::{Graph, Kind, add_missing};
use gl_modes::{Mode, NodeId, covers};
use gl_slots::Slot;
use indexmap::IndexSet;
use std::alloc::{AllocError, Global};

/// As many nodes above as are found without memory.
const MOST_FEW: usize = 32;

/// Nodes above.
type Few = ArrayVec<NodeId, MOST_FEW>;

/// What a path in a part leads to: a node, or a row of a file, in a mode.
#[derive(Clone, Copy, PartialEq, Eq, Debug)]
pub struct Target {
    pub node: NodeId,
    pub is_row: bool,
    pub mode: Mode,
}

/// A node for which a part is marked, by its names in both managers.
#[derive(Clone, Copy, PartialEq, Eq, Debug)]
pub struct Mark {
    pub in_main: NodeId,
    pub in_part: NodeId,
}

/// What becomes of a wait in a part after an index of a file was made there.
#[derive(Clone, Copy, PartialEq, Eq, Debug)]
pub enum AfterIndex {
    /// Its path passes what it passed before.
    WaitsOn,
    /// Its path passes more, and must begin anew.
    BeginsAnew,
    /// It waits for a row of the file, and has no key for the index.
    LacksKey,
}

/// What has the names of a mark.
pub trait Marked: Copy {
    ghost use Rattle.gl_parts.specs.declared.passing.Mark.{Mark};

    /// The names.
    ghost names: { Self → Mark };

    /// The names of this mark.
    fn names(&self) -> Mark
        ensures { result ≡ names self.now };
}

/// The first of the marks of a part that a transaction lacks for its target: a path to that passes the
/// node, and the transaction holds the intention there neither in the part nor in the main manager, if
/// that is looked at. `None` if it lacks none; then each request of such a path may be made in the part.
/// Unless it holds all of them, the nodes above the target are looked at once each, which takes memory
/// if there are more than 32.
#[tactic(auto, using(crate::proofs::Ways::held_lack_none))]
pub fn first_lack<M: Marked>(
    alloc: Global,
    main: Option<&Manager>,
    part: &Manager,
    slot: Slot,
    target: Target,
    marks: &[M],
) -> Result<Option<Mark>, AllocError>
    ensures { IfOk result (λ found.
        IsFirst (Lacks (option_map (λ m. state_of m.now) main.entry) (state_of part.now) slot target) (map M.names marks.now) found) }
{
    part.law();
    let intention = intention(target.mode);
    if are_held(main, part, slot, intention, marks) {
        return Ok(None);
    }
    if let Some(few) = few_passed(part.graph(), target) {
        return Ok(first_unheld(main, part, slot, intention, few.as_slice(), marks));
    }
    let passed = passed(alloc, part.graph(), target)?;
    Ok(first_unheld(main, part, slot, intention, passed.as_slice(), marks))
}

/// The first of the marks whose node is among these, and not held in a mode.
fn first_unheld<M: Marked>(
    main: Option<&Manager>,
    part: &Manager,
    slot: Slot,
    mode: Mode,
    passed: &[NodeId],
    marks: &[M],
) -> Option<Mark>
    ensures { IsFirst (λ mark. is_unheld_at (option_map (λ m. state_of m.now) main.entry) (state_of part.now) slot mode passed.now mark ≡ true)
        (map M.names marks.now) result }
{
    'marks: for mark in marks {
        let mark = mark.names();
        if is_unheld(main, part, slot, mode, passed, mark) {
            return Some(mark);
        }
    }
    None
}

/// Whether the node of a mark is among these, and not held in a mode.
fn is_unheld(
    main: Option<&Manager>,
    part: &Manager,
    slot: Slot,
    mode: Mode,
    passed: &[NodeId],
    mark: Mark,
) -> bool
    ensures { result ≡ is_unheld_at (option_map (λ m. state_of m.now) main.entry) (state_of part.now) slot mode passed.now mark }
{
    is_among(passed, mark.in_part) && !is_held(main, part, slot, mode, mark)
}

/// Whether a node is one of these.
fn is_among(nodes: &[NodeId], node: NodeId) -> bool
    ensures { result ≡ list_any (same_node node) nodes.now }
{
    nodes.iter().any(|one| node == *one)
}

/// Whether a slot holds a mode or a greater one on the node of each mark, in the part or in the main manager.
fn are_held<M: Marked>(
    main: Option<&Manager>,
    part: &Manager,
    slot: Slot,
    mode: Mode,
    marks: &[M],
) -> bool
    ensures { result ≡ list_all (is_held_at (option_map (λ m. state_of m.now) main.entry) (state_of part.now) slot mode) (map M.names marks.now) }
{
    'marks: for mark in marks {
        if !is_held(main, part, slot, mode, mark.names()) {
            return false;
        }
    }
    true
}

/// Whether a slot holds a mode or a greater one on the node of a mark, in the part or in the main manager.
fn is_held(main: Option<&Manager>, part: &Manager, slot: Slot, mode: Mode, mark: Mark) -> bool
    ensures { result ≡ is_held_at (option_map (λ m. state_of m.now) main.entry) (state_of part.now) slot mode mark }
{
    covers(part.mode_at(slot, mark.in_part), mode)
        || covers(mode_if_known(main, slot, mark.in_main), mode)
}

/// The mode in which a slot holds a node in a manager that may be unknown: then `NL`.
fn mode_if_known(manager: Option<&Manager>, slot: Slot, node: NodeId) -> Mode
    ensures { result ≡ held_if_known (option_map (λ m. state_of m.now) manager.entry) slot node }
{
    match manager {
        Some(manager) => manager.mode_at(slot, node),
        None => Mode::NL,
    }
}

/// The intention that a mode needs above.
pub fn intention(mode: Mode) -> Mode
    ensures { result ≡ intention mode }
{
    if covers(mode, Mode::IX) {
        Mode::IX
    } else {
        Mode::IS
    }
}

/// Whether the marks of all parts for a node may be cleared: if no request for more than an intention on
/// it is in progress, of so many, and it is clear. Such a request may wait for a node above it.
pub fn may_clear(main: &Manager, node: NodeId, in_progress: u64) -> bool
    ensures { IsTrue result ↔ MayClear (state_of main.now) node in_progress }
{
    in_progress == 0 && is_clear(main, node)
}

/// What becomes of a wait for this target after an index of this file was made in the part, which is asked
/// as it is then. A call that waits for a row of the file has brought keys, and lacks one for the index. A
/// path to write a record of the file passes the index too, and what is above it. Each other path passes what
/// it passed: one to read passes first parents alone, and a record is below the index by its last parent.
pub fn after_index(part: &Manager, target: Target, file: NodeId) -> AfterIndex
    ensures { result ≡ after_index (state_of part.now).graph target file }
{
    if target.is_row && target.node == file {
        AfterIndex::LacksKey
    } else if writes_record_of(part.graph(), target, file) {
        AfterIndex::BeginsAnew
    } else {
        AfterIndex::WaitsOn
    }
}

/// Whether a path to this target is one to write a record of this file, by its node.
fn writes_record_of(graph: &Graph, target: Target, file: NodeId) -> bool
    ensures { result ≡ writes_record_of (graph_of graph.now) file target }
{
    covers(target.mode, Mode::IX)
        && !target.is_row
        && graph.kind(target.node) == Some(Kind::Rec)
        && is_among(graph.parents(target.node), file)
}

/// Whether a path to this target passes a node: it is one where the path may request an intention, or where
/// it begins. A path that does not passes the same nodes after the node was moved to other parents. Takes
/// memory if such paths pass more than 32 nodes.
pub fn passes(
    alloc: Global,
    part: &Manager,
    target: Target,
    node: NodeId,
) -> Result<bool, AllocError>
    ensures { IfOk result (λ found. IsTrue found ↔ Passes (state_of part.now).graph target node) }
{
    if let Some(few) = few_passed(part.graph(), target) {
        return Ok(is_among(few.as_slice(), node));
    }
    let passed = passed(alloc, part.graph(), target)?;
    Ok(is_among(passed.as_slice(), node))
}

/// The nodes that a path to a target passes: where it may request an intention, and where it begins. A
/// path to write passes each node above its own, and a path to read the first parents. That of a row
/// begins at its file and, to write, at the indexes of that. What the part refuses passes nothing. The set
/// is also the queue of the search, so that each node is visited once.
fn passed(alloc: Global, graph: &Graph, target: Target) -> Result<IndexSet<NodeId>, AllocError>
    ensures { IfOk result (λ passed. (n : NodeId) → (list_any (same_node n) passed.keys ≡ true) ↔ Passes (graph_of graph.now) target n) }
{
    let writes = covers(target.mode, Mode::IX);
    let mut found = starts(alloc, graph, target)?;
    let mut at = 0;
    while let Some(&node) = found.as_slice().get(at) {
        add_missing(&mut found, asked_above(graph, node, writes))?;
        at += 1;
    }
    Ok(found)
}

/// The same without memory; `None` if there are too many.
fn few_passed(graph: &Graph, target: Target) -> Option<Few>
    ensures { IfSome result (λ few. (n : NodeId) → (list_any (same_node n) few.items ≡ true) ↔ Passes (graph_of graph.now) target n) }
{
    let writes = covers(target.mode, Mode::IX);
    let mut found = few_starts(graph, target)?;
    let mut at = 0;
    while let Some(&node) = found.as_slice().get(at) {
        if !add_few(&mut found, asked_above(graph, node, writes)) {
            return None;
        }
        at += 1;
    }
    Some(found)
}

/// Where a path to a target begins; `None` if there are too many.
#[tactic(auto, using(crate::proofs::Ways::with_all_among))]
fn few_starts(graph: &Graph, target: Target) -> Option<Few>
    ensures { IfSome result (λ few. (n : NodeId) → list_any (same_node n) few.items ≡ list_any (same_node n) (starts (graph_of graph.now) target)) }
{
    let mut found = Few::new();
    if !can_have(graph, target) {
        return Some(found);
    }
    found.push(target.node);
    if !target.is_row || !covers(target.mode, Mode::IX) {
        return Some(found);
    }
    if !add_few(&mut found, graph.indexes(target.node)) {
        return None;
    }
    Some(found)
}

/// Appends those of `more` that were not found yet; `false` if there is no room for them.
fn add_few(found: &mut Few, more: &[NodeId]) -> bool
    ensures { IsTrue result → found.new.items ≡ with_all found.old.items more.now }
{
    'more: for node in more {
        if is_among(found.as_slice(), *node) {
            continue;
        }
        if found.is_full() {
            return false;
        }
        found.push(*node);
    }
    true
}

/// Where a path to a target begins.
#[tactic(auto, using(crate::proofs::Ways::with_all_among))]
fn starts(alloc: Global, graph: &Graph, target: Target) -> Result<IndexSet<NodeId>, AllocError>
    ensures { IfOk result (λ found. (n : NodeId) → list_any (same_node n) found.keys ≡ list_any (same_node n) (starts (graph_of graph.now) target)) }
{
    let mut found = IndexSet::new(alloc);
    if !can_have(graph, target) {
        return Ok(found);
    }
    found.insert(target.node)?;
    if !target.is_row || !covers(target.mode, Mode::IX) {
        return Ok(found);
    }
    add_missing(&mut found, graph.indexes(target.node))?;
    Ok(found)
}

/// The parents on which a path requests an intention: to write all, to read the first.
fn asked_above(graph: &Graph, node: NodeId, writes: bool) -> &[NodeId]
    ensures { result.now ≡ asked_above writes (graph_of graph.now) node }
{
    let parents = graph.parents(node);
    if writes || parents.len() <= 1 {
        parents
    } else {
        &parents[..1]
    }
}

/// Whether the part may grant the mode on the target.
fn can_have(graph: &Graph, target: Target) -> bool
    ensures { result ≡ can_have (graph_of graph.now) target }
{
    let kind = graph.kind(target.node);
    if target.is_row {
        return kind == Some(Kind::File) && is_mode_of(true, target.mode);
    }
    is_mode_of(kind == Some(Kind::Rec), target.mode)
}

/// Whether a record can have this mode, or another node.
fn is_mode_of(is_record: bool, mode: Mode) -> bool
    ensures { result ≡ is_mode_of is_record mode }
{
    match mode {
        Mode::NL => false,
        Mode::S | Mode::X => true,
        _ => !is_record,
    }
}

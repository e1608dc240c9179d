//! Effective modes.

ghost use Rattle.std.specs.Prelude.{◌≡◌, IfOk, not, true};
ghost use Rattle.gl_modes.specs.declared.mode.Mode.TheVariants.{X};
ghost use Rattle.gl_modes.specs.Modes.{same_mode};
ghost use Rattle.gl_graph.specs.Graph.{is_live, node_count};
ghost use Rattle.gl_graph.specs.View.{graph_of};
ghost use Rattle.gl_model.specs.Lawful.{eff_s, eff_x, effect_on};
ghost use Rattle.gl_lock_lists.specs.Lists.{mode_of};

use gl_graph::{Graph, add_missing};
use gl_lock_lists::LockList;
use gl_model::Effect;
use gl_modes::{Mode, NodeId, covers};
use indexmap::IndexSet;
use std::alloc::{AllocError, Global};

/// What the transaction with this list may do to a node by all its locks together. Each node above
/// is looked at once at most for each of the two modes, however many paths lead up.
pub(crate) fn effective(
    alloc: Global,
    graph: &Graph,
    list: &LockList,
    n: NodeId,
) -> Result<Effect, AllocError>
    requires { is_live (graph_of graph.now) n ≡ true }
    ensures { IfOk result (λ effect. effect ≡ effect_on (graph_of graph.now) (mode_of list.now) n) }
{
    if !has_free_root(alloc, graph, list, n)? {
        return Ok(Effect::X);
    }
    if reads_above(alloc, graph, list, n)? {
        return Ok(Effect::S);
    }
    Ok(Effect::None)
}

/// Whether some path from the node to the root has no node that the transaction holds in X.
///
/// The set of nodes found is also the queue of the search, which does not continue above a node
/// held in X. If the node itself is held in X, there is no search.
fn has_free_root(
    alloc: Global,
    graph: &Graph,
    list: &LockList,
    n: NodeId,
) -> Result<bool, AllocError>
    requires { is_live (graph_of graph.now) n ≡ true }
    ensures { IfOk result (λ free. free ≡ not (eff_x (node_count (graph_of graph.now)) (graph_of graph.now) (mode_of list.now) n)) }
{
    graph.law();
    if holds_x(list, n) {
        return Ok(false);
    }
    let mut found = IndexSet::new(alloc);
    found.insert(n)?;
    let mut at = 0;
    while let Some(&node) = found.as_slice().get(at) {
        at += 1;
        if holds_x(list, node) {
            continue;
        }
        let parents = graph.parents(node);
        if parents.is_empty() {
            return Ok(true);
        }
        add_missing(&mut found, parents)?;
    }
    Ok(false)
}

/// Whether the transaction holds the node or a node above it in S, SIX or X.
fn reads_above(alloc: Global, graph: &Graph, list: &LockList, n: NodeId) -> Result<bool, AllocError>
    requires { is_live (graph_of graph.now) n ≡ true }
    ensures { IfOk result (λ reads. reads ≡ eff_s (node_count (graph_of graph.now)) (graph_of graph.now) (mode_of list.now) n) }
{
    graph.law();
    let mut found = IndexSet::new(alloc);
    found.insert(n)?;
    let mut at = 0;
    while let Some(&node) = found.as_slice().get(at) {
        if covers(list.mode(node), Mode::S) {
            return Ok(true);
        }
        add_missing(&mut found, graph.parents(node))?;
        at += 1;
    }
    Ok(false)
}

/// Whether the transaction holds the node in X.
fn holds_x(list: &LockList, n: NodeId) -> bool
    ensures { result ≡ same_mode (mode_of list.now n) X }
{
    list.mode(n) == Mode::X
}

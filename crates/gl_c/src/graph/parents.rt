//! The nodes that C names.

ghost use Rattle.std.specs.Prelude.{◌≡◌, ◌<◌, ◌≤◌, IfNone, IfOk, IfSome, length, map};
ghost use Rattle.gl_c.specs.Names.{node_id};

use crate::names::Node;
use arrayvec::ArrayVec;
use gl_modes::{MOST_PARENTS, NodeId};
use std::alloc::{AllocError, Global};

/// The names of these parents; `None` if there are more than a node may have.
pub(crate) fn parent_ids(parents: &[Node]) -> Option<ArrayVec<NodeId, MOST_PARENTS>>
    ensures names { IfSome result (λ ids. ids.items ≡ map node_id parents.now) }
    ensures few { IfSome result (λ ids. length parents.now ≤ 8) }
    ensures many { IfNone result (8 < length parents.now) }
{
    if parents.len() > MOST_PARENTS {
        return None;
    }
    let mut ids = ArrayVec::new();
    for parent in parents {
        ids.push(parent.id());
    }
    Some(ids)
}

/// The names of these nodes, however many.
pub(crate) fn node_ids(alloc: Global, nodes: &[Node]) -> Result<Vec<NodeId>, AllocError>
    ensures { IfOk result (λ ids. ids.items ≡ map node_id nodes.now) }
{
    let mut ids = Vec::with_capacity(alloc, nodes.len())?;
    for node in nodes {
        ids.push(node.id())?;
    }
    Ok(ids)
}

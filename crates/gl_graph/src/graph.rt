//! The nodes of a lock graph. Keys are reused; births are not.

ghost use Rattle.std.specs.Prelude.{◌≡◌, ◌≢◌, ◌≤◌, ◌^◌, ℕ, true, IfSome, Option, None, position};
ghost use Rattle.std.specs.Option.{option_map};
ghost use Rattle.gl_modes.specs.Nodes.{same_node};
ghost use Rattle.gl_graph.specs.Shapes.{
  bounds_in,
  file_in,
  intervals_in,
  is_adopted,
  is_file_shape,
  is_index_shape,
  keys_in,
  kind_in,
};
ghost use Rattle.gl_graph.specs.Graph.{
  indexes_of,
  interval_at,
  interval_of,
  node_at,
  node_count,
  parents_of,
  place_of,
  shape_of,
};
ghost use Rattle.gl_graph.specs.Lawful.{IsLawfulGraph};
ghost use Rattle.gl_graph.specs.Refusals.{births_worn, has_records};
ghost use Rattle.gl_graph.specs.Seen.{beside_in_body, vertex_of};
ghost use Rattle.gl_graph.specs.View.{due, graph_of, node_of, record_count};

use gl_modes::NodeId;
use slab::Slab;
use std::alloc::Global;
use std::marker::Model;

mod change;
mod checks;
mod cuts;
mod make;
mod moves;
mod standing;

use crate::bounds::interval_place;
use crate::kind::Kind;
use crate::node::{Body, Node};
use crate::store::find;

/// The default limit of nodes that live at once.
const MOST_NODES: u32 = 65_536;

/// The default limit of an index's bounds.
const MOST_BOUNDS: u32 = 256;

/// The first place of the node among these.
fn place_among(ids: &[NodeId], n: NodeId) -> Option<usize>
    ensures { result ≡ position (λ id. same_node id n) ids.now }
{
    ids.iter().position(|id| *id == n)
}

/// A lawful lock graph: inner nodes, files and indexes under inner nodes, intervals under their
/// index, records under their file and under one interval of each of its indexes.
#[derive(Drop)]
pub struct Graph {
    nodes: Slab<Node>,
    births: u64,
    most: u32,
    most_bounds: u32,
    alloc: Global,
}

impl Model for Graph {
    ghost use Rattle.gl_graph.specs.View.{View};

    ghost Value = { View };

    ghost use Rattle.gl_graph.specs.Sound.{view_of, IsSound};

    ghost view = { view_of };

    ghost invariant = { IsSound };
}

impl Graph {
    /// A graph without nodes, of which at most 65,536 may live at once. An index may have at most 256
    /// bounds.
    pub fn new(alloc: Global) -> Self
        ensures empty { (birth : ℕ) → (graph_of result).at birth ≡ None }
        ensures births { result.births ≡ 0 }
        ensures most { result.most ≡ 65536 }
        ensures most_bounds { result.most_bounds ≡ 256 }
    {
        Graph::with_limits(alloc, MOST_NODES, MOST_BOUNDS)
    }

    /// As `new`, with other limits: of nodes that live at once, at most 2^31, and of an index's
    /// bounds.
    pub fn with_limits(alloc: Global, most: u32, most_bounds: u32) -> Self
        requires { most ≤ 2 ^ 31 }
        ensures empty { (birth : ℕ) → (graph_of result).at birth ≡ None }
        ensures births { result.births ≡ 0 }
        ensures most { result.most ≡ most }
        ensures most_bounds { result.most_bounds ≡ most_bounds }
    {
        Graph {
            nodes: Slab::new(alloc),
            births: 0,
            most,
            most_bounds,
            alloc,
        }
    }

    /// How many nodes may live at once.
    pub fn most(&self) -> u32
        ensures { result ≡ (graph_of self.now).most }
    {
        self.most
    }

    /// How many bounds an index may have.
    pub fn most_bounds(&self) -> u32
        ensures { result ≡ (graph_of self.now).most_bounds }
    {
        self.most_bounds
    }

    /// Every graph is lawful.
    pub fn law(&self)
        ensures lawful { IsLawfulGraph (graph_of self.now) }
    {
        let _ = &self.nodes;
    }

    /// How many nodes live.
    pub fn len(&self) -> usize
        ensures count { result ≡ node_count (graph_of self.now) }
    {
        self.nodes.len()
    }

    /// Whether no node can be made any more, since too few births are left for a full graph of new
    /// nodes.
    pub fn worn(&self) -> bool
        ensures { result ≡ births_worn (graph_of self.now) }
    {
        self.births > u64::MAX - self.most as u64
    }

    /// The key that the next node gets, so that room for what is stored by key can be made before the
    /// node.
    pub fn next_key(&self) -> usize
        ensures { result ≡ self.now.next_key }
    {
        self.nodes.vacant_key()
    }

    /// The node that the id names.
    #[inline]
    fn node(&self, n: NodeId) -> Option<&Node>
        ensures node { option_map (λ x. node_of n.key (vertex_of x.now)) result ≡ node_at (graph_of self.now) n }
        ensures beside { IfSome result (λ x. beside_in_body x.now.body ≡ due (graph_of self.now) n) }
        ensures lawful { IsLawfulGraph (graph_of self.now) }
    {
        find(&self.nodes, n)
    }

    /// The kind of the node; `None` if the id names none.
    pub fn kind(&self, n: NodeId) -> Option<Kind>
        ensures { result ≡ kind_in (shape_of (graph_of self.now) n) }
    {
        match self.node(n) {
            Some(node) => Some(node.body.kind()),
            None => None,
        }
    }

    /// The parents of the node; none if the id names no node.
    pub fn parents(&self, n: NodeId) -> &[NodeId]
        ensures { result.now ≡ parents_of (graph_of self.now) n }
    {
        match self.node(n) {
            Some(node) => node.body.parents(),
            None => &[],
        }
    }

    /// The keys of a record, one for each index of its file; none if the id names no record.
    pub fn keys(&self, rec: NodeId) -> &[u64]
        ensures { result.now ≡ keys_in (shape_of (graph_of self.now) rec) }
    {
        match self.node(rec) {
            Some(node) => node.body.keys(),
            None => &[],
        }
    }

    /// The indexes of a file, in the order in which they were made.
    pub fn indexes(&self, file: NodeId) -> &[NodeId]
        requires { is_file_shape (shape_of (graph_of self.now) file) ≡ true }
        ensures { result.now ≡ indexes_of (graph_of self.now) file }
    {
        match self.node(file) {
            Some(node) => node.body.indexes(),
            None => &[],
        }
    }

    /// Whether a file has records.
    pub fn has_records(&self, file: NodeId) -> bool
        requires { is_file_shape (shape_of (graph_of self.now) file) ≡ true }
        ensures { result ≡ has_records (graph_of self.now) file }
    {
        self.records(file) > 0
    }

    /// Whether rows of the file were ever adopted (a record of it was made without a transaction, and
    /// may be gone); `false` if the id names no file.
    pub fn is_adopted(&self, file: NodeId) -> bool
        ensures { result ≡ is_adopted (shape_of (graph_of self.now) file) }
    {
        match self.node(file) {
            Some(node) => node.body.is_adopted(),
            None => false,
        }
    }

    /// How many records a file has.
    fn records(&self, file: NodeId) -> usize
        requires { is_file_shape (shape_of (graph_of self.now) file) ≡ true }
        ensures { result ≡ record_count (graph_of self.now) file }
    {
        match self.node(file) {
            Some(node) => node.body.records(),
            None => 0,
        }
    }

    /// The interval of an index at this place, counted from 0; `None` if there is none.
    pub fn interval(&self, index: NodeId, place: usize) -> Option<NodeId>
        ensures { result ≡ interval_at (graph_of self.now) index place }
    {
        self.intervals(index).get(place).copied()
    }

    /// The file of an index; `None` if the id names no index.
    pub fn file_of_index(&self, index: NodeId) -> Option<NodeId>
        ensures { result ≡ file_in (shape_of (graph_of self.now) index) }
    {
        match self.node(index) {
            Some(node) => node.body.file(),
            None => None,
        }
    }

    /// The intervals of an index, in order; none if the id names no index.
    pub fn intervals(&self, index: NodeId) -> &[NodeId]
        ensures { result.now ≡ intervals_in (shape_of (graph_of self.now) index) }
    {
        match self.node(index) {
            Some(node) => node.body.intervals(),
            None => &[],
        }
    }

    /// The bounds of an index, rising: an interval has the keys from the bound before it, and below its own; none if the
    /// id names no index.
    pub fn bounds(&self, index: NodeId) -> &[u64]
        ensures { result.now ≡ bounds_in (shape_of (graph_of self.now) index) }
    {
        match self.node(index) {
            Some(node) => node.body.bounds(),
            None => &[],
        }
    }

    /// The place of an interval in its index, counted from 0; `None` if the id names no interval. Needs
    /// a step for each interval of the index.
    pub fn place(&self, n: NodeId) -> Option<usize>
        ensures { result ≡ place_of (graph_of self.now) n }
    {
        let Some(node) = self.node(n) else {
            return None;
        };
        match &node.body {
            Body::Interval { index: [index] } => place_among(self.intervals(*index), n),
            _ => None,
        }
    }

    /// The one interval of an index that contains the key.
    pub fn interval_of(&self, index: NodeId, key: u64) -> NodeId
        requires { is_index_shape (shape_of (graph_of self.now) index) ≡ true }
        ensures { result ≡ interval_of (graph_of self.now) index key }
    {
        let Some(node) = self.node(index) else {
            unreachable!()
        };
        node.body.intervals()[interval_place(node.body.bounds(), key)]
    }
}

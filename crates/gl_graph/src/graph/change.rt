//! Changing and removing nodes.

ghost use Rattle.std.specs.Prelude.{◌≡◌, Some, false, true, position};
ghost use Rattle.std.specs.List.{list_any};
ghost use Rattle.gl_modes.specs.Nodes.{same_node};
ghost use Rattle.gl_graph.specs.Shapes.{
  is_file_shape,
  is_index_of_shape,
  is_index_shape,
  is_movable_shape,
  is_record_shape,
};
ghost use Rattle.gl_graph.specs.Graph.{first_parent, indexes_of, shape_of};
ghost use Rattle.gl_graph.specs.Changes.{marked, rekeyed, without_branch, without_node};
ghost use Rattle.gl_graph.specs.Refusals.{is_in_use};
ghost use Rattle.gl_graph.specs.View.{graph_of};

use super::{Graph, place_among};
use crate::kind::Kind;
use crate::node::{Body, Node};
use crate::store::{count_down, remove_all, unlist_index, write_adopted, write_key, write_records};
use gl_modes::NodeId;

impl Graph {
    /// Whether the node is in use and cannot be dropped: an inner node has a child, a file has a
    /// record or an index, or an index's file has a record.
    pub fn is_in_use(&self, n: NodeId) -> bool
        ensures { result ≡ is_in_use (graph_of self.now) n }
    {
        let Some(node) = self.node(n) else {
            return false;
        };
        match &node.body {
            Body::Inner { children, .. } => *children > 0,
            Body::File { kept, .. } => kept.records > 0 || !kept.indexes.is_empty(),
            Body::Index { kept, .. } => self.has_records(kept.file),
            _ => false,
        }
    }

    /// Removes a record. Its key may be reused; its birth is not.
    pub fn remove_record(&mut self, rec: NodeId)
        requires { is_record_shape (shape_of (graph_of self.old) rec) ≡ true }
        ensures removed { graph_of self.new ≡ without_node (graph_of self.old) rec }
    {
        let file = self.first_parent(rec);
        let records = self.records(file) - 1;
        self.nodes.remove(rec.key);
        write_records(&mut self.nodes, file.key, records);
    }

    /// Removes an inner node without children, a file without records and without indexes, or an index
    /// with its intervals, if its file has no records. Allocates no memory. An index needs a step for
    /// each interval.
    pub fn remove_node(&mut self, n: NodeId)
        requires movable { is_movable_shape (shape_of (graph_of self.old) n) ≡ true }
        requires free { is_in_use (graph_of self.old) n ≡ false }
        ensures removed { graph_of self.new ≡ without_branch (graph_of self.old) n }
    {
        match self.kind(n) {
            Some(Kind::Index) => self.remove_index(n),
            _ => self.remove_alone(n),
        }
    }

    /// Removes an inner node or a file.
    fn remove_alone(&mut self, n: NodeId)
        requires movable { is_movable_shape (shape_of (graph_of self.old) n) ≡ true }
        requires alone { is_index_shape (shape_of (graph_of self.old) n) ≡ false }
        requires free { is_in_use (graph_of self.old) n ≡ false }
        ensures removed { graph_of self.new ≡ without_branch (graph_of self.old) n }
    {
        let Node { body, .. } = self.nodes.remove(n.key);
        count_down(&mut self.nodes, body.parents());
    }

    /// Removes an index with its intervals.
    fn remove_index(&mut self, index: NodeId)
        requires index { is_index_shape (shape_of (graph_of self.old) index) ≡ true }
        requires free { is_in_use (graph_of self.old) index ≡ false }
        ensures removed { graph_of self.new ≡ without_branch (graph_of self.old) index }
    {
        let Node { body, .. } = self.nodes.remove(index.key);
        let Body::Index { kept, parents } = body else {
            unreachable!()
        };
        remove_all(&mut self.nodes, kept.intervals.as_slice());
        unlist_index(&mut self.nodes, kept.file.key, index);
        count_down(&mut self.nodes, parents.as_slice());
    }

    /// Marks the file for good as one of which rows were adopted: `add_index` then refuses an index of
    /// it. Allocates no memory.
    pub fn mark_adopted(&mut self, file: NodeId)
        requires { is_file_shape (shape_of (graph_of self.old) file) ≡ true }
        ensures marked { graph_of self.new ≡ marked (graph_of self.old) file }
        ensures next_key { self.new.next_key ≡ self.old.next_key }
    {
        write_adopted(&mut self.nodes, file.key);
    }

    /// Gives a record another key for one index of its file, and the interval that contains this key
    /// in place of the old one.
    pub fn set_key(&mut self, rec: NodeId, index: NodeId, key: u64)
        requires record { is_record_shape (shape_of (graph_of self.old) rec) ≡ true }
        requires index { is_index_of_shape (first_parent (graph_of self.old) rec) (shape_of (graph_of self.old) index) ≡ true }
        ensures rekeyed { graph_of self.new ≡ rekeyed (graph_of self.old) rec index key }
    {
        let place = self.index_place(self.first_parent(rec), index);
        let interval = self.interval_of(index, key);
        write_key(&mut self.nodes, rec.key, place, key, interval);
    }

    /// The place of an index among those of its file.
    pub(super) fn index_place(&self, file: NodeId, index: NodeId) -> usize
        requires file { is_file_shape (shape_of (graph_of self.now) file) ≡ true }
        requires listed { list_any (λ listed. same_node listed index) (indexes_of (graph_of self.now) file) ≡ true }
        ensures { position (λ listed. same_node listed index) (indexes_of (graph_of self.now) file) ≡ Some result }
    {
        match place_among(self.indexes(file), index) {
            Some(place) => place,
            None => unreachable!(),
        }
    }

    /// The first parent of a node: a record's file, an interval's index; `NONE` if it has none.
    pub(super) fn first_parent(&self, n: NodeId) -> NodeId
        ensures { result ≡ first_parent (graph_of self.now) n }
    {
        match self.parents(n) {
            [first, ..] => *first,
            [] => NodeId::NONE,
        }
    }
}

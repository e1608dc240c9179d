//! The tests that a call makes before it changes anything, each with its refusal.

ghost use Rattle.std.specs.Prelude.{◌≡◌, ◌+◌, ◌∷◌, ◌++◌, [], ◌&&◌, ◌||◌, length, map, nat_lt, not, true};
ghost use Rattle.std.specs.List.{list_all, list_any};
ghost use Rattle.gl_modes.specs.Nodes.{same_node};
ghost use Rattle.gl_graph.specs.Shapes.{is_adopted, is_file_shape, is_inner_shape};
ghost use Rattle.gl_graph.specs.Shapes.{is_record_shape};
ghost use Rattle.gl_graph.specs.Graph.{is_live, is_record_of, node_count, shape_of};
ghost use Rattle.gl_graph.specs.Lawful.{are_distinct, are_inner};
ghost use Rattle.gl_graph.specs.Over.{are_keyed};
ghost use Rattle.gl_graph.specs.Refusals.{
  bad_bounds,
  bad_index_place,
  bad_parents,
  first_refusal,
  index_refusal,
  is_rising,
  parents_refusal,
  record_refusal,
  some_no_node,
  too_many_nodes,
  verdict,
  where_true,
};
ghost use Rattle.gl_modes.specs.declared.refusal.Refusal.{Refusal as ARefusal};
ghost use Rattle.gl_graph.specs.View.{graph_of};

use super::Graph;
use crate::kind::Kind;
use gl_modes::{MOST_PARENTS, NodeId, Refusal};

/// How many indexes a file may have.
const MOST_INDEXES: usize = 7;

/// Whether the node is one of these.
fn is_among(ids: &[NodeId], n: NodeId) -> bool
    ensures { result ≡ list_any (same_node n) ids.now }
{
    ids.iter().any(|id| n == *id)
}

/// Whether these nodes are all different.
fn distinct(ids: &[NodeId]) -> bool
    ensures { result ≡ are_distinct ids.now }
{
    for (place, id) in ids.iter().enumerate() {
        if is_among(&ids[place + 1..], *id) {
            return false;
        }
    }
    true
}

/// Whether these bounds strictly increase, from above 0.
fn are_rising(bounds: &[u64]) -> bool
    ensures { result ≡ is_rising (0 ∷ bounds.now) }
{
    let mut last = 0;
    for bound in bounds {
        if *bound <= last {
            return false;
        }
        last = *bound;
    }
    true
}

/// Whether these were born one after the other.
fn are_in_order(ids: &[NodeId]) -> bool
    ensures { result ≡ is_rising (0 ∷ map (λ (id : NodeId). id.birth) ids.now) }
{
    let mut last = 0;
    for id in ids {
        if id.birth <= last {
            return false;
        }
        last = id.birth;
    }
    true
}

impl Graph {
    fn is_inner(&self, n: NodeId) -> bool
        ensures { result ≡ is_inner_shape (shape_of (graph_of self.now) n) }
    {
        matches!(self.kind(n), Some(Kind::Inner))
    }

    fn is_file(&self, n: NodeId) -> bool
        ensures { result ≡ is_file_shape (shape_of (graph_of self.now) n) }
    {
        matches!(self.kind(n), Some(Kind::File))
    }

    pub(super) fn lives(&self, n: NodeId) -> bool
        ensures { result ≡ is_live (graph_of self.now) n }
    {
        self.kind(n).is_some()
    }

    fn all_live(&self, ids: &[NodeId]) -> bool
        ensures { result ≡ list_all (is_live (graph_of self.now)) ids.now }
    {
        ids.iter().all(|n| self.lives(*n))
    }

    fn all_inner(&self, ids: &[NodeId]) -> bool
        ensures { result ≡ are_inner (graph_of self.now) ids.now }
    {
        ids.iter().all(|n| self.is_inner(*n))
    }

    /// Whether so many more nodes would exceed the limit.
    fn too_many(&self, more: usize) -> bool
        ensures { result ≡ nat_lt (graph_of self.now).most (node_count (graph_of self.now) + more) }
    {
        let most = self.most as usize;
        more > most || self.len() > most - more
    }

    /// Whether no further node may live.
    pub fn is_full(&self) -> bool
        ensures { result ≡ nat_lt (graph_of self.now).most (node_count (graph_of self.now) + 1) }
    {
        self.too_many(1)
    }

    /// Whether these cannot be the parents of a node that needs at least `least`: one is no inner node
    /// or is listed twice, or there are too few or more than 8.
    pub fn are_bad_parents(&self, least: usize, parents: &[NodeId]) -> bool
        ensures { result ≡ bad_parents (graph_of self.now) least parents.now }
    {
        parents.len() < least
            || parents.len() > MOST_PARENTS
            || !self.all_inner(parents)
            || !distinct(parents)
    }

    /// The tests for an inner node or a file, which needs at least `least` parents.
    pub(super) fn check_parents(&self, least: usize, parents: &[NodeId]) -> Result<(), Refusal>
        ensures { result ≡ verdict (parents_refusal (graph_of self.now) least parents.now) }
    {
        if self.worn() {
            Err(Refusal::WornOut)
        } else if !self.all_live(parents) {
            Err(Refusal::NoSuchNode)
        } else if self.are_bad_parents(least, parents) {
            Err(Refusal::BadParents)
        } else if self.is_full() {
            Err(Refusal::TooManyNodes)
        } else {
            Ok(())
        }
    }

    /// The tests for a record of a file, which needs a key for each of the file's indexes.
    pub(super) fn check_record(&self, file: NodeId, keys: &[u64]) -> Result<(), Refusal>
        ensures { result ≡ verdict (record_refusal (graph_of self.now) file keys.now) }
    {
        if self.worn() {
            Err(Refusal::WornOut)
        } else if !self.lives(file) {
            Err(Refusal::NoSuchNode)
        } else if !self.is_file(file) {
            Err(Refusal::BadParents)
        } else if keys.len() != self.indexes(file).len() {
            Err(Refusal::BadKeys)
        } else if self.is_full() {
            Err(Refusal::TooManyNodes)
        } else {
            Ok(())
        }
    }

    /// The tests for an index of a file of which no rows were adopted.
    pub(super) fn check_index(
        &self,
        parents: &[NodeId],
        file: NodeId,
        bounds: &[u64],
    ) -> Result<(), Refusal>
        ensures { result ≡ verdict (index_refusal (graph_of self.now) parents.now file bounds.now) }
    {
        if self.worn() {
            return Err(Refusal::WornOut);
        }
        self.check_index_place(parents, file)?;
        if self.has_records(file) || self.is_adopted(file) {
            return Err(Refusal::FileInUse);
        }
        self.check_index_bounds(bounds)
    }

    /// Whether these cannot be the bounds of an index.
    fn are_bad_bounds(&self, bounds: &[u64]) -> bool
        ensures { result ≡ bad_bounds (graph_of self.now) bounds.now }
    {
        bounds.len() > self.most_bounds as usize || !are_rising(bounds)
    }

    /// Whether no index of this file can be made under these parents.
    fn is_bad_index_place(&self, parents: &[NodeId], file: NodeId) -> bool
        ensures { result ≡ bad_index_place (graph_of self.now) parents.now file }
    {
        self.are_bad_parents(1, parents)
            || !self.is_file(file)
            || self.indexes(file).len() >= MOST_INDEXES
    }

    /// Tests whether an index of this file can be made under these parents, whatever its bounds.
    /// Refused, in this order, with `NoSuchNode` and `BadParents`.
    pub fn check_index_place(&self, parents: &[NodeId], file: NodeId) -> Result<(), Refusal>
        ensures { result ≡ verdict (first_refusal (some_no_node (graph_of self.now) (parents.now ++ file ∷ [])
            ∷ where_true (bad_index_place (graph_of self.now) parents.now file) ARefusal.BadParents ∷ [])) }
    {
        if !self.all_live(parents) || !self.lives(file) {
            Err(Refusal::NoSuchNode)
        } else if self.is_bad_index_place(parents, file) {
            Err(Refusal::BadParents)
        } else {
            Ok(())
        }
    }

    fn is_record(&self, n: NodeId) -> bool
        ensures { result ≡ is_record_shape (shape_of (graph_of self.now) n) }
    {
        matches!(self.kind(n), Some(Kind::Rec))
    }

    fn is_record_of(&self, file: NodeId, n: NodeId) -> bool
        ensures { result ≡ is_record_of (graph_of self.now) file n }
    {
        self.is_record(n) && is_among(self.parents(n), file)
    }

    fn are_records_of(&self, file: NodeId, records: &[NodeId]) -> bool
        ensures { result ≡ list_all (is_record_of (graph_of self.now) file) records.now }
    {
        records.iter().all(|r| self.is_record_of(file, *r))
    }

    /// Whether these are all records of a file, in order of birth, with a key for each.
    fn are_keyed(&self, file: NodeId, records: &[NodeId], keys: &[u64]) -> bool
        requires { is_file_shape (shape_of (graph_of self.now) file) ≡ true }
        ensures { result ≡ are_keyed (graph_of self.now) file records.now keys.now }
    {
        self.are_records_of(file, records)
            && are_in_order(records)
            && records.len() == self.records(file)
            && keys.len() == records.len()
    }

    /// Tests whether an index of this file can have these bounds, and these keys for all records of
    /// the file, in order of birth, and whether its nodes are within the limit. Refused, in this
    /// order, with `BadKeys` and `TooManyNodes`.
    pub fn check_index_over(
        &self,
        file: NodeId,
        bounds: &[u64],
        records: &[NodeId],
        keys: &[u64],
    ) -> Result<(), Refusal>
        requires { is_file_shape (shape_of (graph_of self.now) file) ≡ true }
        ensures { result ≡ verdict (first_refusal (where_true (bad_bounds (graph_of self.now) bounds.now
            || not (are_keyed (graph_of self.now) file records.now keys.now)) ARefusal.BadKeys
            ∷ too_many_nodes (graph_of self.now) (2 + length bounds.now) ∷ [])) }
    {
        if self.are_bad_bounds(bounds) || !self.are_keyed(file, records, keys) {
            Err(Refusal::BadKeys)
        } else if self.too_many(bounds.len() + 2) {
            Err(Refusal::TooManyNodes)
        } else {
            Ok(())
        }
    }

    /// Tests whether an index can have these bounds, and whether its nodes are within the limit.
    /// Refused, in this order, with `BadKeys` and `TooManyNodes`.
    pub fn check_index_bounds(&self, bounds: &[u64]) -> Result<(), Refusal>
        ensures { result ≡ verdict (first_refusal (where_true (bad_bounds (graph_of self.now) bounds.now) ARefusal.BadKeys
            ∷ too_many_nodes (graph_of self.now) (2 + length bounds.now) ∷ [])) }
    {
        if self.are_bad_bounds(bounds) {
            Err(Refusal::BadKeys)
        } else if self.too_many(bounds.len() + 2) {
            Err(Refusal::TooManyNodes)
        } else {
            Ok(())
        }
    }
}

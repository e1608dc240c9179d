//! Making nodes.

ghost use Rattle.std.specs.Prelude.{◌≡◌, ◌+◌, ◌<◌, ◌^◌, ℕ, None, false, true, length, IfOk, OnErr, IfErr};
ghost use Rattle.gl_modes.specs.declared.refusal.Refusal.{Refusal};
ghost use Rattle.gl_graph.specs.Shapes.{File, Inner, Rec, is_file_shape};
ghost use Rattle.gl_graph.specs.Graph.{IsFreeKey, indexes_of, record_parents, shape_of};
ghost use Rattle.gl_graph.specs.Lawful.{AreInnerParents, IsLawfulGraph};
ghost use Rattle.gl_graph.specs.Changes.{born_node, IsAdopted, IsBorn, IsIndexBorn};
ghost use Rattle.gl_graph.specs.Refusals.{file_refusal, index_refusal, inner_refusal, record_refusal, reindex_refusal, Refuses};
ghost use Rattle.gl_graph.specs.Over.{IsIndexOver, over_refusal};
ghost use Rattle.gl_graph.specs.View.{graph_of};
ghost use Rattle.gl_graph.specs.Seen.{parents_in_body, shape_in_body, IsPlainBody};

use super::Graph;
use crate::keying::{key_records, keyed_bodies};
use crate::node::{Body, IndexBody, Node};
use crate::store::{count_up, insert_intervals, write_indexes, write_intervals, write_records};
use arrayvec::ArrayVec;
use gl_modes::{NodeId, Refusal};
use smallvec::SmallVec;
use std::alloc::{AllocError, Global};

/// What a new index allocates, before anything changes.
#[derive(Drop)]
struct IndexParts {
    parents: Vec<NodeId>,
    // Without intervals.
    body: Box<IndexBody>,
    // Empty, with room for all.
    intervals: Vec<NodeId>,
    // The file's indexes, with room for one more.
    indexes: SmallVec<NodeId, 1>,
}

impl IndexParts {
    ghost use Rattle.gl_graph.specs.Parts.{AreParts};

    fn new(
        alloc: Global,
        parents: &[NodeId],
        file: NodeId,
        bounds: &[u64],
        indexes: &[NodeId],
    ) -> Result<Self, AllocError>
        requires { length bounds.now < 2 ^ 63 }
        ensures made { IfOk result (λ parts. AreParts parts parents.now file bounds.now indexes.now) }
    {
        let parents = Vec::from_slice(alloc, parents)?;
        let intervals = Vec::with_capacity(alloc, bounds.len() + 1)?;
        let body = IndexBody {
            file,
            bounds: Vec::from_slice(alloc, bounds)?,
            intervals: Vec::new(alloc),
        };
        let body = Box::new(alloc, body)?;
        let mut indexes = SmallVec::from_slice(alloc, indexes)?;
        indexes.reserve(1)?;
        Ok(IndexParts {
            parents,
            body,
            intervals,
            indexes,
        })
    }
}

impl Graph {
    /// Makes an inner node under 0 to 8 different inner nodes; without parents it is a root.
    ///
    /// Refused, in this order, with `WornOut`, `NoSuchNode`, `BadParents`, `TooManyNodes` and
    /// `NoMemory`.
    pub fn add_inner(&mut self, parents: &[NodeId]) -> Result<NodeId, Refusal>
        ensures made { IfOk result (λ n. IsBorn (graph_of self.old) (graph_of self.new) n Inner parents.now) }
        ensures refuses { Refuses (inner_refusal (graph_of self.old) parents.now) result }
        ensures err { OnErr result (self.new ≡ self.old) }
    {
        self.check_parents(0, parents)?;
        let Ok(body) = Body::of_inner(self.alloc, parents) else {
            return Err(Refusal::NoMemory);
        };
        self.insert(parents, body)
    }

    /// Makes a file under 1 to 8 different inner nodes. It has no indexes and no records, and no rows
    /// of it were adopted.
    ///
    /// Refused, in this order, with `WornOut`, `NoSuchNode`, `BadParents`, `TooManyNodes` and
    /// `NoMemory`.
    pub fn add_file(&mut self, parents: &[NodeId]) -> Result<NodeId, Refusal>
        ensures made { IfOk result (λ n. IsBorn (graph_of self.old) (graph_of self.new) n (File false) parents.now) }
        ensures refuses { Refuses (file_refusal (graph_of self.old) parents.now) result }
        ensures err { OnErr result (self.new ≡ self.old) }
    {
        self.check_parents(1, parents)?;
        let Ok(body) = Body::of_file(self.alloc, parents) else {
            return Err(Refusal::NoMemory);
        };
        self.insert(parents, body)
    }

    /// Makes an index of a file that has no records and of which no rows were ever adopted, under 1 to
    /// 8 different inner nodes, with at most `most_bounds` strictly increasing bounds above 0. The
    /// index is born first and then, in order, its intervals: one that begins at key 0, and one at
    /// each bound.
    ///
    /// Refused, in this order, with `WornOut`, `NoSuchNode`, `BadParents` (also if `file` is no file
    /// or has seven indexes), `FileInUse` (it has records, or rows of it were ever adopted), `BadKeys`
    /// (the bounds), `TooManyNodes` and `NoMemory`.
    pub fn add_index(
        &mut self,
        parents: &[NodeId],
        file: NodeId,
        bounds: &[u64],
    ) -> Result<NodeId, Refusal>
        ensures made { IfOk result (λ n. IsIndexBorn (graph_of self.old) (graph_of self.new) n parents.now file bounds.now) }
        ensures refuses { Refuses (index_refusal (graph_of self.old) parents.now file bounds.now) result }
        ensures err { OnErr result (self.new ≡ self.old) }
    {
        self.check_index(parents, file, bounds)?;
        self.add_index_unrefused(parents, file, bounds, &[], &[])
    }

    /// As `add_index`, also of a file of which rows were adopted, which stays one, and also over
    /// records: all records of the file, in order of birth, each with its key for the index. No
    /// refusal but `NoMemory` may apply, and that is the only one answered. Needs a step for each
    /// record.
    pub fn add_index_unrefused(
        &mut self,
        parents: &[NodeId],
        file: NodeId,
        bounds: &[u64],
        records: &[NodeId],
        keys: &[u64],
    ) -> Result<NodeId, Refusal>
        requires { over_refusal (graph_of self.old) parents.now file bounds.now records.now keys.now ≡ None }
        ensures made { IfOk result (λ n. IsIndexOver (graph_of self.old) (graph_of self.new) n parents.now file bounds.now records.now keys.now) }
        ensures key { IfOk result (λ n. n.key ≡ self.old.next_key) }
        ensures memory { IfErr result (λ r. r ≡ Refusal.NoMemory) }
        ensures err { OnErr result (self.new ≡ self.old) }
    {
        let count = bounds.len() + 1;
        let Ok(()) = self.nodes.reserve(count + 1) else {
            return Err(Refusal::NoMemory);
        };
        let Ok(mut bodies) = keyed_bodies(self.alloc, &self.nodes, records, keys) else {
            return Err(Refusal::NoMemory);
        };
        let listed = self.indexes(file);
        let Ok(parts) = IndexParts::new(self.alloc, parents, file, bounds, listed) else {
            return Err(Refusal::NoMemory);
        };
        let IndexParts {
            parents: above,
            body,
            mut intervals,
            mut indexes,
        } = parts;
        let birth = self.births + 1;
        let body = Body::Index {
            kept: body,
            parents: above,
        };
        let key = self.nodes.insert_reserved(Node { birth, body });
        let index = NodeId { key, birth };
        insert_intervals(&mut self.nodes, index, count, &mut intervals);
        indexes.push_reserved(index);
        write_intervals(&mut self.nodes, key, intervals);
        write_indexes(&mut self.nodes, file.key, indexes);
        count_up(&mut self.nodes, parents);
        key_records(&mut self.nodes, key, records, keys, &mut bodies);
        self.births = birth + count as u64;
        Ok(index)
    }

    /// Makes a record of a file, with a key for each of the file's indexes, in the order in which they
    /// were made. Its parents are the file and then, for each index, the interval that contains the
    /// key.
    ///
    /// Refused, in this order, with `WornOut`, `NoSuchNode`, `BadParents` (no file), `BadKeys` (not a
    /// key for each index), `TooManyNodes` and `NoMemory`.
    pub fn add_record(&mut self, file: NodeId, keys: &[u64]) -> Result<NodeId, Refusal>
        ensures made { IfOk result (λ n. IsBorn (graph_of self.old) (graph_of self.new) n (Rec keys.now) (record_parents (graph_of self.old) file keys.now)) }
        ensures refuses { Refuses (record_refusal (graph_of self.old) file keys.now) result }
        ensures err { OnErr result (self.new ≡ self.old) }
    {
        self.check_record(file, keys)?;
        let parents = self.record_parents(file, keys);
        self.add_record_under(file, keys, parents.as_slice())
    }

    /// As `add_record`, with these parents. No refusal but `NoMemory` may apply, and that is the only
    /// one answered.
    pub fn add_record_under(
        &mut self,
        file: NodeId,
        keys: &[u64],
        parents: &[NodeId],
    ) -> Result<NodeId, Refusal>
        requires free { record_refusal (graph_of self.old) file keys.now ≡ None }
        requires parents { parents.now ≡ record_parents (graph_of self.old) file keys.now }
        ensures made { IfOk result (λ n. IsBorn (graph_of self.old) (graph_of self.new) n (Rec keys.now) (record_parents (graph_of self.old) file keys.now)) }
        ensures key { IfOk result (λ n. n.key ≡ self.old.next_key) }
        ensures memory { IfErr result (λ r. r ≡ Refusal.NoMemory) }
        ensures err { OnErr result (self.new ≡ self.old) }
    {
        let Ok(body) = Body::of_record(self.alloc, keys, parents) else {
            return Err(Refusal::NoMemory);
        };
        let records = self.records(file) + 1;
        let birth = self.births + 1;
        let Ok(key) = self.nodes.insert(Node { birth, body }) else {
            return Err(Refusal::NoMemory);
        };
        write_records(&mut self.nodes, file.key, records);
        self.births = birth;
        Ok(NodeId { key, birth })
    }

    /// As `add_record`, and marks the file as one of which rows were adopted, so that `add_index`
    /// refuses an index of it. Refused as `add_record`.
    pub fn adopt_record(&mut self, file: NodeId, keys: &[u64]) -> Result<NodeId, Refusal>
        ensures made { IfOk result (λ n. IsAdopted (graph_of self.old) (graph_of self.new) n file keys.now) }
        ensures refuses { Refuses (record_refusal (graph_of self.old) file keys.now) result }
        ensures err { OnErr result (self.new ≡ self.old) }
    {
        self.law();
        let rec = self.add_record(file, keys)?;
        self.mark_adopted(file);
        Ok(rec)
    }

    /// The parents of a record of this file with these keys: the file and then, for each index, the
    /// interval that contains the key. Allocates no memory. Inlined, since the list would otherwise be
    /// copied.
    #[inline(always)]
    pub fn record_parents(&self, file: NodeId, keys: &[u64]) -> ArrayVec<NodeId, 8>
        requires file { is_file_shape (shape_of (graph_of self.now) file) ≡ true }
        requires keys { length keys.now ≡ length (indexes_of (graph_of self.now) file) }
        ensures { result.items ≡ record_parents (graph_of self.now) file keys.now }
    {
        self.law();
        let mut parents = ArrayVec::new();
        parents.push(file);
        for (place, index) in self.indexes(file).iter().enumerate() {
            parents.push(self.interval_of(*index, keys[place]));
        }
        parents
    }

    /// Stores a node with the next birth, under different inner nodes.
    fn insert(&mut self, parents: &[NodeId], body: Body) -> Result<NodeId, Refusal>
        requires births { self.old.births + 1 < 2 ^ 64 }
        requires plain { IsPlainBody body }
        requires under { parents_in_body body ≡ parents.now }
        requires parents { AreInnerParents (graph_of self.old) 0 parents.now }
        requires lawful { (key : ℕ) → IsLawfulGraph (graph_of self.old) → IsFreeKey (graph_of self.old) key
            → IsLawfulGraph (born_node (graph_of self.old) (record { key = key; shape = shape_in_body body; parents = parents.now })) }
        ensures made { IfOk result (λ n. IsBorn (graph_of self.old) (graph_of self.new) n (shape_in_body body) parents.now) }
        ensures memory { IfErr result (λ r. r ≡ Refusal.NoMemory) }
        ensures err { OnErr result (self.new ≡ self.old) }
    {
        let birth = self.births + 1;
        let Ok(key) = self.nodes.insert(Node { birth, body }) else {
            return Err(Refusal::NoMemory);
        };
        count_up(&mut self.nodes, parents);
        self.births = birth;
        Ok(NodeId { key, birth })
    }
}

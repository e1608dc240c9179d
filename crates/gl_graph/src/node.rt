//! A node as stored.

ghost use Rattle.std.specs.Prelude.{◌≡◌, ◌<◌, ◌++◌, ◌∷◌, [], length};

use crate::kind::Kind;
use arrayvec::ArrayVec;
use gl_modes::NodeId;
use smallvec::SmallVec;
use std::alloc::{AllocError, Global};
use std::mem;

/// A node's parents and other data, by its kind. Most nodes are records, and most records have one key
/// or none: larger data is in boxes of just its size. Parents are last, so that they begin at the same
/// offset for each kind: each lock reads them.
#[derive(Drop)]
pub(crate) enum Body {
    /// An inner node. The number of its children is stored to save a search.
    Inner {
        children: usize,
        parents: Vec<NodeId>,
    },
    File {
        kept: Box<FileBody>,
        parents: Vec<NodeId>,
    },
    Index {
        kept: Box<IndexBody>,
        parents: Vec<NodeId>,
    },
    /// An interval, whose one parent is its index.
    Interval {
        index: [NodeId; 1],
    },
    /// A record of a file without indexes, under its file alone.
    NoKey {
        file: [NodeId; 1],
    },
    /// A record with a key for each index of its file, under its file and the interval of each key.
    OneKey {
        key: [u64; 1],
        parents: [NodeId; 2],
    },
    TwoKeys {
        keys: [u64; 2],
        parents: Box<[NodeId; 3]>,
    },
    ThreeKeys {
        keys: [u64; 3],
        parents: Box<[NodeId; 4]>,
    },
    /// Seven keys fill their box, and no file has more indexes.
    ManyKeys {
        keys: Box<SmallVec<u64, 7>>,
        parents: SmallVec<NodeId, 1>,
    },
}

/// A file's data. Its indexes and the number of its records are stored to save a search. Whether rows
/// of it were adopted is stored only here.
#[derive(Drop)]
pub(crate) struct FileBody {
    pub(crate) indexes: SmallVec<NodeId, 1>,
    pub(crate) records: usize,
    pub(crate) adopted: bool,
}

/// An index's data. Which its intervals are, and their order, is stored only here.
#[derive(Drop)]
pub(crate) struct IndexBody {
    pub(crate) file: NodeId,
    pub(crate) bounds: Vec<u64>,
    pub(crate) intervals: Vec<NodeId>,
}

#[derive(Drop)]
pub(crate) struct Node {
    pub(crate) birth: u64,
    pub(crate) body: Body,
}

/// The id that names no node, where a parent is yet to be set.
const NO_NODE: NodeId = NodeId { key: 0, birth: 0 };

/// These keys, and one more.
fn keys_with(keys: &[u64], key: u64) -> ArrayVec<u64, 7>
    requires { length keys.now < 7 }
    ensures { result.items ≡ keys.now ++ key ∷ [] }
{
    let mut all = ArrayVec::new();
    for one in keys {
        all.push(*one);
    }
    all.push(key);
    all
}

/// These parents, and one more.
fn parents_with(parents: &[NodeId], parent: NodeId) -> ArrayVec<NodeId, 8>
    requires { length parents.now < 8 }
    ensures { result.items ≡ parents.now ++ parent ∷ [] }
{
    let mut all = ArrayVec::new();
    for one in parents {
        all.push(*one);
    }
    all.push(parent);
    all
}

impl Body {
    ghost use Rattle.std.specs.Prelude.{◌+◌, ◌<◌, ◌^◌, ◌≡◌, IfOk, Some, false, length, true};
    ghost use Rattle.gl_graph.specs.Graph.{no_node};
    ghost use Rattle.gl_graph.specs.Keying.{HasOneMore};
    ghost use Rattle.gl_graph.specs.Splits.{merged_shape};
    ghost use Rattle.gl_graph.specs.Shapes.{
      File,
      Inner,
      Rec,
      bounds_in,
      file_in,
      intervals_in,
      is_adopted,
      is_movable_shape,
      keys_in,
      kind_in,
    };
    ghost use Rattle.gl_graph.specs.Seen.{
      IsPlainBody,
      beside_in_body,
      body_adopted,
      body_with_children,
      body_with_cuts,
      body_with_indexes,
      body_with_intervals,
      body_with_key,
      body_with_parent,
      body_with_parents,
      body_with_records,
      body_without_index,
      children_in_body,
      indexes_in_body,
      is_passed,
      parents_in_body,
      records_in_body,
      shape_in_body,
    };

    /// The body of an inner node without children.
    pub(crate) fn of_inner(alloc: Global, parents: &[NodeId]) -> Result<Self, AllocError>
        ensures shape { IfOk result (λ body. shape_in_body body ≡ Inner) }
        ensures plain { IfOk result IsPlainBody }
        ensures parents { IfOk result (λ body. parents_in_body body ≡ parents.now) }
    {
        let parents = Vec::from_slice(alloc, parents)?;
        Ok(Body::Inner {
            children: 0,
            parents,
        })
    }

    /// The body of a file without indexes and records, of which no rows were adopted.
    pub(crate) fn of_file(alloc: Global, parents: &[NodeId]) -> Result<Self, AllocError>
        ensures shape { IfOk result (λ body. shape_in_body body ≡ File false) }
        ensures plain { IfOk result IsPlainBody }
        ensures parents { IfOk result (λ body. parents_in_body body ≡ parents.now) }
    {
        let parents = Vec::from_slice(alloc, parents)?;
        let kept = FileBody {
            indexes: SmallVec::new(alloc),
            records: 0,
            adopted: false,
        };
        let kept = Box::new(alloc, kept)?;
        Ok(Body::File { kept, parents })
    }

    /// The body of a record with these keys, under these parents.
    pub(crate) fn of_record(
        alloc: Global,
        keys: &[u64],
        parents: &[NodeId],
    ) -> Result<Self, AllocError>
        ensures shape { IfOk result (λ body. shape_in_body body ≡ Rec keys.now) }
        ensures parents { IfOk result (λ body. parents_in_body body ≡ parents.now) }
    {
        match (keys, parents) {
            ([], [file]) => Ok(Body::NoKey { file: [*file] }),
            ([key], [file, interval]) => Ok(Body::OneKey {
                key: [*key],
                parents: [*file, *interval],
            }),
            ([a, b], [file, of_a, of_b]) => {
                let parents = Box::new(alloc, [*file, *of_a, *of_b])?;
                Ok(Body::TwoKeys {
                    keys: [*a, *b],
                    parents,
                })
            }
            ([a, b, c], [file, of_a, of_b, of_c]) => {
                let parents = Box::new(alloc, [*file, *of_a, *of_b, *of_c])?;
                Ok(Body::ThreeKeys {
                    keys: [*a, *b, *c],
                    parents,
                })
            }
            _ => {
                let parents = SmallVec::from_slice(alloc, parents)?;
                let keys = SmallVec::from_slice(alloc, keys)?;
                let keys = Box::new(alloc, keys)?;
                Ok(Body::ManyKeys { keys, parents })
            }
        }
    }

    /// The body of this record with one more key. Its last parent, the interval of the key, is yet
    /// to be set.
    pub(crate) fn with_key(&self, alloc: Global, key: u64) -> Result<Self, AllocError>
        requires keys { length (keys_in (Some (shape_in_body self.now))) < 7 }
        requires parents { length (parents_in_body self.now) < 8 }
        ensures { IfOk result (λ body. HasOneMore self.now body key no_node) }
    {
        let keys = keys_with(self.keys(), key);
        let parents = parents_with(self.parents(), NO_NODE);
        Body::of_record(alloc, keys.as_slice(), parents.as_slice())
    }

    pub(crate) fn kind(&self) -> Kind
        ensures { Some result ≡ kind_in (Some (shape_in_body self.now)) }
    {
        match self {
            Body::Inner { .. } => Kind::Inner,
            Body::File { .. } => Kind::File,
            Body::Index { .. } => Kind::Index,
            Body::Interval { .. } => Kind::Interval,
            Body::NoKey { .. }
            | Body::OneKey { .. }
            | Body::TwoKeys { .. }
            | Body::ThreeKeys { .. }
            | Body::ManyKeys { .. } => Kind::Rec,
        }
    }

    #[inline]
    pub(crate) fn parents(&self) -> &[NodeId]
        ensures { result.now ≡ parents_in_body self.now }
    {
        match self {
            Body::Inner { parents, .. } => parents.as_slice(),
            Body::File { parents, .. } => parents.as_slice(),
            Body::Index { parents, .. } => parents.as_slice(),
            Body::Interval { index } => index.as_slice(),
            Body::NoKey { file } => file.as_slice(),
            Body::OneKey { parents, .. } => parents.as_slice(),
            Body::TwoKeys { parents, .. } => parents.as_slice(),
            Body::ThreeKeys { parents, .. } => parents.as_slice(),
            Body::ManyKeys { parents, .. } => parents.as_slice(),
        }
    }

    pub(crate) fn indexes(&self) -> &[NodeId]
        ensures { result.now ≡ indexes_in_body self.now }
    {
        match self {
            Body::File { kept, .. } => kept.indexes.as_slice(),
            _ => &[],
        }
    }

    pub(crate) fn records(&self) -> usize
        ensures { result ≡ records_in_body self.now }
    {
        match self {
            Body::File { kept, .. } => kept.records,
            _ => 0,
        }
    }

    pub(crate) fn children(&self) -> usize
        ensures { result ≡ children_in_body self.now }
    {
        match self {
            Body::Inner { children, .. } => *children,
            _ => 0,
        }
    }

    pub(crate) fn is_adopted(&self) -> bool
        ensures { result ≡ is_adopted (Some (shape_in_body self.now)) }
    {
        match self {
            Body::File { kept, .. } => kept.adopted,
            _ => false,
        }
    }

    pub(crate) fn file(&self) -> Option<NodeId>
        ensures { result ≡ file_in (Some (shape_in_body self.now)) }
    {
        match self {
            Body::Index { kept, .. } => Some(kept.file),
            _ => None,
        }
    }

    pub(crate) fn bounds(&self) -> &[u64]
        ensures { result.now ≡ bounds_in (Some (shape_in_body self.now)) }
    {
        match self {
            Body::Index { kept, .. } => kept.bounds.as_slice(),
            _ => &[],
        }
    }

    pub(crate) fn intervals(&self) -> &[NodeId]
        ensures { result.now ≡ intervals_in (Some (shape_in_body self.now)) }
    {
        match self {
            Body::Index { kept, .. } => kept.intervals.as_slice(),
            _ => &[],
        }
    }

    pub(crate) fn keys(&self) -> &[u64]
        ensures { result.now ≡ keys_in (Some (shape_in_body self.now)) }
    {
        match self {
            Body::OneKey { key, .. } => key.as_slice(),
            Body::TwoKeys { keys, .. } => keys.as_slice(),
            Body::ThreeKeys { keys, .. } => keys.as_slice(),
            Body::ManyKeys { keys, .. } => keys.as_slice(),
            _ => &[],
        }
    }

    /// Sets the number of an inner node's children; another body stays as it is.
    pub(crate) fn set_children(&mut self, fresh: usize)
        ensures { self.new ≡ body_with_children self.old fresh }
    {
        if let Body::Inner { children, .. } = self {
            *children = fresh;
        }
    }

    /// Sets the number of a file's records; another body stays as it is.
    pub(crate) fn set_records(&mut self, fresh: usize)
        ensures { self.new ≡ body_with_records self.old fresh }
    {
        if let Body::File { kept, .. } = self {
            kept.records = fresh;
        }
    }

    /// Marks a file as one of which rows were adopted; another body stays as it is.
    pub(crate) fn adopt(&mut self)
        ensures { self.new ≡ body_adopted self.old }
    {
        if let Body::File { kept, .. } = self {
            kept.adopted = true;
        }
    }

    /// Sets the parents of an inner node, a file or an index, and returns the old ones.
    pub(crate) fn set_parents(&mut self, fresh: Vec<NodeId>) -> Vec<NodeId>
        requires { is_movable_shape (Some (shape_in_body self.old)) ≡ true }
        ensures written { self.new ≡ body_with_parents self.old fresh }
        ensures old { result.items ≡ parents_in_body self.old }
    {
        match self {
            Body::Inner { parents, .. } => mem::replace(parents, fresh),
            Body::File { parents, .. } => mem::replace(parents, fresh),
            Body::Index { parents, .. } => mem::replace(parents, fresh),
            _ => unreachable!(),
        }
    }

    /// Sets the key of a record at this place; another body stays as it is.
    pub(crate) fn set_key(&mut self, place: usize, fresh: u64)
        requires { place < length (keys_in (Some (shape_in_body self.old))) }
        ensures { self.new ≡ body_with_key self.old place fresh }
    {
        match self {
            Body::OneKey { key, .. } => key.as_mut_slice()[place] = fresh,
            Body::TwoKeys { keys, .. } => keys.as_mut_slice()[place] = fresh,
            Body::ThreeKeys { keys, .. } => keys.as_mut_slice()[place] = fresh,
            Body::ManyKeys { keys, .. } => keys.as_mut_slice()[place] = fresh,
            _ => {}
        }
    }

    /// Sets the parent of a record at this place; another body stays as it is.
    pub(crate) fn set_parent(&mut self, place: usize, fresh: NodeId)
        requires { place < length (parents_in_body self.old) }
        ensures { self.new ≡ body_with_parent self.old place fresh }
    {
        match self {
            Body::NoKey { file } => file.as_mut_slice()[place] = fresh,
            Body::OneKey { parents, .. } => parents.as_mut_slice()[place] = fresh,
            Body::TwoKeys { parents, .. } => parents.as_mut_slice()[place] = fresh,
            Body::ThreeKeys { parents, .. } => parents.as_mut_slice()[place] = fresh,
            Body::ManyKeys { parents, .. } => parents.as_mut_slice()[place] = fresh,
            _ => {}
        }
    }

    /// Sets the intervals of an index; another body stays as it is.
    pub(crate) fn set_intervals(&mut self, fresh: Vec<NodeId>)
        ensures { self.new ≡ body_with_intervals self.old fresh }
    {
        if let Body::Index { kept, .. } = self {
            kept.intervals = fresh;
        }
    }

    /// Sets the bounds and the intervals of an index; another body stays as it is.
    pub(crate) fn set_cuts(&mut self, bounds: Vec<u64>, intervals: Vec<NodeId>)
        ensures { self.new ≡ body_with_cuts self.old bounds intervals }
    {
        if let Body::Index { kept, .. } = self {
            kept.bounds = bounds;
            kept.intervals = intervals;
        }
    }

    /// Removes the bound of an index at this place, and the interval that begins there; another
    /// body stays as it is.
    pub(crate) fn remove_cut(&mut self, place: usize)
        requires bounds { place < length (bounds_in (Some (shape_in_body self.old))) }
        requires intervals { place + 1 < length (intervals_in (Some (shape_in_body self.old))) }
        ensures shape { shape_in_body self.new ≡ merged_shape place (shape_in_body self.old) }
        ensures parents { parents_in_body self.new ≡ parents_in_body self.old }
        ensures beside { beside_in_body self.new ≡ beside_in_body self.old }
    {
        if let Body::Index { kept, .. } = self {
            kept.bounds.remove(place);
            kept.intervals.remove(place + 1);
        }
    }

    /// Whether this is a record with a key at this place at or above the bound, and with this
    /// parent at the next place.
    pub(crate) fn is_passed(&self, place: usize, from: NodeId, bound: u64) -> bool
        requires { place + 1 < 2 ^ 64 }
        ensures { result ≡ is_passed place from bound self.now }
    {
        match (self.keys().get(place), self.parents().get(place + 1)) {
            (Some(key), Some(parent)) => *key >= bound && *parent == from,
            _ => false,
        }
    }

    /// Sets the indexes of a file; another body stays as it is.
    pub(crate) fn set_indexes(&mut self, fresh: SmallVec<NodeId, 1>)
        ensures { self.new ≡ body_with_indexes self.old fresh }
    {
        if let Body::File { kept, .. } = self {
            kept.indexes = fresh;
        }
    }

    /// Removes an index from those of a file; another body stays as it is.
    pub(crate) fn unlist(&mut self, index: NodeId)
        ensures { self.new ≡ body_without_index self.old index }
    {
        if let Body::File { kept, .. } = self {
            kept.indexes.retain(|listed| *listed != index);
        }
    }
}

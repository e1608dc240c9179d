//! The laws of lawful graphs, each the contract of a call that does nothing.

ghost use Rattle.gl_graph.specs.Laws.{IndexesKeepGraphs, IntervalsHoldKeys, KeysHaveIntervals, NodesHaveRootPaths, RootPathsGrow, RootPathsShrink};
ghost use Rattle.gl_graph.specs.SplitLaws.{
  MergesKeepGraphs,
  MergesMoveKeys,
  MergesMoveNoOthers,
  MergesUndoSplits,
  SplitsKeepGraphs,
  SplitsMoveKeys,
  SplitsMoveNoOthers,
};

/// Every node has a path to the root. The paths to the root of a child are exactly: one of its
/// parents, and then a path to the root of that parent.
pub fn root_path_laws()
    ensures exist { NodesHaveRootPaths }
    ensures grow { RootPathsGrow }
    ensures shrink { RootPathsShrink }
{}

/// The interval of a key is one of its index's intervals, and of these the one that contains the key:
/// it begins at or below the key, and the next one above it.
pub fn interval_laws()
    ensures exist { KeysHaveIntervals }
    ensures hold { IntervalsHoldKeys }
{}

/// An interval of an index is split in two at a bound: it keeps its keys below the bound, and a new
/// interval has those from the bound on. Or it is merged with the next one, and then has the keys of
/// both. Each other key stays in its interval, and so does each key of each other index.
pub fn split_keys()
    ensures split { SplitsMoveKeys }
    ensures split_others { SplitsMoveNoOthers }
    ensures merge { MergesMoveKeys }
    ensures merge_others { MergesMoveNoOthers }
{}

/// A split or a merge that is not refused, under a free key, leaves the graph lawful: each record is
/// then under the intervals of its keys. A merge undoes a split: only the count of births stays.
pub fn split_graphs()
    ensures split { SplitsKeepGraphs }
    ensures merge { MergesKeepGraphs }
    ensures undone { MergesUndoSplits }
{}

/// An index that is made over the records of a file, with a key for each, and not refused, leaves the
/// graph lawful: each record is then also under the interval of its key for the index.
pub fn index_graphs()
    ensures { IndexesKeepGraphs }
{}

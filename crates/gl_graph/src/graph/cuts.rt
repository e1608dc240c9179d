//! Splitting and merging the intervals of an index.

ghost use Rattle.std.specs.Prelude.{
  ◌≡◌,
  ◌+◌,
  ◌<◌,
  ◌≤◌,
  ◌&&◌,
  ◌||◌,
  IfErr,
  IfOk,
  None,
  OnErr,
  OnOk,
  Some,
  false,
  length,
  nat_le,
  nat_lt,
  position,
  true,
};
ghost use Rattle.std.specs.List.{insert};
ghost use Rattle.gl_modes.specs.Nodes.{same_node};
ghost use Rattle.gl_modes.specs.declared.refusal.Refusal.{Refusal};
ghost use Rattle.gl_graph.specs.Shapes.{is_index_shape, is_interval_shape};
ghost use Rattle.gl_graph.specs.Graph.{indexes_of, shape_of};
ghost use Rattle.gl_graph.specs.Intervals.{beginning};
ghost use Rattle.gl_graph.specs.Refusals.{Refuses, verdict};
ghost use Rattle.gl_graph.specs.Splits.{
  IsSplit,
  bad_bound,
  file_of,
  has_no_next,
  merge,
  merge_refusal,
  next_interval,
  place_among,
  split_refusal,
};
ghost use Rattle.gl_graph.specs.View.{graph_of};

use super::Graph;
use crate::kind::Kind;
use crate::node::{Body, Node};
use crate::store::{move_records, remove_cut, write_cuts};
use gl_modes::{NodeId, Refusal};
use std::alloc::{AllocError, Global};

/// These bounds, with one more at this place.
fn with_bound(
    alloc: Global,
    bounds: &[u64],
    place: usize,
    bound: u64,
) -> Result<Vec<u64>, AllocError>
    requires { place ≤ length bounds.now }
    ensures { IfOk result (λ fresh. fresh.items ≡ insert bounds.now place bound) }
{
    let mut fresh = Vec::with_capacity(alloc, bounds.len() + 1)?;
    fresh.extend_from_slice(bounds)?;
    fresh.insert(place, bound)?;
    Ok(fresh)
}

/// These intervals, with one more at this place.
fn with_interval(
    alloc: Global,
    intervals: &[NodeId],
    place: usize,
    interval: NodeId,
) -> Result<Vec<NodeId>, AllocError>
    requires { place ≤ length intervals.now }
    ensures { IfOk result (λ fresh. fresh.items ≡ insert intervals.now place interval) }
{
    let mut fresh = Vec::with_capacity(alloc, intervals.len() + 1)?;
    fresh.extend_from_slice(intervals)?;
    fresh.insert(place, interval)?;
    Ok(fresh)
}

/// The first key of the interval at this place.
fn first_key(bounds: &[u64], place: usize) -> u64
    requires { place ≤ length bounds.now }
    ensures { result ≡ beginning bounds.now place }
{
    if place == 0 { 0 } else { bounds[place - 1] }
}

/// Whether the bound is above the first key of the interval at this place, and below the next
/// bound.
fn is_between(bounds: &[u64], place: usize, bound: u64) -> bool
    requires { place ≤ length bounds.now }
    ensures { result ≡ (nat_lt (beginning bounds.now place) bound && (nat_le (length bounds.now) place || nat_lt bound (beginning bounds.now (place + 1)))) }
{
    first_key(bounds, place) < bound && (bounds.len() <= place || bound < bounds[place])
}

impl Graph {
    fn is_interval(&self, n: NodeId) -> bool
        ensures { result ≡ is_interval_shape (shape_of (graph_of self.now) n) }
    {
        matches!(self.kind(n), Some(Kind::Interval))
    }

    /// The place of an interval among those of its index.
    fn place_in_index(&self, interval: NodeId) -> usize
        requires { is_interval_shape (shape_of (graph_of self.now) interval) ≡ true }
        ensures { result ≡ place_among (graph_of self.now) interval }
    {
        self.law();
        match self.place(interval) {
            Some(place) => place,
            None => unreachable!(),
        }
    }

    /// The place of an index among those of its file.
    fn place_in_file(&self, index: NodeId) -> usize
        requires { is_index_shape (shape_of (graph_of self.now) index) ≡ true }
        ensures { position (λ listed. same_node listed index) (indexes_of (graph_of self.now) (file_of (shape_of (graph_of self.now) index))) ≡ Some result }
    {
        self.law();
        match self.file_of_index(index) {
            Some(file) => self.index_place(file, index),
            None => unreachable!(),
        }
    }

    /// Whether the interval cannot be split at this bound: the bound is not above the interval's
    /// first key and below the next bound, or the index has as many bounds as it may have. Needs a
    /// step for each interval of the index.
    pub fn is_bad_bound(&self, interval: NodeId, bound: u64) -> bool
        requires interval { is_interval_shape (shape_of (graph_of self.now) interval) ≡ true }
        ensures { result ≡ bad_bound (graph_of self.now) interval bound }
    {
        self.law();
        let bounds = self.bounds(self.first_parent(interval));
        let place = self.place_in_index(interval);
        !is_between(bounds, place, bound) || bounds.len() >= self.most_bounds as usize
    }

    /// Tests whether the interval can be split at this bound, if memory is left. Refused as
    /// `split`, but for `NoMemory`. Needs a step for each interval of the index.
    pub fn check_split(&self, interval: NodeId, bound: u64) -> Result<(), Refusal>
        ensures { result ≡ verdict (split_refusal (graph_of self.now) interval bound) }
    {
        if self.worn() {
            Err(Refusal::WornOut)
        } else if !self.lives(interval) {
            Err(Refusal::NoSuchNode)
        } else if !self.is_interval(interval) {
            Err(Refusal::BadParents)
        } else if self.is_bad_bound(interval, bound) {
            Err(Refusal::BadKeys)
        } else if self.is_full() {
            Err(Refusal::TooManyNodes)
        } else {
            Ok(())
        }
    }

    /// Splits an interval at a bound: it keeps its keys below the bound, and a new interval, right
    /// after it in its index, has those from the bound on. Each record of the index's file then has
    /// the interval of its key as its parent. Needs a step for each place of the graph, living or
    /// not.
    ///
    /// Refused, in this order, with `WornOut`, `NoSuchNode`, `BadParents` (no interval), `BadKeys`
    /// (the bound is not above the interval's first key and below the next bound, or the index has
    /// `most_bounds` bounds), `TooManyNodes` and `NoMemory`.
    pub fn split(&mut self, interval: NodeId, bound: u64) -> Result<NodeId, Refusal>
        ensures made { IfOk result (λ n. IsSplit (graph_of self.old) (graph_of self.new) interval n bound) }
        ensures refuses { Refuses (split_refusal (graph_of self.old) interval bound) result }
        ensures err { OnErr result (self.new ≡ self.old) }
    {
        self.check_split(interval, bound)?;
        self.split_unrefused(interval, bound)
    }

    /// As `split`. No refusal but `NoMemory` may apply, and that is the only one answered.
    pub fn split_unrefused(&mut self, interval: NodeId, bound: u64) -> Result<NodeId, Refusal>
        requires { split_refusal (graph_of self.old) interval bound ≡ None }
        ensures made { IfOk result (λ n. IsSplit (graph_of self.old) (graph_of self.new) interval n bound) }
        ensures key { IfOk result (λ n. n.key ≡ self.old.next_key) }
        ensures refused { IfErr result (λ r. r ≡ Refusal.NoMemory) }
        ensures err { OnErr result (self.new ≡ self.old) }
    {
        let index = self.first_parent(interval);
        let place = self.place_in_index(interval);
        let index_place = self.place_in_file(index);
        let birth = self.births + 1;
        let fresh = NodeId {
            key: self.nodes.vacant_key(),
            birth,
        };
        let Ok(bounds) = with_bound(self.alloc, self.bounds(index), place, bound) else {
            return Err(Refusal::NoMemory);
        };
        let Ok(intervals) = with_interval(self.alloc, self.intervals(index), place + 1, fresh)
        else {
            return Err(Refusal::NoMemory);
        };
        let body = Body::Interval { index: [index] };
        let Ok(_) = self.nodes.insert(Node { birth, body }) else {
            return Err(Refusal::NoMemory);
        };
        write_cuts(&mut self.nodes, index.key, bounds, intervals);
        move_records(&mut self.nodes, index_place, interval, bound, fresh);
        self.births = birth;
        Ok(fresh)
    }

    /// Whether the node is no interval, or the last one of its index. Needs a step for each
    /// interval of the index.
    pub fn has_no_next(&self, n: NodeId) -> bool
        ensures { result ≡ has_no_next (graph_of self.now) n }
    {
        if !self.is_interval(n) {
            return true;
        }
        self.bounds(self.first_parent(n)).len() <= self.place_in_index(n)
    }

    /// The interval after this one in its index. Needs a step for each interval of the index.
    pub fn next_interval(&self, interval: NodeId) -> NodeId
        requires { has_no_next (graph_of self.now) interval ≡ false }
        ensures { result ≡ next_interval (graph_of self.now) interval }
    {
        self.law();
        let intervals = self.intervals(self.first_parent(interval));
        let place = self.place_in_index(interval);
        intervals[place + 1]
    }

    /// Tests whether the interval can be merged with the next one. Refused as `merge`. Needs a step
    /// for each interval of the index.
    pub fn check_merge(&self, interval: NodeId) -> Result<(), Refusal>
        ensures { result ≡ verdict (merge_refusal (graph_of self.now) interval) }
    {
        if !self.lives(interval) {
            Err(Refusal::NoSuchNode)
        } else if self.has_no_next(interval) {
            Err(Refusal::BadParents)
        } else {
            Ok(())
        }
    }

    /// Merges an interval with the next one of its index: it also has the keys of that one, which
    /// is removed. Each record of the index's file then has the interval of its key as its parent.
    /// Allocates no memory. Needs a step for each place of the graph, living or not.
    ///
    /// Refused, in this order, with `NoSuchNode` and `BadParents` (no interval, or the last one of
    /// its index).
    pub fn merge(&mut self, interval: NodeId) -> Result<(), Refusal>
        ensures result { result ≡ verdict (merge_refusal (graph_of self.old) interval) }
        ensures merged { OnOk result (graph_of self.new ≡ merge (graph_of self.old) interval) }
        ensures err { OnErr result (self.new ≡ self.old) }
    {
        self.check_merge(interval)?;
        self.merge_unrefused(interval);
        Ok(())
    }

    /// As `merge`, where no refusal applies.
    pub fn merge_unrefused(&mut self, interval: NodeId)
        requires { merge_refusal (graph_of self.old) interval ≡ None }
        ensures { graph_of self.new ≡ merge (graph_of self.old) interval }
    {
        let index = self.first_parent(interval);
        let place = self.place_in_index(interval);
        let index_place = self.place_in_file(index);
        let next = self.next_interval(interval);
        self.nodes.remove(next.key);
        remove_cut(&mut self.nodes, index.key, place);
        move_records(&mut self.nodes, index_place, next, 0, interval);
    }
}

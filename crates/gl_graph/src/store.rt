//! The slab of nodes: looking up and writing nodes.

ghost use Rattle.std.specs.Prelude.{
  ◌+◌,
  ◌<◌,
  ◌≡◌,
  ◌≤◌,
  ◌^◌,
  ◌-◌,
  ℕ,
  Some,
  [],
  length,
  option_copied,
  true,
  vec_capacity,
};
ghost use Rattle.slab.specs.Slab.{ContainsKey, HasRoomFor, Updates, get, slab_len};
ghost use Rattle.gl_graph.specs.declared.node.Node.{Node};
ghost use Rattle.std.specs.Option.{option_map};
ghost use Rattle.gl_graph.specs.Shapes.{bounds_in, intervals_in, is_movable_shape, keys_in};
ghost use Rattle.gl_graph.specs.Seen.{
  AreBornApart,
  AreBornWithin,
  body_adopted,
  body_rekeyed,
  body_with_children,
  body_with_cuts,
  body_with_indexes,
  body_with_intervals,
  body_with_parents,
  body_with_records,
  body_without_index,
  named,
  node_passed,
  parents_in_body,
  shape_in_body,
};
ghost use Rattle.gl_graph.specs.Grown.{AreGone, AreIntervalsBorn, AreRecounted, AreStored, EachKeeps, LosesCut};

use crate::node::{Body, Node};
use gl_modes::NodeId;
use slab::Slab;
use smallvec::SmallVec;

/// The node that the id names.
pub(crate) fn find(nodes: &Slab<Node>, n: NodeId) -> Option<&Node>
    ensures { option_copied result ≡ named nodes.now n }
{
    match nodes.get(n.key) {
        Some(node) if node.birth == n.birth => Some(node),
        _ => None,
    }
}

/// Sets the number of a file's records.
pub(crate) fn write_records(nodes: &mut Slab<Node>, key: usize, records: usize)
    requires { ContainsKey nodes.old key }
    ensures written { (x : Node) → get nodes.old key ≡ Some x → Updates nodes.old nodes.new key (Some (record x { body = body_with_records x.body records })) }
    ensures len { slab_len nodes.new ≡ slab_len nodes.old }
{
    nodes[key].body.set_records(records);
}

/// Sets the number of an inner node's children.
fn write_children(nodes: &mut Slab<Node>, key: usize, children: usize)
    requires { ContainsKey nodes.old key }
    ensures written { (x : Node) → get nodes.old key ≡ Some x
        → Updates nodes.old nodes.new key (Some (record x { body = body_with_children x.body children })) }
    ensures len { slab_len nodes.new ≡ slab_len nodes.old }
{
    nodes[key].body.set_children(children);
}

/// Marks a file as one of which rows were adopted.
pub(crate) fn write_adopted(nodes: &mut Slab<Node>, key: usize)
    requires { ContainsKey nodes.old key }
    ensures written { (x : Node) → get nodes.old key ≡ Some x → Updates nodes.old nodes.new key (Some (record x { body = body_adopted x.body })) }
    ensures len { slab_len nodes.new ≡ slab_len nodes.old }
    ensures next { nodes.new.vacant_key ≡ nodes.old.vacant_key }
{
    nodes[key].body.adopt();
}

/// Sets the parents of an inner node, a file or an index, and returns the old ones.
pub(crate) fn write_parents(nodes: &mut Slab<Node>, key: usize, fresh: Vec<NodeId>) -> Vec<NodeId>
    requires there { ContainsKey nodes.old key }
    requires movable { (x : Node) → get nodes.old key ≡ Some x → is_movable_shape (Some (shape_in_body x.body)) ≡ true }
    ensures written { (x : Node) → get nodes.old key ≡ Some x → Updates nodes.old nodes.new key (Some (record x { body = body_with_parents x.body fresh })) }
    ensures old { (x : Node) → get nodes.old key ≡ Some x → result.items ≡ parents_in_body x.body }
    ensures len { slab_len nodes.new ≡ slab_len nodes.old }
{
    nodes[key].body.set_parents(fresh)
}

/// Adds one to the number of children of each of these different nodes.
pub(crate) fn count_up(nodes: &mut Slab<Node>, ids: &[NodeId])
    requires stored { AreStored nodes.old ids.now }
    requires room { EachKeeps (λ children. children + 1 < 2 ^ 64) nodes.old ids.now }
    ensures counted { AreRecounted (λ children. children + 1) nodes.old nodes.new ids.now (length ids.now) }
{
    for n in ids {
        let children = nodes[n.key].body.children();
        write_children(nodes, n.key, children + 1);
    }
}

/// Subtracts one from the number of children of each of these different nodes.
pub(crate) fn count_down(nodes: &mut Slab<Node>, ids: &[NodeId])
    requires stored { AreStored nodes.old ids.now }
    requires some { EachKeeps (λ children. 1 ≤ children) nodes.old ids.now }
    ensures counted { AreRecounted (λ children. children - 1) nodes.old nodes.new ids.now (length ids.now) }
{
    for n in ids {
        let children = nodes[n.key].body.children();
        write_children(nodes, n.key, children - 1);
    }
}

/// Sets one key of a record, and the interval that contains it.
pub(crate) fn write_key(
    nodes: &mut Slab<Node>,
    rec: usize,
    place: usize,
    key: u64,
    interval: NodeId,
)
    requires there { ContainsKey nodes.old rec }
    requires keys { (x : Node) → get nodes.old rec ≡ Some x → place < length (keys_in (Some (shape_in_body x.body))) }
    requires parents { (x : Node) → get nodes.old rec ≡ Some x → place + 1 < length (parents_in_body x.body) }
    requires place { place + 1 < 2 ^ 64 }
    ensures written { (x : Node) → get nodes.old rec ≡ Some x
        → Updates nodes.old nodes.new rec (Some (record x { body = body_rekeyed x.body place key interval })) }
    ensures len { slab_len nodes.new ≡ slab_len nodes.old }
{
    let body = &mut nodes[rec].body;
    body.set_key(place, key);
    body.set_parent(place + 1, interval);
}

/// Sets the intervals of an index.
pub(crate) fn write_intervals(nodes: &mut Slab<Node>, key: usize, intervals: Vec<NodeId>)
    requires { ContainsKey nodes.old key }
    ensures written { (x : Node) → get nodes.old key ≡ Some x
        → Updates nodes.old nodes.new key (Some (record x { body = body_with_intervals x.body intervals })) }
    ensures len { slab_len nodes.new ≡ slab_len nodes.old }
{
    nodes[key].body.set_intervals(intervals);
}

/// Sets the bounds and the intervals of an index.
pub(crate) fn write_cuts(
    nodes: &mut Slab<Node>,
    key: usize,
    bounds: Vec<u64>,
    intervals: Vec<NodeId>,
)
    requires { ContainsKey nodes.old key }
    ensures written { (x : Node) → get nodes.old key ≡ Some x
        → Updates nodes.old nodes.new key (Some (record x { body = body_with_cuts x.body bounds intervals })) }
    ensures len { slab_len nodes.new ≡ slab_len nodes.old }
{
    nodes[key].body.set_cuts(bounds, intervals);
}

/// Removes the bound of an index at this place, and the interval that begins there.
pub(crate) fn remove_cut(nodes: &mut Slab<Node>, key: usize, place: usize)
    requires there { ContainsKey nodes.old key }
    requires bounds { (x : Node) → get nodes.old key ≡ Some x → place < length (bounds_in (Some (shape_in_body x.body))) }
    requires intervals { (x : Node) → get nodes.old key ≡ Some x → place + 1 < length (intervals_in (Some (shape_in_body x.body))) }
    ensures written { (x : Node) → get nodes.old key ≡ Some x → LosesCut nodes.old nodes.new key place x }
    ensures len { slab_len nodes.new ≡ slab_len nodes.old }
{
    nodes[key].body.remove_cut(place);
}

/// Moves the record under this key, if its key at this place is at or above the bound and the
/// parent for it is `from`: that parent is then `to`.
fn move_record(
    nodes: &mut Slab<Node>,
    at: usize,
    place: usize,
    from: NodeId,
    bound: u64,
    to: NodeId,
)
    requires { place + 1 < 2 ^ 64 }
    ensures moved { Updates nodes.old nodes.new at (option_map (node_passed place from bound to) (get nodes.old at)) }
    ensures len { slab_len nodes.new ≡ slab_len nodes.old }
{
    let Some(node) = nodes.get(at) else {
        return;
    };
    if node.body.is_passed(place, from, bound) {
        nodes[at].body.set_parent(place + 1, to);
    }
}

/// Moves the records whose key at this place is at or above the bound from one interval to another.
/// Needs a step for each place of the slab.
pub(crate) fn move_records(
    nodes: &mut Slab<Node>,
    place: usize,
    from: NodeId,
    bound: u64,
    to: NodeId,
)
    requires { place + 1 < 2 ^ 64 }
    ensures moved { (key : ℕ) → get nodes.new key ≡ option_map (node_passed place from bound to) (get nodes.old key) }
    ensures len { slab_len nodes.new ≡ slab_len nodes.old }
{
    for at in 0..nodes.capacity() {
        move_record(nodes, at, place, from, bound, to);
    }
}

/// Sets the indexes of a file.
pub(crate) fn write_indexes(nodes: &mut Slab<Node>, key: usize, indexes: SmallVec<NodeId, 1>)
    requires { ContainsKey nodes.old key }
    ensures written { (x : Node) → get nodes.old key ≡ Some x → Updates nodes.old nodes.new key (Some (record x { body = body_with_indexes x.body indexes })) }
    ensures len { slab_len nodes.new ≡ slab_len nodes.old }
{
    nodes[key].body.set_indexes(indexes);
}

/// Removes an index from those of a file.
pub(crate) fn unlist_index(nodes: &mut Slab<Node>, key: usize, index: NodeId)
    requires { ContainsKey nodes.old key }
    ensures written { (x : Node) → get nodes.old key ≡ Some x → Updates nodes.old nodes.new key (Some (record x { body = body_without_index x.body index })) }
    ensures len { slab_len nodes.new ≡ slab_len nodes.old }
{
    nodes[key].body.unlist(index);
}

/// Removes these different nodes.
pub(crate) fn remove_all(nodes: &mut Slab<Node>, ids: &[NodeId])
    requires { AreStored nodes.old ids.now }
    ensures gone { AreGone nodes.old nodes.new ids.now (length ids.now) }
{
    for n in ids {
        nodes.remove(n.key);
    }
}

/// Stores `count` intervals of an index, with the births after the index's, and lists them.
pub(crate) fn insert_intervals(
    nodes: &mut Slab<Node>,
    index: NodeId,
    count: usize,
    ids: &mut Vec<NodeId>,
)
    requires room { HasRoomFor nodes.old count }
    requires list_room { count ≤ vec_capacity ids.old }
    requires none { ids.old.items ≡ [] }
    requires births { index.birth + count < 2 ^ 64 }
    requires apart { AreBornApart nodes.old }
    requires within { AreBornWithin nodes.old index.birth }
    ensures born { AreIntervalsBorn nodes.old nodes.new index count ids.new.items }
{
    for place in 0..count {
        let birth = index.birth + 1 + place as u64;
        let body = Body::Interval { index: [index] };
        let key = nodes.insert_reserved(Node { birth, body });
        ids.push_reserved(NodeId { key, birth });
    }
}

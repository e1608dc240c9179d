//! Few entries, which are scanned, and more, which are in a hash map. The functions over a hash map
//! are separate, so that those over few entries are short.

ghost use Rattle.std.specs.Prelude.{◌≡◌, ◌+◌, ◌<◌, ◌≤◌, [], IfNone, IsTrue, None, Some, if◌then◌else◌, is_some, length, vec_capacity, position};
ghost use Rattle.std.specs.List.{IsDistinct};
ghost use Rattle.std.specs.Map.{keys_of};
ghost use Rattle.indexmap.specs.IndexMap.{get, index_map_len, index_of, insert_entry, spare, swap_remove_entry, IsUnchanged, IsUnique, Updates};
ghost use Rattle.gl_modes.specs.Nodes.{same_node};

use gl_modes::NodeId;
use indexmap::IndexMap;

/// The place of a node's entry. The scan begins with the last one.
pub(crate) fn place_of<V: Copy>(rows: &[(NodeId, V)], node: NodeId) -> Option<usize>
    requires { IsDistinct same_node (keys_of rows.now) }
    ensures { result ≡ position (same_node node) (keys_of rows.now) }
{
    for place in (0..rows.len()).rev() {
        if rows[place].0 == node {
            return Some(place);
        }
    }
    None
}

/// Where the last two nodes were found in a hash map, or any places: a hint, of which nothing is
/// promised. Many requests of a transaction have the same parents.
#[derive(Clone, Copy)]
pub(crate) struct Recent {
    last: usize,
    before: usize,
}

impl Recent {
    /// Nothing was found yet.
    pub(crate) fn new() -> Self {
        Recent { last: 0, before: 0 }
    }

    /// The hint after a node was found at this place.
    pub(crate) fn and(self, place: usize) -> Self {
        if place == self.last {
            return self;
        }
        Recent {
            last: place,
            before: self.last,
        }
    }
}

/// Whether a node's entry is at this place of a hash map.
#[inline]
fn stands_at<V: Copy>(map: &IndexMap<NodeId, V>, place: usize, node: NodeId) -> bool
    ensures there { IsTrue result → index_of same_node map.now node ≡ Some place }
    ensures unique { IsUnique same_node map.now }
{
    place < map.len() && *map.get_index(place).unwrap().0 == node
}

/// The place of a node's entry in a hash map: one where a node was found last, or else by its hash.
#[inline(never)]
pub(crate) fn place_in<V: Copy>(
    map: &IndexMap<NodeId, V>,
    recent: Recent,
    node: NodeId,
) -> Option<usize>
    ensures place { result ≡ index_of same_node map.now node }
    ensures unique { IsUnique same_node map.now }
{
    if stands_at(map, recent.before, node) {
        Some(recent.before)
    } else if stands_at(map, recent.last, node) {
        Some(recent.last)
    } else {
        search(map, node)
    }
}

/// The place of a node's entry in a hash map, by its hash. Separate, so that a look-up by the hint
/// saves no registers.
#[inline(never)]
fn search<V: Copy>(map: &IndexMap<NodeId, V>, node: NodeId) -> Option<usize>
    ensures { result ≡ index_of same_node map.now node }
{
    map.get_index_of(&node)
}

/// Inserts a value into a hash map that has room, last if its node is new.
#[inline(never)]
pub(crate) fn put<V: Copy>(map: &mut IndexMap<NodeId, V>, node: NodeId, value: V)
    requires { 0 < spare map.old }
    ensures updates { Updates same_node map.old map.new node (Some value) }
    ensures entries { map.new.entries ≡ insert_entry same_node map.old.entries node value }
    ensures room { spare map.old ≤ spare map.new + 1 }
    ensures unique { IsUnique same_node map.new }
{
    map.insert(node, value).unwrap();
}

/// Removes a node's entry from a hash map and returns its value. The last entry takes its place. It is
/// tried first: what is removed is mostly what was inserted last.
#[inline(never)]
pub(crate) fn take_out<V: Copy>(map: &mut IndexMap<NodeId, V>, node: NodeId) -> Option<V>
    ensures value { result ≡ get same_node map.old node }
    ensures updates { Updates same_node map.old map.new node None }
    ensures entries { map.new.entries ≡ swap_remove_entry (same_node node) map.old.entries }
    ensures unchanged { IfNone result (IsUnchanged map.old map.new) }
    ensures len { index_map_len map.new + (if is_some result then 1 else 0) ≡ index_map_len map.old }
    ensures room { spare map.old ≤ spare map.new }
    ensures unique { IsUnique same_node map.new }
{
    let last = map.len().saturating_sub(1);
    if stands_at(map, last, node) {
        let (_, value) = map.swap_remove_index(last)?;
        Some(value)
    } else {
        search_out(map, node)
    }
}

/// As `take_out`, by the hash.
#[inline(never)]
fn search_out<V: Copy>(map: &mut IndexMap<NodeId, V>, node: NodeId) -> Option<V>
    ensures value { result ≡ get same_node map.old node }
    ensures updates { Updates same_node map.old map.new node None }
    ensures entries { map.new.entries ≡ swap_remove_entry (same_node node) map.old.entries }
    ensures unchanged { IfNone result (IsUnchanged map.old map.new) }
    ensures len { index_map_len map.new + (if is_some result then 1 else 0) ≡ index_map_len map.old }
    ensures room { spare map.old ≤ spare map.new }
    ensures unique { IsUnique same_node map.new }
{
    map.swap_remove(&node)
}

/// Moves all entries into the hash map, in their order.
#[inline(never)]
pub(crate) fn move_all<V: Copy>(rows: &mut Vec<(NodeId, V)>, map: &mut IndexMap<NodeId, V>)
    requires distinct { IsDistinct same_node (keys_of rows.old.items) }
    requires empty { map.old.entries ≡ [] }
    requires room { length rows.old.items ≤ spare map.old }
    ensures emptied { rows.new.items ≡ [] }
    ensures capacity { vec_capacity rows.new ≡ vec_capacity rows.old }
    ensures moved { map.new.entries ≡ rows.old.items }
    ensures room { spare map.old ≤ spare map.new + length rows.old.items }
{
    for row in rows.as_slice() {
        map.insert(row.0, row.1).unwrap();
    }
    rows.clear();
}

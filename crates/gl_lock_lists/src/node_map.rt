//! The map.

ghost use Rattle.std.specs.Prelude.{
  ◌≡◌,
  ◌+◌,
  ◌<◌,
  ◌≤◌,
  ◌↔◌,
  ◌++◌,
  ◌∷◌,
  [],
  is_some,
  if◌then◌else◌,
  slice_get,
  position,
  None,
  Some,
  IsTrue,
  IsOk,
  IsSome,
  IfSome,
  IfNone,
  OnOk,
};
ghost use Rattle.std.specs.Borrow.{sem};
ghost use Rattle.std.specs.Map.Iter.{deref_pair};
ghost use Rattle.std.specs.Option.{option_copied, option_copied_mut, option_map};
ghost use Rattle.indexmap.specs.IndexMap.{get, index_map_len, index_of, keys, spare, values, swap_remove_entry, IsEmpty, IsUnchanged, IsUnique, Updates};
ghost use Rattle.gl_modes.specs.Nodes.{same_node};
ghost use Rattle.gl_lock_lists.specs.Lends.{lends_at, lends_get};

use crate::rows::{Recent, move_all, place_in, place_of, put, take_out};
use gl_modes::NodeId;
use indexmap::IndexMap;
use std::alloc::{AllocError, Global};
use std::marker::Model;

/// The most entries that are scanned. More are found by hash.
const SHORT: usize = 16;

/// Values by node, in the order in which they were inserted.
///
/// Up to 16 are scanned from the end, without a hash. More are in a hash map, until all are removed. A
/// look-up there first tries the places found last, and then the hash.
#[derive(Drop)]
pub struct NodeMap<V: Copy> {
    rows: Vec<(NodeId, V)>,
    map: IndexMap<NodeId, V>,
    recent: Recent,
}

impl<V: Copy> Model for NodeMap<V> {
    ghost use Rattle.gl_lock_lists.specs.Rows.{Listed, listed_code};

    ghost Value = { Listed V };

    ghost coded = { listed_code V.code };

    ghost use Rattle.gl_lock_lists.specs.Sound.{listed, IsSound};

    ghost view = { listed };

    ghost invariant = { IsSound };
}

impl<V: Copy> NodeMap<V> {
    /// An empty map. Allocates no memory.
    pub fn new(alloc: Global) -> Self
        ensures empty { IsEmpty result }
        ensures len { index_map_len result ≡ 0 }
        ensures unique { IsUnique same_node result }
    {
        NodeMap {
            rows: Vec::new(alloc),
            map: IndexMap::new(alloc),
            recent: Recent::new(),
        }
    }

    /// How many nodes there are.
    pub fn len(&self) -> usize
        ensures len { result ≡ index_map_len self.now }
        ensures unique { IsUnique same_node self.now }
    {
        if self.map.is_empty() {
            self.rows.len()
        } else {
            self.map.len()
        }
    }

    /// Whether there are no nodes.
    pub fn is_empty(&self) -> bool
        ensures { IsTrue result ↔ (index_map_len self.now ≡ 0) }
    {
        self.len() == 0
    }

    /// The place of the node.
    #[inline]
    fn place(&self, node: NodeId) -> Option<usize>
        ensures place { result ≡ index_of same_node self.now node }
        ensures unique { IsUnique same_node self.now }
    {
        if self.map.is_empty() {
            place_of(&self.rows, node)
        } else {
            place_in(&self.map, self.recent, node)
        }
    }

    /// The node at a place, and its value.
    pub fn get_index(&self, place: usize) -> Option<(&NodeId, &V)>
        ensures entry { option_map deref_pair result ≡ slice_get self.now.entries place }
        ensures value { IfSome result (λ p. get same_node self.now p.0.now ≡ Some p.1.now) }
    {
        if self.map.is_empty() {
            let (node, value) = self.rows.get(place)?;
            Some((node, value))
        } else {
            self.map.get_index(place)
        }
    }

    /// The node at a place.
    pub fn node_at(&self, place: usize) -> NodeId
        requires { place < index_map_len self.now }
        ensures { slice_get (keys self.now) place ≡ Some result }
    {
        if self.map.is_empty() {
            self.rows[place].0
        } else {
            *self.map.get_index(place).unwrap().0
        }
    }

    /// The value of the node.
    #[inline]
    pub fn get(&self, node: NodeId) -> Option<&V>
        ensures value { option_copied result ≡ get same_node self.now node }
    {
        let (_, value) = self.get_index(self.place(node)?)?;
        Some(value)
    }

    /// The value of the node, to write.
    pub fn get_mut(&mut self, node: NodeId) -> Option<&mut V>
        ensures* writes_back { sem 𝓛 (lends_get V.row self.entry node result) }
        ensures value { option_copied_mut result ≡ get same_node self.old node }
        ensures unique { IsUnique same_node self.old }
    {
        match self.place(node) {
            Some(place) => {
                self.note(place);
                Some(self.value_mut(place))
            }
            None => None,
        }
    }

    /// Notes where a node was found, if there is a hash map.
    #[inline]
    fn note(&mut self, place: usize)
        ensures { self.new ≡ self.old }
    {
        if !self.map.is_empty() {
            self.recent = self.recent.and(place);
        }
    }

    /// The value at a place, to write.
    fn value_mut(&mut self, place: usize) -> &mut V
        requires { place < index_map_len self.old }
        ensures* writes_back { sem 𝓛 (lends_at V.row self.entry place result) }
        ensures value { slice_get (values self.old) place ≡ Some result.now }
    {
        if self.map.is_empty() {
            &mut self.rows[place].1
        } else {
            &mut self.map[place]
        }
    }

    /// Makes room for one more node.
    #[inline]
    pub fn reserve_one(&mut self) -> Result<(), AllocError>
        ensures entries { IsUnchanged self.old self.new }
        ensures ok { OnOk result (0 < spare self.new) }
        ensures succeeds { 0 < spare self.old → IsOk result }
        ensures room { spare self.old ≤ spare self.new }
    {
        if !self.map.is_empty() {
            self.map.reserve(1)
        } else if self.rows.len() < SHORT {
            self.rows.reserve(1)
        } else {
            self.map.reserve(SHORT + 1)
        }
    }

    /// Inserts a value last, for a node that has none. There must be room.
    #[inline(always)]
    pub fn insert_new(&mut self, node: NodeId, value: V)
        requires new { get same_node self.old node ≡ None }
        requires room { 0 < spare self.old }
        ensures updates { Updates same_node self.old self.new node (Some value) }
        ensures entries { self.new.entries ≡ self.old.entries ++ (node, value) ∷ [] }
        ensures len { index_map_len self.new ≡ index_map_len self.old + 1 }
        ensures spare { spare self.old ≤ spare self.new + 1 }
        ensures unique { IsUnique same_node self.new }
    {
        if !self.map.is_empty() {
            put(&mut self.map, node, value);
        } else if self.rows.len() < SHORT {
            self.rows.push_reserved((node, value));
        } else {
            move_all(&mut self.rows, &mut self.map);
            put(&mut self.map, node, value);
        }
    }

    /// Removes the node and returns its value. The last entry takes its place.
    pub fn swap_remove(&mut self, node: NodeId) -> Option<V>
        ensures value { result ≡ get same_node self.old node }
        ensures updates { Updates same_node self.old self.new node None }
        ensures entries { self.new.entries ≡ swap_remove_entry (same_node node) self.old.entries }
        ensures unchanged { IfNone result (IsUnchanged self.old self.new) }
        ensures len { index_map_len self.new + (if is_some result then 1 else 0) ≡ index_map_len self.old }
        ensures room { spare self.old ≤ spare self.new }
        ensures unique { IsUnique same_node self.new }
    {
        if self.map.is_empty() {
            let place = place_of(&self.rows, node)?;
            Some(self.rows.swap_remove(place).1)
        } else {
            take_out(&mut self.map, node)
        }
    }

    /// Removes everything, and keeps the room. Of a hash map it writes only the entries, not all its
    /// room.
    pub fn clear(&mut self)
        ensures empty { IsEmpty self.new }
        ensures len { index_map_len self.new ≡ 0 }
        ensures capacity { index_map_len self.old + spare self.old ≤ spare self.new }
        ensures unique { IsUnique same_node self.new }
    {
        self.rows.clear();
        if self.map.is_empty() {
            return;
        }
        self.map.truncate(0);
    }
}

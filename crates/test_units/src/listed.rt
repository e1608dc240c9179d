//! A list under nodes, compared with an `IndexMap`.

use crate::wanted::same;
use gl_lock_lists::NodeMap;
use gl_modes::NodeId;
use indexmap::IndexMap;
use std::alloc::{AllocError, Global};
use std::process::Abort;

fn node(number: u64) -> NodeId {
    NodeId {
        key: (number % 7) as usize,
        birth: number,
    }
}

/// A list, and a map of the same rows.
#[derive(Drop)]
struct Pair {
    list: NodeMap<u32>,
    map: IndexMap<NodeId, u32>,
}

/// Adds a value at the end, unless the node has one.
fn put(list: &mut NodeMap<u32>, number: u64, value: u32) -> Result<(), AllocError> {
    let node = node(number);
    list.reserve_one()?;
    if list.get(node).is_none() {
        list.insert_new(node, value);
    }
    Ok(())
}

/// Adds a value to both.
fn put_in_both(rt: &impl Abort, pair: &mut Pair, number: u64, value: u32) {
    same(rt, put(&mut pair.list, number, value).is_ok(), true);
    same(rt, pair.map.insert(node(number), value).is_ok(), true);
}

/// Both have the same rows in the same order.
fn rows_are_alike(rt: &impl Abort, pair: &Pair) {
    for place in 0..=pair.map.len() {
        same(rt, pair.list.get_index(place), pair.map.get_index(place));
    }
}

/// Both have the same length and the same rows in the same order, and find each of these nodes alike.
fn are_alike(rt: &impl Abort, pair: &Pair) {
    same(rt, pair.list.len(), pair.map.len());
    same(rt, pair.list.is_empty(), pair.map.is_empty());
    rows_are_alike(rt, pair);
    for number in 0..45 {
        let node = node(number);
        same(rt, pair.list.get(node), pair.map.get(&node));
    }
}

/// A list of this many rows, and the map of the same.
fn filled(rt: &impl Abort, alloc: Global, rows: u64) -> Pair {
    let mut pair = Pair {
        list: NodeMap::new(alloc),
        map: IndexMap::new(alloc),
    };
    for number in 0..rows {
        put_in_both(rt, &mut pair, number, (number % 256) as u32);
    }
    pair
}

/// Writes a value into both if they have the node.
fn write(pair: &mut Pair, number: u64, value: u32) {
    if let Some(place) = pair.list.get_mut(node(number)) {
        *place = value;
    }
    if let Some(place) = pair.map.get_mut(&node(number)) {
        *place = value;
    }
}

#[test]
fn a_list_fills_as_a_map_does(rt: HostRuntime) {
    for rows in 0..=40 {
        are_alike(&rt, &filled(&rt, rt.alloc(), rows));
    }
}

#[test]
fn a_list_is_what_a_map_is(rt: HostRuntime) {
    let mut pair = filled(&rt, rt.alloc(), 40);
    for number in 0..40 {
        let other = node(number * 11 % 40);
        let came = pair.list.swap_remove(other);
        same(&rt, came, pair.map.swap_remove(&other));
        are_alike(&rt, &pair);
    }
    same(&rt, pair.list.len(), 0);
    put_in_both(&rt, &mut pair, 3, 1);
    are_alike(&rt, &pair);
}

/// Writes the first value, the last one and one that is missing, and removes all.
fn writes_and_clears(rt: &impl Abort, alloc: Global, rows: u64) {
    let mut pair = filled(rt, alloc, rows);
    for number in [0, rows.saturating_sub(1), rows] {
        write(&mut pair, number, 500);
        are_alike(rt, &pair);
    }
    same(rt, pair.list.swap_remove(node(rows)), None);
    pair.list.clear();
    pair.map.clear();
    are_alike(rt, &pair);
}

#[test]
fn a_value_is_written_where_it_stands(rt: HostRuntime) {
    for rows in [1, 16, 17, 40] {
        writes_and_clears(&rt, rt.alloc(), rows);
    }
}

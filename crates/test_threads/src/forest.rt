//! A lock graph of fifty nodes, most of them under several parents.

ghost use Rattle.std.specs.Prelude.{◌<◌};

use crate::wanted::{allowed, same};
use gl_catalog::Manager;
use gl_modes::Mode::IX;
use gl_modes::{NodeId, Refusal};
use gl_table::{Told, TxnId};
use std::process::Abort;

/// How many nodes there are before the sessions begin.
pub const NODES: usize = 50;
/// The places of the first area, file, index, interval and record. Roots are first.
const AREAS: usize = 2;

pub const FILES: usize = 6;

pub const INDEXES: usize = 10;

const INTERVALS: usize = 14;

pub const RECORDS: usize = 26;

/// The kind of node at a place.
#[derive(Clone, Copy)]
pub enum Rank {
    Root,
    Area,
    File,
    Index,
    Interval,
    Record,
}

/// The nodes by their places: two roots, four areas under both, four files and an index of each under
/// two areas, three intervals for each index, six records for each file.
#[derive(Drop)]
pub struct Forest {
    pub nodes: [NodeId; NODES],
}

pub fn rank_of(place: usize) -> Rank {
    if place < AREAS {
        Rank::Root
    } else if place < FILES {
        Rank::Area
    } else if place < INDEXES {
        Rank::File
    } else if place < INTERVALS {
        Rank::Index
    } else if place < RECORDS {
        Rank::Interval
    } else {
        Rank::Record
    }
}

/// The file, counted from 0, to which a file, an index, an interval or a record belongs; 0 for others.
pub fn part(place: usize) -> usize
    ensures { result < 4 }
{
    let part = match rank_of(place) {
        Rank::Root | Rank::Area => 0,
        Rank::File => place.saturating_sub(FILES),
        Rank::Index => place.saturating_sub(INDEXES),
        Rank::Interval => place.saturating_sub(INTERVALS) / 3,
        Rank::Record => place.saturating_sub(RECORDS) / 6,
    };
    part % 4
}

/// Whether the node at one place may ever be above another, whatever is moved and rekeyed.
pub fn may_be_above(upper: usize, place: usize) -> bool {
    match (rank_of(upper), rank_of(place)) {
        (_, Rank::Root) | (Rank::Record, _) | (Rank::Area, Rank::Area) => false,
        (Rank::Root | Rank::Area, _) => true,
        (Rank::File | Rank::Interval, Rank::Record) => part(upper) == part(place),
        (Rank::Index, Rank::Interval | Rank::Record) => part(upper) == part(place),
        _ => false,
    }
}

/// Two areas: the first pair or the second.
pub fn pair(forest: &Forest, second: bool) -> [NodeId; 2] {
    let first = if second { AREAS + 2 } else { AREAS };
    [forest.nodes[first], forest.nodes[first + 1]]
}

/// Makes the node of a place, under earlier ones. This transaction inserts records.
fn plant(
    manager: &mut Manager,
    txn: TxnId,
    forest: &Forest,
    place: usize,
) -> Result<NodeId, Refusal> {
    let part = part(place);
    let areas = pair(forest, part % 2 == 1);
    let file = forest.nodes[FILES + part];
    match rank_of(place) {
        Rank::Root => manager.add_inner(&[]),
        Rank::Area => manager.add_inner(&[forest.nodes[0], forest.nodes[1]]),
        Rank::File => manager.add_file(&areas),
        Rank::Index => manager.add_index(&areas, file, &[100, 200]),
        Rank::Interval => Ok(interval(manager, forest.nodes[INDEXES + part], place)),
        Rank::Record => manager.insert(txn, file, &[place as u64 % 3 * 100]),
    }
}

/// The interval at a place of an index.
fn interval(manager: &Manager, index: NodeId, place: usize) -> NodeId {
    let at = place.saturating_sub(INTERVALS) % 3;
    manager.graph().interval(index, at).unwrap_or(NodeId::NONE)
}

/// A new forest without locks.
pub fn add_forest<R: Abort>(rt: &R, manager: &mut Manager) -> Forest {
    let mut forest = Forest {
        nodes: [NodeId::NONE; NODES],
    };
    let txn = allowed(rt, manager.begin());
    for place in 0..NODES {
        let node = allowed(rt, plant(manager, txn, &forest, place));
        forest.nodes[place] = node;
        if place < RECORDS {
            same(rt, manager.try_lock(txn, node, IX), Ok(IX));
        }
    }
    allowed(rt, manager.commit_telling(txn, &mut Told::new()));
    forest
}

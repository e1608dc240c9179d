//! A growing graph.

use crate::bill::Bill;
use crate::watch::Watch;
use gl_graph::{Graph, Kind};
use gl_modes::{NodeId, Refusal};
use std::alloc::Global;

pub(crate) fn run(bill: &mut Bill<'_>) {
    let differs = grows(bill.alloc());
    bill.tell("graph: it grows, and a node moves", differs);
}

/// How many steps there are.
const STEPS: usize = 20;

/// The nodes by the step that made them.
type Names = [NodeId; STEPS];

/// What is compared of a node: kind, number of parents, first parent, last key, number of indexes.
type NodeSeen = (Kind, usize, NodeId, u64, usize);

/// What is compared of all nodes.
#[derive(Clone, Copy, PartialEq)]
struct Seen {
    len: usize,
    nodes: [Option<NodeSeen>; STEPS],
}

fn look(graph: &Graph, names: &Names) -> Seen {
    let mut nodes = [None; STEPS];
    for (place, name) in nodes.iter_mut().zip(names) {
        *place = look_at(graph, *name);
    }
    Seen {
        len: graph.len(),
        nodes,
    }
}

fn look_at(graph: &Graph, node: NodeId) -> Option<NodeSeen> {
    let kind = graph.kind(node)?;
    let parents = graph.parents(node);
    let parent = parents.first().copied().unwrap_or(NodeId::NONE);
    let key = graph.keys(node).last().copied().unwrap_or(0);
    let indexes = match kind {
        Kind::File => graph.indexes(node).len(),
        _ => 0,
    };
    Some((kind, parents.len(), parent, key, indexes))
}

fn move_under(graph: &mut Graph, node: NodeId, parent: NodeId) -> Result<NodeId, Refusal> {
    match (graph.kind(node), graph.kind(parent)) {
        (Some(Kind::Inner), Some(Kind::Inner)) => {
            graph.set_parents(node, &[parent])?;
            Ok(node)
        }
        _ => Err(Refusal::BadParents),
    }
}

/// A step makes or moves one node: inner nodes below one another, a file under all of them, two
/// indexes, records, and an inner node that moves; files with three indexes and with four, each with a
/// record.
fn grow(graph: &mut Graph, step: usize, names: &Names) -> Result<NodeId, Refusal> {
    let [db, x, y, file, _, _, _, _, _, three, _, _, _, _, four, ..] = *names;
    match step {
        0 => graph.add_inner(&[]),
        1 => graph.add_inner(&[db]),
        2 => graph.add_inner(&[x]),
        3 => graph.add_file(&[db, x, y]),
        4 => graph.add_index(&[db, x, y], file, &[10, 20, 30]),
        5 => graph.add_index(&[db], file, &[]),
        6 => graph.add_record(file, &[15, 7]),
        7 => move_under(graph, y, db),
        8 => graph.add_record(file, &[25, 8]),
        9 | 14 => graph.add_file(&[db]),
        10 | 11 | 12 => graph.add_index(&[db], three, &[]),
        13 => graph.add_record(three, &[1, 2, 3]),
        15 | 16 | 17 | 18 => graph.add_index(&[db], four, &[]),
        _ => graph.add_record(four, &[1, 2, 3, 4]),
    }
}

/// Takes a step, and retries it if an allocation failed.
fn take(graph: &mut Graph, step: usize, names: &Names, watch: &mut Watch) -> NodeId {
    watch.step();
    let before = look(graph, names);
    let mut made = grow(graph, step, names);
    if made == Err(Refusal::NoMemory) {
        watch.same(look(graph, names), before);
        made = grow(graph, step, names);
    }
    watch.holds(made.is_ok());
    made.unwrap_or(NodeId::NONE)
}

fn grows(alloc: Global) -> Option<u32> {
    let mut graph = Graph::new(alloc);
    let mut names = [NodeId::NONE; STEPS];
    let mut watch = Watch::new();
    for step in 0..STEPS {
        names[step] = take(&mut graph, step, &names, &mut watch);
    }
    watch.step();
    let births = [
        1, 2, 3, 4, 5, 10, 12, 3, 13, 14, 15, 17, 19, 21, 22, 23, 25, 27, 29, 31,
    ];
    for (name, birth) in names.iter().zip(births) {
        watch.same(name.birth, birth);
    }
    watch.holds(graph.parents(names[2]) == [names[0]].as_slice());
    watch.differs()
}

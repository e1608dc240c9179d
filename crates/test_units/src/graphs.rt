//! Calls and limits of a graph, as tables. Nodes are born in the order of their numbers.

use crate::wanted::same;
use gl_graph::laws::root_path_laws;
use gl_graph::{Graph, Kind};
use gl_modes::{NodeId, Refusal};
use std::alloc::Global;
use std::process::Abort;

const N1: NodeId = NodeId { key: 0, birth: 1 };

const N2: NodeId = NodeId { key: 1, birth: 2 };

const N3: NodeId = NodeId { key: 2, birth: 3 };

const N4: NodeId = NodeId { key: 3, birth: 4 };

const N5: NodeId = NodeId { key: 4, birth: 5 };

const N6: NodeId = NodeId { key: 5, birth: 6 };

const N7: NodeId = NodeId { key: 6, birth: 7 };

const N8: NodeId = NodeId { key: 7, birth: 8 };

const N9: NodeId = NodeId { key: 8, birth: 9 };

const N10: NodeId = NodeId { key: 9, birth: 10 };

/// A place in a scenario: its name, and the number of the step in its part.
type Place = (&'static str, usize);

/// A call that makes a node.
#[derive(Clone, Copy)]
enum Make {
    Inner(&'static [NodeId]),
    File(NodeId),
    Index(NodeId, NodeId, &'static [u64]),
    /// An index with the bounds from 1 to this one.
    Wide(NodeId, NodeId, u64),
    Record(NodeId, &'static [u64]),
}

/// A step and its outcome.
#[derive(Clone, Copy)]
enum Step {
    Makes(Make, Result<NodeId, Refusal>),
    /// Makes this many.
    Many(u32, Make),
    Removes(NodeId),
    /// Makes and removes this many records of a file with one index.
    ComeAndGo(u32, NodeId),
    Moves(NodeId, NodeId, Result<(), Refusal>),
    Len(usize),
    Most(u32),
    MostBounds(u32),
    NextKey(usize),
    IsWorn(bool),
    Kind(NodeId, Option<Kind>),
    Keys(NodeId, &'static [u64]),
    Parents(NodeId, &'static [NodeId]),
    Interval(NodeId, usize, Option<NodeId>),
    /// The interval of an index to which a key belongs.
    Lies(NodeId, u64, NodeId),
    /// Whether a file has records, and how many indexes.
    File(NodeId, bool, usize),
}

/// An index with the bounds from 1 to this one.
fn add_wide(
    graph: &mut Graph,
    alloc: Global,
    parent: NodeId,
    file: NodeId,
    last: u64,
) -> Result<NodeId, Refusal> {
    let mut bounds = Vec::new(alloc);
    for bound in 1..=last {
        let Ok(()) = bounds.push(bound) else {
            return Err(Refusal::NoMemory);
        };
    }
    graph.add_index(&[parent], file, &bounds)
}

fn made(graph: &mut Graph, alloc: Global, make: Make) -> Result<NodeId, Refusal> {
    match make {
        Make::Inner(parents) => graph.add_inner(parents),
        Make::File(parent) => graph.add_file(&[parent]),
        Make::Index(parent, file, bounds) => graph.add_index(&[parent], file, bounds),
        Make::Wide(parent, file, last) => add_wide(graph, alloc, parent, file, last),
        Make::Record(file, keys) => graph.add_record(file, keys),
    }
}

fn remove(graph: &mut Graph, rec: NodeId) {
    if let Some(Kind::Rec) = graph.kind(rec) {
        graph.remove_record(rec);
    }
}

/// Moves an inner node under another.
fn move_under(graph: &mut Graph, n: NodeId, parent: NodeId) -> Result<(), Refusal> {
    match (graph.kind(n), graph.kind(parent)) {
        (Some(Kind::Inner), Some(Kind::Inner)) => graph.set_parents(n, &[parent]),
        _ => Err(Refusal::BadParents),
    }
}

/// Makes records, and removes them in the order in which they were made.
fn come_and_go(graph: &mut Graph, alloc: Global, file: NodeId, count: u32) -> Result<(), Refusal> {
    let mut records = Vec::new(alloc);
    for _ in 0..count {
        let Ok(()) = records.push(graph.add_record(file, &[7])?) else {
            return Err(Refusal::NoMemory);
        };
    }
    for rec in &records {
        remove(graph, *rec);
    }
    Ok(())
}

fn lies(graph: &Graph, index: NodeId, key: u64) -> Option<NodeId> {
    match graph.kind(index) {
        Some(Kind::Index) => Some(graph.interval_of(index, key)),
        _ => None,
    }
}

/// Whether a file has records, and how many indexes.
fn file_of(graph: &Graph, file: NodeId) -> Option<(bool, usize)> {
    match graph.kind(file) {
        Some(Kind::File) => Some((graph.has_records(file), graph.indexes(file).len())),
        _ => None,
    }
}

/// Takes a step that changes something.
fn take(rt: &impl Abort, alloc: Global, graph: &mut Graph, place: Place, step: Step) {
    match step {
        Step::Makes(make, wanted) => {
            let came = made(graph, alloc, make);
            same(rt, (place, came), (place, wanted));
        }
        Step::Many(count, make) => {
            for _ in 0..count {
                same(rt, made(graph, alloc, make).is_ok(), true);
            }
        }
        Step::Removes(rec) => remove(graph, rec),
        Step::ComeAndGo(count, file) => {
            same(rt, come_and_go(graph, alloc, file, count), Ok(()));
        }
        Step::Moves(node, parent, wanted) => {
            let came = move_under(graph, node, parent);
            same(rt, (place, came), (place, wanted));
        }
        _ => look(rt, graph, place, step),
    }
}

/// Checks the answer to a question, at a place in a scenario.
fn look(rt: &impl Abort, graph: &Graph, place: Place, step: Step) {
    match step {
        Step::Len(len) => same(rt, (place, graph.len()), (place, len)),
        Step::Most(most) => same(rt, (place, graph.most()), (place, most)),
        Step::MostBounds(most) => same(rt, (place, graph.most_bounds()), (place, most)),
        Step::NextKey(key) => same(rt, (place, graph.next_key()), (place, key)),
        Step::IsWorn(worn) => same(rt, (place, graph.worn()), (place, worn)),
        Step::Kind(node, kind) => same(rt, (place, graph.kind(node)), (place, kind)),
        Step::Keys(node, keys) => same(rt, (place, graph.keys(node)), (place, keys)),
        Step::Parents(node, parents) => same(rt, (place, graph.parents(node)), (place, parents)),
        Step::Interval(index, at, interval) => {
            same(rt, (place, graph.interval(index, at)), (place, interval))
        }
        Step::Lies(index, key, interval) => {
            same(
                rt,
                (place, lies(graph, index, key)),
                (place, Some(interval)),
            )
        }
        Step::File(file, has_records, indexes) => {
            let wanted = Some((has_records, indexes));
            same(rt, (place, file_of(graph, file)), (place, wanted));
        }
        _ => same(rt, (place, false), (place, true)),
    }
}

/// A scenario: its name, the limits of nodes and bounds if these are chosen, and its parts.
type Story = (&'static str, Option<(u32, u32)>, &'static [&'static [Step]]);

/// The greatest limit of nodes.
const HIGHEST: u32 = 0x8000_0000;

/// A graph with these limits, or the defaults.
fn open(alloc: Global, limits: Option<(u32, u32)>) -> Graph {
    match limits {
        Some((most, bounds)) if most <= HIGHEST => Graph::with_limits(alloc, most, bounds),
        _ => Graph::new(alloc),
    }
}

/// Plays a scenario on a new graph.
fn run_scenario(rt: &impl Abort, alloc: Global, story: Story) {
    let (name, limits, parts) = story;
    let mut graph = open(alloc, limits);
    for steps in parts {
        for (place, step) in steps.iter().enumerate() {
            take(rt, alloc, &mut graph, (name, place), *step);
        }
    }
    graph.law();
}

/// Plays each scenario on its own graph.
fn run_scenarios(rt: &impl Abort, alloc: Global, stories: &[Story]) {
    for story in stories {
        run_scenario(rt, alloc, *story);
    }
}

const DB: NodeId = N1;

const FILE: NodeId = N2;

const INDEX: NodeId = N3;

/// A root, and a file under it.
const FILED: &[Step] = &[
    Step::Makes(Make::Inner(&[]), Ok(DB)),
    Step::Makes(Make::File(DB), Ok(FILE)),
];

/// An index of the file with one bound, and one without.
const BOUND: &[Step] = &[Step::Makes(Make::Index(DB, FILE, &[100]), Ok(INDEX))];

const UNBOUND: &[Step] = &[Step::Makes(Make::Index(DB, FILE, &[]), Ok(INDEX))];

const LIES: &[Step] = &[
    Step::Interval(INDEX, 0, Some(N4)),
    Step::Interval(INDEX, 1, Some(N5)),
    Step::Lies(INDEX, 0, N4),
    Step::Lies(INDEX, 99, N4),
    Step::Lies(INDEX, 100, N5),
    Step::Lies(INDEX, u64::MAX, N5),
];

const TWO: &[Step] = &[
    Step::Interval(INDEX, 1, Some(N5)),
    Step::Interval(INDEX, 2, None),
];

const TOGETHER: &[Step] = &[
    Step::Interval(INDEX, 0, Some(N4)),
    Step::Lies(INDEX, 0, N4),
    Step::Lies(INDEX, 99, N4),
    Step::Lies(INDEX, 100, N4),
    Step::Lies(INDEX, u64::MAX, N4),
];

const AT_MOST_256: &[Step] = &[
    Step::Many(1, Make::Wide(DB, FILE, 256)),
    Step::Makes(Make::Wide(DB, FILE, 257), Err(Refusal::BadKeys)),
    Step::MostBounds(256),
];

const TOO_MANY: &[Step] = &[
    Step::MostBounds(70_000),
    Step::Makes(Make::Wide(DB, FILE, 69_997), Err(Refusal::TooManyNodes)),
];

const USUAL: &[Step] = &[
    Step::Makes(Make::Wide(DB, FILE, 257), Err(Refusal::BadKeys)),
    Step::Many(1, Make::Wide(DB, FILE, 256)),
    Step::Most(70_000),
];

const CHOSEN: &[Step] = &[
    Step::Makes(Make::Wide(DB, FILE, 301), Err(Refusal::BadKeys)),
    Step::Many(1, Make::Wide(DB, FILE, 300)),
    Step::Most(65_536),
];

const SECOND: NodeId = N5;

const MIDDLE: NodeId = NodeId {
    key: 30_003,
    birth: 30_004,
};

const LAST: NodeId = NodeId {
    key: 60_003,
    birth: 60_004,
};

const REC: NodeId = NodeId {
    key: 60_004,
    birth: 60_005,
};

const MANY_LIE: &[Step] = &[
    Step::Makes(Make::Wide(DB, FILE, 60_000), Ok(INDEX)),
    Step::Lies(INDEX, 0, N4),
    Step::Interval(INDEX, 0, Some(N4)),
    Step::Lies(INDEX, 1, SECOND),
    Step::Interval(INDEX, 1, Some(SECOND)),
    Step::Lies(INDEX, 30_000, MIDDLE),
    Step::Interval(INDEX, 30_000, Some(MIDDLE)),
    Step::Lies(INDEX, 60_000, LAST),
    Step::Lies(INDEX, u64::MAX, LAST),
    Step::Interval(INDEX, 60_000, Some(LAST)),
    Step::Makes(Make::Record(FILE, &[30_000]), Ok(REC)),
    Step::Parents(REC, &[FILE, MIDDLE]),
];

const SEVEN: &[Step] = &[
    Step::Many(6, Make::Index(DB, FILE, &[])),
    Step::Makes(Make::Index(DB, FILE, &[]), Err(Refusal::BadParents)),
];

const EIGHT: &[NodeId] = &[N1, N2, N3, N4, N5, N6, N7, N8];

const NINE: &[NodeId] = &[N1, N2, N3, N4, N5, N6, N7, N8, N9];

const PARENTS: &[Step] = &[
    Step::Many(9, Make::Inner(&[])),
    Step::Makes(Make::Inner(NINE), Err(Refusal::BadParents)),
    Step::Makes(Make::Inner(EIGHT), Ok(N10)),
    Step::Parents(N10, EIGHT),
];

const IN_USE: &[Step] = &[
    Step::Parents(FILE, &[DB]),
    Step::Makes(Make::Record(FILE, &[]), Ok(N3)),
    Step::Makes(Make::Index(DB, FILE, &[]), Err(Refusal::FileInUse)),
];

const FULL_AT_THE_USUAL: &[Step] = &[
    Step::Many(65_536, Make::Inner(&[])),
    Step::Makes(Make::Inner(&[]), Err(Refusal::TooManyNodes)),
    Step::Len(65_536),
    Step::IsWorn(false),
];

const AGAIN: NodeId = NodeId { key: 2, birth: 4 };

const FULL_AT_THREE: &[Step] = &[
    Step::Makes(Make::Record(FILE, &[]), Ok(N3)),
    Step::Makes(Make::Record(FILE, &[]), Err(Refusal::TooManyNodes)),
    Step::Removes(N3),
    Step::Makes(Make::Record(FILE, &[]), Ok(AGAIN)),
    Step::Makes(Make::Inner(&[]), Err(Refusal::TooManyNodes)),
    Step::Most(3),
];

const FULL_ABOVE: &[Step] = &[
    Step::Many(70_000, Make::Inner(&[])),
    Step::Makes(Make::Inner(&[]), Err(Refusal::TooManyNodes)),
    Step::Len(70_000),
];

const NEXT: &[Step] = &[
    Step::NextKey(4),
    Step::Makes(Make::Record(FILE, &[7]), Ok(N5)),
    Step::Removes(N5),
    Step::NextKey(4),
];

const MANY: &[Step] = &[Step::ComeAndGo(65_532, FILE), Step::Len(4)];

const OLD: NodeId = N6;

const NEW: NodeId = NodeId { key: 5, birth: 7 };

const STALE: &[Step] = &[
    Step::Makes(Make::Record(FILE, &[50]), Ok(OLD)),
    Step::Keys(OLD, &[50]),
    Step::Removes(OLD),
    Step::Makes(Make::Record(FILE, &[200]), Ok(NEW)),
    Step::File(FILE, true, 1),
    Step::Kind(OLD, None),
    Step::Kind(NEW, Some(Kind::Rec)),
];

const CLOSES: &[Step] = &[
    Step::Makes(Make::Inner(&[]), Ok(N1)),
    Step::Makes(Make::Inner(&[N1]), Ok(N2)),
    Step::Makes(Make::Inner(&[N2]), Ok(N3)),
    Step::Moves(N1, N3, Err(Refusal::Cycle { node: N3 })),
    Step::Moves(N3, N1, Ok(())),
    Step::Parents(N3, &[N1]),
];

#[test]
fn graphs_grow_within_their_limits(rt: HostRuntime) {
    const STORIES: &[Story] = &[
        (
            "a key lies below a bound or from it on",
            None,
            &[FILED, BOUND, LIES],
        ),
        ("one bound makes two intervals", None, &[FILED, BOUND, TWO]),
        (
            "without bounds all keys lie together",
            None,
            &[FILED, UNBOUND, TOGETHER],
        ),
        (
            "an index has at most 256 bounds",
            None,
            &[FILED, UNBOUND, AT_MOST_256],
        ),
        (
            "an index has no more intervals than nodes may live",
            Some((70_000, 70_000)),
            &[FILED, TOO_MANY],
        ),
        (
            "a chosen limit of bounds goes with any limit of nodes, usual",
            Some((70_000, 256)),
            &[FILED, USUAL],
        ),
        (
            "a chosen limit of bounds goes with any limit of nodes, chosen",
            Some((65_536, 300)),
            &[FILED, CHOSEN],
        ),
        (
            "an index of many bounds",
            Some((70_000, 60_000)),
            &[FILED, MANY_LIE],
        ),
        (
            "a file has at most seven indexes",
            None,
            &[FILED, UNBOUND, SEVEN],
        ),
        ("a node has at most eight parents", None, &[PARENTS]),
        ("a file with records gets no index", None, &[FILED, IN_USE]),
        ("no node past the limit", None, &[FULL_AT_THE_USUAL]),
        (
            "a chosen limit is met and passed by none",
            Some((3, 256)),
            &[FILED, FULL_AT_THREE],
        ),
        (
            "a limit above the usual one",
            Some((70_000, 256)),
            &[FULL_ABOVE],
        ),
        (
            "the next key is that of the next node",
            None,
            &[FILED, UNBOUND, NEXT],
        ),
        ("many records come and go", None, &[FILED, UNBOUND, MANY]),
        ("a stale name names nothing", None, &[FILED, BOUND, STALE]),
        ("no path closes", None, &[CLOSES]),
    ];
    run_scenarios(&rt, rt.alloc(), STORIES);
    root_path_laws();
}

/// A key for each of seven indexes, alternately on either side of the bound 100.
const KEYS: &[u64] = &[50, 150, 50, 150, 50, 150, 50];

/// The parents of a record with these keys: its file, and the interval of each key.
const UNDER: &[NodeId] = &[
    FILE,
    N4,
    N8,
    N10,
    NodeId { key: 13, birth: 14 },
    NodeId { key: 15, birth: 16 },
    NodeId { key: 19, birth: 20 },
    NodeId { key: 21, birth: 22 },
];

/// A graph with a record of a file with this many indexes of one bound, and the record.
fn graph_with_keys(alloc: Global, keys: &[u64]) -> Result<(Graph, NodeId), Refusal> {
    let mut graph = Graph::new(alloc);
    let db = graph.add_inner(&[])?;
    let file = graph.add_file(&[db])?;
    for _key in keys {
        graph.add_index(&[db], file, &[100])?;
    }
    let rec = graph.add_record(file, keys)?;
    Ok((graph, rec))
}

#[test]
fn records_lie_under_an_interval_for_each_key(rt: HostRuntime) {
    for count in 0..8 {
        let keys = &KEYS[..count];
        match graph_with_keys(rt.alloc(), keys) {
            Ok((graph, rec)) => {
                same(&rt, graph.keys(rec), keys);
                same(&rt, graph.parents(rec), &UNDER[..count + 1]);
            }
            Err(refusal) => same(&rt, Some(refusal), None),
        }
    }
}

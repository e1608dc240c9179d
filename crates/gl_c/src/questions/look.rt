//! Questions, which are not commands and change nothing.

ghost use Rattle.std.specs.Prelude.{◌≡◌};
ghost use Rattle.std.specs.Option.{option_map};
ghost use Rattle.gl_modes.specs.declared.refusal.Refusal.TheVariants as no;
ghost use Rattle.gl_graph.specs.View.{graph_of};
ghost use Rattle.gl_c.specs.declared.questions.look.Query.TheVariants as query;
ghost use Rattle.gl_c.specs.questions.Looks.{counted, detect_number, found, index_at, interval_with, kind_number, looked, records_of, victims_number};
ghost use Rattle.gl_c.specs.Numbers.{no_place};
ghost use Rattle.gl_c.specs.answers.Replies.{refused_reply, status_reply};

use crate::answers::reply::Reply;
use crate::names::Node;
use crate::numbers::{DONE, NO_PLACE, WAITING, mode_number};
use crate::questions::listing::{
    doing_reply, living_reply, lock_count_reply, queue_at_reply, queue_len_reply, row_reply,
};
use gl_catalog::Manager;
use gl_graph::{Graph, Kind};
use gl_modes::{Mode, NodeId, Refusal};
use gl_slots::Slot;
use gl_table::{Detect, TxnId};
use gl_waits::Victims;

/// A question.
#[derive(Clone, Copy)]
pub(crate) enum Query {
    /// How many children of a node a transaction holds.
    Children { txn: TxnId, node: NodeId },
    /// What a node is.
    Kind { node: NodeId },
    /// A parent of a node.
    Parent { node: NodeId, place: usize },
    /// A key of a record.
    Key { rec: NodeId, place: usize },
    /// An index of a file.
    Index { file: NodeId, place: usize },
    /// An interval of an index.
    Interval { index: NodeId, place: usize },
    /// The interval of an index to which a key belongs.
    IntervalOf { index: NodeId, key: u64 },
    /// The place of an interval in its index.
    Place { node: NodeId },
    /// Whether a file has records.
    HasRecords { file: NodeId },
    /// How many nodes live.
    Len,
    /// How many commands were accepted.
    Accepted,
    /// How deadlocks are detected.
    Detect,
    /// How victims are chosen.
    Victims,
    /// How many transactions may live at once.
    Most,
    /// How many nodes may live at once.
    MostNodes,
    /// How many bounds an index may have.
    MostBounds,
    /// The transaction in a slot.
    Living { slot: Slot },
    /// What a transaction is doing.
    Doing { txn: TxnId },
    /// How many waiters are ahead of a waiting transaction in the queue of its node.
    Ahead { txn: TxnId },
    /// How many nodes a transaction holds or waits for.
    LockCount { txn: TxnId },
    /// A node that a transaction holds or waits for.
    LockAt { txn: TxnId, place: usize },
    /// The mode in which the transaction of a slot holds a node.
    ModeAt { slot: Slot, node: NodeId },
    /// How many transactions wait for a node.
    QueueLen { node: NodeId },
    /// A transaction that waits for a node.
    QueueAt { node: NodeId, place: usize },
}

/// Answers a question.
pub(crate) fn look(manager: &Manager, query: Query) -> Reply
    ensures { result ≡ looked manager.now query }
{
    let graph = manager.graph();
    match query {
        Query::Children { txn, node } => children_reply(manager.children(txn, node)),
        Query::Len => Reply::with_count(graph.len() as u64),
        Query::Accepted => Reply::with_count(manager.accepted()),
        Query::Detect => Reply::with_count(detect_number(manager.detect())),
        Query::Victims => Reply::with_count(victims_number(manager.victims())),
        Query::Kind { node } => kind_reply(graph.kind(node)),
        Query::Parent { node, place } => node_reply(graph.parents(node).get(place).copied()),
        Query::Key { rec, place } => key_reply(graph.keys(rec).get(place).copied()),
        Query::Index { file, place } => index_reply(graph, file, place),
        Query::Interval { index, place } => node_reply(graph.interval(index, place)),
        Query::IntervalOf { index, key } => interval_reply(graph, index, key),
        Query::Place { node } => place_reply(graph.place(node)),
        Query::HasRecords { file } => records_reply(graph, file),
        Query::Most => Reply::with_count(manager.most() as u64),
        Query::MostNodes => Reply::with_count(u64::from(graph.most())),
        Query::MostBounds => Reply::with_count(u64::from(graph.most_bounds())),
        Query::Living { slot } => living_reply(manager.living(slot)),
        Query::Doing { txn } => doing_reply(manager.status(txn)),
        Query::Ahead { txn } => ahead_reply(manager, txn),
        Query::LockCount { txn } => lock_count_reply(manager.lock_count(txn)),
        Query::LockAt { txn, place } => {
            row_reply(manager.waiting(txn), manager.lock_at(txn, place))
        },
        Query::ModeAt { slot, node } => Reply::with_mode(manager.mode_at(slot, node)),
        Query::QueueLen { node } => queue_len_reply(manager.queue(node)),
        Query::QueueAt { node, place } => { queue_at_reply(manager, manager.queue(node), place) },
    }
}

fn ahead_reply(manager: &Manager, txn: TxnId) -> Reply
    ensures { result ≡ looked manager.now (query.Ahead txn) }
{
    if manager.status(txn).is_none() {
        return Reply::refused(Refusal::NoSuchTxn);
    }
    match manager.ahead(txn) {
        Some(count) => Reply::with_count(count as u64),
        None => Reply::refused(Refusal::NotWaiting),
    }
}

fn children_reply(children: Option<u32>) -> Reply
    ensures { result ≡ counted (refused_reply no.NotHeld) children }
{
    match children {
        Some(count) => Reply::with_count(u64::from(count)),
        None => Reply::refused(Refusal::NotHeld),
    }
}

fn kind_reply(kind: Option<Kind>) -> Reply
    ensures { result ≡ counted (refused_reply no.NoSuchNode) (option_map kind_number kind) }
{
    match kind {
        Some(kind) => Reply::with_count(kind_number(kind)),
        None => Reply::refused(Refusal::NoSuchNode),
    }
}

fn key_reply(key: Option<u64>) -> Reply
    ensures { result ≡ counted (status_reply no_place) key }
{
    match key {
        Some(key) => Reply::with_count(key),
        None => Reply::with_status(NO_PLACE),
    }
}

fn place_reply(place: Option<usize>) -> Reply
    ensures { result ≡ counted (refused_reply no.NoSuchNode) place }
{
    match place {
        Some(place) => Reply::with_count(place as u64),
        None => Reply::refused(Refusal::NoSuchNode),
    }
}

fn node_reply(node: Option<NodeId>) -> Reply
    ensures { result ≡ found node }
{
    match node {
        Some(node) => Reply::with_node(node),
        None => Reply::with_status(NO_PLACE),
    }
}

fn index_reply(graph: &Graph, file: NodeId, place: usize) -> Reply
    ensures { result ≡ index_at (graph_of graph.now) file place }
{
    match graph.kind(file) {
        Some(Kind::File) => node_reply(graph.indexes(file).get(place).copied()),
        _ => Reply::refused(Refusal::NoSuchNode),
    }
}

fn interval_reply(graph: &Graph, index: NodeId, key: u64) -> Reply
    ensures { result ≡ interval_with (graph_of graph.now) index key }
{
    match graph.kind(index) {
        Some(Kind::Index) => Reply::with_node(graph.interval_of(index, key)),
        _ => Reply::refused(Refusal::NoSuchNode),
    }
}

fn records_reply(graph: &Graph, file: NodeId) -> Reply
    ensures { result ≡ records_of (graph_of graph.now) file }
{
    match graph.kind(file) {
        Some(Kind::File) => Reply::with_count(u64::from(graph.has_records(file))),
        _ => Reply::refused(Refusal::NoSuchNode),
    }
}

/// The number of a kind, from 1 on.
fn kind_number(kind: Kind) -> u64
    ensures { result ≡ kind_number kind }
{
    match kind {
        Kind::Inner => 1,
        Kind::File => 2,
        Kind::Index => 3,
        Kind::Interval => 4,
        Kind::Rec => 5,
    }
}

/// The number of a choice of victims.
fn victims_number(victims: Victims) -> u64
    ensures { result ≡ victims_number victims }
{
    match victims {
        Victims::Youngest => 0,
        Victims::Fewest => 1,
    }
}

/// The number of a way of detection.
fn detect_number(detect: Detect) -> u64
    ensures { result ≡ detect_number detect }
{
    match detect {
        Detect::AtBlock => 0,
        Detect::ByWatcher => 1,
    }
}

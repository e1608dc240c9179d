//! Commands that name things by their places, so that a row is a table.

use gl_catalog::{Answer, Command, Manager, Reply};
use gl_modes::{Mode, NodeId};
use gl_shared::{Naming, Session};
use gl_table::TxnId;
use std::sync::Wait;

/// A command. It names nodes and transactions by their places in the order of making.
#[derive(Clone, Copy)]
pub enum Step {
    Root,
    Inner(usize),
    File(usize),
    Index {
        parent: usize,
        file: usize,
        bound: u64,
    },
    Begin,
    Lock(usize, Mode, usize),
    Try(usize, Mode, usize),
    Unlock(usize, usize),
    Escalate(usize, usize),
    Cancel(usize),
    Commit(usize),
    Abort(usize),
    Settle(usize),
    Insert(usize, usize, u64),
    Delete(usize, usize),
    Rekey(usize, usize, usize, u64),
    Move(usize, usize, usize),
    Group(usize),
    Held(usize, usize),
    Effective(usize, usize),
}

/// What answers commands.
pub trait Answers {
    fn answer(&mut self, command: Command<'_>) -> Reply;
}

/// A manager alone.
#[derive(Drop)]
pub struct Alone<'a>(pub &'a mut Manager);

impl Answers for Alone<'_> {
    fn answer(&mut self, command: Command<'_>) -> Reply {
        self.0.apply(command)
    }
}

/// A session of a shared table.
pub struct Through<'a, 'b, N: Naming, R: Wait> {
    pub rt: &'a R,
    pub session: Session<'b, N>,
}

impl<N: Naming, R: Wait> Answers for Through<'_, '_, N, R> {
    fn answer(&mut self, command: Command<'_>) -> Reply {
        self.session.ask(self.rt, command)
    }
}

/// How many nodes and transactions are recorded.
const NODES: usize = 128;

const TXNS: usize = 128;

/// What was made, in order. An index is followed by its first two intervals.
#[derive(Clone, Copy)]
pub struct Made {
    nodes: [NodeId; NODES],
    made: usize,
    txns: [TxnId; TXNS],
    begun: usize,
}

impl Made {
    pub fn new() -> Made {
        Made {
            nodes: [NodeId::NONE; NODES],
            made: 0,
            txns: [TxnId::NONE; TXNS],
            begun: 0,
        }
    }

    /// The node at a place.
    pub fn node(&self, place: usize) -> NodeId {
        if place < NODES {
            self.nodes[place]
        } else {
            NodeId::NONE
        }
    }

    /// The transaction at a place.
    pub fn txn(&self, place: usize) -> TxnId {
        if place < TXNS {
            self.txns[place]
        } else {
            TxnId::NONE
        }
    }

    /// Records what an answer names.
    pub fn keep(&mut self, answer: Answer) {
        match answer {
            Answer::Node(node) => self.keep_node(node),
            Answer::Begun(txn) => self.keep_txn(txn),
            _ => {}
        }
    }

    /// Records a transaction.
    pub fn keep_txn(&mut self, txn: TxnId) {
        if self.begun < TXNS {
            self.txns[self.begun] = txn;
            self.begun += 1;
        }
    }

    /// Records a node.
    pub fn keep_node(&mut self, node: NodeId) {
        if self.made < NODES {
            self.nodes[self.made] = node;
            self.made += 1;
        }
    }
}

/// Makes a node under one parent.
fn answer_inner(to: &mut impl Answers, parent: NodeId) -> Reply {
    to.answer(Command::Inner { parents: &[parent] })
}

fn answer_file(to: &mut impl Answers, parent: NodeId) -> Reply {
    to.answer(Command::File { parents: &[parent] })
}

fn answer_index(to: &mut impl Answers, parent: NodeId, file: NodeId, bound: u64) -> Reply {
    to.answer(Command::Index {
        parents: &[parent],
        file,
        bounds: &[bound],
    })
}

fn answer_insert(to: &mut impl Answers, txn: TxnId, file: NodeId, key: u64) -> Reply {
    to.answer(Command::Insert {
        txn,
        file,
        keys: &[key],
    })
}

fn answer_move(to: &mut impl Answers, txn: TxnId, node: NodeId, parent: NodeId) -> Reply {
    to.answer(Command::Move {
        txn,
        node,
        parents: &[parent],
    })
}

/// The reply to the step.
pub fn take(to: &mut impl Answers, made: &Made, step: Step) -> Reply {
    match step {
        Step::Inner(parent) => answer_inner(to, made.node(parent)),
        Step::File(parent) => answer_file(to, made.node(parent)),
        Step::Index {
            parent,
            file,
            bound,
        } => { answer_index(to, made.node(parent), made.node(file), bound) }
        Step::Insert(txn, file, key) => answer_insert(to, made.txn(txn), made.node(file), key),
        Step::Move(txn, node, parent) => {
            answer_move(to, made.txn(txn), made.node(node), made.node(parent))
        }
        _ => to.answer(command_of(made, step)),
    }
}

/// The command of a step that needs no list or an empty one; for any other, a group's.
pub fn command_of(made: &Made, step: Step) -> Command<'static> {
    match step {
        Step::Root => Command::Inner { parents: &[] },
        Step::Begin => Command::Begin,
        Step::Lock(txn, mode, node) => Command::Lock {
            txn: made.txn(txn),
            node: made.node(node),
            mode,
        },
        Step::Try(txn, mode, node) => Command::Try {
            txn: made.txn(txn),
            node: made.node(node),
            mode,
        },
        Step::Unlock(txn, node) => Command::Unlock {
            txn: made.txn(txn),
            node: made.node(node),
        },
        Step::Escalate(txn, node) => Command::Escalate {
            txn: made.txn(txn),
            node: made.node(node),
        },
        Step::Cancel(txn) => Command::Cancel { txn: made.txn(txn) },
        Step::Commit(txn) => Command::Commit { txn: made.txn(txn) },
        Step::Abort(txn) => Command::Abort { txn: made.txn(txn) },
        Step::Settle(txn) => Command::Settle { txn: made.txn(txn) },
        Step::Delete(txn, rec) => Command::Delete {
            txn: made.txn(txn),
            rec: made.node(rec),
        },
        Step::Rekey(txn, rec, index, key) => Command::Rekey {
            txn: made.txn(txn),
            rec: made.node(rec),
            index: made.node(index),
            key,
        },
        Step::Held(txn, node) => Command::Held {
            txn: made.txn(txn),
            node: made.node(node),
        },
        Step::Effective(txn, node) => Command::Effective {
            txn: made.txn(txn),
            node: made.node(node),
        },
        Step::Group(node) => Command::Group {
            node: made.node(node),
        },
        _ => Command::Group { node: NodeId::NONE },
    }
}

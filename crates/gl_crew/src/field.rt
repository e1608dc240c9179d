//! The table that a crew works on.

ghost use Rattle.std.specs.Prelude.{◌≡◌, ◌+◌, ◌<◌, ◌^◌, IfOk};
ghost use Rattle.gl_crew.specs.Locked.{record_of};

use gl_catalog::{Answer, Command, Manager};
use gl_modes::{Mode, NodeId, Refusal};
use gl_table::{Detect, TxnId};
use gl_waits::Victims;
use std::alloc::Global;

/// How many transactions can live at once in the table of a crew.
const MOST: usize = 128;

/// The bound of the index. All keys of a crew are below it.
const BOUND: u64 = 1000;

/// The nodes that the sessions of a crew lock.
#[derive(Drop)]
pub struct Field {
    /// The database, the file, the index and its first interval: what is locked above a record.
    pub path: [NodeId; 4],
    /// The records, by their keys: the common record has key 0, that of each session its number.
    pub records: Vec<NodeId>,
}

impl Field {
    /// The record that a session locks in a round: in odd rounds its own, in even ones the common
    /// record. If there is no such record, a name that names nothing.
    pub(crate) fn record(&self, session: u32, round: u32) -> NodeId
        ensures { result ≡ record_of self.now.records.items session round }
    {
        let key = if round % 2 == 1 { session } else { 0 };
        match self.records.get(key as usize) {
            Some(record) => *record,
            None => NodeId::NONE,
        }
    }
}

/// A manager with the nodes that these sessions lock, and their names. No transaction lives.
pub(crate) fn lay_out(
    alloc: Global,
    sessions: u32,
    detect: Detect,
    victims: Victims,
) -> Result<(Manager, Field), Refusal>
    requires { sessions < 2 ^ 31 }
    ensures { IfOk result (λ made. made.0.table.detect ≡ detect) }
{
    let mut manager = Manager::choosing(alloc, detect, victims, MOST)?;
    let Ok(mut records) = Vec::with_capacity(alloc, sessions as usize + 1) else {
        return Err(Refusal::NoMemory);
    };
    let path = lay_path(&mut manager)?;
    let txn = begin(&mut manager, &path)?;
    for key in 0..=sessions {
        let Ok(()) = records.push(insert(&mut manager, txn, path[1], key)?) else {
            return Err(Refusal::NoMemory);
        };
    }
    carry_out(&mut manager, Command::Commit { txn })?;
    Ok((manager, Field { path, records }))
}

/// Makes the nodes above the records.
fn lay_path(manager: &mut Manager) -> Result<[NodeId; 4], Refusal>
    ensures { manager.new.table.detect ≡ manager.old.table.detect }
{
    let base = make(manager, Command::Inner { parents: &[] })?;
    let file = make(manager, Command::File { parents: &[base] })?;
    let index = Command::Index {
        parents: &[base],
        file,
        bounds: &[BOUND],
    };
    let index = make(manager, index)?;
    match manager.graph().interval(index, 0) {
        Some(interval) => Ok([base, file, index, interval]),
        None => Err(Refusal::NoSuchNode),
    }
}

/// Begins a transaction that may insert.
fn begin(manager: &mut Manager, path: &[NodeId; 4]) -> Result<TxnId, Refusal>
    ensures { manager.new.table.detect ≡ manager.old.table.detect }
{
    let Answer::Begun(txn) = carry_out(manager, Command::Begin)? else {
        return Err(Refusal::NoSuchTxn);
    };
    for node in path {
        let lock = Command::Lock {
            txn,
            node: *node,
            mode: Mode::IX,
        };
        carry_out(manager, lock)?;
    }
    Ok(txn)
}

/// Inserts a record with this key.
fn insert(manager: &mut Manager, txn: TxnId, file: NodeId, key: u32) -> Result<NodeId, Refusal>
    ensures { manager.new.table.detect ≡ manager.old.table.detect }
{
    let keys = [u64::from(key)];
    let insert = Command::Insert {
        txn,
        file,
        keys: &keys,
    };
    make(manager, insert)
}

/// Carries out a command that makes a node.
fn make(manager: &mut Manager, command: Command<'_>) -> Result<NodeId, Refusal>
    ensures { manager.new.table.detect ≡ manager.old.table.detect }
{
    match carry_out(manager, command)? {
        Answer::Node(node) => Ok(node),
        _ => Err(Refusal::NoSuchNode),
    }
}

/// Carries out a command; an error if it is refused.
fn carry_out(manager: &mut Manager, command: Command<'_>) -> Result<Answer, Refusal>
    ensures { manager.new.table.detect ≡ manager.old.table.detect }
{
    match manager.apply(command).answer {
        Answer::Refused(refusal) => Err(refusal),
        answer => Ok(answer),
    }
}

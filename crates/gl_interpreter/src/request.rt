//! The request of a line to the manager, and the answer.

ghost use Rattle.std.specs.Prelude.{◌≡◌};
ghost use Rattle.gl_interpreter.specs.Script.{of_lock, of_number, of_removal, of_request, of_txn};

use gl_catalog::{Answer, Command};
use gl_modes::{Mode, NodeId};
use gl_script::{LockVerb, NumberVerb, RemovalVerb, RequestVerb, TxnVerb};
use gl_table::TxnId;

/// What a line asks of the manager: the same, with ids for names.
#[derive(Clone, Copy)]
pub(crate) enum Request<'a> {
    /// Carry out a command.
    Apply(Command<'a>),
    /// Answer how many nodes a transaction holds or waits for.
    Mark(TxnId),
    /// Roll back a transaction to a savepoint.
    Release(TxnId, u64),
}

/// The answer to a line.
#[derive(Clone, Copy)]
pub(crate) enum Said {
    /// The manager's answer to a command.
    Answer(Answer),
    /// A number of nodes.
    Count(usize),
}

/// The request about a transaction.
pub(crate) fn of_txn<'a>(verb: TxnVerb, txn: TxnId) -> Request<'a>
    ensures { result ≡ of_txn verb txn }
{
    match verb {
        TxnVerb::Cancel => Request::Apply(Command::Cancel { txn }),
        TxnVerb::Commit => Request::Apply(Command::Commit { txn }),
        TxnVerb::Abort => Request::Apply(Command::Abort { txn }),
        TxnVerb::Settle => Request::Apply(Command::Settle { txn }),
        TxnVerb::Mark => Request::Mark(txn),
    }
}

/// The command about the lock of a transaction on a node.
pub(crate) fn of_lock<'a>(verb: LockVerb, txn: TxnId, node: NodeId) -> Command<'a>
    ensures { result ≡ of_lock verb txn node }
{
    match verb {
        LockVerb::Unlock => Command::Unlock { txn, node },
        LockVerb::Escalate => Command::Escalate { txn, node },
        LockVerb::Held => Command::Held { txn, node },
        LockVerb::Effective => Command::Effective { txn, node },
    }
}

/// The command that requests a lock.
pub(crate) fn of_request<'a>(verb: RequestVerb, txn: TxnId, node: NodeId, mode: Mode) -> Command<'a>
    ensures { result ≡ of_request verb txn node mode }
{
    match verb {
        RequestVerb::Lock => Command::Lock { txn, node, mode },
        RequestVerb::Try => Command::Try { txn, node, mode },
    }
}

/// The command that removes a node.
pub(crate) fn of_removal<'a>(verb: RemovalVerb, txn: TxnId, node: NodeId) -> Command<'a>
    ensures { result ≡ of_removal verb txn node }
{
    match verb {
        RemovalVerb::Delete => Command::Delete { txn, rec: node },
        RemovalVerb::Drop => Command::Drop { txn, node },
    }
}

/// The request with a number: a savepoint, or the age of the transaction that began the work.
pub(crate) fn of_number<'a>(verb: NumberVerb, txn: TxnId, number: u64) -> Request<'a>
    ensures { result ≡ of_number verb txn number }
{
    match verb {
        NumberVerb::Release => Request::Release(txn, number),
        NumberVerb::Renew => Request::Apply(Command::Renew { txn, since: number }),
    }
}

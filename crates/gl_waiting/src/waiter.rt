//! What a waiter requested, and how its wait ends.

ghost use Rattle.std.specs.Prelude.{◌≡◌};
ghost use Rattle.gl_waiting.specs.Waiters.{
  closing,
  goes_on,
  goes_on_with,
  granted_to,
  has_more,
  is_granted_so,
  next_of,
  next_of_row_path,
  node_in,
  outcome_of,
  place_of,
  txn_by,
  until_in,
  waiter_in,
};

use crate::keys::RowKeys;
use gl_modes::{Mode, NodeId, Refusal};
use gl_rows::Row;
use gl_table::TxnId;
use gl_wakes::{Grant, Stop};

/// What a waiter requested.
#[derive(Clone, Copy, PartialEq, Eq, Debug)]
pub enum Request {
    /// A mode on a node, with what must be held above it held already.
    Node { node: NodeId, mode: Mode },
    /// A mode on a node, with what must be held above it.
    Path { node: NodeId, mode: Mode },
    /// A mode on a row that has these keys, with what must be held above it held already.
    Row { row: Row, keys: RowKeys, mode: Mode },
    /// A mode on a row that has these keys, with what must be held above it.
    RowPath { row: Row, keys: RowKeys, mode: Mode },
}

impl Request {
    /// The node that it requests; a request for a row names none.
    pub fn node(&self) -> NodeId
        ensures { result ≡ node_in self.now }
    {
        match self {
            Request::Node { node, .. } | Request::Path { node, .. } => *node,
            Request::Row { .. } | Request::RowPath { .. } => NodeId::NONE,
        }
    }
}

/// A transaction that waits, for one request.
#[derive(Clone, Copy, PartialEq, Eq, Debug)]
pub struct Waiter {
    pub txn: TxnId,
    pub request: Request,
    /// Whether its lock is for an instant: released as it is granted.
    pub instant: bool,
    /// The node for which it waits now: that of the request, or one above it.
    pub at: NodeId,
    /// The mode in which it wants that node.
    pub wanted: Mode,
    /// When its wait ends at the latest, by the caller's clock, in nanoseconds.
    pub until: Option<u64>,
}

/// How a request ended that had to wait.
#[derive(Clone, Copy, PartialEq, Eq, Debug)]
pub enum Outcome {
    /// The node of the request is held, in this mode.
    Granted(Mode),
    /// The row of the request is held by this node, in this mode, and has the keys of the request.
    RowGranted { node: NodeId, mode: Mode },
    /// The row of the request is held by this node, in this mode, and the caller must look at its keys again.
    OtherKeys { node: NodeId, mode: Mode },
    /// The transaction was chosen as victim while it waited for this node.
    Victim(NodeId),
    /// This node, for which it waited, has other parents or keys now.
    Moved(NodeId),
    /// This node, for which it waited, is gone.
    Gone(NodeId),
    /// The request was refused, or its wait was cancelled (`NotWaiting`) or aborted (`NoSuchTxn`).
    Refused(Refusal),
    /// The file of the row is no file of rows.
    NotRows,
    /// The time of the wait for this node is over.
    TimedOut(NodeId),
}

impl Outcome {
    /// Whether the request was for a node and was granted.
    fn is_granted(&self) -> bool
        ensures { result ≡ is_granted_so self.now }
    {
        matches!(self, Outcome::Granted(_))
    }
}

/// What a request came to.
#[derive(Clone, Copy, PartialEq, Eq, Debug)]
pub enum Came {
    Ended(Outcome),
    /// It waits for this node, in this mode.
    Waits { at: NodeId, wanted: Mode },
    /// It holds this node, in this mode, and goes on with the next call: with the rest of its path, or to give back its
    /// lock for an instant.
    Holds { at: NodeId, mode: Mode },
    /// It lacks this node above its own, in this mode, and requests it with the next call.
    Lacks { at: NodeId, wanted: Mode },
}

impl Came {
    /// Whether it goes on with the next call.
    pub(crate) fn goes_on(&self) -> bool
        ensures { result ≡ goes_on self.now }
    {
        matches!(self, Came::Holds { .. } | Came::Lacks { .. })
    }
}

/// What belongs to a slot.
#[derive(Clone, Copy, PartialEq, Eq, Debug)]
pub enum Place {
    Empty,
    /// A waiter whose wait may be over.
    Waits(Waiter),
    /// A waiter that goes on with the next call: it was granted the node for which it waited, in this mode; or, if there is
    /// none, it has yet to request its node.
    GoesOn(Waiter, Option<Mode>),
}

/// What comes after a wait.
#[derive(Clone, Copy, PartialEq, Eq, Debug)]
pub enum Next {
    /// The request has ended.
    End(Outcome),
    /// The lock was for an instant: it is released, and the request has ended.
    GiveBack(Outcome),
    /// The rest of a path is to be locked, up to this node in this mode; or a node above a row, with what must be held
    /// above it.
    GoOn {
        node: NodeId,
        mode: Mode,
    },
    /// A row was granted in this mode, and its lock is to be requested again: that tells whether it has these keys.
    LockAgain {
        row: Row,
        keys: RowKeys,
        mode: Mode,
        granted: Mode,
    },
    /// A row is to be locked that has these keys.
    LockRow {
        row: Row,
        keys: RowKeys,
        mode: Mode,
    },
}

impl Waiter {
    /// What belongs to its slot after its request came to this.
    pub(crate) fn place(&self, came: Came) -> Place
        ensures { result ≡ place_of self.now came }
    {
        match came {
            Came::Ended(_) => Place::Empty,
            Came::Waits { at, wanted } => Place::Waits(self.at(at, wanted)),
            Came::Holds { at, mode } => Place::GoesOn(self.at(at, self.wanted), Some(mode)),
            Came::Lacks { at, wanted } => Place::GoesOn(self.at(at, wanted), None),
        }
    }

    /// The same waiter, which waits for this node in this mode.
    fn at(&self, at: NodeId, wanted: Mode) -> Waiter
        ensures { result ≡ record self.now { at = at; wanted = wanted } }
    {
        Waiter {
            txn: self.txn,
            request: self.request,
            instant: self.instant,
            at,
            wanted,
            until: self.until,
        }
    }

    /// What comes after its wait, by what became of that.
    pub(crate) fn next(&self, verdict: Result<Grant, Stop>) -> Next
        ensures { result ≡ next_of self.now verdict }
    {
        match (&self.request, verdict) {
            (Request::Path { node, mode }, _) if has_more(*node, self.at, verdict) => Next::GoOn {
                node: *node,
                mode: *mode,
            },
            (Request::Row { row, keys, mode }, Ok(grant)) => Next::LockAgain {
                row: *row,
                keys: *keys,
                mode: *mode,
                granted: grant.mode,
            },
            (Request::Row { .. }, Err(_)) => Next::End(outcome_of(self.at, verdict)),
            (Request::RowPath { row, keys, mode }, _) => {
                next_of_row_path(*row, *keys, *mode, self.at, verdict)
            }
            _ => closing(self.instant, outcome_of(self.at, verdict)),
        }
    }

    /// What it goes on with, if it was granted its node in this mode; else it requests that first.
    pub(crate) fn go_on(&self, granted: Option<Mode>) -> Next
        ensures { result ≡ goes_on_with self.now granted }
    {
        match granted {
            Some(mode) => self.next(self.granted(mode)),
            None => Next::GoOn {
                node: self.at,
                mode: self.wanted,
            },
        }
    }

    /// That it was granted the node for which it waited, in this mode.
    fn granted(&self, mode: Mode) -> Result<Grant, Stop>
        ensures { result ≡ granted_to self.now mode }
    {
        Ok(Grant {
            txn: self.txn,
            node: self.at,
            mode,
        })
    }
}

/// What comes after a wait for a node of a row's path, or for the row itself: the row is locked, if the node was granted
/// or has other parents or keys now.
fn next_of_row_path(
    row: Row,
    keys: RowKeys,
    mode: Mode,
    at: NodeId,
    verdict: Result<Grant, Stop>,
) -> Next
    ensures { result ≡ next_of_row_path row keys mode at verdict }
{
    match verdict {
        Ok(_) | Err(Stop::Moved) => Next::LockRow { row, keys, mode },
        Err(_) => Next::End(outcome_of(at, verdict)),
    }
}

/// What comes after a wait for a node that ended so: a lock for an instant that was granted is given back.
fn closing(instant: bool, outcome: Outcome) -> Next
    ensures { result ≡ closing instant outcome }
{
    if instant && outcome.is_granted() {
        Next::GiveBack(outcome)
    } else {
        Next::End(outcome)
    }
}

/// Whether a path to this node has more to lock after a wait for a node of it.
fn has_more(node: NodeId, at: NodeId, verdict: Result<Grant, Stop>) -> bool
    ensures { result ≡ has_more node at verdict }
{
    match verdict {
        Ok(_) => at != node,
        Err(Stop::Moved) => true,
        Err(_) => false,
    }
}

/// The end of a wait for this node, by what became of it.
pub(crate) fn outcome_of(at: NodeId, verdict: Result<Grant, Stop>) -> Outcome
    ensures { result ≡ outcome_of at verdict }
{
    match verdict {
        Ok(grant) => Outcome::Granted(grant.mode),
        Err(Stop::Victim) => Outcome::Victim(at),
        Err(Stop::Moved) => Outcome::Moved(at),
        Err(Stop::Gone) => Outcome::Gone(at),
        Err(Stop::Refused(refusal)) => Outcome::Refused(refusal),
    }
}

impl Place {
    /// The waiter, whether it waits or goes on.
    pub(crate) fn waiter(&self) -> Option<Waiter>
        ensures { result ≡ waiter_in self.now }
    {
        match self {
            Place::Waits(waiter) | Place::GoesOn(waiter, _) => Some(*waiter),
            Place::Empty => None,
        }
    }

    /// The waiter's transaction.
    pub(crate) fn txn(&self) -> Option<TxnId>
        ensures { result ≡ txn_by (waiter_in self.now) }
    {
        Some(self.waiter()?.txn)
    }

    /// When its wait ends at the latest.
    pub(crate) fn until(&self) -> Option<u64>
        ensures { result ≡ until_in self.now }
    {
        self.waiter()?.until
    }
}

//! The settings of a table, and its answers.

ghost use Rattle.std.specs.Prelude.{◌≡◌};

use crate::txn::TxnId;
use arrayvec::ArrayVec;
use gl_modes::{Mode, NodeId};
use gl_slots::SLOTS;

/// How deadlocks are detected: when a transaction begins to wait, or by a watcher that reads the
/// waits-for snapshots and settles a transaction.
#[derive(Clone, Copy, PartialEq, Eq, Debug)]
pub enum Detect {
    AtBlock,
    ByWatcher,
}

/// What a transaction may do to a node by all its locks together.
#[derive(Clone, Copy, PartialEq, Eq, Debug)]
pub enum Effect {
    None,
    S,
    X,
}

/// The outcome of a request that was not refused.
#[derive(Clone, Copy, PartialEq, Eq, Debug)]
pub enum Locked {
    /// The node is held, in this mode.
    Granted(Mode),
    /// The transaction waits.
    Waiting,
    /// The transaction was condemned to end a deadlock that its wait closed.
    Victim,
}

/// A node that a transaction holds or waits for.
#[derive(Clone, Copy, PartialEq, Eq, Debug)]
pub struct LockRow {
    pub node: NodeId,
    /// The mode in which it is held: `NL` if it is only waited for.
    pub mode: Mode,
    /// How many of its children the transaction holds.
    pub children: u32,
}

/// What a transaction is told of another's command.
#[derive(Clone, Copy, PartialEq, Eq, Debug)]
pub enum Notice {
    /// Its wait is over: it holds the node in this mode.
    Granted(NodeId, Mode),
    /// It was condemned to end a deadlock.
    Victim,
    /// The node moved, and its wait no longer meets the rule of the graph.
    Moved,
    /// The node is gone.
    Gone,
}

impl Default for Notice {
    /// The value of an unused place of a list. It is zero in every field, so that a list is filled
    /// by wide stores of zero.
    fn default() -> Self
        ensures { result ≡ Notice.Granted (record { key = 0; birth = 0 }) Mode.NL }
    {
        Notice::Granted(NodeId::NONE, Mode::NL)
    }
}

/// The notices of a command, by rising slot.
pub type Told = ArrayVec<(TxnId, Notice), SLOTS>;

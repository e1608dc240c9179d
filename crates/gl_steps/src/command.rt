//! The commands of the lock manager, and their answers.

use gl_model::{Effect, Told, TxnId};
use gl_modes::{Mode, NodeId, Refusal};

/// What an escalation did.
#[derive(Clone, Copy, PartialEq, Eq, Debug)]
pub struct Escalated {
    /// The mode in which the node is now held.
    pub mode: Mode,
    /// How many children were released, since the node's lock covers them.
    pub released: u32,
    /// How many held children were kept.
    pub kept: u32,
}

/// The answer to a command.
#[derive(Clone, Copy, PartialEq, Eq, Debug)]
pub enum Answer {
    /// The command was done.
    Done,
    /// A node was made.
    Node(NodeId),
    /// A transaction began.
    Begun(TxnId),
    /// The lock is held, in this mode.
    Granted(Mode),
    /// The transaction waits for the lock.
    Waiting,
    /// The requester was condemned to end a deadlock, and can only abort.
    Victim,
    /// An escalation was done.
    Escalated(Escalated),
    /// The queried mode.
    Mode(Mode),
    /// The queried effective mode.
    Effect(Effect),
    /// The command was refused, and nothing has changed.
    Refused(Refusal),
}

/// An answer, and the notices to others.
#[derive(Drop)]
pub struct Reply {
    pub answer: Answer,
    /// At most one notice for each transaction, by rising slot; none for the requester of a lock or
    /// the caller of a cancel.
    pub told: Told,
}

/// One command. `Group`, `Held` and `Effective` are queries, which change nothing; every other
/// command that is not refused is counted.
#[derive(Clone, Copy)]
pub enum Command<'a> {
    /// A new inner node, under 0 to 8 inner nodes.
    Inner {
        parents: &'a [NodeId],
    },
    /// A new file, under 1 to 8 inner nodes.
    File {
        parents: &'a [NodeId],
    },
    /// A new index of a file that has no records and had no row adopted, under 1 to 8 inner nodes,
    /// with rising bounds above 0 that part its intervals: at most 256, or as many as
    /// `Manager::with_limits` chose.
    Index {
        parents: &'a [NodeId],
        file: NodeId,
        bounds: &'a [u64],
    },
    /// A new transaction.
    Begin,
    /// A new transaction for work that began earlier: `since` is the age of the first transaction
    /// for it. The victim of a deadlock is the candidate with the greatest such number, of several
    /// the youngest. A number above its own age counts as that.
    BeginAgain {
        since: u64,
    },
    /// A new transaction in this slot, for work that began in another manager: its `since` is this
    /// number, also if it is above the next age. Its age is then that number too, else the next one.
    /// So managers that work as one have the same slots, and choose the same victims. Refused, in
    /// this order, with `WornOut` if `u64::MAX` was given as an age, and `TooManyTxns` if the slot
    /// is taken, or is not below the limit of transactions.
    Join {
        slot: usize,
        since: u64,
    },
    /// Request a lock, and wait if it cannot be granted at once.
    Lock {
        txn: TxnId,
        node: NodeId,
        mode: Mode,
    },
    /// Request a lock, and be refused if it cannot be granted at once.
    Try {
        txn: TxnId,
        node: NodeId,
        mode: Mode,
    },
    /// Release one node, of which no child is held.
    Unlock {
        txn: TxnId,
        node: NodeId,
    },
    /// Raise the lock of a node, and release the children that it then covers.
    Escalate {
        txn: TxnId,
        node: NodeId,
    },
    /// Cancel a wait.
    Cancel {
        txn: TxnId,
    },
    /// End, and release everything.
    Commit {
        txn: TxnId,
    },
    /// End, and begin anew in the same slot with all locks that are held: intentions alone, on nodes
    /// for which nobody waits. `since` is as in `BeginAgain`.
    Renew {
        txn: TxnId,
        since: u64,
    },
    /// End and release everything, also while waiting or condemned.
    Abort {
        txn: TxnId,
    },
    /// Condemn victims, by the choice of victims, until this transaction is on no cycle.
    Settle {
        txn: TxnId,
    },
    /// A new record of a file, with a key for each of its indexes, held in X.
    Insert {
        txn: TxnId,
        file: NodeId,
        keys: &'a [u64],
    },
    /// Delete a record.
    Delete {
        txn: TxnId,
        rec: NodeId,
    },
    /// Give a record another key for one index.
    Rekey {
        txn: TxnId,
        rec: NodeId,
        index: NodeId,
        key: u64,
    },
    /// Give an inner node, a file or an index other parents.
    Move {
        txn: TxnId,
        node: NodeId,
        parents: &'a [NodeId],
    },
    /// The group mode of a node.
    Group {
        node: NodeId,
    },
    /// The mode in which a transaction holds a node.
    Held {
        txn: TxnId,
        node: NodeId,
    },
    /// What a transaction may do to a node by all its locks together.
    Effective {
        txn: TxnId,
        node: NodeId,
    },
    /// A new record of a file, with a key for each of its indexes, which nobody holds: the node of
    /// an engine's row that is to be locked. From then on only `IndexBy` makes an index of the
    /// file.
    Adopt {
        file: NodeId,
        keys: &'a [u64],
    },
    /// Remove a record that nobody holds or waits for.
    Forget {
        rec: NodeId,
    },
    /// Drop an inner node without children, a file without records and indexes, or, if its file has
    /// no record, an index with its intervals. It must be held in X, and for an index its file too.
    Drop {
        txn: TxnId,
        node: NodeId,
    },
    /// A new index of a file, held in X. All records of the file are named, in order of birth, and
    /// for each its key for the index: each gets it, and the interval that contains it as one more
    /// parent. The file must be held in X, also each of its indexes if it has a record, and each
    /// parent of the index in IX or greater. The transaction may hold no record of the file.
    IndexBy {
        txn: TxnId,
        parents: &'a [NodeId],
        file: NodeId,
        bounds: &'a [u64],
        records: &'a [NodeId],
        keys: &'a [u64],
    },
    /// Split an interval of an index, held in X: it keeps the keys below this bound, and a new
    /// interval, held in X too, has those from it on. The records of the file get the intervals of
    /// their keys.
    Split {
        txn: TxnId,
        interval: NodeId,
        at: u64,
    },
    /// Merge an interval of an index with the next one, both held in X: it has the keys of both, and
    /// the next one is removed. The index keeps at least one interval.
    Merge {
        txn: TxnId,
        interval: NodeId,
    },
}

//! Why a call is refused.

ghost use Rattle.std.specs.Prelude.{◌≡◌};
ghost use Rattle.gl_modes.specs.Refusals.{refusal_name, refusal_number};

use crate::node::NodeId;

/// Why a call is refused. A refused call changes nothing. If several refusals apply, each call says
/// which one it answers.
#[derive(Clone, Copy, PartialEq, Eq, Debug)]
pub enum Refusal {
    /// An allocation failed.
    NoMemory,
    /// A given id names no node.
    NoSuchNode,
    /// The transaction's id names no living transaction.
    NoSuchTxn,
    /// The transaction waits for a lock.
    TxnWaiting,
    /// The transaction was chosen as a victim, and can only abort.
    TxnCondemned,
    /// No lock was requested, or on a record a mode other than `S` and `X`.
    BadMode,
    /// The rule of the graph fails at this parent.
    NeedParents { node: NodeId },
    /// The transaction does not hold the node.
    NotHeld,
    /// The transaction holds this child of the node.
    HeldChild { node: NodeId },
    /// The lock cannot be granted at once.
    WouldBlock,
    /// No further transaction may live.
    TooManyTxns,
    /// The limit of living nodes would be exceeded.
    TooManyNodes,
    /// A node of the wrong kind for its place, a parent given twice, or too few or too many parents.
    BadParents,
    /// The transaction lacks an exclusive lock that the change needs.
    NeedExclusive,
    /// The transaction waits for nothing.
    NotWaiting,
    /// The name is in use.
    NameTaken,
    /// An index cannot be made of a file with records, nor can a file with records or indexes be
    /// dropped, nor an index of a file with records.
    FileInUse,
    /// Bounds that do not strictly increase from above 0, too many bounds, or not one key for each
    /// index.
    BadKeys,
    /// A counter is used up.
    WornOut,
    /// The line is not one of the script language.
    BadLine,
    /// This new parent is the node itself or below it.
    Cycle { node: NodeId },
    /// Some transaction holds the record or waits for it.
    RecordInUse,
    /// The inner node has children.
    HasChildren,
    /// The transaction holds more than intentions, or a node for which another waits.
    NeedRelease,
}

impl Refusal {
    /// The refusal's number, from 1 to 24.
    pub fn number(self) -> u8
        ensures { result ≡ refusal_number self }
    {
        match self {
            Refusal::NoMemory => 1,
            Refusal::NoSuchNode => 2,
            Refusal::NoSuchTxn => 3,
            Refusal::TxnWaiting => 4,
            Refusal::TxnCondemned => 5,
            Refusal::BadMode => 6,
            Refusal::NeedParents { .. } => 7,
            Refusal::NotHeld => 8,
            Refusal::HeldChild { .. } => 9,
            Refusal::WouldBlock => 10,
            Refusal::TooManyTxns => 11,
            Refusal::TooManyNodes => 12,
            Refusal::BadParents => 13,
            Refusal::NeedExclusive => 14,
            Refusal::NotWaiting => 15,
            Refusal::NameTaken => 16,
            Refusal::FileInUse => 17,
            Refusal::BadKeys => 18,
            Refusal::WornOut => 19,
            Refusal::BadLine => 20,
            Refusal::Cycle { .. } => 21,
            Refusal::RecordInUse => 22,
            Refusal::HasChildren => 23,
            Refusal::NeedRelease => 24,
        }
    }

    /// The refusal's name, as scripts print it.
    pub fn name(self) -> &'static str
        ensures { result.now ≡ refusal_name self }
    {
        match self {
            Refusal::NoMemory => "NoMemory",
            Refusal::NoSuchNode => "NoSuchNode",
            Refusal::NoSuchTxn => "NoSuchTxn",
            Refusal::TxnWaiting => "TxnWaiting",
            Refusal::TxnCondemned => "TxnCondemned",
            Refusal::BadMode => "BadMode",
            Refusal::NeedParents { .. } => "NeedParents",
            Refusal::NotHeld => "NotHeld",
            Refusal::HeldChild { .. } => "HeldChild",
            Refusal::WouldBlock => "WouldBlock",
            Refusal::TooManyTxns => "TooManyTxns",
            Refusal::TooManyNodes => "TooManyNodes",
            Refusal::BadParents => "BadParents",
            Refusal::NeedExclusive => "NeedExclusive",
            Refusal::NotWaiting => "NotWaiting",
            Refusal::NameTaken => "NameTaken",
            Refusal::FileInUse => "FileInUse",
            Refusal::BadKeys => "BadKeys",
            Refusal::WornOut => "WornOut",
            Refusal::BadLine => "BadLine",
            Refusal::Cycle { .. } => "Cycle",
            Refusal::RecordInUse => "RecordInUse",
            Refusal::HasChildren => "HasChildren",
            Refusal::NeedRelease => "NeedRelease",
        }
    }
}

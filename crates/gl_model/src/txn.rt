//! Transactions: their names and their statuses.

use gl_modes::{Mode, NodeId};
use gl_slots::Slot;

/// A transaction's name: its slot, and its age, which is above the ages of all that began before it.
/// No two transactions have one age, so the name of one that has ended names nothing.
#[derive(Clone, Copy, PartialEq, Eq, Hash, Debug, Default)]
pub struct TxnId {
    pub slot: Slot,
    pub age: u64,
}

impl TxnId {
    /// Names no transaction: ages begin at 1.
    pub const NONE: TxnId = TxnId { slot: 0, age: 0 };
}

/// The status of a living transaction.
#[derive(Clone, Copy, PartialEq, Eq, Debug)]
pub enum Status {
    /// It may request locks.
    Active,
    /// It waits on a node for a mode.
    Waiting { node: NodeId, wanted: Mode },
    /// It was chosen as victim, and can only abort.
    Condemned,
}

//! The outcomes of a session's lock.

use gl_model::TxnId;
use gl_modes::{Mode, NodeId, Refusal};

/// A lock that is held.
#[derive(Clone, Copy, PartialEq, Eq, Debug)]
pub struct Grant {
    pub txn: TxnId,
    pub node: NodeId,
    pub mode: Mode,
}

/// Why a lock was not granted.
#[derive(Clone, Copy, PartialEq, Eq, Debug)]
pub enum Stop {
    Refused(Refusal),
    Victim,
    Moved,
    Gone,
}

//! A deadlock: who waits for whom on a cycle.

ghost use Rattle.std.specs.Prelude.{◌≡◌};
ghost use Rattle.gl_slots.specs.Slots.{no_slots};
ghost use Rattle.gl_model.specs.Deadlocks.{no_deadlock};

use crate::txn::TxnId;
use arrayvec::ArrayVec;
use gl_modes::{Mode, NodeId};
use gl_slots::{SLOTS, Slots};

/// A transaction that waits on a cycle.
#[derive(Clone, Copy, PartialEq, Eq, Debug)]
pub struct Stuck {
    pub txn: TxnId,
    /// The node that it waits for.
    pub node: NodeId,
    /// The mode in which it wants that node.
    pub wanted: Mode,
    /// The slots on the cycle for which it waits.
    pub waits_for: Slots,
}

impl Default for Stuck {
    /// The value of an unused place of a cycle. It is zero in every field, so that a cycle is
    /// filled by wide stores of zero.
    fn default() -> Self
        ensures { result ≡ record { txn = record { slot = 0; age = 0 }; node = record { key = 0; birth = 0 }; wanted = Mode.NL; waits_for = no_slots } }
    {
        Stuck {
            txn: TxnId::NONE,
            node: NodeId::NONE,
            wanted: Mode::NL,
            waits_for: Slots::empty(),
        }
    }
}

/// A deadlock, as it was when its victim was condemned.
#[derive(Clone, PartialEq, Eq, Debug, Drop)]
pub struct Deadlock {
    /// The transaction that was condemned to end it.
    pub victim: TxnId,
    /// Each transaction on a cycle with the one that was settled, the victim among them, by rising
    /// slot.
    pub cycle: ArrayVec<Stuck, SLOTS>,
}

impl Deadlock {
    /// What is recorded before the first victim: no victim, and nobody on a cycle.
    pub fn none() -> Self
        ensures { result ≡ no_deadlock }
    {
        Deadlock {
            victim: TxnId::NONE,
            cycle: ArrayVec::new(),
        }
    }
}

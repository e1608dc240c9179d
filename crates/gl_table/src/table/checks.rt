//! The tests that calls make before they change anything, each with its refusal.

ghost use Rattle.std.specs.Prelude.{◌≡◌, ◌∷◌, []};
ghost use Rattle.gl_graph.specs.Refusals.{first_refusal, verdict};
ghost use Rattle.gl_model.specs.Calls.{commit_tests, held_child, no_node, no_txn, not_held};
ghost use Rattle.gl_table.specs.Table.{state_of};

use super::Table;
use gl_model::TxnId;
use gl_modes::{NodeId, Refusal};

impl Table {
    /// Whether the name is of a living transaction.
    pub(super) fn check_txn(&self, t: TxnId) -> Result<(), Refusal>
        ensures { result ≡ verdict (no_txn (state_of self.now) t) }
    {
        match self.status(t) {
            Some(_) => Ok(()),
            None => Err(Refusal::NoSuchTxn),
        }
    }

    /// Whether the name is of a living transaction that neither waits nor is condemned. Refused
    /// with `NoSuchTxn`, `TxnWaiting` and `TxnCondemned`.
    #[inline]
    pub fn check_active(&self, t: TxnId) -> Result<(), Refusal>
        ensures { result ≡ verdict (first_refusal (commit_tests (state_of self.now) t)) }
    {
        self.locks.ledger.check_active(t)
    }

    /// Whether the node lives.
    pub(super) fn check_node(&self, n: NodeId) -> Result<(), Refusal>
        ensures { result ≡ verdict (no_node (state_of self.now) n) }
    {
        match self.locks.graph.kind(n) {
            Some(_) => Ok(()),
            None => Err(Refusal::NoSuchNode),
        }
    }

    /// Whether the transaction holds the node, and no child of it.
    pub(super) fn check_childless(&self, t: TxnId, n: NodeId) -> Result<(), Refusal>
        ensures { result ≡ verdict (first_refusal (not_held (state_of self.now) t.slot n ∷ held_child (state_of self.now) t.slot n ∷ [])) }
    {
        match self.locks.children(t.slot, n) {
            None => Err(Refusal::NotHeld),
            Some(0) => Ok(()),
            Some(_) => match self.locks.first_child(t.slot, n) {
                Some(node) => Err(Refusal::HeldChild { node }),
                None => Ok(()),
            },
        }
    }
}

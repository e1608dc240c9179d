//! The tests that the manager makes before it changes anything, each with its refusal.

ghost use Rattle.std.specs.Prelude.{◌≡◌, true};
ghost use Rattle.gl_graph.specs.Graph.{is_live};
ghost use Rattle.gl_graph.specs.Refusals.{first_refusal, verdict};
ghost use Rattle.gl_model.specs.Calls.{commit_tests, first_not_ix};
ghost use Rattle.gl_model.specs.State.{lives};
ghost use Rattle.gl_catalog.specs.Adopting.{worn_twice};
ghost use Rattle.gl_catalog.specs.Manager.{state_of};
ghost use Rattle.gl_steps.specs.Tests.{worn};

use super::Manager;
use gl_modes::{Mode, NodeId, Refusal};
use gl_table::TxnId;

impl Manager {
    /// Whether one more command can be counted.
    pub(super) fn check_count(&self) -> Result<(), Refusal>
        ensures { result ≡ verdict (worn (state_of self.now)) }
    {
        if self.accepted == u64::MAX {
            Err(Refusal::WornOut)
        } else {
            Ok(())
        }
    }

    /// Whether two more commands can be counted.
    pub(super) fn check_count_twice(&self) -> Result<(), Refusal>
        ensures { result ≡ verdict (worn_twice (state_of self.now)) }
    {
        if self.accepted > u64::MAX - 2 {
            Err(Refusal::WornOut)
        } else {
            Ok(())
        }
    }

    /// Whether the name is of a living transaction that neither waits nor is condemned.
    pub(super) fn check_active(&self, t: TxnId) -> Result<(), Refusal>
        ensures { result ≡ verdict (first_refusal (commit_tests (state_of self.now) t)) }
    {
        self.table.check_active(t)
    }

    /// Whether the node lives.
    pub(super) fn lives(&self, n: NodeId) -> bool
        ensures { result ≡ is_live (state_of self.now).graph n }
    {
        self.table.graph().kind(n).is_some()
    }

    /// The mode in which a living transaction holds a node.
    pub(super) fn mode(&self, t: TxnId, n: NodeId) -> Mode
        requires txn { lives (state_of self.now) t ≡ true }
        ensures { result ≡ (state_of self.now).held t.slot n }
    {
        match self.table.mode(t, n) {
            Some(mode) => mode,
            None => unreachable!(),
        }
    }

    /// Whether a living transaction holds each of these in IX or greater; refuses with the first
    /// that it does not.
    pub(super) fn check_writable(&self, t: TxnId, nodes: &[NodeId]) -> Result<(), Refusal>
        requires txn { lives (state_of self.now) t ≡ true }
        ensures { result ≡ verdict (first_not_ix ((state_of self.now).held t.slot) nodes.now) }
    {
        self.table.check_writable(t, nodes)
    }
}

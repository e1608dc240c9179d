//! The tests of a request, before anything changes.

ghost use Rattle.std.specs.Prelude.{◌≡◌, ◌&&◌, ◌||◌, IfErr, IfOk, None, OnOk, Option, Some, not};
ghost use Rattle.gl_modes.specs.declared.mode.Mode.TheVariants.{NL, S, X};
ghost use Rattle.gl_modes.specs.Modes.{same_mode};
ghost use Rattle.gl_graph.specs.Graph.{Graph as AGraph, parents_of};
ghost use Rattle.gl_graph.specs.Refusals.{first_refusal, verdict};
ghost use Rattle.gl_graph.specs.Shapes.{Shape, is_record_shape, kind_in};
ghost use Rattle.gl_graph.specs.View.{graph_of};
ghost use Rattle.gl_table.specs.inside.Ledger.{AreExact, state_in, state_on};
ghost use Rattle.gl_table.specs.inside.Slots.{held_by};
ghost use Rattle.gl_model.specs.Calls.{commit_tests, lock_tests};

use crate::ledger::Ledger;
use crate::rule::check_rule;
use gl_graph::{Graph, Kind};
use gl_model::{Status, TxnId};
use gl_modes::{Mode, NodeId, Refusal, sup};
use gl_slots::Slot;

impl Ledger {
    /// Whether the name is of a living transaction that neither waits nor is condemned.
    #[inline]
    pub(crate) fn check_active(&self, t: TxnId) -> Result<(), Refusal>
        ensures { (g : AGraph) → result ≡ verdict (first_refusal (commit_tests (state_on g self.now) t)) }
    {
        match self.txn_entry(t.slot) {
            Some(txn_entry) if txn_entry.age == t.age => match txn_entry.status {
                Status::Active => Ok(()),
                Status::Waiting { .. } => Err(Refusal::TxnWaiting),
                Status::Condemned => Err(Refusal::TxnCondemned),
            },
            _ => Err(Refusal::NoSuchTxn),
        }
    }

    /// The tests of a request, whether it waits or not. Answers the mode in which the node is held,
    /// and its parents, so that the request looks up neither.
    #[inline(always)]
    pub(crate) fn check_ask<'a>(
        &self,
        graph: &'a Graph,
        t: TxnId,
        node: NodeId,
        mode: Mode,
    ) -> Result<(Mode, &'a [NodeId]), Refusal>
        requires exact { AreExact graph.now self.now }
        ensures refused { IfErr result (λ refusal. first_refusal (lock_tests (state_in graph.now self.now) t node mode) ≡ Some refusal) }
        ensures passed { OnOk result (first_refusal (lock_tests (state_in graph.now self.now) t node mode) ≡ None) }
        ensures held { IfOk result (λ x. x.0 ≡ held_by self.now.lists.items t.slot node) }
        ensures parents { IfOk result (λ x. x.1.now ≡ parents_of (graph_of graph.now) node) }
    {
        self.check_active(t)?;
        let Some((kind, parents)) = graph.kind_and_parents(node) else {
            return Err(Refusal::NoSuchNode);
        };
        if is_bad_mode(kind, mode) {
            return Err(Refusal::BadMode);
        }
        let held = self.mode(t.slot, node);
        let list = &self.lists[t.slot as usize];
        check_rule(list, parents, sup(held, mode))?;
        Ok((held, parents))
    }
}

/// Whether the mode is none, or one that a node of this kind cannot have: a record has `S` and `X`.
fn is_bad_mode(kind: Kind, mode: Mode) -> bool
    ensures { (shape : Option Shape) → Some kind ≡ kind_in shape
        → result ≡ (same_mode mode NL || (is_record_shape shape && not (same_mode mode S || same_mode mode X))) }
{
    match mode {
        Mode::NL => true,
        Mode::S | Mode::X => false,
        _ => matches!(kind, Kind::Rec),
    }
}
